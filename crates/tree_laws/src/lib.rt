//! Trees of zones, and what a tree says about a question, through delegations with DS records and
//! through aliases; or at which delegation signing ends (RFC 1034, 4.3.2; RFC 4035, 5). No message
//! and no key is seen here.
#![tactic(auto)]

pub mod laws;
