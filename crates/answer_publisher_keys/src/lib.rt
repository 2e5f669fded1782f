//! A key set whose references are bound to DNSKEYs for good, and what of it is published.
#![tactic(auto)]

pub mod fault;
pub mod keys;
pub mod laws;
