//! Laws of a served zone's replies: the same request, with the same signatures, gets the same
//! reply.
#![tactic(auto)]

pub mod laws;
