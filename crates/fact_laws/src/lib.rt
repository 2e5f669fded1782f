//! Laws of facts, whichever records they were verified in.
#![tactic(auto)]

pub mod laws;
