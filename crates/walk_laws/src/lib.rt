//! Laws about a caller that repeats a walk, each time with what the last call wanted.
#![tactic(auto)]

pub mod laws;
