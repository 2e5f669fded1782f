//! What is due next in each running roll, and from which second its next wait is accepted.
#![tactic(auto)]

pub mod dues;

pub use crate::dues::{Due, due_of};
