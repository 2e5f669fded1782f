//! Names that stand in a message, read in place and through pointers.
#![tactic(auto)]

pub(crate) mod head;
pub mod iter;
pub mod laws;
pub mod order;
pub mod parsed;
pub(crate) mod skip;
pub mod suffixes;
pub mod text;
pub(crate) mod walk;
