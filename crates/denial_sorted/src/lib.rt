//! Records in canonical order, with an index of their owners.
#![tactic(auto)]

pub mod finding;
mod keys;
pub mod laws;
pub mod removal;
mod search;
pub mod sorted;
pub mod sorter;
mod starts;
