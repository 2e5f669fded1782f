//! A publisher of one signed zone whose keys roll.
#![tactic(auto)]

pub mod compose;
pub mod fault;
pub mod publishing;
pub mod signing;
