//! What any two names have in common, however they are kept: over octets of their own or in
//! messages: comparing, copying, printing with the last dot; and names in chains.
#![tactic(auto)]

pub mod chain;
pub mod display;
pub mod flatten;
mod parsed;
pub mod to_name;
pub mod to_relative;
