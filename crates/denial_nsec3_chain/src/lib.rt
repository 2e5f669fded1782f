//! The NSEC3 records of a zone (RFC 5155, 7.1).
#![tactic(auto)]

pub mod generate;
mod links;
pub mod owner_name;
mod types;
