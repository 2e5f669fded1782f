//! The names of an NSEC3 chain, each with its hash (RFC 5155, 7.1).
#![tactic(auto)]

mod buckets;
pub mod hashed;
mod labels;
pub mod names;
