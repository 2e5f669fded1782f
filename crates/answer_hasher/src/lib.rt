//! What hashes names for a judge, lent from call to call, and how often it did.
#![tactic(auto)]

pub mod hasher;

pub use crate::hasher::NameHasher;
