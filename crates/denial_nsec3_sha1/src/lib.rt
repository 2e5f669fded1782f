//! The hash of names by SHA-1 (RFC 5155, 5 and 11).
#![tactic(auto)]

pub mod hasher;
