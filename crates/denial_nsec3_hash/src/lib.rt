//! What a chain of hashed names is made with: what hashes names, the owners of its records, and how
//! it is configured (RFC 5155).
#![tactic(auto)]

pub mod config;
pub mod hasher;
pub mod owner_name;
pub mod records;
pub mod wire_form;
