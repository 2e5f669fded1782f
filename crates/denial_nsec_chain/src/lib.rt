//! The NSEC records of a zone (RFC 4034, 4).
#![tactic(auto)]

pub mod config;
pub mod generate;
mod records;
