//! Master files (RFC 1035, 5) to the lines of a session's zone.
#![tactic(auto)]

mod checks;
mod entries;
mod fault;
mod lines;
pub mod zone_file;
