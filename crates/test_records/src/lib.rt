//! Lines of records, and of zones with their denial chains, answered, so that the output is compared
//! with the standards and with what name servers and tools made.
#![tactic(auto)]

pub mod chain_lines;
pub mod record_lines;
