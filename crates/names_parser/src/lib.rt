//! Octets of messages, read from front to back, and numbers in wire form.
#![tactic(auto)]

pub mod compose;
pub mod error;
pub mod parse;
pub mod parser;
pub mod serial;
