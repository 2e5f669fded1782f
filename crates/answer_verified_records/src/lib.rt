//! The verified records of an answer, by their index in the message (RFC 4035, 5.3).
#![tactic(auto)]

mod answer;
mod keys;
pub mod laws;
mod listed;
pub mod number;
pub mod records;

pub use crate::number::RecordNumber;
pub use crate::records::{records_beside_verdict, verified_records};
