//! A zone's records in canonical order, and the RRsets of its answers.
#![tactic(auto)]

pub mod zone;

pub use answer_zone_records as records;
