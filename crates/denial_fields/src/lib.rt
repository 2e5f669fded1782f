//! Fields of DNSSEC record data: moments, times of signatures, salts and hashes.
#![tactic(auto)]

pub mod counted;
pub mod digits;
pub mod ended;
pub mod error;
pub mod hash;
pub mod laws;
pub mod salt;
pub mod timestamp;
pub mod unix_time;
