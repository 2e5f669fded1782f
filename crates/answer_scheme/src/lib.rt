//! What signs, verifies and digests for a publisher and a judge, and how a judge's checks are
//! counted.
#![tactic(auto)]

pub mod checks;
pub mod counting;
pub mod error;
pub mod scheme;
pub mod steps;

pub use crate::checks::Checks;
pub use crate::error::SchemeError;
pub use crate::scheme::Scheme;
