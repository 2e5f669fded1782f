//! The extended error that explains why a judge refused (RFC 8914).
#![tactic(auto)]

mod answer;
mod delegation;
pub mod error;
pub mod refused;
pub mod times;

pub use crate::error::ExtendedError;
pub use crate::refused::extended_error;
