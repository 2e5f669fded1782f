//! Sets of record types, as NSEC and NSEC3 records have them (RFC 4034, 4.1.2).
#![tactic(auto)]

pub mod bitmap;
pub mod builder;
mod display;
pub mod error;
pub mod iter;
pub mod laws;
mod order;
mod window;
