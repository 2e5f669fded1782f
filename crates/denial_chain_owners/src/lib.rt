//! The owners of a zone that have records of its denial chain, and the types that those records
//! list (RFC 4034, 4; RFC 5155, 7.1).
#![tactic(auto)]

pub mod conditions;
pub mod error;
pub mod kept;
pub mod owners;
pub mod soa;
mod ttls;
pub mod types;
