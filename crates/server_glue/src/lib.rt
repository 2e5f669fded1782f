//! The glue of a referral: the addresses of its name servers at or below the delegation (RFC 1034,
//! 4.3.2; RFC 9471, 3.1).
#![tactic(auto)]

mod addresses;
mod glue;

pub use crate::addresses::Addresses;
