//! Data of the links of a zone's chain: NSEC, NSEC3 and NSEC3PARAM (RFC 4034, 4; RFC 5155).
#![tactic(auto)]

mod display;
pub mod nsec;
pub mod nsec3;
pub mod nsec3param;
mod reading;
