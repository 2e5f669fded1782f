//! The numbers of the domain name system, with names of their own: record types, classes, times to
//! live, algorithms; and octets as base32hex.
#![tactic(auto)]

pub mod algorithm;
pub mod base32hex;
pub mod class;
pub mod rtype;
pub mod ttl;
