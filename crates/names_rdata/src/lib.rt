//! What record data have in common: record types, how data are read and written, their canonical
//! order and longest length, octets that compare by what they are, and data of types that are not
//! known.
#![tactic(auto)]

pub mod canonical;
pub mod composer;
pub mod data;
pub mod digits;
pub mod laws;
pub mod long;
pub mod octets;
mod octets_order;
pub mod reading;
pub mod unknown;
pub mod unknown_order;

pub use numbers::rtype;
