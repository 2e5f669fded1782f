//! The records of a zone: which lists are accepted, their denial chain, searches in both, and
//! RRsets for an answer.
#![tactic(auto)]

pub mod alias_faults;
pub mod chain;
pub mod chains;
pub mod copies;
pub mod fault;
pub mod faults;
pub mod group;
pub mod hash_chain;
pub mod kept;
pub mod near;
pub mod octets;
pub mod owned;
mod places;
mod record_faults;
