//! The keys that a DS set trusts, and the signatures that count.
#![tactic(auto)]

pub mod check_run;
mod digests;
pub mod key_index;
pub mod keys;
pub mod order;
pub mod trust;

pub use answer_terms::owner;
