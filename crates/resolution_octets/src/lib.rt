//! Walking from bytes to bytes, for callers in other languages: evidence, a question, and the
//! reply.
#![tactic(auto)]

mod cuts;
pub mod laws;
pub mod octets;
mod received;
mod sent;
mod walk_reply;
mod working;

pub use crate::octets::{OctetEvidence, resolve_octets};
