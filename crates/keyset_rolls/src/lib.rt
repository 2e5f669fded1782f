//! The six rolls: what each does to a key, and which actions it requires (RFC 6781, 4.1). The crate
//! `keyset` exports these items too.
#![tactic(auto)]

pub mod rolls;
pub mod table;

pub use rolls::{Action, RollState, RollType, Turn};
