//! The key set of a zone, and the rolls that replace its keys without a time at which validation
//! fails (RFC 6781, 4.1).
#![tactic(auto)]

pub mod laws;
mod listing;
mod maps;
pub mod set;
mod settings;

pub use keyset_keys::{
    Available, Error, Key, KeyState, KeyTimestamps, KeyType, UnixTime, errors, keys,
};
pub use keyset_rolls::{Action, RollState, RollType, rolls};
pub use set::KeySet;
