//! What a key of a zone is: its roles with their flags, its stamps, and why a call on a set of keys
//! is refused. The crate `keyset`, which gives these items under its own name, has the set and the
//! calls on it.
#![tactic(auto)]

pub mod errors;
pub mod keys;

pub use denial_fields::unix_time::UnixTime;
pub use errors::Error;
pub use keys::{Available, Key, KeyState, KeyTimestamps, KeyType};
