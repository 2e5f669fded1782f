//! The events of a signed zone: key calls, recorded answers, judgements. The lines of a session
//! spell them, and a simulation runs them.
#![tactic(auto)]

pub mod event;
pub mod key_kind;

pub use keyset;
pub use messages as message;
pub use messages::{question, record};
pub use names;
