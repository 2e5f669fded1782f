//! A signed zone with a journal: it is opened from text, accepts lines, and reports what is due
//! next. A journal is a session, so its state is that of the session.
#![tactic(auto)]

pub mod laws;
pub mod line;
mod lines;
mod moments;
pub mod open_zone;
pub mod opening;
pub mod refusals;
mod ttls;

pub use crate::open_zone::{Applied, Zone};
pub use crate::opening::Opened;
pub use crate::refusals::{OpenError, Refusal};
pub use keyset_due::Due;
