//! The lines of a session, read as a zone, its records and the events that follow.
#![tactic(auto)]

pub mod event_lines;
mod fields;
pub mod form;
pub mod line_error;
pub mod lines;
mod number_fields;
mod reading;
pub mod session;
pub mod zone;
pub mod zone_lines;
