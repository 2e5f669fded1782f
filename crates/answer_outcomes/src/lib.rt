//! The outcomes of events in a zone's life.
#![tactic(auto)]

pub mod outcome;
