//! A tree of two zones, and evidence of it.
#![tactic(auto)]

pub mod evidence;
