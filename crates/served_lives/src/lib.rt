//! Laws of a served zone's life: its lines and its responses are events of a simulation, so that
//! what a simulation promises holds of a server.
#![tactic(auto)]

pub mod laws;
