//! Laws of messages: which a judge sees alike, and what it says of those that show a zone's answer,
//! whatever else is in them.
#![tactic(auto)]

pub mod alike;
pub mod laws;
