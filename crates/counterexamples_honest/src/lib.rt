//! Messages in which nothing is forged, and for each premise messages that lack only this one. For
//! these a judge returns what the zone does not say.
#![tactic(auto)]

pub mod laws;
