//! Laws about the life of a signed zone: which outcomes each event may have, and what judgements
//! among the events return.
#![tactic(auto)]

pub mod laws;
