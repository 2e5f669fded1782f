//! What a judge returns for the responses of a name server.
#![tactic(auto)]

pub mod laws;
