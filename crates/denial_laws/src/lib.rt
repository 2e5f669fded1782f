//! What verified NSEC and NSEC3 records prove about a name and a type: facts, the rules, when facts
//! are true of a zone, and the laws that join these. `reference` has a plain program of the rules.
//! No message, signature or key is seen here.
#![tactic(auto)]

pub mod laws;
pub mod reference;
