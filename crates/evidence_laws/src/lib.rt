//! Evidence about a name: a trust anchor and messages of zones, and where these lead (RFC 4035, 5).
//! It is proved that this is what the tree of zones says. No message is judged here.
#![tactic(auto)]

pub mod laws;

pub use resolution_step::{
    Ask, Case, CheckedSignature, Counts, DataList, JudgedStep, Lead, Refusal, Step, Validity,
    Verdict, cut_step, least_of, step,
};
