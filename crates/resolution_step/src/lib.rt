//! One step of a walk: what a message of a zone proves about a question, or about a delegation (RFC
//! 4035, 5).
#![tactic(auto)]

mod canonical;
mod cuts;
pub mod judged_step;
mod known;
pub mod laws;
pub mod steps;
mod work;

pub use crate::cuts::cut_step;
pub use crate::judged_step::{Counts, JudgedStep, Step, least_of};
pub use crate::steps::step;
pub use answer_findings::{
    Ask, Case, CheckedSignature, DataList, Lead, Refusal, Validity, Verdict,
};
