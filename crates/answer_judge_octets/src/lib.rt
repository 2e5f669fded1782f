//! Judging from bytes to bytes, for callers in other languages: a case, a table of signatures that
//! the caller has checked, and the reply.
#![tactic(auto)]

pub mod crowded;
pub mod ds;
mod entries;
pub mod errors;
pub mod laws;
mod limit;
pub mod list;
pub mod octets;
pub mod parts;
mod places;
pub mod reply;
mod table_alone;

pub use crate::octets::{OctetCase, Report, judge_octets};
pub use crate::reply::ReplyCode;
pub use answer_findings::{
    AnswerOutcome, Ask, Case, CheckedSignature, Lead, Meaning, Outcome, Verdict, judge_answer,
    judge_by_table,
};
