//! What an answer proves beyond a verdict: where an alias leads, the DS records of a referral, the
//! topmost delegation. Each follows from the judge's judgements of the same messages for other
//! questions.
#![tactic(auto)]

mod asked;
mod combining;
pub mod finds;
mod hints;
pub mod laws;
mod leads;
pub mod meaning;
mod side_judgements;
mod sought;
mod validity;

pub use crate::asked::first_question;
pub use crate::finds::judge_answer;
pub use crate::meaning::{AnswerOutcome, Meaning};
pub use crate::side_judgements::case_for;
pub use answer_judge_table::{
    Ask, Case, CheckedSignature, DataList, Outcome, Refusal, Validity, Verdict, digest, entry_of,
    judge_by_table,
};
pub use answer_terms::redirection::Lead;
