//! Judging with a table of signatures that the caller has checked: the judge requests all
//! signatures that the table lacks at once (RFC 4035, 5).
#![tactic(auto)]

pub mod checked;
pub mod digests;
pub mod judging;
mod loan;
mod no_hasher;
pub mod outcome;
mod table_checks;

pub use crate::checked::{CheckedSignature, entry_of};
pub use crate::digests::digest;
pub use crate::judging::{asks_by_table, judge_by_table};
pub use crate::outcome::{Ask, Outcome};
pub use answer_hasher::NameHasher;
pub use answer_judge::{Case, DataList, Judgement, Refusal, Refused, Validity, Verdict};
