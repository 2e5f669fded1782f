//! The judge: from a DS set, a DNSKEY answer and a zone answer, as bytes, to a verdict. `case` has
//! what it takes, `verdict` what it returns; `specs/Judging` and `specs/Judged` define the result.
#![tactic(auto)]

pub mod case;
pub mod judging;
pub mod laws;
pub mod verdict;

pub use crate::case::Case;
pub use crate::judging::by_scheme::judge_with;
pub use crate::judging::judge;
pub use crate::verdict::{DataList, Judgement, Refusal, Refused, Validity, Verdict};
pub use answer_scheme::{Checks, Scheme, SchemeError};
pub use messages::question::Question;
pub use messages::{MessageError, MessageView, ViewRecord, read_message};
