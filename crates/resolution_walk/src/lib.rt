//! The walk from a trust anchor down to a name, as a function of evidence: messages of zones and
//! checked signatures. It opens no socket and keeps no state: it returns a secure or insecure
//! result, or the messages and signatures that it wants (RFC 4035, 5).
#![tactic(auto)]

pub mod ending;
pub mod evidence;
mod hops;
pub mod laws;
mod names_between;
mod place;
mod query;
pub mod walk;

pub use crate::ending::{Ending, Walk, Wanted};
pub use crate::evidence::{Evidence, Message};
pub use crate::place::case_of;
pub use crate::walk::{Limits, resolve};
pub use evidence_laws::{Ask, CheckedSignature, Counts, DataList, Refusal, Validity, Verdict};
