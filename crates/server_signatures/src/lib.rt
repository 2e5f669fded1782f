//! Answers of a publisher whose keys sign elsewhere, as in a hardware module: the caller keeps the
//! signatures, and learns which are missing (RFC 4034, 3.1.8.1).
#![tactic(auto)]

pub mod answering;
pub mod digests;
pub mod made;
mod missing;
mod table;

pub use crate::answering::{
    Signed, answer_by_table, dnskey_answer_by_table, nsec3param_answer_by_table,
};
pub use crate::digests::DigestScheme;
pub use crate::made::MadeSignature;
pub use answer_publisher::signing::SigningInput;
