//! Messages in canonical form: read, and rewritten with all names in full. Names in data are in
//! lower case where signatures are made over lower case (RFC 4034, 6.2; RFC 6840, 5.1; RFC 3597,
//! 7).
#![tactic(auto)]

pub mod data;
pub mod error;
pub mod form;
pub mod laws;
pub mod message;
mod names;
pub mod records;
mod standing;
mod walk;

pub use crate::data::is_canonical_data;
pub use crate::error::CanonicalError;
pub use crate::message::{canonical_cow, canonical_message};
pub use crate::records::{are_records_in_form, is_record_in_form};
pub use crate::standing::is_data_in_form;
