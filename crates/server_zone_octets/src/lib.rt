//! A served zone from bytes to bytes, for callers in other languages: it is opened from its
//! journal, accepts lines, reports what is due, and answers requests with signatures that its
//! caller makes.
#![tactic(auto)]

mod code;
mod due;
mod entries;
mod facts;
mod lines;
mod master;
mod parts;
mod records;
mod report;
mod request;
mod text;
mod told;

pub use crate::code::ZoneCode;
pub use crate::due::{OctetDue, due_octets};
pub use crate::facts::{OctetFacts, facts_octets};
pub use crate::lines::{apply_octets, open_octets};
pub use crate::master::{OctetMaster, master_octets};
pub use crate::records::records_octets;
pub use crate::report::ZoneReport;
pub use crate::request::{OctetRequest, respond_octets};
