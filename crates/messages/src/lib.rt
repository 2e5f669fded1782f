//! Messages as bytes: the names and records that stand in them, read in place and written
//! (RFC 1035, 4), the question that a message answers, and the octets that a signature is made
//! over.
#![tactic(auto)]

pub mod error;
pub mod laws;
pub mod listed;
pub mod names;
mod octets;
pub mod owner;
pub mod question;
pub mod rdata;
pub mod record;
pub mod signed;
pub mod view;
pub mod write;

pub use error::MessageError;
pub use listed::read_message_into;
pub use owner::Owner;
pub use view::{MessageView, Records, ViewRecord, read_message};
