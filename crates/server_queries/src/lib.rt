//! What a client asks of a name server, and how the server answers where the header, the question
//! or the OPT record alone decide (RFC 1035, 4.1; RFC 6891).
#![tactic(auto)]

pub mod edns;
pub mod header;
pub mod query;
mod question;
pub mod rcode;
pub mod reply;

pub use edns::Edns;
pub use header::RequestHeader;
pub use query::{ErrorReply, Query, Refusal, read_query};
pub use rcode::Rcode;
pub use reply::{push_reply_header, write_refusal};
