//! The response of an authoritative name server of one zone to a request, from bytes to bytes (RFC
//! 1035, 4.1; RFC 4035, 3.1; RFC 6891).
#![tactic(auto)]

mod aliased;
mod blank;
mod listed;
mod message;
pub mod moment;
mod parameters;
pub mod requests;
mod server;
mod subset;
mod synthesized;

pub use crate::moment::{DEFAULT_BACKDATE, backdated};
pub use crate::requests::{Request, Response, ServerTerms, respond};
pub use server_signatures::{MadeSignature, SigningInput};
