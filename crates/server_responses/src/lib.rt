//! Turns a publisher's message into the response to a query (RFC 1035, 4.1; RFC 4035, 3.1; RFC
//! 6891).
#![tactic(auto)]

pub mod composing;
pub mod links;
mod records;
pub mod redirects;
pub mod transport;
mod write;

pub use crate::composing::{ResponseError, error_response, is_dnssec_ok, response};
pub use crate::links::is_link_hidden;
pub use crate::redirects::redirect_response;
pub use crate::transport::{ResponseSizes, Transport, size_limit};
