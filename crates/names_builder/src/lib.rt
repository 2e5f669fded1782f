//! Building names: labels one after another, octet by octet, or read from text; and why that is
//! refused. The names themselves stand above, in `names_flat`.
#![tactic(auto)]

pub mod builder;
pub mod laws;
pub mod push_error;
pub mod reverse;
mod text;
pub mod text_error;
pub mod walk;
pub mod whole;
