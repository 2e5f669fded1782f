//! Names over flat octets: absolute and relative ones, their parts and their text. Their builder
//! stands below, in `names_builder`; what any two names have in common, however they are kept,
//! above, in `names_traits`.
#![tactic(auto)]

pub mod builder;
pub mod display;
mod from_text;
pub mod laws;
pub mod name;
pub mod name_order;
mod parts;
pub mod relative;
mod relative_order;
mod reverse;
pub mod strip;
pub mod suffixes;

pub use names_builder::{push_error, text_error};
pub use names_labels::{iter, name_error, relative_error, text, traits};
