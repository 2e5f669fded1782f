//! Labels in a row: whether octets spell them, labels by place, orders, their text, and what they
//! feed a hasher. The types of names are built on these.
#![tactic(auto)]

pub mod check;
pub mod feed;
pub mod flat;
pub mod iter;
pub mod laws;
pub mod name_error;
pub mod order;
pub mod relative_error;
pub mod text;
pub mod traits;
