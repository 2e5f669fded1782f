//! What the bench and its explanations share: stand-ins for signatures and digests, and the text of
//! outcomes.
#![tactic(auto)]

pub mod named;
pub mod print;
pub mod scheme;
