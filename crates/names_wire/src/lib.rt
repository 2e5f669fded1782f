//! Octets whoever keeps them, and the labels of domain names: in wire form, as text and compared.
#![tactic(auto)]

pub mod builder;
pub mod display;
pub mod label;
pub mod label_mut;
pub mod labels;
pub mod laws;
pub mod octets;
pub mod order;
pub mod owned;
pub mod owned_order;
pub mod symbol;
