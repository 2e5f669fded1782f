//! base32hex: that of the crate `numbers`.

pub use numbers::base32hex::{DecodeError, append, decode, digits, encode};
