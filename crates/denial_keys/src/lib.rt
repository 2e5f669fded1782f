//! Data of keys and of digests of keys: DNSKEY and DS (RFC 4034, 2 and 5).
#![tactic(auto)]

pub mod dnskey;
pub mod ds;
mod key_tag;
