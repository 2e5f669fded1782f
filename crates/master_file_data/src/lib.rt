//! Data of records in the text forms of their types (RFC 1035, 5), to octets.
#![tactic(auto)]

mod addresses;
mod checks;
pub mod data;
pub mod decimals;
mod digits;
pub mod fault;
pub mod field;
mod layout;
mod location;
mod mnemonics;
mod parts;
mod service;
mod service_keys;
mod text;
pub mod type_text;
