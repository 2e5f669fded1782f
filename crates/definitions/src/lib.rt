//! What the contracts of this workspace cite: names, reading them out of a message, zones and what
//! they say of a name and a type, the rules and contents of denial chains, type bitmaps, key tags,
//! signed octets and serial times. The definitions stand in `specs/`, laws over them in `laws`, and
//! `reference` has plain programs that compute them. No code of the product is here.
#![tactic(auto)]

pub mod laws;
pub mod reference;
