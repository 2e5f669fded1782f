//! Laws about zones with CNAME and DNAME records: they can be served, they lead elsewhere exactly
//! if a name is an alias, and their own answers decide all other names, and the aliases.
#![tactic(auto)]

pub mod laws;
