//! Laws about the life of a zone's keys: whatever is not retired fits together. A zone publishes DS
//! sets, DNSKEY answers and answers; a report retires what it replaces once its TTL has passed.
#![tactic(auto)]

pub mod laws;
