//! The judge's rules: what a verified RRset and verified NSEC and NSEC3 records prove about a name
//! (RFC 4035, 5.3.4 and 5.4; RFC 5155, 8). No message, signature or key is seen here.
#![tactic(auto)]

pub mod asked;
pub mod decide;
mod expanded;
pub mod facts;
mod hash_links;
mod hashed;
mod hashing;
mod links;
mod shared;
mod types;
pub mod verdict;
