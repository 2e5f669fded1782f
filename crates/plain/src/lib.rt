//! Records: owner, class, TTL, and data of SOA, NS and other types.
#![tactic(auto)]

pub mod base32hex;
pub mod laws;
pub mod ns;
pub mod record;
pub mod soa;
pub mod zone_data;
pub mod zone_order;

pub use names_rdata::rtype::Rtype;
pub use numbers::algorithm::{DigestAlgorithm, SecurityAlgorithm};
pub use numbers::class::Class;
pub use numbers::ttl::Ttl;
