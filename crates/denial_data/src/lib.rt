//! DNSSEC record data (RFC 4034, RFC 5155): signatures, and the data of the crates below, with
//! their fields.
#![tactic(auto)]

pub mod laws;
mod orders;
pub mod proto_rrsig;
pub mod rrsig;

pub use denial_bitmap::bitmap::RtypeBitmap;
pub use denial_bitmap::builder::RtypeBitmapBuilder;
pub use denial_bitmap::error::RtypeBitmapError;
pub use denial_bitmap::iter::RtypeBitmapIter;
pub use denial_fields::error::{
    IllegalSignatureTime, Nsec3SaltError, Nsec3SaltFromStrError, OwnerHashError,
    OwnerHashFromStrError,
};
pub use denial_fields::hash::OwnerHash;
pub use denial_fields::salt::Nsec3Salt;
pub use denial_fields::timestamp::Timestamp;
pub use denial_keys::dnskey::Dnskey;
pub use denial_keys::ds::Ds;
pub use denial_nsec_data::nsec::Nsec;
pub use denial_nsec_data::nsec3::Nsec3;
pub use denial_nsec_data::nsec3param::Nsec3param;
pub use proto_rrsig::ProtoRrsig;
pub use rrsig::Rrsig;
