//! DNSSEC record data, sorted records and denial chains under one name (RFC 4034, RFC 5155).
#![tactic(auto)]

pub mod config;
pub mod laws;

pub use config::DenialConfig;
pub use denial_chain_owners::conditions::{is_canonical_order, is_one_class};
pub use denial_chain_owners::error::SigningError;
pub use denial_data::{
    Dnskey, Ds, IllegalSignatureTime, Nsec, Nsec3, Nsec3Salt, Nsec3SaltError,
    Nsec3SaltFromStrError, Nsec3param, OwnerHash, OwnerHashError, OwnerHashFromStrError,
    ProtoRrsig, Rrsig, RtypeBitmap, RtypeBitmapBuilder, RtypeBitmapError, RtypeBitmapIter,
    Timestamp,
};
pub use denial_nsec_chain::config::GenerateNsecConfig;
pub use denial_nsec_chain::generate::generate_nsecs;
pub use denial_nsec3_chain::generate::generate_nsec3s;
pub use denial_nsec3_chain::owner_name::mk_hashed_nsec3_owner_name;
pub use denial_nsec3_hash::config::{GenerateNsec3Config, Nsec3ParamTtlMode};
pub use denial_nsec3_hash::hasher::{HashError, Nsec3Hasher};
pub use denial_nsec3_hash::records::Nsec3Records;
pub use denial_rrsets::groups::{MultipleTtlValues, OwnerRrs, Rrset};
pub use denial_rrsets::slices::{SliceRefs, SliceRefsOrOwned, SliceRefsOrOwnedIterator};
pub use denial_rrsets::walks::{OwnerRrsIter, RecordsIter, RrsetIter};
pub use denial_sorted::sorted::{InsertError, SortedRecords};
pub use denial_sorted::sorter::{DefaultSorter, Sorter};
