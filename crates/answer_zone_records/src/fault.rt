//! Why a zone is not accepted.
use denial_chain_owners::error::SigningError;
use denial_fields::salt::Nsec3Salt;
use thiserror::Error;

/// Why a zone is not accepted. Each is sought in the whole list before the next.
#[derive(Clone, Copy, Debug, PartialEq, Eq, Drop, Error)]
pub enum ZoneFault {
    /// A record's class is not IN.
    #[error("a record is not of class IN")]
    WrongClass,
    /// An owner is not at or below the apex.
    #[error("an owner is outside the apex")]
    OutsideApex,
    /// A record is of a type that signing adds.
    #[error("a record is of a type that signing adds")]
    SignedType,
    /// A record is an alias; in a zone with aliases, it is out of order (RFC 1034, 3.6.2; RFC
    /// 6672).
    #[error("an alias stands where none may")]
    Alias,
    /// A record is of a type that no zone holds, or its type's data are given as unknown ones.
    #[error("a record is of a type that no zone holds")]
    MetaType,
    /// A delegation stands at a wildcard name (RFC 4592, 4.2).
    #[error("a delegation stands at a wildcard name")]
    StarNs,
    /// The chain's iterations are over the limit (RFC 5155, 10.3).
    #[error("iterations are over the limit")]
    IterationsOverLimit,
    /// The chain cannot be made.
    #[error("no chain: {0}")]
    Chain(SigningError),
    #[error("out of memory")]
    Memory,
}
