//! Why a zone has no chain.

use names_wire::builder::ShortBuf;
use std::alloc::{AllocError, AllocFailed};
use thiserror::Error;

/// Why a zone has no chain.
#[derive(Clone, Copy, Debug, PartialEq, Eq, Drop, Error)]
pub enum SigningError {
    /// Not exactly one SOA record stands at the apex, or its fields aren't known.
    #[error("not exactly one SOA record at the apex")]
    NoSingleSoa,
    /// Records of one RRset have different TTLs (RFC 2181, 5.2).
    #[error("records of one RRset have unequal TTLs")]
    MultipleTtlValues,
    /// A name was not hashed.
    #[error("a name was not hashed")]
    HashFailed,
    /// A hash doesn't fit in a label, or its owner name is too long.
    #[error("a hash is too long")]
    HashTooLong,
    /// Two names have one hash.
    #[error("two names have one hash")]
    HashCollision,
    #[error("out of memory")]
    Memory,
}

impl From<AllocError> for SigningError {
    ghost use Rattle.std.specs.Prelude.{◌≡◌};
    ghost use Rattle.denial_chain_owners.specs.declared.error.SigningError.TheVariants.{Memory};

    ghost from_gives = { λ _ e. e ≡ Memory };

    fn from(_error: AllocError) -> SigningError {
        SigningError::Memory
    }
}

impl<T: Drop> From<AllocFailed<T>> for SigningError {
    ghost use Rattle.std.specs.Prelude.{◌≡◌};
    ghost use Rattle.denial_chain_owners.specs.declared.error.SigningError.TheVariants.{Memory};

    ghost from_gives = { λ _ e. e ≡ Memory };

    fn from(_error: AllocFailed<T>) -> SigningError {
        SigningError::Memory
    }
}

/// Lack of room in octets that grow is lack of memory.
impl From<ShortBuf> for SigningError {
    ghost use Rattle.std.specs.Prelude.{◌≡◌};
    ghost use Rattle.denial_chain_owners.specs.declared.error.SigningError.TheVariants.{Memory};

    ghost from_gives = { λ _ e. e ≡ Memory };

    fn from(_error: ShortBuf) -> SigningError {
        SigningError::Memory
    }
}
