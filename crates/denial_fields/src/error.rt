//! What is wrong with times, salts and hashes.

use hex::FromHexError;
use numbers::base32hex::DecodeError;
use thiserror::Error;

/// Text is no number of 32 bits in decimal.
#[derive(Clone, Copy, Debug, PartialEq, Eq, Error)]
#[error("illegal signature time")]
pub struct IllegalSignatureTime;

/// A salt would have more than 255 octets.
#[derive(Clone, Copy, Debug, PartialEq, Eq, Error)]
#[error("NSEC3 salt too long")]
pub struct Nsec3SaltError;

/// A hash would have more than 255 octets.
#[derive(Clone, Copy, Debug, PartialEq, Eq, Error)]
#[error("NSEC3 owner hash too long")]
pub struct OwnerHashError;

/// Why text is no salt.
#[derive(Clone, Copy, Debug, PartialEq, Eq, Error)]
pub enum Nsec3SaltFromStrError {
    /// The text is neither hexadecimal nor `-`.
    #[error("{0}")]
    DecodeError(FromHexError),
    /// The text spells too many octets.
    #[error("{0}")]
    Nsec3SaltError(Nsec3SaltError),
    /// Memory ran out.
    #[error("out of memory")]
    Memory,
}

/// Why text is no hash.
#[derive(Clone, Copy, Debug, PartialEq, Eq, Error)]
pub enum OwnerHashFromStrError {
    /// The text is not base32hex.
    #[error("{0}")]
    DecodeError(DecodeError),
    /// The text spells too many octets.
    #[error("{0}")]
    OwnerHashError(OwnerHashError),
    /// Memory ran out.
    #[error("out of memory")]
    Memory,
}
