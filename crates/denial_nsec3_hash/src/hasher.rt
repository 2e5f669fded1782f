//! What hashes names for NSEC3 (RFC 5155, 5).

ghost use Rattle.std.specs.Prelude.{◌≡◌, ℕ, List, Option, Some, None, IfOk, IsErrOf};

use names_wire::builder::ShortBuf;
use std::alloc::{AllocError, Global};
use thiserror::Error;

/// Why a name was not hashed.
#[derive(Clone, Copy, Debug, PartialEq, Eq, Error)]
pub enum HashError {
    /// The hasher does not know the algorithm, or failed.
    #[error("name was not hashed")]
    Failed,
    #[error("out of memory")]
    Memory,
}

impl From<AllocError> for HashError {
    ghost use Rattle.std.specs.Prelude.{◌≡◌};
    ghost use Rattle.denial_nsec3_hash.specs.declared.hasher.HashError.TheVariants.{Memory};

    ghost from_gives = { λ _ e. e ≡ Memory };

    fn from(_error: AllocError) -> HashError {
        HashError::Memory
    }
}

/// Lack of room in octets that grow is lack of memory.
impl From<ShortBuf> for HashError {
    ghost use Rattle.std.specs.Prelude.{◌≡◌};
    ghost use Rattle.denial_nsec3_hash.specs.declared.hasher.HashError.TheVariants.{Memory};

    ghost from_gives = { λ _ e. e ≡ Memory };

    fn from(_error: ShortBuf) -> HashError {
        HashError::Memory
    }
}

/// Hashes names. The answer is a function of the arguments, memory aside.
pub trait Nsec3Hasher {
    /// The answer for a name in lower-case wire form, an algorithm, iterations and a salt; `None`
    /// for a failure.
    ghost hash_of: { Self → List ℕ → ℕ → ℕ → List ℕ → Option (List ℕ) };

    fn hash(
        &self,
        alloc: Global,
        lower_wire_name: &[u8],
        algorithm: u8,
        iterations: u16,
        salt: &[u8],
    ) -> Result<Vec<u8>, HashError>
        ensures answer { IfOk result (λ h.
            hash_of self.now lower_wire_name.now algorithm iterations salt.now ≡ Some h.items) }
        ensures failed { IsErrOf result HashError.Failed →
            hash_of self.now lower_wire_name.now algorithm iterations salt.now ≡ None };
}
