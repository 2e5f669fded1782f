//! Why a call on the keys of a zone is refused.
use keyset;
use std::alloc::{AllocError, AllocFailed};
use thiserror::Error;

/// Why a call on the keys of a zone is refused. A refused call changes nothing.
#[derive(Debug, Drop, Error)]
pub enum KeyFault {
    /// The reference was bound to another key by an earlier add.
    #[error("reference is bound to another key")]
    ReferenceBound,
    /// The scheme made no digest of the key.
    #[error("key was not digested")]
    DigestFailed,
    /// The key set refuses.
    #[error("{0}")]
    Key(keyset::Error),
    /// Memory ran out.
    #[error("out of memory")]
    Memory,
}

impl From<AllocError> for KeyFault {
    ghost use Rattle.std.specs.Prelude.{◌≡◌};
    ghost use Rattle.answer_publisher_keys.specs.declared.fault.KeyFault.TheVariants.{Memory};

    ghost from_gives = { λ _ e. e ≡ Memory };

    fn from(_error: AllocError) -> KeyFault {
        KeyFault::Memory
    }
}

impl<T: Drop> From<AllocFailed<T>> for KeyFault {
    ghost use Rattle.std.specs.Prelude.{◌≡◌};
    ghost use Rattle.answer_publisher_keys.specs.declared.fault.KeyFault.TheVariants.{Memory};

    ghost from_gives = { λ _ e. e ≡ Memory };

    fn from(_error: AllocFailed<T>) -> KeyFault {
        KeyFault::Memory
    }
}

impl From<keyset::Error> for KeyFault {
    ghost use Rattle.std.specs.Prelude.{◌≡◌};
    ghost use Rattle.answer_publisher_keys.specs.KeyCalls.{fault_from};

    ghost from_gives = { λ error fault. fault ≡ fault_from error };

    fn from(error: keyset::Error) -> KeyFault {
        match error {
            keyset::Error::Memory => KeyFault::Memory,
            error => KeyFault::Key(error),
        }
    }
}
