//! Why a call on a key set is refused.

use std::alloc::{AllocError, AllocFailed};
use std::fmt;
use std::time::Duration;

/// Why a call on a key set is refused. A refused call changes nothing.
#[derive(Debug, Drop)]
pub enum Error {
    /// A key of this reference exists.
    KeyExists,
    /// No key of this reference exists.
    KeyNotFound,
    /// The key isn't stale.
    KeyNotOld,
    /// Another key has this tag.
    DuplicateKeyTag,
    /// The roll doesn't touch keys of this kind.
    WrongKeyType,
    /// A new key has been in use, or is listed twice.
    WrongKeyState,
    /// After the roll's start no key would serve in one of the roles.
    NoSuitableKeyPresent,
    /// The roll isn't in the phase of the call.
    WrongStateForRollOperation,
    /// A roll is running that conflicts with this one.
    ConflictingRollInProgress,
    /// The algorithms of the new keys differ from those of the old ones.
    AlgorithmSetsMismatch,
    /// This much time has to pass first.
    Wait(Duration),
    /// No roll has this name.
    UnknownRollType,
    /// A key lacks the stamp from which a wait counts.
    MissingTimestamp,
    /// Memory ran out.
    Memory,
}

impl From<AllocError> for Error {
    ghost use Rattle.std.specs.Prelude.{◌≡◌};
    ghost use Rattle.keyset_keys.specs.declared.errors.Error.TheVariants.{Memory};

    ghost from_gives = { λ _ e. e ≡ Memory };

    fn from(_error: AllocError) -> Error {
        Error::Memory
    }
}

impl<T: Drop> From<AllocFailed<T>> for Error {
    ghost use Rattle.std.specs.Prelude.{◌≡◌};
    ghost use Rattle.keyset_keys.specs.declared.errors.Error.TheVariants.{Memory};

    ghost from_gives = { λ _ e. e ≡ Memory };

    fn from(_error: AllocFailed<T>) -> Error {
        Error::Memory
    }
}

impl fmt::Display for Error {
    ghost use Rattle.std.specs.Prelude.{Some};
    ghost use Rattle.keyset_keys.specs.KeyTexts.{error_text};

    ghost output = { λ e. Some (error_text e) };

    fn fmt<W: fmt::Write>(&self, f: &mut fmt::Formatter<W>) -> fmt::Result {
        match self {
            Error::KeyExists => write!(f, "key already exists"),
            Error::KeyNotFound => write!(f, "key not found"),
            Error::KeyNotOld => write!(f, "key is still in use, not old"),
            Error::DuplicateKeyTag => write!(f, "Key tag already present"),
            Error::WrongKeyType => write!(f, "key has the wrong type"),
            Error::WrongKeyState => write!(f, "key is in the wrong state"),
            Error::NoSuitableKeyPresent => write!(f, "no suitable key present after key roll"),
            Error::WrongStateForRollOperation => write!(f, "wrong roll state for operation"),
            Error::ConflictingRollInProgress => write!(f, "conflicting roll is in progress"),
            Error::AlgorithmSetsMismatch => {
                write!(f, "algorithm set mismatch for non-algorithm key roll")
            }
            Error::Wait(rest) => {
                let seconds = rest.as_secs();
                let nanos = rest.subsec_nanos();
                write!(f, "wait for duration {seconds}.{nanos:09}s")
            }
            Error::UnknownRollType => write!(f, "unable to parse string as roll type"),
            Error::MissingTimestamp => write!(f, "timestamp is missing"),
            Error::Memory => write!(f, "out of memory"),
        }
    }
}
