//! Why nothing was signed or digested.
use std::alloc::{AllocError, AllocFailed};
use thiserror::Error;

/// Why nothing was signed or digested.
#[derive(Clone, Copy, Debug, PartialEq, Eq, Drop, Error)]
pub enum SchemeError {
    /// The scheme does not know the algorithm, or failed.
    #[error("scheme failed")]
    Failed,
    #[error("out of memory")]
    Memory,
}

impl From<AllocError> for SchemeError {
    ghost use Rattle.std.specs.Prelude.{◌≡◌};
    ghost use Rattle.answer_scheme.specs.declared.error.SchemeError.TheVariants.{Memory};

    ghost from_gives = { λ _ e. e ≡ Memory };

    fn from(_error: AllocError) -> SchemeError {
        SchemeError::Memory
    }
}

impl<T: Drop> From<AllocFailed<T>> for SchemeError {
    ghost use Rattle.std.specs.Prelude.{◌≡◌};
    ghost use Rattle.answer_scheme.specs.declared.error.SchemeError.TheVariants.{Memory};

    ghost from_gives = { λ _ e. e ≡ Memory };

    fn from(_error: AllocFailed<T>) -> SchemeError {
        SchemeError::Memory
    }
}
