//! Why a publisher refuses.
pub use answer_publisher_keys::fault::KeyFault;
use answer_scheme::error::SchemeError;
pub use answer_zone::records::fault::ZoneFault;
use denial_nsec3_hash::hasher::HashError;
use std::alloc::AllocError;
use thiserror::Error;

/// Why a question is not answered.
#[derive(Clone, Copy, Debug, PartialEq, Eq, Drop, Error)]
pub enum AnswerFault {
    /// The name is not at or below the apex, the class is not IN, or the type is not answered.
    #[error("question is not allowed")]
    QuestionNotAllowed,
    /// The hasher failed on a name.
    #[error("a name was not hashed")]
    HashFailed,
    /// The scheme failed to sign.
    #[error("nothing was signed")]
    SignFailed,
    /// The message would be longer than 65,535 octets.
    #[error("message is too long")]
    TooLong,
    #[error("out of memory")]
    Memory,
}

/// Why a zone's records are not replaced.
#[derive(Clone, Copy, Debug, PartialEq, Eq, Drop, Error)]
pub enum ReplaceFault {
    /// An answer was given in the second of the replacement, or in a later one.
    #[error("an answer was given in this second, or in a later one")]
    TooSoon,
    /// The records make no zone.
    #[error("{0}")]
    Zone(ZoneFault),
}

impl From<ZoneFault> for ReplaceFault {
    ghost use Rattle.std.specs.Prelude.{◌≡◌};
    ghost use Rattle.answer_publisher.specs.declared.fault.ReplaceFault.TheVariants.{Zone};

    ghost from_gives = { λ fault e. e ≡ Zone fault };

    fn from(fault: ZoneFault) -> ReplaceFault {
        ReplaceFault::Zone(fault)
    }
}

impl From<AllocError> for AnswerFault {
    ghost use Rattle.std.specs.Prelude.{◌≡◌};
    ghost use Rattle.answer_publisher.specs.declared.fault.AnswerFault.TheVariants.{Memory};

    ghost from_gives = { λ _ e. e ≡ Memory };

    fn from(_error: AllocError) -> AnswerFault {
        AnswerFault::Memory
    }
}

impl From<SchemeError> for AnswerFault {
    ghost use Rattle.std.specs.Prelude.{◌≡◌};
    ghost use Rattle.answer_publisher.specs.AnswerFaults.{fault_of};

    ghost from_gives = { λ error fault. fault ≡ fault_of error };

    fn from(error: SchemeError) -> AnswerFault {
        match error {
            SchemeError::Failed => AnswerFault::SignFailed,
            SchemeError::Memory => AnswerFault::Memory,
        }
    }
}

impl From<HashError> for AnswerFault {
    ghost use Rattle.std.specs.Prelude.{◌≡◌};
    ghost use Rattle.answer_publisher.specs.AnswerFaults.{fault_of_hash};

    ghost from_gives = { λ error fault. fault ≡ fault_of_hash error };

    fn from(error: HashError) -> AnswerFault {
        match error {
            HashError::Failed => AnswerFault::HashFailed,
            HashError::Memory => AnswerFault::Memory,
        }
    }
}
