//! Why a message has no canonical form.
use messages::MessageError;
use names_wire::builder::ShortBuf;
use std::alloc::AllocError;
use thiserror::Error;

/// Why a message has no canonical form.
#[derive(Clone, Copy, Debug, PartialEq, Eq, Drop, Error)]
pub enum CanonicalError {
    /// It doesn't read.
    #[error("{0}")]
    Message(MessageError),
    /// It reads, and has more than 65,535 octets once its names stand in full (RFC 1035, 4.2.2).
    #[error("message is too long in canonical form")]
    TooLong,
    #[error("out of memory")]
    Memory,
}

impl From<MessageError> for CanonicalError {
    ghost use Rattle.std.specs.Prelude.{◌≡◌};
    ghost use Rattle.messages_canonical.specs.declared.error.CanonicalError.TheVariants.{Message};

    ghost from_gives = { λ fault error. error ≡ Message fault };

    fn from(fault: MessageError) -> CanonicalError {
        CanonicalError::Message(fault)
    }
}

impl From<AllocError> for CanonicalError {
    ghost use Rattle.std.specs.Prelude.{◌≡◌};
    ghost use Rattle.messages_canonical.specs.declared.error.CanonicalError.TheVariants.{Memory};

    ghost from_gives = { λ _ error. error ≡ Memory };

    fn from(_error: AllocError) -> CanonicalError {
        CanonicalError::Memory
    }
}

impl From<ShortBuf> for CanonicalError {
    ghost use Rattle.std.specs.Prelude.{◌≡◌};
    ghost use Rattle.messages_canonical.specs.declared.error.CanonicalError.TheVariants.{Memory};

    ghost from_gives = { λ _ error. error ≡ Memory };

    fn from(_error: ShortBuf) -> CanonicalError {
        CanonicalError::Memory
    }
}
