//! Why a builder refuses to grow.

ghost use Rattle.std.specs.Prelude.{◌≡◌};

use names_wire::builder::ShortBuf;
use thiserror::Error;

/// Why octets were not added to a label.
#[derive(Clone, Copy, Debug, PartialEq, Eq, Error)]
pub enum PushError {
    /// The label would have more than 63 octets.
    #[error("long label")]
    LongLabel,
    /// The name would have more than 254 octets.
    #[error("long domain name")]
    LongName,
    /// The buffer is full, or memory ran out.
    #[error("buffer too short")]
    ShortBuf,
}

impl From<ShortBuf> for PushError {
    ghost use Rattle.names_builder.specs.declared.push_error.PushError.TheVariants.{ShortBuf};

    ghost from_gives = { λ _ e. e ≡ ShortBuf };

    fn from(_: ShortBuf) -> PushError {
        PushError::ShortBuf
    }
}

/// Why a name was not added.
#[derive(Clone, Copy, Debug, PartialEq, Eq, Error)]
pub enum PushNameError {
    /// The name would be too long: past 254 octets, or past 255 with the root's.
    #[error("long domain name")]
    LongName,
    /// The buffer is full, or memory ran out.
    #[error("buffer too short")]
    ShortBuf,
}

impl From<ShortBuf> for PushNameError {
    ghost use Rattle.names_builder.specs.declared.push_error.PushNameError.TheVariants.{ShortBuf};

    ghost from_gives = { λ _ e. e ≡ ShortBuf };

    fn from(_: ShortBuf) -> PushNameError {
        PushNameError::ShortBuf
    }
}
