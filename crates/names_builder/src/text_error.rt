//! Why a text is no name.

ghost use Rattle.std.specs.Prelude.{◌≡◌};

use crate::push_error::{PushError, PushNameError};
use names_wire::builder::ShortBuf;
use names_wire::symbol::SymbolCharsError;
use thiserror::Error;

/// What is wrong with a text.
#[derive(Clone, Copy, Debug, PartialEq, Eq, Error)]
enum Fault {
    #[error("{0}")]
    Symbol(SymbolCharsError),
    #[error("a binary label was encountered")]
    BinaryLabel,
    #[error("label length limit exceeded")]
    LongLabel,
    #[error("empty label")]
    EmptyLabel,
    #[error("long domain name")]
    LongName,
}

/// A text spells no name.
#[derive(Clone, Copy, Debug, PartialEq, Eq, Error)]
#[error("{0}")]
pub struct PresentationError(Fault);

impl PresentationError {
    ghost use Rattle.names_builder.specs.Fault.{named};
    ghost use Rattle.names_builder.specs.declared.text_error.Fault.TheVariants.{BinaryLabel};
    ghost use Rattle.names_builder.specs.declared.text_error.Fault.TheVariants.{EmptyLabel};

    /// A label that begins as a binary one.
    pub(crate) fn binary_label() -> PresentationError
        ensures { named result ≡ BinaryLabel }
    {
        PresentationError(Fault::BinaryLabel)
    }

    /// A label without octets.
    pub(crate) fn empty_label() -> PresentationError
        ensures { named result ≡ EmptyLabel }
    {
        PresentationError(Fault::EmptyLabel)
    }
}

/// Why no name was read from a text.
#[derive(Clone, Copy, Debug, PartialEq, Eq, Error)]
pub enum FromStrError {
    /// The text spells no name.
    #[error("{0}")]
    Presentation(PresentationError),
    /// The buffer is full, or memory ran out.
    #[error("buffer too short")]
    ShortBuf,
}

impl From<PresentationError> for FromStrError {
    ghost use Rattle.names_builder.specs.declared.text_error.FromStrError.TheVariants.{Presentation};

    ghost from_gives = { λ p e. e ≡ Presentation p };

    fn from(error: PresentationError) -> FromStrError {
        FromStrError::Presentation(error)
    }
}

impl From<SymbolCharsError> for FromStrError {
    ghost use Rattle.std.specs.Prelude.{true, Some};
    ghost use Rattle.names_builder.specs.FromText.{is_text};
    ghost use Rattle.names_builder.specs.Fault.{fault_of};
    ghost use Rattle.names_builder.specs.declared.text_error.Fault.TheVariants.{Symbol as BadText};

    ghost from_gives = { λ p e. (is_text e ≡ true) × (fault_of e ≡ Some (BadText p)) };

    fn from(error: SymbolCharsError) -> FromStrError {
        FromStrError::Presentation(PresentationError(Fault::Symbol(error)))
    }
}

impl From<ShortBuf> for FromStrError {
    ghost use Rattle.names_builder.specs.declared.text_error.FromStrError.TheVariants.{ShortBuf};

    ghost from_gives = { λ _ e. e ≡ ShortBuf };

    fn from(_: ShortBuf) -> FromStrError {
        FromStrError::ShortBuf
    }
}

impl From<PushError> for FromStrError {
    ghost use Rattle.names_builder.specs.FromText.{is_text, is_pushed_text};
    ghost use Rattle.names_builder.specs.Fault.{fault_of, pushed_fault};

    ghost from_gives = { λ p e. (is_text e ≡ is_pushed_text p) × (fault_of e ≡ pushed_fault p) };

    fn from(error: PushError) -> FromStrError {
        match error {
            PushError::LongLabel => PresentationError(Fault::LongLabel).into(),
            PushError::LongName => PresentationError(Fault::LongName).into(),
            PushError::ShortBuf => FromStrError::ShortBuf,
        }
    }
}

impl From<PushNameError> for FromStrError {
    ghost use Rattle.names_builder.specs.FromText.{is_text, is_long_name};

    ghost from_gives = { λ p e. is_text e ≡ is_long_name p };

    fn from(error: PushNameError) -> FromStrError {
        match error {
            PushNameError::LongName => PresentationError(Fault::LongName).into(),
            PushNameError::ShortBuf => FromStrError::ShortBuf,
        }
    }
}

/// Why no relative name was read from a text.
#[derive(Clone, Copy, Debug, PartialEq, Eq, Error)]
pub enum RelativeFromStrError {
    /// The text spells no name, or there is no room for it.
    #[error("{0}")]
    FromStr(FromStrError),
    /// The text ends with a dot, and so spells an absolute name.
    #[error("absolute domain name")]
    AbsoluteName,
}

impl From<FromStrError> for RelativeFromStrError {
    ghost use Rattle.names_builder.specs.declared.text_error.RelativeFromStrError.TheVariants.{FromStr};

    ghost from_gives = { λ e r. r ≡ FromStr e };

    fn from(error: FromStrError) -> RelativeFromStrError {
        RelativeFromStrError::FromStr(error)
    }
}
