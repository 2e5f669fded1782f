//! Why a line is not read.
ghost use Rattle.std.specs.Prelude.{◌≡◌};
ghost use Rattle.session_grammar.specs.declared.line_error.LineFault.TheVariants.{At};

use crate::form::{Field, Form};
use names_flat::text_error::PresentationError;
use std::alloc::{AllocError, AllocFailed};
use thiserror::Error;

/// Why a line is not read.
#[derive(Clone, Copy, Debug, PartialEq, Eq, Drop, Error)]
pub enum LineError {
    /// The line is none that a session has at this point.
    #[error("{0}")]
    Unreadable(LineFault),
    #[error("out of memory")]
    Memory,
}

/// What keeps a line from being read.
#[derive(Clone, Copy, Debug, PartialEq, Eq, Drop, Error)]
pub enum LineFault {
    #[error("it is no text in UTF-8")]
    NotText,
    /// The input has no line that counts.
    #[error("the input ends without a line of a zone")]
    NoZone,
    /// The first line that counts is none of a zone.
    #[error("the first line is that of a zone")]
    NotZone,
    /// A line of a zone behind the first line that counts.
    #[error("such a line is the first of a session")]
    Late,
    #[error("no line begins with this word")]
    Word,
    /// Another number of fields than such a line has.
    #[error("other fields than such a line has, one blank apart: {0}")]
    Fields(Form),
    #[error("{0}: {1}")]
    At(Field, FieldFault),
}

/// Why a field cannot be read.
#[derive(Clone, Copy, Debug, PartialEq, Eq, Drop, Error)]
pub enum FieldFault {
    #[error("no decimal number of {0} bits")]
    Number(u8),
    #[error("no name: {0}")]
    Name(PresentationError),
    #[error("neither nsec nor nsec3 nor nsec3optout")]
    Mode,
    #[error("more than 2147483647 seconds")]
    Life,
    #[error("empty; `-` stands for no octets")]
    Empty,
    #[error("more octets than {0}")]
    TooLong(usize),
    #[error("an odd number of hexadecimal digits")]
    OddDigits,
    #[error("other characters than hexadecimal digits")]
    Digits,
    #[error("no base64 with its padding")]
    Base64,
    #[error("neither ksk nor zsk nor csk nor include")]
    Kind,
    #[error("no name of a roll")]
    Roll,
    #[error("no reference: it is empty or `-`, or has a comma")]
    Reference,
    #[error("not one name in wire form, without pointers")]
    NsData,
    #[error("not two names in wire form, without pointers, and twenty octets")]
    SoaData,
}

impl Field {
    /// What is said of this field.
    pub(crate) fn fault(self, fault: FieldFault) -> LineError
        ensures { result ≡ LineError.Unreadable (At self fault) }
    {
        LineError::Unreadable(LineFault::At(self, fault))
    }
}

impl From<AllocError> for LineError {
    ghost use Rattle.std.specs.Prelude.{◌≡◌};
    ghost use Rattle.session_grammar.specs.declared.line_error.LineError.TheVariants.{Memory};

    ghost from_gives = { λ _ e. e ≡ Memory };

    fn from(_error: AllocError) -> LineError {
        LineError::Memory
    }
}

impl<T: Drop> From<AllocFailed<T>> for LineError {
    ghost use Rattle.std.specs.Prelude.{◌≡◌};
    ghost use Rattle.session_grammar.specs.declared.line_error.LineError.TheVariants.{Memory};

    ghost from_gives = { λ _ e. e ≡ Memory };

    fn from(_error: AllocFailed<T>) -> LineError {
        LineError::Memory
    }
}
