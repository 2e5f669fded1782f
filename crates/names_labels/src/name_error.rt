//! Why octets are no name.

use names_wire::label::{LabelTypeError, SplitLabelError};
use thiserror::Error;

/// Why octets are not the wire form of an absolute name.
#[derive(Clone, Copy, Debug, PartialEq, Eq, Error)]
pub enum NameError {
    /// A first octet of a kind that begins no label.
    #[error("{0}")]
    BadLabel(LabelTypeError),
    /// A pointer, which only a message can hold.
    #[error("compressed domain name")]
    CompressedName,
    /// More than 255 octets.
    #[error("long domain name")]
    LongName,
    /// The root's octet is missing.
    #[error("relative domain name")]
    RelativeName,
    /// Octets behind the root's.
    #[error("trailing data")]
    TrailingData,
    /// The octets end inside a label, or there are none.
    #[error("unexpected end of input")]
    ShortInput,
}

impl From<SplitLabelError> for NameError {
    ghost use Rattle.std.specs.Prelude.{◌≡◌};
    ghost use Rattle.names_labels.specs.Refused.{of_split};

    ghost from_gives = { λ e n. n ≡ of_split e };

    fn from(error: SplitLabelError) -> NameError {
        match error {
            SplitLabelError::Pointer(_) => NameError::CompressedName,
            SplitLabelError::BadType(kind) => NameError::BadLabel(kind),
            SplitLabelError::ShortInput => NameError::ShortInput,
        }
    }
}

impl From<LabelTypeError> for NameError {
    ghost use Rattle.std.specs.Prelude.{◌≡◌};
    ghost use Rattle.names_labels.specs.declared.name_error.NameError.TheVariants.{BadLabel};

    ghost from_gives = { λ e n. n ≡ BadLabel e };

    fn from(kind: LabelTypeError) -> NameError {
        NameError::BadLabel(kind)
    }
}
