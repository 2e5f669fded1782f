//! Why octets are no relative name.

use names_wire::label::{LabelTypeError, SplitLabelError};
use thiserror::Error;

/// Why octets are not the labels of a relative name.
#[derive(Clone, Copy, Debug, PartialEq, Eq, Error)]
pub enum RelativeNameError {
    /// A first octet of a kind that begins no label.
    #[error("{0}")]
    BadLabel(LabelTypeError),
    /// A pointer, which only a message can hold.
    #[error("compressed domain name")]
    CompressedName,
    /// More than 254 octets.
    #[error("long domain name")]
    LongName,
    /// The root's label.
    #[error("absolute domain name")]
    AbsoluteName,
    /// The octets end inside a label.
    #[error("unexpected end of input")]
    ShortInput,
}

impl From<SplitLabelError> for RelativeNameError {
    ghost use Rattle.std.specs.Prelude.{◌≡◌};
    ghost use Rattle.names_labels.specs.RefusedRelative.{of_split};

    ghost from_gives = { λ e n. n ≡ of_split e };

    fn from(error: SplitLabelError) -> RelativeNameError {
        match error {
            SplitLabelError::Pointer(_) => RelativeNameError::CompressedName,
            SplitLabelError::BadType(kind) => RelativeNameError::BadLabel(kind),
            SplitLabelError::ShortInput => RelativeNameError::ShortInput,
        }
    }
}

impl From<LabelTypeError> for RelativeNameError {
    ghost use Rattle.std.specs.Prelude.{◌≡◌};
    ghost use Rattle.names_labels.specs.declared.relative_error.RelativeNameError.TheVariants.{BadLabel};

    ghost from_gives = { λ e n. n ≡ BadLabel e };

    fn from(kind: LabelTypeError) -> RelativeNameError {
        RelativeNameError::BadLabel(kind)
    }
}
