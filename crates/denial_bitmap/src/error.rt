//! Why octets are no bitmap.

ghost use Rattle.std.specs.Prelude.{◌≡◌, Some, codes};
ghost use Rattle.names_parser.specs.Errors.{form_text};

use names_parser::error::ParseError;
use thiserror::Error;

/// Octets are no bitmap. The fault is that of the first window that is malformed.
#[derive(Clone, Copy, Debug, PartialEq, Eq, Error)]
pub enum RtypeBitmapError {
    /// A window has no octets, or more than 32.
    #[error("invalid type bitmap")]
    BadRtypeBitmap,
    /// The octets end inside a window.
    #[error("short input")]
    ShortInput,
}

impl From<RtypeBitmapError> for ParseError {
    ghost use Rattle.denial_bitmap.specs.Faults.{as_parse_error};

    ghost from_gives = { as_parse_error };

    fn from(error: RtypeBitmapError) -> ParseError {
        match error {
            RtypeBitmapError::BadRtypeBitmap => ParseError::form_error("invalid type bitmap"),
            RtypeBitmapError::ShortInput => ParseError::ShortInput,
        }
    }
}
