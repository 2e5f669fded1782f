//! Why reading a message stops (RFC 1035, 4).
ghost use Rattle.std.specs.Prelude.{◌≡◌};

use names_parser::error::ParseError;
use thiserror::Error;

/// Why bytes are not a message with one question, at the first place where reading stops.
#[derive(Clone, Copy, Debug, PartialEq, Eq, Drop, Error)]
pub enum MessageError {
    /// The octets end before the message does.
    #[error("message is too short")]
    ShortInput,
    /// A name is malformed.
    #[error("message has a malformed name")]
    Form,
    /// The header does not count one question.
    #[error("message has not one question")]
    NotOneQuestion,
}

impl From<ParseError> for MessageError {
    ghost use Rattle.messages.specs.View.{message_error};

    ghost from_gives = { λ fault error. error ≡ message_error fault };

    fn from(fault: ParseError) -> MessageError {
        match fault {
            ParseError::ShortInput => MessageError::ShortInput,
            ParseError::Form(_) => MessageError::Form,
        }
    }
}
