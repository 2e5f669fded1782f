//! Passing over names without reading what their pointers lead to.

ghost use Rattle.std.specs.Prelude.{◌≡◌, ◌≤◌, ℕ, MatchResult, IfErr, length};
ghost use Rattle.names_parsed.specs.Heads.{fault_of};
ghost use Rattle.names_parsed.specs.Passing.{CanPass, Stuck};

use names_parser::error::ParseError;
use names_wire::label::{LabelTypeError, SplitLabelError};
use names_wire::labels::label_at;

/// The place behind a name, up to its root octet or its first pointer, which is not followed.
pub(crate) fn skip_from(message: &[u8], start: usize) -> Result<usize, ParseError>
    requires { start ≤ length message.now }
    ensures ends { MatchResult result (CanPass message.now start)
        (λ _. (b : ℕ) → CanPass message.now start b → ⊥) }
    ensures fault { IfErr result (λ e. Stuck message.now start 255 (fault_of e)) }
{
    let (mut place, mut room) = (start, 255usize);
    loop {
        let (label, rest) = match label_at(message, place) {
            Ok(found) => found,
            Err(SplitLabelError::Pointer(_)) => return Ok(place + 2),
            Err(SplitLabelError::ShortInput) => return Err(ParseError::ShortInput),
            Err(SplitLabelError::BadType(_)) => {
                return Err(ParseError::form_error("invalid label type"));
            }
        };
        if label.is_root() {
            return Ok(place + 1);
        }
        if room < label.len() + 2 {
            return Err(ParseError::form_error("long domain name"));
        }
        room -= label.len() + 1;
        place = message.len() - rest.len();
    }
}
