//! Names read in place in a message (RFC 1035, 4.1.4).
ghost use Rattle.std.specs.Prelude.{◌≡◌, ◌<◌, ◌≤◌, length, IfOk};
ghost use Rattle.definitions.specs.Limits.{pointer_limit};
ghost use Rattle.names_parsed.specs.Parsed.{parsed_name};
ghost use Rattle.messages.specs.Message.{owner_at};
ghost use Rattle.messages.specs.View.{Gives, named};

use crate::error::MessageError;
use names_parsed::parsed::ParsedName;
use names_parser::parser::Parser;

/// The name at a place of a message, and the place behind it: behind its first pointer or its root
/// octet.
pub fn read_name(message: &[u8], start: usize) -> Result<(ParsedName<'_>, usize), MessageError>
    ensures exact { let is = owner_at pointer_limit message.now start in
        Gives (λ r. named (parsed_name r.0) r.1) result is }
    ensures inside { IfOk result (λ r. r.1 ≤ length message.now) }
    ensures before { IfOk result (λ r. start < r.1) }
{
    let mut parser = Parser::from_ref(message);
    parser.seek(start)?;
    let name = ParsedName::parse(&mut parser)?;
    Ok((name, parser.pos()))
}
