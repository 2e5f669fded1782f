//! Octets behind their number in one octet, as salts and hashes stand in record data (RFC 5155,
//! 3.2).

ghost use Rattle.std.specs.Prelude.{◌≡◌, ◌≤◌, ◌++◌, length, take, IfOk, OnOk, OnErr};
ghost use Rattle.names_wire.specs.Room.{LeavesRoom};
ghost use Rattle.names_rdata.specs.Reading.{ReadsPart};
ghost use Rattle.denial_fields.specs.Counted.{counted, counted_part};

use names_parser::error::ParseError;
use names_parser::parser::Parser;
use names_rdata::composer::or_undone;
use names_rdata::reading::parse_array;
use names_wire::builder::{OctetsBuilder, ShortBuf};

/// Reads octets behind their number. A refused call leaves the parser where it was.
pub fn parse_counted<'a>(parser: &mut Parser<'a>) -> Result<&'a [u8], ParseError>
    ensures read { ReadsPart counted_part (λ s. counted s.now) parser.old parser.new result }
    ensures few { IfOk result (λ s. length s.now ≤ 255) }
    ensures unchanged { OnErr result (parser.new ≡ parser.old) }
{
    let (_octets, start) = (parser.as_slice(), parser.pos());
    let [len] = parse_array::<1>(parser)?;
    match parser.parse_octets(usize::from(len)) {
        Ok(octets) => Ok(octets),
        Err(error) => {
            parser.seek(start)?;
            Err(error)
        }
    }
}

/// Appends at most 255 octets behind their number. A refused call leaves the target as it was.
pub fn compose_counted<B: OctetsBuilder>(octets: &[u8], target: &mut B) -> Result<(), ShortBuf>
    requires { length octets.now ≤ 255 }
    ensures ok { OnOk result (B.bytes target.new ≡ B.bytes target.old ++ counted octets.now) }
    ensures err { OnErr result (B.bytes target.new ≡ B.bytes target.old) }
    ensures full { OnErr result (B.lacks_room target.old (length (counted octets.now))) }
    ensures left { let n = length (counted octets.now) in
        OnOk result (LeavesRoom B.lacks_room target.old target.new n) }
{
    let len = target.as_slice().len();
    let done = append_counted(octets, target);
    or_undone(target, len, done)
}

/// Appends at most 255 octets behind their number. A refused call leaves the octets for which there
/// was room.
fn append_counted<B: OctetsBuilder>(octets: &[u8], target: &mut B) -> Result<(), ShortBuf>
    requires { length octets.now ≤ 255 }
    ensures ok { OnOk result (B.bytes target.new ≡ B.bytes target.old ++ counted octets.now) }
    ensures err { let old = B.bytes target.old in
        OnErr result (take (length old) (B.bytes target.new) ≡ old) }
    ensures full { OnErr result (B.lacks_room target.old (length (counted octets.now))) }
    ensures left { let n = length (counted octets.now) in
        OnOk result (LeavesRoom B.lacks_room target.old target.new n) }
{
    target.append_slice(&[octets.len() as u8])?;
    target.append_slice(octets)
}
