//! Data of four octets and any number of others behind them (RFC 4034, 2.1 and 5.1).

ghost use Rattle.std.specs.Prelude.{◌≡◌, ◌++◌, length, take, OnOk, OnErr};
ghost use Rattle.std.specs.Int.{w16, w32, to_be_bytes};
ghost use Rattle.std.specs.Ordering.{nat_cmp};
ghost use Rattle.std.specs.Cmp.Lexicographic.{slice_cmp};
ghost use Rattle.names_wire.specs.Room.{LeavesRoom};
ghost use Rattle.names_rdata.specs.Reading.{ReadsPart, ReadsData, data_at};
ghost use Rattle.denial_fields.specs.Ended.{ended_part};

use names_parser::error::ParseError;
use names_parser::parser::Parser;
use names_rdata::composer::or_undone;
use names_rdata::long::LongRecordData;
use names_rdata::reading::{closed, parse_array, parse_rest};
use names_wire::builder::{OctetsBuilder, ShortBuf};
use std::cmp::Ordering;

/// Reads four octets and the octets up to the parser's end, at most 65,535 in all. A refused call
/// leaves the parser where it was.
pub fn parse_ended<'a>(parser: &mut Parser<'a>) -> Result<([u8; 4], &'a [u8]), ParseError>
    ensures { let found = data_at (ended_part) parser.old in
        ReadsData found (λ r. r.0 ++ r.1.now) parser.old parser.new result }
{
    let (_octets, start) = (parser.as_slice(), parser.pos());
    let found = parse_both(parser);
    closed(parser, start, found)
}

fn parse_both<'a>(parser: &mut Parser<'a>) -> Result<([u8; 4], &'a [u8]), ParseError>
    ensures { ReadsPart (ended_part) (λ r. r.0 ++ r.1.now) parser.old parser.new result }
{
    let head = parse_array::<4>(parser)?;
    let rest = parse_rest(parser)?;
    LongRecordData::check_append_len(4, rest.len())?;
    Ok((head, rest))
}

/// Appends a head of octets and the rest behind it. A refused call leaves the target as it was.
pub fn compose_ended<B: OctetsBuilder>(
    head: &[u8],
    rest: &[u8],
    target: &mut B,
) -> Result<(), ShortBuf>
    ensures ok { OnOk result (B.bytes target.new ≡ B.bytes target.old ++ (head.now ++ rest.now)) }
    ensures err { OnErr result (B.bytes target.new ≡ B.bytes target.old) }
    ensures full { OnErr result (B.lacks_room target.old (length (head.now ++ rest.now))) }
    ensures left { let n = length (head.now ++ rest.now) in
        OnOk result (LeavesRoom B.lacks_room target.old target.new n) }
{
    let len = target.as_slice().len();
    let done = append_both(head, rest, target);
    or_undone(target, len, done)
}

/// Appends a head of octets and the rest behind it. A refused call leaves the octets for which
/// there was room.
fn append_both<B: OctetsBuilder>(head: &[u8], rest: &[u8], target: &mut B) -> Result<(), ShortBuf>
    ensures ok { OnOk result (B.bytes target.new ≡ B.bytes target.old ++ (head.now ++ rest.now)) }
    ensures err { let old = B.bytes target.old in
        OnErr result (take (length old) (B.bytes target.new) ≡ old) }
    ensures full { OnErr result (B.lacks_room target.old (length (head.now ++ rest.now))) }
    ensures left { let n = length (head.now ++ rest.now) in
        OnOk result (LeavesRoom B.lacks_room target.old target.new n) }
{
    target.append_slice(head)?;
    target.append_slice(rest)
}

/// The order of two rows of octets, each a head and a rest. Both heads have the same length.
pub fn cmp_ended(head: &[u8], rest: &[u8], other_head: &[u8], other_rest: &[u8]) -> Ordering
    requires { length head.now ≡ length other_head.now }
    ensures { let octets = head.now ++ rest.now in
        result ≡ slice_cmp nat_cmp octets (other_head.now ++ other_rest.now) }
{
    head.cmp(other_head).then(rest.cmp(other_rest))
}

/// The number of two octets, the higher first.
pub fn number_16(octets: [u8; 2]) -> u16
    ensures { to_be_bytes w16 result ≡ octets }
{
    u16::from_be_bytes(octets)
}

/// The number of four octets, the highest first.
pub fn number_32(octets: [u8; 4]) -> u32
    ensures { to_be_bytes w32 result ≡ octets }
{
    u32::from_be_bytes(octets)
}
