//! A walk over the records of a message that looks only at where their data stand: it follows no
//! pointer of the names in front of them. Where a message reads, the walk finds the records that
//! reading finds; of other messages it says nothing.
ghost use Rattle.std.specs.Prelude.{◌≡◌, ◌+◌, ◌<◌, ◌≤◌, length, IfNone, IfSome, IfOk};
ghost use Rattle.std.specs.Option.{option_map};
ghost use Rattle.messages.specs.Message.{of_octets, pair};
ghost use Rattle.messages_canonical.specs.Walking.{EndsName, FindsRecords, Passes, TellsForm};

use crate::standing::has_form;
use messages::laws::numbers_read_alike;
use names_rdata::rtype::Rtype;
use std::alloc::{AllocError, Global};

/// Where the question's name stands, behind the header (RFC 1035, 4.1.1).
const QUESTION: usize = 12;

/// Whether the data of all records of a message are in form.
pub(crate) fn is_in_form(alloc: Global, message: &[u8]) -> Result<bool, AllocError>
    ensures { IfOk result (TellsForm message.now) }
{
    let Some((first, count)) = records_place(message) else {
        return Ok(true);
    };
    let mut at = first;
    for _ in 0..count {
        let Some(data) = passed_at(message, at) else {
            return Ok(true);
        };
        if !has_form(alloc, message, data.rtype, data.start, data.limit)? {
            return Ok(false);
        }
        at = data.limit;
    }
    Ok(true)
}

/// Where the first record stands, and how many there are.
pub(crate) fn records_place(message: &[u8]) -> Option<(usize, usize)>
    ensures { FindsRecords message.now result }
{
    numbers_read_alike();
    let count = record_count(message)?;
    let end = name_end(message, QUESTION)?;
    Some((end + 4, count))
}

/// How many records a header counts in all sections (RFC 1035, 4.1.1).
fn record_count(message: &[u8]) -> Option<usize>
    ensures sum { let m = message.now in
        IfSome result (λ n. n ≡ pair m 6 + pair m 8 + pair m 10) }
    ensures there { IfSome result (λ _. 12 ≤ length message.now) }
    ensures short { IfNone result (length message.now < 12) }
{
    let [_, _, _, _, _, _, a, b, c, d, e, f, ..] = message else {
        return None;
    };
    Some(of_pair(*a, *b) + of_pair(*c, *d) + of_pair(*e, *f))
}

/// Where the data of a record stand, and their type.
#[derive(Clone, Copy)]
struct PlacedData {
    rtype: Rtype,
    start: usize,
    /// The place behind them.
    limit: usize,
    ghost ordered: { start ≤ limit },
}

/// The data of the record at a place.
fn passed_at(message: &[u8], at: usize) -> Option<PlacedData>
    ensures passes { Passes message.now at (option_map (λ d. (d.rtype, d.start, d.limit)) result) }
    ensures inside { IfSome result (λ d. d.limit ≤ length message.now) }
{
    numbers_read_alike();
    let end = name_end(message, at)?;
    let (rtype, length) = type_and_length(message, end)?;
    let start = end + 10;
    let limit = start + length;
    if limit > message.len() {
        return None;
    }
    Some(PlacedData {
        rtype: Rtype::from_int(rtype),
        start,
        limit,
    })
}

/// The type of a record and the length of its data, by the numbers behind its owner (RFC 1035,
/// 4.1.3).
fn type_and_length(message: &[u8], at: usize) -> Option<(u16, usize)>
    ensures rtype { IfSome result (λ n. n.0 ≡ pair message.now at) }
    ensures length { IfSome result (λ n. n.1 ≡ pair message.now (at + 8)) }
    ensures there { IfSome result (λ _. at + 10 ≤ length message.now) }
    ensures short { IfNone result (length message.now < at + 10) }
{
    let [a, b, _, _, _, _, _, _, c, d, ..] = message.get(at..)? else {
        return None;
    };
    Some((u16::from(*a) * 256 + u16::from(*b), of_pair(*c, *d)))
}

/// The place behind a name: behind its root octet or its first pointer.
fn name_end(message: &[u8], start: usize) -> Option<usize>
    ensures ends { EndsName message.now start result }
    ensures inside { IfSome result (λ e. e ≤ length message.now + 1) }
{
    let mut place = start;
    loop {
        let head = usize::from(*message.get(place)?);
        if head == 0 {
            return Some(place + 1);
        }
        if head >= 192 {
            return Some(place + 2);
        }
        place += head + 1;
    }
}

/// The 16-bit number of two octets (RFC 1035, 2.3.2).
pub(crate) fn of_pair(high: u8, low: u8) -> usize
    ensures { result ≡ of_octets high low }
{
    usize::from(high) * 256 + usize::from(low)
}
