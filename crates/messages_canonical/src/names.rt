//! Names that stand in full, and names that are written in full, each run of their labels at once.
ghost use Rattle.std.specs.Prelude.{◌≡◌, ◌≤◌, ◌++◌, length, take, drop, slice_range, IfSome, OnOk};
ghost use Rattle.std.specs.Str.{str_to_ascii_lowercase};
ghost use Rattle.definitions.specs.Name.{low, wire};
ghost use Rattle.messages.specs.View.{NameReads, name_read};
ghost use Rattle.messages_canonical.specs.Walking.{PutsName, SpelledInFull};

use crate::walk::of_pair;
use std::alloc::AllocError;

/// How many labels a name has at most, the root's too (RFC 1035, 2.3.4).
const MOST_LABELS: usize = 128;

/// How many octets a name has at most.
const MOST_OCTETS: usize = 255;

/// How many length octets, the root's too, and pointers a name has at most.
const MOST_HEADS: usize = 383;

/// The place behind a name that stands at a place without a pointer.
pub(crate) fn end_in_full(message: &[u8], start: usize) -> Option<usize>
    ensures { IfSome result (SpelledInFull message.now start) }
{
    let mut place = start;
    for _ in 0..MOST_LABELS {
        let head = usize::from(*message.get(place)?);
        if head > 63 || place - start >= MOST_OCTETS {
            return None;
        }
        place += head + 1;
        if head == 0 {
            return Some(place);
        }
    }
    None
}

/// Appends the name that reads at a place, in full and in lower case (RFC 1035, 4.1.4).
pub(crate) fn put_lowered_at(
    message: &[u8],
    start: usize,
    rdata: &mut Vec<u8>,
) -> Result<(), AllocError>
    requires { NameReads message.now start }
    ensures { let octets = wire (low (name_read message.now start)) in
        OnOk result (rdata.new.items ≡ rdata.old.items ++ octets) }
{
    let len = rdata.len();
    put_name_at(message, start, rdata)?;
    lower_behind(rdata, len);
    Ok(())
}

/// Lowers the letters behind the first `count` octets.
fn lower_behind(rdata: &mut Vec<u8>, count: usize)
    requires { count ≤ length rdata.old.items }
    ensures { rdata.new.items
        ≡ take count rdata.old.items ++ str_to_ascii_lowercase (drop count rdata.old.items) }
{
    rdata.as_mut_slice()[count..].make_ascii_lowercase();
}

/// Appends the name that reads at a place, in full and as it is spelled (RFC 1035, 4.1.4).
pub(crate) fn put_name_at(
    message: &[u8],
    start: usize,
    rdata: &mut Vec<u8>,
) -> Result<(), AllocError>
    ensures { OnOk result (PutsName message.now start rdata.old.items rdata.new.items) }
{
    let (mut from, mut place) = (start, start);
    for _ in 0..MOST_HEADS {
        let Some(head) = message.get(place).copied() else {
            return Ok(());
        };
        if head == 0 {
            return rdata.extend_from_slice(&message[from..place + 1]);
        }
        if head < 192 {
            place += usize::from(head) + 1;
        } else {
            put_run(message, from, place, rdata)?;
            let Some(low) = message.get(place + 1).copied() else {
                return Ok(());
            };
            place = of_pair(head - 192, low);
            from = place;
        }
    }
    Ok(())
}

/// Appends the octets from one place to another. Most pointers have none in front.
fn put_run(message: &[u8], from: usize, to: usize, rdata: &mut Vec<u8>) -> Result<(), AllocError>
    requires ordered { from ≤ to }
    requires inside { to ≤ length message.now }
    ensures { OnOk result (rdata.new.items ≡ rdata.old.items ++ slice_range message.now from to) }
{
    if from == to {
        return Ok(());
    }
    rdata.extend_from_slice(&message[from..to])
}
