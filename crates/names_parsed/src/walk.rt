//! Going from label to label of a name that stands in a message (RFC 1035, 4.1.4).

ghost use Rattle.std.specs.Prelude.{◌≡◌, ◌≤◌, ℕ, Some, true, length, drop, slice_get};
ghost use Rattle.names_wire.specs.Label.{octets_of};
ghost use Rattle.names_parsed.specs.Standing.{stands_at, name_from, labels_from, KeepsRow};
ghost use Rattle.names_parsed.specs.Walking.{StepsTo};

use names_wire::label::{Label, SplitLabelError};
use names_wire::labels::label_at;

/// The first label of a name, and the place behind it; for the root's label the place of that
/// label.
pub(crate) fn label_from(message: &[u8], start: usize) -> (Label<'_>, usize)
    requires { stands_at message.now start ≡ true }
    ensures { StepsTo message.now start (octets_of result.0) result.1 }
{
    let mut place = start;
    loop {
        match label_at(message, place) {
            Ok((label, _)) if label.is_root() => return (label, place),
            Ok((label, rest)) => return (label, message.len() - rest.len()),
            Err(pointer) => place = target(pointer),
        }
    }
}

/// Where a pointer leads to.
fn target(pointer: SplitLabelError) -> usize
    requires { (to : ℕ) × (pointer ≡ SplitLabelError.Pointer to) }
    ensures { pointer ≡ SplitLabelError.Pointer result }
{
    match pointer {
        SplitLabelError::Pointer(to) => usize::from(to),
        _ => unreachable!(),
    }
}

/// The place at which the name without its first `count` labels begins.
pub(crate) fn place_behind(message: &[u8], start: usize, count: usize) -> usize
    requires stands { stands_at message.now start ≡ true }
    requires labels { count ≤ length (name_from message.now start) }
    ensures stands { stands_at message.now result ≡ true }
    ensures labels { name_from message.now result ≡ drop count (name_from message.now start) }
    ensures row { KeepsRow message.now start result }
{
    let mut place = start;
    for _ in 0..count {
        let (_, behind) = label_from(message, place);
        place = behind;
    }
    place
}

/// The label of a name at an index, counted from the left; the root's label behind the last one.
pub(crate) fn label_within(message: &[u8], start: usize, index: usize) -> Label<'_>
    requires stands { stands_at message.now start ≡ true }
    requires labels { index ≤ length (name_from message.now start) }
    ensures { Some (octets_of result) ≡ slice_get (labels_from message.now start) index }
{
    let (label, _) = label_from(message, place_behind(message, start, index));
    label
}
