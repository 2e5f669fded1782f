//! Reading a name head by head: length octets and pointers (RFC 1035, 4.1.4).

ghost use Rattle.std.specs.Prelude.{◌≡◌, ◌≤◌, ◌<◌, ◌+◌, ◌*◌, Some, Err, length, slice_get};
ghost use Rattle.definitions.proofs.ReadingLaws.{labels_of};
ghost use Rattle.names_parsed.specs.Heads.{Begins, Walks, CountsOn, rest_at};

use names_parser::error::ParseError;

/// What stands at a place of a message.
#[derive(Clone, Copy)]
enum Head {
    Root,
    /// A label of this number of octets.
    Label(usize),
    /// A pointer to this earlier place.
    Pointer(usize),
}

/// A name that was read.
#[derive(Clone, Copy)]
pub(crate) struct Walked {
    /// How many labels it has, the root's included.
    pub(crate) labels: u8,
    /// How many octets of its wire form stand in a row, without a pointer; 0 where a pointer is
    /// followed.
    pub(crate) row: u8,
    /// The place behind it: behind its first pointer or its root octet.
    pub(crate) behind: usize,
}

/// How many pointers may be followed.
const MOST_POINTERS: u8 = 255;

/// Reads the name at a place through at most 255 pointers: at most 255 octets, the root's included.
pub(crate) fn walk(message: &[u8], start: usize) -> Result<Walked, ParseError>
    ensures { Walks message.now start result }
{
    if start >= message.len() {
        return Err(ParseError::ShortInput);
    }
    let (mut place, mut room, mut labels) = (start, 254usize, 1u8);
    loop {
        match head_at(message, place, MOST_POINTERS, room)? {
            Head::Root => {
                return Ok(Walked {
                    labels,
                    row: (255 - room) as u8,
                    behind: place + 1,
                });
            }
            Head::Label(len) => {
                place += len + 1;
                room -= len + 1;
                labels += 1;
            }
            Head::Pointer(to) => {
                return Ok(Walked {
                    labels: labels_beyond(message, to, room, labels)?,
                    row: 0,
                    behind: place + 2,
                });
            }
        }
    }
}

/// The number of labels of a name whose first pointer leads to a place. `before` labels stand
/// before the pointer, and `left` octets are left for labels ahead of the root's.
fn labels_beyond(message: &[u8], start: usize, left: usize, before: u8) -> Result<u8, ParseError>
    requires inside { start < length message.now }
    requires short { left ≤ 254 }
    requires sized { 2 * before + left ≤ 256 }
    ensures { CountsOn (labels_of (rest_at 254 (left + 1) message.now start)) before result }
{
    let (mut place, mut pointers) = (start, MOST_POINTERS - 1);
    let (mut room, mut labels) = (left, before);
    loop {
        match head_at(message, place, pointers, room)? {
            Head::Root => return Ok(labels),
            Head::Label(len) => {
                place += len + 1;
                room -= len + 1;
                labels += 1;
            }
            Head::Pointer(to) => {
                place = to;
                pointers -= 1;
            }
        }
    }
}

/// What stands at a place, where `pointers` pointers may still be followed and `room` octets are
/// left ahead of the root's.
fn head_at(message: &[u8], place: usize, pointers: u8, room: usize) -> Result<Head, ParseError>
    requires inside { place < length message.now }
    requires short { room ≤ 254 }
    ensures { Begins pointers (room + 1) message.now place result }
{
    let head = usize::from(message[place]);
    if head != 0 && head <= 63 {
        return label_head(message, place, pointers, room, head);
    }
    if head >= 192 {
        return pointer_head(message, place, pointers, room, head);
    }
    if head == 0 {
        return Ok(Head::Root);
    }
    Err(ParseError::form_error("invalid label type"))
}

/// Reads a length octet and the label behind it.
fn label_head(
    message: &[u8],
    place: usize,
    pointers: u8,
    room: usize,
    len: usize,
) -> Result<Head, ParseError>
    requires head { slice_get message.now place ≡ Some len }
    requires some { 0 < len }
    requires short { len ≤ 63 }
    requires room { room ≤ 254 }
    ensures { Begins pointers (room + 1) message.now place result }
{
    if place + (len + 1) >= message.len() {
        return Err(last_label_fault(message, place, pointers, room, len));
    }
    if room < len + 1 {
        return Err(ParseError::form_error("long domain name"));
    }
    Ok(Head::Label(len))
}

/// Why there is no name where the octets end behind a label.
fn last_label_fault(
    message: &[u8],
    place: usize,
    pointers: u8,
    room: usize,
    len: usize,
) -> ParseError
    requires head { slice_get message.now place ≡ Some len }
    requires some { 0 < len }
    requires short { len ≤ 63 }
    requires room { room ≤ 254 }
    requires last { length message.now ≤ place + (len + 1) }
    ensures { Begins pointers (room + 1) message.now place (Err result) }
{
    if message.len() < place + (len + 1) || room >= len + 1 {
        return ParseError::ShortInput;
    }
    ParseError::form_error("long domain name")
}

/// Reads the first octet of a pointer and the one behind it.
fn pointer_head(
    message: &[u8],
    place: usize,
    pointers: u8,
    room: usize,
    head: usize,
) -> Result<Head, ParseError>
    requires head { slice_get message.now place ≡ Some head }
    requires large { 192 ≤ head }
    requires small { head < 256 }
    requires inside { place < length message.now }
    ensures { Begins pointers (room + 1) message.now place result }
{
    if pointers == 0 {
        return Err(ParseError::form_error("too many compression pointers"));
    }
    if place == message.len() - 1 {
        return Err(ParseError::ShortInput);
    }
    let to = (head - 192) * 256 + usize::from(message[place + 1]);
    if to >= place {
        return Err(ParseError::form_error("invalid compression pointer"));
    }
    Ok(Head::Pointer(to))
}
