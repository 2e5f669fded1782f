//! Names as they stand in a message (RFC 1035, 4.1.4).
ghost use Rattle.std.specs.Prelude.{◌≡◌, ◌<◌, ◌≤◌, length};
ghost use Rattle.definitions.specs.Reading.{most_heads, run_at, pointer_at, with_label, labels_at};
ghost use Rattle.definitions.specs.Reading.{end_at, name_at};
ghost use Rattle.definitions.specs.Reference.{IsReading, run_of};

use crate::reference::Octets;
use std::alloc::{AllocError, AllocFailed, Global};

/// Why no name was read.
#[derive(Clone, Copy, Debug, PartialEq, Eq, Drop)]
pub enum ReadError {
    /// The octets end before the name does.
    Short,
    /// What stands there begins no name of at most 255 octets.
    Malformed,
    /// There was no memory.
    Memory,
}

impl From<AllocError> for ReadError {
    ghost use Rattle.std.specs.Prelude.{◌≡◌};
    ghost use Rattle.definitions.specs.declared.reference.reading.ReadError.TheVariants.{Memory};

    ghost from_gives = { λ _ e. e ≡ Memory };

    fn from(_error: AllocError) -> ReadError {
        ReadError::Memory
    }
}

impl<T: Drop> From<AllocFailed<T>> for ReadError {
    ghost use Rattle.std.specs.Prelude.{◌≡◌};
    ghost use Rattle.definitions.specs.declared.reference.reading.ReadError.TheVariants.{Memory};

    ghost from_gives = { λ _ e. e ≡ Memory };

    fn from(_error: AllocFailed<T>) -> ReadError {
        ReadError::Memory
    }
}

/// Where a run of labels ends.
#[derive(Clone, Copy, Debug, Drop)]
enum RunEnd {
    AtRoot,
    To(usize),
}

/// Labels up to a root octet or a pointer, the place behind it, and the octets of room that are
/// left.
#[derive(Debug, Drop)]
struct LabelRun {
    labels: Vec<Octets>,
    end: RunEnd,
    behind: usize,
    room: usize,
}

/// The name at a place of a message, and the place behind it. At most `pointers` pointers are
/// followed.
pub fn name_at(
    alloc: Global,
    message: &[u8],
    place: usize,
    pointers: usize,
) -> Result<(Vec<Octets>, usize), ReadError>
    ensures { IsReading (λ r. (r.0.items, r.1)) result (name_at pointers message.now place) }
{
    let labels = labels_at(alloc, message, place, pointers, 255)?;
    let behind = end_at(alloc, message, place, pointers)?;
    Ok((labels, behind))
}

/// The labels at a place, which take at most `room` octets.
fn labels_at(
    alloc: Global,
    message: &[u8],
    place: usize,
    pointers: usize,
    room: usize,
) -> Result<Vec<Octets>, ReadError>
    ensures { IsReading (λ v. v.items) result (labels_at pointers room message.now place) }
{
    let run = run_at(alloc, message, place, pointers, room, most_heads())?;
    let mut labels = run.labels;
    match run.end {
        RunEnd::AtRoot => Ok(labels),
        RunEnd::To(place) => {
            if pointers == 0 {
                return Err(ReadError::Malformed);
            }
            let mut rest = labels_at(alloc, message, place, pointers - 1, run.room)?;
            labels.append(&mut rest)?;
            Ok(labels)
        },
    }
}

/// The place behind the name: behind its first pointer or its root octet.
fn end_at(alloc: Global, message: &[u8], place: usize, pointers: usize) -> Result<usize, ReadError>
    ensures { IsReading (λ n. n) result (end_at pointers message.now place) }
{
    let run = run_at(alloc, message, place, pointers, 255, most_heads())?;
    Ok(run.behind)
}

/// How many heads a name of 255 octets has at most between two pointers.
fn most_heads() -> usize
    ensures { result ≡ most_heads }
{
    128
}

/// The labels from a place on, up to a root octet or a pointer.
fn run_at(
    alloc: Global,
    message: &[u8],
    place: usize,
    pointers: usize,
    room: usize,
    heads: usize,
) -> Result<LabelRun, ReadError>
    ensures { IsReading run_of result (run_at heads pointers room message.now place) }
{
    if heads == 0 {
        return Err(ReadError::Malformed);
    }
    let Some(head) = message.get(place) else {
        return Err(ReadError::Short);
    };
    let size = *head as usize;
    if size == 0 {
        return Ok(LabelRun {
            labels: Vec::new(alloc),
            end: RunEnd::AtRoot,
            behind: place + 1,
            room,
        });
    }
    if size >= 192 {
        return pointer_at(alloc, message, place, pointers, room, size);
    }
    if size > 63 {
        return Err(ReadError::Malformed);
    }
    if message.len() - place - 1 < size {
        return Err(ReadError::Short);
    }
    if room < size + 2 {
        return Err(ReadError::Malformed);
    }
    let behind = place + 1 + size;
    let label = Octets::from_slice(alloc, &message[place + 1..behind])?;
    match run_at(
        alloc,
        message,
        behind,
        pointers,
        room - (size + 1),
        heads - 1,
    ) {
        Ok(run) => with_label(label, run),
        Err(error) => Err(error),
    }
}

/// A run whose first label is put before the others.
fn with_label(label: Octets, run: LabelRun) -> Result<LabelRun, ReadError>
    ensures { IsReading run_of result (with_label label (Ok (run_of run))) }
{
    let mut run = run;
    run.labels.insert(0, label)?;
    Ok(run)
}

/// A pointer at a place, to a place before it, where one is left.
fn pointer_at(
    alloc: Global,
    message: &[u8],
    place: usize,
    pointers: usize,
    room: usize,
    high: usize,
) -> Result<LabelRun, ReadError>
    requires inside { place < length message.now }
    requires pointer { 192 ≤ high }
    requires octet { high < 256 }
    ensures { IsReading run_of result (pointer_at pointers room message.now place high) }
{
    if pointers == 0 {
        return Err(ReadError::Malformed);
    }
    let Some(low) = message.get(place + 1) else {
        return Err(ReadError::Short);
    };
    let to = (high - 192) * 256 + *low as usize;
    if to >= place {
        return Err(ReadError::Malformed);
    }
    Ok(LabelRun {
        labels: Vec::new(alloc),
        end: RunEnd::To(to),
        behind: place + 2,
        room,
    })
}
