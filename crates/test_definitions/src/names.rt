//! Names: their order, what covers them, and how they are read.

use crate::labels::labels_at;
use definitions::reference::names::{at_or_above, covers, hash_covers, name_cmp, same};
use definitions::reference::reading::{ReadError, name_at};
use test_lines::Line;

/// How a name stands to another, and whether it is at or above it.
pub fn order(line: &mut Line<'_>) {
    let (first, second) = (labels_at(line, 1), labels_at(line, 2));
    line.order(name_cmp(&first, &second));
    line.mark(", same");
    line.yes(same(&first, &second));
    line.mark(", at or above");
    line.yes(at_or_above(&first, &second));
}

/// Whether a link from an owner to a next name covers a name.
pub fn covered(line: &mut Line<'_>) {
    let (apex, owner) = (labels_at(line, 1), labels_at(line, 2));
    let (next, name) = (labels_at(line, 3), labels_at(line, 4));
    line.yes(covers(&apex, &owner, &next, &name));
}

/// Whether a link from a hash to a next one covers a hash.
pub fn hash_covered(line: &mut Line<'_>) {
    let (owner, next, hash) = (line.octets(1), line.octets(2), line.octets(3));
    line.yes(hash_covers(&owner, &next, &hash));
}

/// The labels of the name at a place of octets, read with at most a number of pointers, and the
/// place behind it.
pub fn read(line: &mut Line<'_>) {
    let (octets, place, pointers) = (line.octets(1), line.usize_at(2), line.usize_at(3));
    match name_at(line.alloc(), &octets, place, pointers) {
        Ok((labels, behind)) => {
            line.say("to");
            line.value(&behind);
            for label in &labels {
                line.hex(label.as_slice());
            }
        }
        Err(ReadError::Short) => line.say("too short"),
        Err(ReadError::Malformed) => line.say("malformed"),
        Err(ReadError::Memory) => line.lose(),
    }
}
