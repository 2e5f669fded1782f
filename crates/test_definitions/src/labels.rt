//! Names as rows of labels.

use definitions::reference::Octets;
use definitions::reference::names::{at_or_above, same};
use std::alloc::{AllocError, Global};
use test_lines::Line;

/// The labels of the name at a place of a line, without escapes; `.` is the root.
pub fn labels_at(line: &mut Line<'_>, place: usize) -> Vec<Octets> {
    let mut labels = Vec::new(line.alloc());
    let text = line.word(place);
    if text != "." {
        for label in text.split('.') {
            match Octets::from_slice(line.alloc(), label.as_bytes()) {
                Ok(octets) => line.must(labels.push(octets)),
                Err(_) => line.lose(),
            }
        }
    }
    labels
}

/// A copy of a name.
pub fn copied(alloc: Global, name: &[Octets]) -> Result<Vec<Octets>, AllocError> {
    let mut labels = Vec::new(alloc);
    for label in name {
        labels.push(Octets::from_slice(alloc, label.as_slice())?)?;
    }
    Ok(labels)
}

/// A label under a name.
pub fn under(alloc: Global, label: &[u8], name: &[Octets]) -> Result<Vec<Octets>, AllocError> {
    let mut labels = Vec::new(alloc);
    labels.push(Octets::from_slice(alloc, label)?)?;
    for label in name {
        labels.push(Octets::from_slice(alloc, label.as_slice())?)?;
    }
    Ok(labels)
}

/// Whether a name stands above another.
pub fn is_above(name: &[Octets], other: &[Octets]) -> bool {
    at_or_above(name, other) && !same(name, other)
}

/// Whether a name is among some.
pub fn is_among(names: &[Vec<Octets>], name: &[Octets]) -> bool {
    names.iter().any(|other| same(other, name))
}

/// A number of the last labels of a name.
pub fn last_labels(name: &[Octets], count: usize) -> &[Octets] {
    if count < name.len() {
        &name[name.len() - count..]
    } else {
        name
    }
}

/// How many labels, without a leading asterisk.
pub fn label_count(name: &[Octets]) -> usize {
    match name.split_first() {
        None => 0,
        Some((label, parent)) => {
            if label.as_slice() == b"*".as_slice() {
                parent.len()
            } else {
                name.len()
            }
        },
    }
}
