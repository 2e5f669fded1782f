//! The labels and parts of names.

use crate::said::{self, flat, relative_flat};
use names::{Label, Name, NameIter, ParsedName, RelativeName, ToLabelIter};
use test_lines::Line;

/// Where labels of a name begin; then each name that it ends with, itself first.
pub fn parts(line: &mut Line<'_>) {
    let octets = line.octets(1);
    let name = flat(line, &octets);
    for place in 0..=octets.len().saturating_add(1) {
        if name.is_label_start(place) {
            line.value(&place);
        }
    }
    line.say("|");
    for suffix in name.iter_suffixes() {
        line.hex(suffix.as_slice());
    }
}

/// Where labels of a relative name begin, or the last one ends.
pub fn relative_parts(line: &mut Line<'_>) {
    let octets = line.octets(1);
    let name = relative_flat(line, &octets);
    for place in 0..=octets.len().saturating_add(1) {
        if name.is_label_start(place) {
            line.value(&place);
        }
    }
}

/// The first label of a name and the name behind it, by two functions; or that there is none.
pub fn first(line: &mut Line<'_>) {
    let octets = line.octets(1);
    let name = flat(line, &octets);
    match (name.split_first(), name.parent()) {
        (Some((label, rest)), Some(parent)) => {
            line.hex(label.as_slice());
            line.hex(rest.as_slice());
            line.hex(parent.as_slice());
        }
        (None, parent) => line.yes(parent.is_some()),
        _ => line.lose(),
    }
}

/// The first label of a relative name and the name behind it, by two functions; or that there is
/// none.
pub fn relative_first(line: &mut Line<'_>) {
    let octets = line.octets(1);
    let name = relative_flat(line, &octets);
    match (name.split_first(), name.parent()) {
        (Some((label, rest)), Some(parent)) => {
            line.hex(label.as_slice());
            line.hex(rest.as_slice());
            line.hex(parent.as_slice());
        }
        (None, parent) => line.yes(parent.is_some()),
        _ => line.lose(),
    }
}

/// The label that octets begin with and what is behind it; or why they begin with none.
pub fn split(line: &mut Line<'_>) {
    let octets = line.octets(1);
    match Label::split_from(&octets) {
        Ok((label, rest)) => {
            line.hex(label.as_slice());
            line.hex(rest);
            line.value(&label.len());
            line.yes(label.is_root() && label.is_empty());
            line.yes(label.is_wildcard());
        }
        Err(error) => line.value(&error),
    }
}

/// The label that octets are, or why they are none.
pub fn label(line: &mut Line<'_>) {
    let octets = line.octets(1);
    said::value(line, Label::from_slice(&octets));
}

/// What stands between two places of a name at which labels begin, and from the first on; and in
/// front of it.
pub fn cut(line: &mut Line<'_>) {
    let octets = line.octets(1);
    let (begin, end) = (line.usize_at(2), line.usize_at(3));
    match Name::from_octets(octets) {
        Ok(name) => cut_at(line, name, begin, end),
        Err(_) => line.lose(),
    }
}

fn cut_at(line: &mut Line<'_>, name: Name<Vec<u8>>, begin: usize, end: usize) {
    if begin > end || !name.is_label_start(begin) || !name.is_label_start(end) {
        line.say("no labels there");
        return;
    }
    line.hex(name.range(begin, end).as_slice());
    line.hex(name.range_from(begin).as_slice());
    line.hex(name.slice_from(begin).as_slice());
    let (front, back) = name.split(begin);
    line.hex(front.as_slice());
    line.hex(back.as_slice());
    line.hex(name.truncate(begin).as_slice());
}

/// What stands between two places of a relative name at which labels begin, and around them.
pub fn relative_cut(line: &mut Line<'_>) {
    let octets = line.octets(1);
    let (begin, end) = (line.usize_at(2), line.usize_at(3));
    match RelativeName::from_octets(octets) {
        Ok(name) => relative_cut_at(line, name, begin, end),
        Err(_) => line.lose(),
    }
}

fn relative_cut_at(line: &mut Line<'_>, name: RelativeName<Vec<u8>>, begin: usize, end: usize) {
    let mut name = name;
    if begin > end || !name.is_label_start(begin) || !name.is_label_start(end) {
        line.say("no labels there");
        return;
    }
    line.hex(name.range(begin, end).as_slice());
    let (front, back) = name.split(begin);
    line.hex(front.as_slice());
    line.hex(back.as_slice());
    name.truncate(begin);
    line.hex(name.as_slice());
}

/// The labels of a name by turns, the next from the front at each `f` and from the end at each `b`.
pub fn flat_turns(line: &mut Line<'_>) {
    let octets = line.octets(2);
    let name = flat(line, &octets);
    labels_by_turns(line, name.iter(), &name);
}

/// The labels of a relative name by turns.
pub fn relative_turns(line: &mut Line<'_>) {
    let octets = line.octets(2);
    let name = relative_flat(line, &octets);
    labels_by_turns(line, name.iter(), &name);
}

/// The labels of a name, by its own walk and by that of any name.
macro_rules! by_turns {
    ($line:expr, $labels:expr, $any:expr) => {{
        let (mut labels, mut any) = ($labels, $any);
        for turn in $line.word(1).chars() {
            let (label, same) = match turn {
                'f' => (labels.next(), any.next()),
                _ => (labels.next_back(), any.next_back()),
            };
            $line.check(label == same);
            crate::said::label($line, label);
        }
    }};
}

fn labels_by_turns<N: ToLabelIter>(line: &mut Line<'_>, labels: NameIter<'_>, name: &N) {
    by_turns!(line, labels, name.iter_labels())
}

/// The labels by turns of a name in a message.
pub fn turns(line: &mut Line<'_>, name: ParsedName<'_>) {
    by_turns!(line, name.iter(), name.iter_labels())
}
