//! Names as octets spell them, and their parts.

use crate::words::{name_at, say_name};
use messages::names::{
    Name, ParsedName, ToName, ZoneName, copy_name, cow_name, is_above, is_at_or_above,
    name_at_place, name_from_octets, read_name,
};
use names::compose_canonical_name;
use test_lines::Line;

/// The name at a place of a message, as spelled and in canonical form, and the place behind it.
pub fn read(line: &mut Line<'_>) {
    let (octets, place) = (line.octets(1), line.usize_at(2));
    match read_name(&octets, place) {
        Ok((name, end)) => both_forms(line, &name, end),
        Err(error) => line.refused(&error),
    }
}

fn both_forms(line: &mut Line<'_>, name: &ParsedName<'_>, end: usize) {
    let mut canonical = Vec::new(line.alloc());
    line.must(compose_canonical_name(name, &mut canonical));
    match (copy_name(line.alloc(), name), cow_name(line.alloc(), name)) {
        (Ok(flat), Ok(cow)) => {
            line.check(name.name_eq(&flat) && cow.as_slice() == flat.as_slice());
        }
        _ => line.lose(),
    }
    say_name(line, name);
    line.hex(&canonical);
    line.say("to");
    line.value(&end);
}

/// Whether the name at a place of a message is this one.
pub fn is_name(line: &mut Line<'_>) {
    let (octets, place) = (line.octets(1), line.usize_at(2));
    match (read_name(&octets, place), name_at(line, 3)) {
        (Ok((read, _)), Some(name)) => line.yes(read.name_eq(&name)),
        _ => line.lose(),
    }
}

/// The name that octets have at a place, without pointers, and the place behind it.
pub fn at_place(line: &mut Line<'_>) {
    let (octets, place) = (line.octets(1), line.usize_at(2));
    match name_at_place(line.alloc(), &octets, place) {
        Ok(Some((name, end))) => {
            say_name(line, &name);
            line.say("to");
            line.value(&end);
        }
        Ok(None) => line.say("none"),
        Err(_) => line.lose(),
    }
}

/// The one name that octets are, and how many labels it has.
pub fn whole(line: &mut Line<'_>) {
    let octets = line.octets(1);
    match name_from_octets(line.alloc(), &octets) {
        Ok(Some(name)) => {
            say_name(line, &name);
            line.say("of");
            line.value(&name.depth());
        }
        Ok(None) => line.say("none"),
        Err(_) => line.lose(),
    }
}

/// How a name stands to another, how the other way round, and how the second to its copy; and what
/// is above what.
pub fn compare(line: &mut Line<'_>) {
    match (name_at(line, 1), name_at(line, 2)) {
        (Some(first), Some(second)) => compared(line, &first, &second),
        _ => line.lose(),
    }
}

fn compared(line: &mut Line<'_>, first: &Name<Vec<u8>>, second: &Name<Vec<u8>>) {
    line.order(first.name_cmp(second));
    line.order(second.name_cmp(first));
    match copy_name(line.alloc(), second) {
        Ok(copy) => line.order(second.name_cmp(&copy)),
        Err(_) => line.lose(),
    }
    line.mark(",");
    line.say(
        match (is_at_or_above(first, second), is_above(first, second)) {
            (false, false) => "not above",
            (true, false) => "at",
            (true, true) => "above",
            (false, true) => "above and not at or above",
        },
    );
}

/// The parts of a name: its lengths, its stars, its wildcard, its last labels, so many of them, and
/// its octets.
pub fn parts(line: &mut Line<'_>) {
    if let Some(name) = name_at(line, 1) {
        counts(line, &name);
        stars(line, &name);
        ends(line, &name);
    }
}

fn counts(line: &mut Line<'_>, name: &Name<Vec<u8>>) {
    line.value(&name.depth());
    line.say("labels,");
    line.value(&name.rrsig_label_count());
    line.say("signed,");
    line.value(&name.as_slice().len());
    line.say("octets;");
}

/// Whether the first label is a star, whether any is, and the wildcard below.
fn stars(line: &mut Line<'_>, name: &Name<Vec<u8>>) {
    line.yes(name.is_wildcard());
    line.yes(name.has_star());
    match name.wildcard_child(line.alloc()) {
        Ok(Some(child)) => say_name(line, &child),
        Ok(None) => line.say("no room"),
        Err(_) => line.lose(),
    }
    line.mark(";");
}

/// The last labels; and the wire form as spelled, and in canonical form.
fn ends(line: &mut Line<'_>, name: &Name<Vec<u8>>) {
    let count = line.usize_at(2);
    match name.suffix(line.alloc(), name.depth().min(count)) {
        Ok(last) => say_name(line, &last),
        Err(_) => line.lose(),
    }
    line.mark(";");
    let mut canonical = Vec::new(line.alloc());
    line.must(name.compose_canonical(&mut canonical));
    say_name(line, name);
    line.hex(&canonical);
}
