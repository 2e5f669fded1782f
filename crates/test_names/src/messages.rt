//! Names in messages (RFC 1035, 4.1.4).

use crate::flat::told;
use crate::said::{self, check_name};
use crate::{orders, parts};
use names::{FlattenInto, Label, Labels, ParseError, ParsedName, Parser, ToName};
use test_lines::Line;

/// What is read at a place of a message, and the place behind it.
fn read(message: &[u8], place: usize) -> Result<(ParsedName<'_>, usize), ParseError> {
    let mut parser = Parser::from_ref(message);
    parser.seek(place)?;
    let name = ParsedName::parse(&mut parser)?;
    Ok((name, parser.pos()))
}

/// The place behind a name that is passed over.
fn skip(message: &[u8], place: usize) -> Result<usize, ParseError> {
    let mut parser = Parser::from_ref(message);
    parser.seek(place)?;
    ParsedName::skip(&mut parser)?;
    Ok(parser.pos())
}

/// Whether a parser of these octets stays where it was when no name is read at a place of them.
fn stays(message: &[u8], place: usize) -> bool {
    let mut parser = Parser::from_ref(message);
    if parser.seek(place).is_err() {
        return true;
    }
    let is_read = ParsedName::parse(&mut parser).is_ok();
    let mut again = Parser::from_ref(message);
    let is_same = again.seek(place).is_ok() && ParsedName::parse_ref(&mut again).is_ok() == is_read;
    is_same && again.pos() == parser.pos() && (is_read || parser.pos() == place)
}

/// The shortest beginning of a message from which a name is read at a place; at each shorter one
/// the parser has to stay there, and from each longer one the name to be read too.
fn shortest(line: &mut Line<'_>, message: &[u8], place: usize) -> Option<usize> {
    let mut first = None;
    for len in 0..=message.len() {
        let (part, _) = message.split_at(len);
        let is_read = read(part, place).is_ok();
        line.check(stays(part, place) && (first.is_none() || is_read));
        if is_read && first.is_none() {
            first = Some(len);
        }
    }
    first
}

/// The octets of the name at a place of a message, the place behind it when it is read and when it
/// is passed over, how long a beginning of the message has to be, and whether it goes through
/// pointers; or the faults of both.
pub fn whole(line: &mut Line<'_>) {
    let (message, place) = (line.octets(1), line.usize_at(2));
    let alloc = line.alloc();
    match read(&message, place) {
        Ok((name, end)) => {
            said::name(line, name.to_vec(alloc));
            line.value(&end);
            said::value(line, skip(&message, place));
            match shortest(line, &message, place) {
                Some(len) => line.value(&len),
                None => line.lose(),
            }
            line.say(if name.is_compressed() {
                "pointers"
            } else {
                "row"
            });
        }
        Err(error) => {
            line.value(&error);
            line.say("|");
            said::value(line, skip(&message, place));
            let is_none = shortest(line, &message, place).is_none();
            line.check(is_none && stays(&message, place));
        }
    }
}

/// The labels along a message from a place on, through pointers, and how many there are.
pub fn along(line: &mut Line<'_>) {
    let (message, place) = (line.octets(1), line.usize_at(2));
    let (mut labels, mut count) = (line.aside(" "), 0usize);
    for label in Label::iter_slice(&message, place) {
        labels.hex(label.as_slice());
        count = count.saturating_add(1);
    }
    line.value(&count);
    line.append(labels);
}

/// What is told of the name at a place.
pub fn name(line: &mut Line<'_>) {
    let (message, place) = (line.octets(1), line.usize_at(2));
    match read(&message, place) {
        Ok((name, _)) => told_copied(line, name),
        Err(_) => line.lose(),
    }
}

fn told_copied(line: &mut Line<'_>, name: ParsedName<'_>) {
    let alloc = line.alloc();
    match name.to_vec(alloc) {
        Ok(own) => check_name::<Vec<u8>, _>(line, name.flatten_into(alloc), own.as_slice()),
        Err(_) => line.lose(),
    }
    line.check(name.ref_octets() == name.deref_octets());
    line.check(name.last().is_root());
    told(line, &name);
}

/// The relation of the name at a place to another.
pub fn pair(line: &mut Line<'_>) {
    let (other, message, place) = (line.octets(1), line.octets(2), line.usize_at(3));
    match read(&message, place) {
        Ok((name, _)) => orders::relations(line, &name, &other),
        Err(_) => line.lose(),
    }
}

/// The labels by turns of the name at a place.
pub fn turns(line: &mut Line<'_>) {
    let (message, place) = (line.octets(2), line.usize_at(3));
    match read(&message, place) {
        Ok((name, _)) => parts::turns(line, name),
        Err(_) => line.lose(),
    }
}

/// The names that the one at a place ends with, by turns.
pub fn suffixes(line: &mut Line<'_>) {
    let (message, place) = (line.octets(2), line.usize_at(3));
    match read(&message, place) {
        Ok((name, _)) => suffixes_by_turns(line, name),
        Err(_) => line.lose(),
    }
}

fn suffixes_by_turns(line: &mut Line<'_>, name: ParsedName<'_>) {
    let mut suffixes = name.iter_suffixes();
    for turn in line.word(1).chars() {
        let suffix = match turn {
            'f' => suffixes.next(),
            _ => suffixes.next_back(),
        };
        row(line, suffix);
    }
}

/// The row that the labels of a name are, or how many they are through pointers; or that there is
/// no name.
fn row(line: &mut Line<'_>, name: Option<ParsedName<'_>>) {
    match name {
        Some(name) => match name.label_row() {
            Some(row) => line.hex(row),
            None => line.value(&name.label_count()),
        },
        None => line.say("none"),
    }
}

/// The first label of the name at a place, and the name without it by two functions; or that there
/// is none.
pub fn parent(line: &mut Line<'_>) {
    let (message, place) = (line.octets(1), line.usize_at(2));
    match read(&message, place) {
        Ok((name, _)) => parent_of(line, name),
        Err(_) => line.lose(),
    }
}

fn parent_of(line: &mut Line<'_>, name: ParsedName<'_>) {
    match name.split_first() {
        Some((label, rest)) => {
            line.hex(label.as_slice());
            row(line, Some(rest));
            line.check(name.parent().is_some());
            row(line, name.parent());
        }
        None => line.yes(name.parent().is_some()),
    }
}
