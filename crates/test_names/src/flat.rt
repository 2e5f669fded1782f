//! Names over flat octets: what is told of them, copied and printed.

use crate::said::{self, check_name, check_relative};
use names::{
    FlattenInto, Labels, Name, ParsedName, Parser, RelativeName, ToLabelIter, ToName,
    ToRelativeName,
};
use std::fmt::Display;
use test_lines::Line;

/// What is told of the name that the octets spell, the same of it in a message; or why they spell
/// none.
pub fn name(line: &mut Line<'_>) {
    let octets = line.octets(1);
    match Name::from_slice(octets.as_slice()) {
        Ok(name) => of_name(line, &name, &octets),
        Err(error) => line.value(&error),
    }
}

fn of_name(line: &mut Line<'_>, name: &Name<&[u8]>, octets: &[u8]) {
    told(line, name);
    match ParsedName::parse(&mut Parser::from_ref(octets)) {
        Ok(read) => check_told(line, read, octets),
        Err(_) => line.lose(),
    }
    let alloc = line.alloc();
    check_name::<Vec<u8>, _>(line, name.for_ref().flatten_into(alloc), octets);
    let has_labels = name.label_count() > 1;
    line.check(name.last().is_root());
    line.check(name.first().is_root() != has_labels);
    line.check(name.is_root() != has_labels);
}

fn check_told(line: &mut Line<'_>, read: ParsedName<'_>, octets: &[u8]) {
    let (alloc, mut again) = (line.alloc(), line.aside(" "));
    told(&mut again, &read);
    check_name::<Vec<u8>, _>(line, read.flatten_into(alloc), octets);
    let is_same = again.answer() == line.answer() && !again.is_lost();
    line.check(is_same);
}

/// How many labels and octets a name has, its first label, its octets in lower case, where all
/// copies of it agree, and its text with the last dot.
pub fn told<N: ToName + Display>(line: &mut Line<'_>, name: &N) {
    line.value(&name.label_count());
    line.value(&name.compose_len());
    said::label(line, name.iter_labels().next());
    match name.to_vec(line.alloc()) {
        Ok(own) => {
            let text = text(line, name, own.as_slice());
            let lower = lowered(line, name, own);
            line.hex(lower.as_slice());
            line.say(&text);
        }
        Err(_) => line.lose(),
    }
}

/// A copy of a name in lower case, where the others agree.
pub fn lowered<N: ToName>(line: &mut Line<'_>, name: &N, own: Name<Vec<u8>>) -> Name<Vec<u8>> {
    let mut own = own;
    let alloc = line.alloc();
    check_name(line, name.to_name(alloc), own.as_slice());
    check_name(line, name.try_to_name(alloc), own.as_slice());
    check_name(line, name.to_cow(alloc), own.as_slice());
    own.make_canonical();
    check_name(line, name.to_canonical_name(alloc), own.as_slice());
    check_name(line, name.try_to_canonical_name(alloc), own.as_slice());
    own
}

/// The text of a name with its last dot, which is read as its octets; without it the text is the
/// same, and of the root a dot.
fn text<N: ToName + Display>(line: &mut Line<'_>, name: &N, octets: &[u8]) -> String {
    let (alloc, dotted) = (line.alloc(), line.text_of(&name.fmt_with_dot()));
    check_name(line, Name::vec_from_str(alloc, &dotted), octets);
    let plain = line.text_of(name);
    let is_root = dotted.as_str() == ".";
    let without = if is_root {
        Some(".")
    } else {
        dotted.strip_suffix('.')
    };
    line.check(without == Some(plain.as_str()));
    dotted
}

/// What is told of a relative name: how many labels it has, dots and octets, its first label and
/// its last, its octets in lower case, where all copies of it agree, and its text; or why the
/// octets spell none.
pub fn relative(line: &mut Line<'_>) {
    let octets = line.octets(1);
    match RelativeName::from_slice(octets.as_slice()) {
        Ok(name) => of_relative(line, &name, &octets),
        Err(error) => line.value(&error),
    }
}

fn of_relative(line: &mut Line<'_>, name: &RelativeName<&[u8]>, octets: &[u8]) {
    let alloc = line.alloc();
    line.value(&name.label_count());
    line.value(&name.ndots());
    line.value(&name.len());
    said::label(line, name.first());
    said::label(line, name.last());
    check_relative::<Vec<u8>, _>(line, name.for_ref().flatten_into(alloc), octets);
    line.check(name.is_empty() == octets.is_empty());
    match name.to_vec(line.alloc()) {
        Ok(own) => {
            line.check(own.as_slice() == octets);
            let lower = lowered_relative(line, name, own);
            line.hex(lower.as_slice());
        }
        Err(_) => line.lose(),
    }
    line.value(name);
}

/// A copy of a relative name in lower case, where the others agree.
pub fn lowered_relative<N: ToRelativeName>(
    line: &mut Line<'_>,
    name: &N,
    own: RelativeName<Vec<u8>>,
) -> RelativeName<Vec<u8>> {
    let mut own = own;
    let alloc = line.alloc();
    check_relative(line, name.to_relative_name(alloc), own.as_slice());
    check_relative(line, name.try_to_relative_name(alloc), own.as_slice());
    check_relative(line, name.to_cow(alloc), own.as_slice());
    own.make_canonical();
    check_relative(line, name.to_canonical_relative_name(alloc), own.as_slice());
    check_relative(
        line,
        name.try_to_canonical_relative_name(alloc),
        own.as_slice(),
    );
    own
}

/// The root, the wildcard name and the empty one, as each of their functions makes them.
pub fn fixed(line: &mut Line<'_>) {
    let alloc = line.alloc();
    said::name(line, Name::root(alloc));
    said::name(line, Name::root_vec(alloc));
    line.hex(Name::root_ref().as_slice());
    line.hex(Name::root_slice().as_slice());
    said::relative(line, RelativeName::wildcard(alloc));
    said::relative(line, RelativeName::wildcard_vec(alloc));
    line.hex(RelativeName::wildcard_ref().as_slice());
    line.hex(RelativeName::wildcard_slice().as_slice());
    line.hex(RelativeName::empty(alloc).as_slice());
    line.hex(RelativeName::empty_vec(alloc).as_slice());
    line.hex(RelativeName::empty_ref().as_slice());
    line.hex(RelativeName::empty_slice().as_slice());
}
