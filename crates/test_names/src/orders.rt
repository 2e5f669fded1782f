//! Two names or labels: how they stand to one another, and one in front of the other or without it.

use crate::flat::{lowered, lowered_relative};
use crate::said::{self, flat, relative_flat};
use names::{
    Chain, Label, Labels, Name, OwnedLabel, ParsedName, Parser, RelativeName, ToLabelIter, ToName,
    ToRelativeName,
};
use std::hash::{DefaultHasher, Hash, Hasher};
use test_lines::Line;

/// The relation of two names.
pub fn pair(line: &mut Line<'_>) {
    let (first, second) = (line.octets(1), line.octets(2));
    match ParsedName::parse(&mut Parser::from_ref(&first)) {
        Ok(read) => relations(line, &read, &second),
        Err(_) => line.lose(),
    }
}

/// The canonical order of two names, that of their octets and that of these in lower case; whether
/// they are equal, and the first begins and ends with the other.
fn relation<A: ToName, B: ToName>(line: &mut Line<'_>, name: &A, other: &B) {
    line.order(name.name_cmp(other));
    line.order(name.composed_cmp(other));
    line.order(name.lowercase_composed_cmp(other));
    line.yes(name.name_eq(other));
    line.yes(name.starts_with(other));
    line.yes(name.ends_with(other));
}

/// Leaves no answer where the relation of two names is another one.
fn check_relation<A: ToName, B: ToName>(line: &mut Line<'_>, name: &A, other: &B) {
    let mut again = line.aside(" ");
    relation(&mut again, name, other);
    line.check_same(again);
}

/// The relation of a name in a message and of another, each flat and in a message.
pub fn relations(line: &mut Line<'_>, read: &ParsedName<'_>, others: &[u8]) {
    let other = flat(line, others);
    relation(line, read, &other);
    let copied = read.to_vec(line.alloc());
    match (copied, ParsedName::parse(&mut Parser::from_ref(others))) {
        (Ok(own), Ok(other_read)) => check_relations(line, read, &own, &other, &other_read),
        _ => line.lose(),
    }
}

fn check_relations(
    line: &mut Line<'_>,
    read: &ParsedName<'_>,
    own: &Name<Vec<u8>>,
    other: &Name<&[u8]>,
    other_read: &ParsedName<'_>,
) {
    check_relation(line, own, other);
    check_relation(line, own, other_read);
    check_relation(line, read, other_read);
    check_relation(line, &own.for_ref(), other);
    let (order, is_equal) = (own.name_cmp(other), own.name_eq(other));
    line.check(own.for_ref().cmp(other) == order);
    line.check((own.for_ref() == *other) == is_equal);
    line.check(read.cmp(other_read) == order);
    line.check((*read == *other_read) == is_equal);
}

/// The canonical order of two relative names; whether they are equal, and the first begins and ends
/// with the other.
pub fn relative_pair(line: &mut Line<'_>) {
    let (first, second) = (line.octets(1), line.octets(2));
    let name = relative_flat(line, &first);
    let other = relative_flat(line, &second);
    let (order, is_equal) = (name.name_cmp(&other), name.name_eq(&other));
    line.check(name.cmp(&other) == order);
    line.check((name == other) == is_equal);
    line.order(order);
    line.yes(is_equal);
    line.yes(name.starts_with(&other));
    line.yes(name.ends_with(&other));
}

/// The orders of two labels, as those of names; whether they are equal, and their hashes are.
pub fn label_pair(line: &mut Line<'_>) {
    let (first, second) = (line.octets(1), line.octets(2));
    match (Label::from_slice(&first), Label::from_slice(&second)) {
        (Ok(label), Ok(other)) => compared(line, label, other),
        _ => line.lose(),
    }
}

fn compared(line: &mut Line<'_>, label: Label<'_>, other: Label<'_>) {
    let (own, own_other) = (OwnedLabel::from_label(label), OwnedLabel::from(other));
    let (order, is_equal) = (label.cmp(&other), label == other);
    line.check(own.cmp(&own_other) == order);
    line.check((own == own_other) == is_equal);
    line.order(order);
    line.order(label.composed_cmp(&other));
    line.order(label.lowercase_composed_cmp(&other));
    line.yes(is_equal);
    line.yes(hash_of(label) == hash_of(other));
}

fn hash_of(label: Label<'_>) -> u64 {
    let mut hasher = DefaultHasher::new();
    label.hash(&mut hasher);
    hasher.finish()
}

/// A name in front of another one, in wire form, where all copies agree; or why they are too long.
pub fn chain(line: &mut Line<'_>) {
    let (first, second) = (line.octets(1), line.octets(2));
    let front = relative_flat(line, &first);
    let end = flat(line, &second);
    let is_root = end.is_root();
    let rooted = front.for_ref().chain_root().to_vec(line.alloc());
    match (front.chain(end), rooted) {
        (Ok(chain), Ok(rooted)) => chained(line, &chain, is_root, &rooted),
        (Err(error), Ok(_)) => line.value(&error),
        _ => line.lose(),
    }
}

fn chained(
    line: &mut Line<'_>,
    chain: &Chain<RelativeName<&[u8]>, Name<&[u8]>>,
    is_root: bool,
    rooted: &Name<Vec<u8>>,
) {
    match chain.to_vec(line.alloc()) {
        Ok(own) => {
            line.check(chain.name_eq(&own));
            line.check(is_root == (own == *rooted));
            line.hex(own.as_slice());
            line.value(&chain.label_count());
            line.value(&chain.compose_len());
            let lower = lowered(line, chain, own);
            line.check(chain.name_eq(&lower));
        }
        Err(_) => line.lose(),
    }
}

/// A relative name in front of another one, in wire form and in lower case, where all copies agree.
pub fn relative_chain(line: &mut Line<'_>) {
    let (first, second) = (line.octets(1), line.octets(2));
    let front = relative_flat(line, &first);
    match front.chain(relative_flat(line, &second)) {
        Ok(chain) => relative_chained(line, &chain),
        Err(_) => line.lose(),
    }
}

fn relative_chained(line: &mut Line<'_>, chain: &Chain<RelativeName<&[u8]>, RelativeName<&[u8]>>) {
    match chain.to_vec(line.alloc()) {
        Ok(own) => {
            line.hex(own.as_slice());
            let lower = lowered_relative(line, chain, own);
            line.hex(lower.as_slice());
        }
        Err(_) => line.lose(),
    }
}

/// A name without a suffix.
pub fn strip(line: &mut Line<'_>) {
    let (first, second) = (line.octets(1), line.octets(2));
    let base = flat(line, &second);
    match Name::from_octets(first) {
        Ok(name) => said::relative(line, name.strip_suffix(&base)),
        Err(_) => line.lose(),
    }
}

/// A relative name without a suffix. A name that is refused stays as it was.
pub fn strip_relative(line: &mut Line<'_>) {
    let (first, second) = (line.octets(1), line.octets(2));
    let base = relative_flat(line, &second);
    match RelativeName::from_octets(first) {
        Ok(name) => stripped(line, name, base),
        Err(_) => line.lose(),
    }
}

fn stripped(line: &mut Line<'_>, name: RelativeName<Vec<u8>>, base: RelativeName<&[u8]>) {
    let mut name = name;
    let stripped = name.strip_suffix(&base);
    line.hex(name.as_slice());
    if let Err(error) = stripped {
        line.value(&error);
    }
}
