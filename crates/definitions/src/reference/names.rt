//! Names: their equality, their order, and which stand above which.
ghost use Rattle.std.specs.Prelude.{◌≡◌, IfOk};
ghost use Rattle.std.specs.Str.{str_to_ascii_lowercase};
ghost use Rattle.definitions.specs.Name.{low, labels_eq, same, at_or_above, strictly_above};
ghost use Rattle.definitions.specs.Name.{label_cmp, name_cmp};
ghost use Rattle.definitions.specs.Covering.{before, covers, octets_before, hash_covers};

use crate::reference::Octets;
use std::alloc::{AllocError, Global};
use std::cmp::Ordering;

/// Whether two names have the same octets in each label.
pub(super) fn labels_eq(a: &[Octets], b: &[Octets]) -> bool
    ensures { result ≡ labels_eq a.now b.now }
{
    match (a.split_first(), b.split_first()) {
        (None, None) => true,
        (Some((x, a)), Some((y, b))) => x.as_slice() == y.as_slice() && labels_eq(a, b),
        _ => false,
    }
}

/// The name with its ASCII letters lowered (RFC 4034, 6.2).
pub(super) fn lowered(alloc: Global, name: &[Octets]) -> Result<Vec<Octets>, AllocError>
    ensures { IfOk result (λ n. n.items ≡ low name.now) }
{
    let mut labels = Vec::new(alloc);
    for label in name {
        labels.push(lowered_label(alloc, label)?)?;
    }
    Ok(labels)
}

fn lowered_label(alloc: Global, label: &Octets) -> Result<Octets, AllocError>
    ensures { IfOk result (λ l. l ≡ str_to_ascii_lowercase label.now) }
{
    let mut octets = Vec::new(alloc);
    for octet in label.as_slice() {
        octets.push(octet.to_ascii_lowercase())?;
    }
    Ok(Octets { octets })
}

/// Whether two names are the same up to ASCII case (RFC 4343, 3).
pub fn same(a: &[Octets], b: &[Octets]) -> bool
    ensures { result ≡ same a.now b.now }
{
    match (a.split_first(), b.split_first()) {
        (None, None) => true,
        (Some((x, a)), Some((y, b))) => {
            x.as_slice().eq_ignore_ascii_case(y.as_slice()) && same(a, b)
        },
        _ => false,
    }
}

/// Whether a name is at or above another.
pub fn at_or_above(name: &[Octets], other: &[Octets]) -> bool
    ensures { result ≡ at_or_above name.now other.now }
{
    same(name, other) || strictly_above(name, other)
}

/// Whether a name is at or above what another stands under.
pub(super) fn strictly_above(name: &[Octets], other: &[Octets]) -> bool
    ensures { result ≡ strictly_above name.now other.now }
{
    match other.split_first() {
        None => false,
        Some((_, parent)) => same(name, parent) || strictly_above(name, parent),
    }
}

/// The canonical order of names: labels from the right, an absent one first (RFC 4034, 6.1).
pub fn name_cmp(a: &[Octets], b: &[Octets]) -> Ordering
    ensures { result ≡ name_cmp a.now b.now }
{
    match (a.split_last(), b.split_last()) {
        (None, None) => Ordering::Equal,
        (None, Some(_)) => Ordering::Less,
        (Some(_), None) => Ordering::Greater,
        (Some((x, a)), Some((y, b))) => {
            let order = label_cmp(x.as_slice(), y.as_slice());
            if order.is_ne() { order } else { name_cmp(a, b) }
        },
    }
}

/// Compares two labels octet by octet, ASCII letters lowered.
fn label_cmp(a: &[u8], b: &[u8]) -> Ordering
    ensures { result ≡ label_cmp a.now b.now }
{
    match (a.split_first(), b.split_first()) {
        (None, None) => Ordering::Equal,
        (None, Some(_)) => Ordering::Less,
        (Some(_), None) => Ordering::Greater,
        (Some((x, a)), Some((y, b))) => {
            let order = x.to_ascii_lowercase().cmp(&y.to_ascii_lowercase());
            if order.is_ne() {
                order
            } else {
                label_cmp(a, b)
            }
        },
    }
}

/// Whether one name is before another in canonical order.
fn before(a: &[Octets], b: &[Octets]) -> bool
    ensures { result ≡ before a.now b.now }
{
    name_cmp(a, b).is_lt()
}

/// Whether an NSEC record of an owner and a next name covers a name (RFC 4034, 4).
pub fn covers(apex: &[Octets], owner: &[Octets], next: &[Octets], name: &[Octets]) -> bool
    ensures { result ≡ covers apex.now owner.now next.now name.now }
{
    before(owner, name) && (same(next, apex) || before(name, next))
}

/// Whether octets come before others.
fn octets_before(a: &[u8], b: &[u8]) -> bool
    ensures { result ≡ octets_before a.now b.now }
{
    a.cmp(b).is_lt()
}

/// Whether an NSEC3 record of a hash and a next hash covers a hash: what lies between them on a
/// circle (RFC 5155, 3 and 8.3).
pub fn hash_covers(owner: &[u8], next: &[u8], hash: &[u8]) -> bool
    ensures { result ≡ hash_covers owner.now next.now hash.now }
{
    let behind = octets_before(owner, hash);
    let before = octets_before(hash, next);
    (behind && before) || (!octets_before(owner, next) && (behind || before))
}
