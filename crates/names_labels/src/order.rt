//! Orders of labels and of names: canonical order, from the root, and the order of the octets.

ghost use Rattle.std.specs.Prelude.{◌≡◌, ◌≢◌, ◌↔◌, ◌+◌, ◌≤◌, IsTrue, length, take, drop, map};
ghost use Rattle.std.specs.Int.{w64, to_le_bytes};
ghost use Rattle.std.specs.Char.{to_ascii_lowercase};
ghost use Rattle.std.specs.Ordering.{nat_cmp};
ghost use Rattle.std.specs.Cmp.Lexicographic.{slice_cmp};
ghost use Rattle.names_wire.specs.Label.{octets_of, wire_label};
ghost use Rattle.names_wire.specs.Name.{low, wire, name_cmp};
ghost use Rattle.names_labels.specs.Flat.{labels_in, spelled, IsRun};
ghost use Rattle.names_labels.specs.Order.{in_case, SameEnds, HaveTail};
ghost use Rattle.names_labels.specs.Walked.{WalksTo};

use crate::flat::{behind, label_count, split_label};
use crate::traits::{Absolute, Labels, labels_counted, labels_of};
use names_wire::label::Label;
use std::cmp::Ordering;

/// Whether ASCII letters are compared as they are or lowered.
#[derive(Clone, Copy)]
pub enum Case {
    Kept,
    Lowered,
}

fn label_cmp(a: Label<'_>, b: Label<'_>, case: Case) -> Ordering
    ensures { let octets = wire_label (in_case case (octets_of a.entry)) in
        result ≡ slice_cmp nat_cmp octets (wire_label (in_case case (octets_of b.entry))) }
{
    match case {
        Case::Kept => a.composed_cmp(&b),
        Case::Lowered => a.lowercase_composed_cmp(&b),
    }
}

/// Canonical order of two names, from the root's side, labels in lower case (RFC 4034, 6.1).
///
/// The labels that a longer name has in front are skipped. Then both names are walked once, and the
/// last difference decides.
pub fn labels_cmp<A: Labels, B: Labels>(name: &A, other: &B) -> Ordering
    ensures { result ≡ name_cmp (A.labels name.now) (B.labels other.now) }
{
    if let (Some(run), Some(others)) = (name.label_row(), other.label_row()) {
        return runs_cmp(run, others);
    }
    let (count, other_count) = (name.label_count(), other.label_count());
    let mut left = labels_counted(name, count.saturating_sub(other_count), count);
    let mut right = labels_counted(other, other_count.saturating_sub(count), other_count);
    let mut order = Ordering::Equal;
    while let (Some(a), Some(b)) = (left.next(), right.next()) {
        order = a.cmp(&b).then(order);
    }
    order.then(count.cmp(&other_count))
}

/// Canonical order of two names whose labels stand in rows, from the root's side, labels in lower
/// case.
///
/// Each row is walked up to the octets that both have in common at their ends. Then the longer of
/// the two rests is walked on until both are equally long. The last labels before these rests
/// decide.
fn runs_cmp(run: &[u8], other: &[u8]) -> Ordering
    requires run { IsRun run.now }
    requires other { IsRun other.now }
    ensures { result ≡ name_cmp (labels_in run.now) (labels_in other.now) }
{
    let tail = common_tail(run, other);
    let (mut label, mut left) = walk_to(run, tail);
    let (mut other_label, mut right) = walk_to(other, tail);
    while left.len() != right.len() {
        if left.len() >= right.len() {
            let Some((first, rest)) = split_label(left) else {
                break;
            };
            (label, left) = (Some(first), rest);
        } else {
            let Some((first, rest)) = split_label(right) else {
                break;
            };
            (other_label, right) = (Some(first), rest);
        }
    }
    label.cmp(&other_label)
}

/// Walks a row until at most `tail` octets are left. Returns the last label that was passed, if
/// there is one, and what is left.
fn walk_to(run: &[u8], tail: usize) -> (Option<Label<'_>>, &[u8])
    requires { IsRun run.now }
    ensures { WalksTo run.now tail result.0 result.1.now }
{
    let (mut label, mut rest) = (None, run);
    while rest.len() > tail {
        let Some((first, behind)) = split_label(rest) else {
            break;
        };
        (label, rest) = (Some(first), behind);
    }
    (label, rest)
}

/// How many octets at the end of both are the same, up to ASCII case.
pub fn common_tail(octets: &[u8], others: &[u8]) -> usize
    ensures { HaveTail octets.now others.now result }
{
    let most = octets.len().min(others.len());
    let mut count = common_eights(octets, others);
    while count < most {
        let (octet, other) = (
            octets[octets.len() - 1 - count],
            others[others.len() - 1 - count],
        );
        if octet != other && !is_other_case(octet, other) {
            break;
        }
        count += 1;
    }
    count
}

/// How many octets at the end of both are equal, counted in groups of eight.
fn common_eights(octets: &[u8], others: &[u8]) -> usize
    ensures { SameEnds octets.now others.now result }
{
    let most = octets.len().min(others.len());
    let mut count = 0;
    while count + 8 <= most {
        let more = count + 8;
        if eight_at(octets, octets.len() - more) != eight_at(others, others.len() - more) {
            break;
        }
        count = more;
    }
    count
}

/// Eight octets from a place on, as one number.
fn eight_at(octets: &[u8], place: usize) -> u64
    requires { place + 8 ≤ length octets.now }
    ensures { to_le_bytes w64 result ≡ take 8 (drop place octets.now) }
{
    u64::from_le_bytes([
        octets[place],
        octets[place + 1],
        octets[place + 2],
        octets[place + 3],
        octets[place + 4],
        octets[place + 5],
        octets[place + 6],
        octets[place + 7],
    ])
}

/// Whether two octets are one letter in both cases.
fn is_other_case(octet: u8, other: u8) -> bool
    requires { octet ≢ other }
    ensures { let lower = to_ascii_lowercase in IsTrue result ↔ (lower octet ≡ lower other) }
{
    octet.abs_diff(other) == 32 && octet.eq_ignore_ascii_case(&other)
}

/// Order of the octets of two names in wire form, label by label from the left.
fn labels_composed_cmp<A: Labels, B: Labels>(name: &A, other: &B, case: Case) -> Ordering
    ensures { let octets = spelled (map (in_case case) (A.labels name.now)) in
        result ≡ slice_cmp nat_cmp octets (spelled (map (in_case case) (B.labels other.now))) }
{
    let (mut left, mut right) = (labels_of(name), labels_of(other));
    loop {
        let (a, b) = match (left.next(), right.next()) {
            (Some(a), Some(b)) => (a, b),
            (Some(_), None) => return Ordering::Greater,
            (None, Some(_)) => return Ordering::Less,
            (None, None) => return Ordering::Equal,
        };
        let order = label_cmp(a, b, case);
        if order.is_ne() {
            return order;
        }
    }
}

/// Canonical order of two absolute names: labels from the root on, in lower case; an absent label
/// comes first (RFC 4034, 6.1).
pub fn name_cmp<A: Absolute, B: Absolute>(name: &A, other: &B) -> Ordering
    ensures { result ≡ name_cmp (A.name name.now) (B.name other.now) }
{
    labels_cmp(name, other)
}

/// The order of the octets of two absolute names in wire form.
pub fn composed_cmp<A: Absolute, B: Absolute>(name: &A, other: &B) -> Ordering
    ensures { result ≡ slice_cmp nat_cmp (wire (A.name name.now)) (wire (B.name other.now)) }
{
    labels_composed_cmp(name, other, Case::Kept)
}

/// The order of the octets of two absolute names in wire form, with ASCII letters lowered.
pub fn lowercase_composed_cmp<A: Absolute, B: Absolute>(name: &A, other: &B) -> Ordering
    ensures { let octets = wire (low (A.name name.now)) in
        result ≡ slice_cmp nat_cmp octets (wire (low (B.name other.now))) }
{
    labels_composed_cmp(name, other, Case::Lowered)
}
