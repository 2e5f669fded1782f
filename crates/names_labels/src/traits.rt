//! What names have in common, however they are kept: labels by place.

ghost use Rattle.std.specs.Prelude.{◌≡◌, ◌++◌, ◌∷◌, [], ◌≤◌, ◌+◌, ◌-◌, ℕ, length, option_map};
ghost use Rattle.std.specs.Prelude.{slice_get, drop, IfSome, MatchOption, Some, None};
ghost use Rattle.names_wire.specs.Name.{Name, IsName, at_or_above, same};
ghost use Rattle.names_labels.specs.Flat.{spelled, IsRunOf};
ghost use Rattle.std.specs.Iterator.{YieldsFirstBy, YieldsLastBy, item_count};
ghost use Rattle.names_wire.specs.Label.{octets_of};
ghost use Rattle.names_labels.specs.Compare.{begins_with};
ghost use Rattle.names_labels.specs.Walking.{StandsAt};

use crate::flat::{behind, runs_eq, split_label};
use names_wire::label::Label;
use std::marker::Model;

/// Labels that are reached by place, the leftmost first. An absolute name has the root's empty
/// label last.
pub trait Labels {
    /// The labels in their order.
    ghost labels: { Self → Name };

    /// The labels without the root's.
    ghost name: { Self → Name };

    /// The label at an index can be reached from a place. Each type decides what its places are.
    ghost reaches: { Self → ℕ → ℕ → Type 0 };

    /// How many labels there are, the root's included.
    fn label_count(&self) -> usize
        ensures count { result ≡ length (labels self.now) }
        ensures short { length (spelled (labels self.now)) ≤ 255 }
        ensures name { IsName (name self.now) };

    /// The label at a place, counted from the left, or `None` past the last one.
    fn label_at(&self, index: usize) -> Option<Label<'_>>
        ensures { option_map octets_of result ≡ slice_get (labels self.now) index };

    /// A place from which the label at an index is reached, or nothing past the last label.
    fn label_place(&self, index: usize) -> usize
        requires { index ≤ length (labels self.now) }
        ensures { reaches self.now result index };

    /// The label at an index, and a place from which the next label is reached, so that a walk over
    /// the labels need not start from the first label each time.
    fn label_onward(&self, place: usize, index: usize) -> Option<(Label<'_>, usize)>
        requires { reaches self.now place index }
        ensures { let found = slice_get (labels self.now) index in
            let onward = λ (p : ℕ). reaches self.now p (index + 1) in
            MatchOption result (found ≡ None)
            (λ step. (Some (octets_of step.0) ≡ found) × onward step.1) };

    /// The labels in a row, if the name keeps them in one.
    fn label_row(&self) -> Option<&[u8]>
        ensures row { IfSome result (λ run. IsRunOf run.now (labels self.now)) }
        ensures name { IfSome result (λ _. IsName (name self.now)) }
    {
        None
    }
}

/// Where a label stands: in front of a row, or where it is reached from a place.
#[derive(Clone, Copy)]
pub(crate) enum Spot<'a> {
    Row(&'a [u8]),
    Place(usize),
}

/// The labels of a name.
pub(crate) fn labels_of<N: Labels>(name: &N) -> LabelIter<'_, N>
    ensures { result ≡ N.labels name.now }
{
    labels_counted(name, 0, name.label_count())
}

/// The labels of a name from an index on, where the number of its labels is known.
pub(crate) fn labels_counted<N: Labels>(name: &N, start: usize, count: usize) -> LabelIter<'_, N>
    requires within { start ≤ count }
    requires all { count ≡ length (N.labels name.now) }
    ensures { result ≡ drop start (N.labels name.now) }
{
    let spot = match name.label_row() {
        Some(run) => Spot::Row(behind(run, start)),
        None => Spot::Place(name.label_place(start)),
    };
    LabelIter {
        name,
        spot,
        front: start,
        back: count,
    }
}

/// Whether labels begin with all of some others, up to ASCII case.
fn agrees<A: Labels, B: Labels>(labels: LabelIter<'_, A>, wanted: LabelIter<'_, B>) -> bool
    ensures { result ≡ begins_with labels.entry wanted.entry }
{
    let (mut labels, mut wanted) = (labels, wanted);
    while let Some(b) = wanted.next() {
        let Some(a) = labels.next() else {
            return false;
        };
        if a != b {
            return false;
        }
    }
    true
}

/// Whether two names have the same labels, up to ASCII case.
pub fn labels_eq<A: Labels, B: Labels>(name: &A, other: &B) -> bool
    ensures { result ≡ same (A.labels name.now) (B.labels other.now) }
{
    if let (Some(run), Some(others)) = (name.label_row(), other.label_row()) {
        return runs_eq(run, others);
    }
    let count = name.label_count();
    count == other.label_count()
        && agrees(
            labels_counted(name, 0, count),
            labels_counted(other, 0, count),
        )
}

/// How many octets the labels of a name take in wire form. Labels that stand in a row take as many
/// as the row has.
fn labels_len<N: Labels>(name: &N) -> u16
    ensures { result ≡ length (spelled (N.labels name.now)) }
{
    let _count = name.label_count();
    if let Some(run) = name.label_row() {
        return run.len() as u16;
    }
    let (mut labels, mut len) = (labels_of(name), 0);
    while let Some(label) = labels.next() {
        len += label.len() as u16 + 1;
    }
    len
}

/// Labels in their order, with what is computed from them.
pub trait ToLabelIter: Labels {
    /// The labels from both ends.
    fn iter_labels(&self) -> LabelIter<'_, Self>
    where
        Self: Sized,
        ensures { result ≡ Self.labels self.now }
    {
        labels_of(self)
    }

    /// How many octets the labels take in wire form.
    fn compose_len(&self) -> u16
        ensures { result ≡ length (spelled (Self.labels self.now)) }
    {
        labels_len(self)
    }

    /// Whether the labels begin with those of another name, up to ASCII case.
    fn starts_with<N: Labels>(&self, base: &N) -> bool
        ensures { result ≡ begins_with (Self.labels self.now) (N.labels base.now) }
    {
        agrees(labels_of(self), labels_of(base))
    }

    /// Whether the labels end with those of another name, up to ASCII case.
    fn ends_with<N: Labels>(&self, base: &N) -> bool
        ensures { result ≡ at_or_above (N.labels base.now) (Self.labels self.now) }
    {
        let (count, tail) = (self.label_count(), base.label_count());
        if tail > count {
            return false;
        }
        if let (Some(run), Some(others)) = (self.label_row(), base.label_row()) {
            return runs_eq(behind(run, count - tail), others);
        }
        agrees(
            labels_counted(self, count - tail, count),
            labels_counted(base, 0, tail),
        )
    }
}

/// Labels that end with the root's.
pub trait Absolute: ToLabelIter {
    ghost rooted: { (n : Self) → Self.labels n ≡ Self.name n ++ [] ∷ [] };
}

/// Labels that do not end with the root's: at most 254 octets in wire form.
pub trait Relative: ToLabelIter {
    ghost unrooted: { (n : Self) → Self.labels n ≡ Self.name n };
}

/// A borrowed name.
impl<N: Labels> Labels for &N {
    ghost labels = { λ n. N.labels n.now };

    ghost name = { λ n. N.name n.now };

    ghost reaches = { λ n. N.reaches n.now };

    fn label_count(&self) -> usize {
        (**self).label_count()
    }

    fn label_at(&self, index: usize) -> Option<Label<'_>> {
        (**self).label_at(index)
    }

    fn label_place(&self, index: usize) -> usize {
        (**self).label_place(index)
    }

    fn label_onward(&self, place: usize, index: usize) -> Option<(Label<'_>, usize)> {
        (**self).label_onward(place, index)
    }

    fn label_row(&self) -> Option<&[u8]> {
        (**self).label_row()
    }
}

impl<N: ToLabelIter> ToLabelIter for &N {}

impl<N: Absolute> Absolute for &N {
    ghost rooted = { λ n. N.rooted n.now };
}

/// The labels of a name, from both ends. It takes no memory.
#[derive(Drop)]
pub struct LabelIter<'a, N: Labels> {
    name: &'a N,
    /// Where the label at index `front` stands.
    spot: Spot<'a>,
    front: usize,
    back: usize,
}

/// The labels that are left.
impl<'a, N: Labels> Model for LabelIter<'a, N> {
    ghost use Rattle.std.specs.Prelude.{List, ℕ, ◌-◌, ◌≤◌, take, drop, length};
    ghost use Rattle.names_labels.specs.Walking.{StandsAt};

    ghost Value = { List (List ℕ) };

    ghost view = { λ it. take (it.back - it.front) (drop it.front (N.labels it.name.now)) };

    ghost invariant = { λ it. (it.back ≤ length (N.labels it.name.now))
        × StandsAt (N.labels it.name.now) it.front (N.reaches it.name.now) it.spot };
}

/// The label at an index, and where the next one stands.
fn label_then<'a, N: Labels>(
    name: &'a N,
    spot: Spot<'a>,
    index: usize,
) -> Option<(Label<'a>, Spot<'a>)>
    requires { StandsAt (N.labels name.now) index (N.reaches name.now) spot }
    ensures { let found = slice_get (N.labels name.now) index in
        let onward = StandsAt (N.labels name.now) (index + 1) (N.reaches name.now) in
        MatchOption result (found ≡ None)
        (λ step. (Some (octets_of step.0) ≡ found) × onward step.1) }
{
    match spot {
        Spot::Row(run) => {
            let (label, behind) = split_label(run)?;
            Some((label, Spot::Row(behind)))
        }
        Spot::Place(place) => {
            let (label, next) = name.label_onward(place, index)?;
            Some((label, Spot::Place(next)))
        }
    }
}

impl<'a, N: Labels> Iterator for LabelIter<'a, N> {
    type Item = Label<'a>;

    ghost can_next = { λ _. Unit {0} };

    ghost next_gives = { YieldsFirstBy octets_of (λ labels. labels) };

    ghost remaining = { item_count (λ labels. labels) };

    fn next(&mut self) -> Option<Label<'a>> {
        if self.front >= self.back {
            return None;
        }
        let (label, spot) = label_then(self.name, self.spot, self.front)?;
        self.spot = spot;
        self.front += 1;
        Some(label)
    }
}

impl<'a, N: Labels> DoubleEndedIterator for LabelIter<'a, N> {
    ghost next_back_gives = { YieldsLastBy octets_of (λ labels. labels) };

    fn next_back(&mut self) -> Option<Label<'a>> {
        if self.front >= self.back {
            return None;
        }
        let label = self.name.label_at(self.back - 1)?;
        self.back -= 1;
        Some(label)
    }
}
