//! Labels one after another.

ghost use Rattle.std.specs.Prelude.{◌≡◌, ◌≤◌, ◌<◌, length, drop, Some, None, OnSome, IfSome, []};
ghost use Rattle.std.specs.Prelude.{IfNone, IsNone, ◌⊎◌, MatchResult, Ok, Err};
ghost use Rattle.std.specs.Option.{option_map};
ghost use Rattle.std.specs.Iterator.{YieldsFirstBy, item_count};
ghost use Rattle.definitions.specs.Limits.{pointer_limit};
ghost use Rattle.names_wire.specs.Slices.{labels_along, pointer_from};
ghost use Rattle.names_wire.specs.Label.{octets_of, split};

use crate::label::{Label, SplitLabelError};
use std::marker::Model;

/// How many pointers are followed from one label to the next and on.
const MAX_POINTERS: u8 = 255;

/// The labels of octets from a place on, through pointers: up to the root's label, or to what is no
/// label.
///
/// At most 255 pointers are followed, each to a place before its own (RFC 1035, 4.1.4).
#[derive(Drop)]
pub struct SliceLabelsIter<'a> {
    slice: &'a [u8],
    start: usize,
    pointers: u8,
}

/// The labels that are left.
impl<'a> Model for SliceLabelsIter<'a> {
    ghost use Rattle.std.specs.Prelude.{List, ℕ, length, ◌≤◌};
    ghost use Rattle.names_wire.specs.Slices.{labels_along};

    ghost Value = { List (List ℕ) };

    ghost view = { λ it. labels_along it.pointers it.slice.now it.start };

    ghost invariant = { λ it. it.start ≤ length it.slice.now };
}

impl<'a> SliceLabelsIter<'a> {
    /// The labels from a place on: none where the place is not within the octets.
    pub(crate) fn new(slice: &'a [u8], start: usize) -> SliceLabelsIter<'a>
        ensures { result ≡ labels_along pointer_limit slice.now start }
    {
        SliceLabelsIter {
            slice,
            start: start.min(slice.len()),
            pointers: MAX_POINTERS,
        }
    }
}

impl<'a> Iterator for SliceLabelsIter<'a> {
    type Item = Label<'a>;

    ghost can_next = { λ _. Unit {0} };

    ghost next_gives = { YieldsFirstBy octets_of (λ labels. labels) };

    ghost remaining = { item_count (λ labels. labels) };

    fn next(&mut self) -> Option<Label<'a>> {
        let (place, pointers) = follow(self.slice, self.start, self.pointers);
        self.pointers = pointers;
        match label_at(self.slice, place) {
            Err(_) => {
                self.start = self.slice.len();
                None
            }
            Ok((label, _)) if label.is_root() => {
                self.start = self.slice.len();
                Some(label)
            }
            Ok((label, rest)) => {
                self.start = self.slice.len() - rest.len();
                Some(label)
            }
        }
    }
}

/// The place behind the pointers at a place, and how many may still be followed.
fn follow(octets: &[u8], place: usize, pointers: u8) -> (usize, u8)
    requires { place ≤ length octets.now }
    ensures within { result.0 ≤ length octets.now }
    ensures same { labels_along result.1 octets.now result.0
        ≡ labels_along pointers octets.now place }
    ensures last { (result.1 ≡ 0) ⊎ (pointer_from octets.now result.0 ≡ None) }
{
    let (mut place, mut left) = (place, pointers);
    while left > 0 {
        let Some(to) = pointer_at(octets, place) else {
            break;
        };
        place = to;
        left -= 1;
    }
    (place, left)
}

/// The place that a pointer at `place` leads to, if it is before its own.
fn pointer_at(octets: &[u8], place: usize) -> Option<usize>
    requires { place ≤ length octets.now }
    ensures value { result ≡ pointer_from octets.now place }
    ensures before { IfSome result (λ to. to < place) }
{
    match label_at(octets, place) {
        Err(SplitLabelError::Pointer(to)) if (to as usize) < place => Some(to as usize),
        _ => None,
    }
}

/// The label at a place, and what stands behind it.
pub fn label_at(octets: &[u8], place: usize) -> Result<(Label<'_>, &[u8]), SplitLabelError>
    requires { place ≤ length octets.now }
    ensures { let is = split (drop place octets.now) in
        MatchResult result (λ found. is ≡ Ok (octets_of found.0, found.1.now)) (λ e. is ≡ Err e) }
{
    Label::split_from(&octets[place..])
}
