//! The labels of names in a message, from both ends.

ghost use Rattle.std.specs.Prelude.{◌≡◌, ◌+◌, true, length};
ghost use Rattle.std.specs.Iterator.{YieldsFirstBy, YieldsLastBy, item_count};
ghost use Rattle.names_wire.specs.Label.{octets_of};
ghost use Rattle.names_parsed.specs.Standing.{stands_at, name_from, labels_from};

use crate::walk::{label_from, label_within};
use names_wire::label::Label;
use std::marker::Model;

/// The labels of a name in a message, from both ends. It takes no memory.
#[derive(Drop)]
pub struct ParsedNameIter<'a> {
    message: &'a [u8],
    /// The place of the first label that is left.
    place: usize,
    /// How many are left.
    left: u8,
}

/// The labels that are left.
impl<'a> Model for ParsedNameIter<'a> {
    ghost use Rattle.std.specs.Prelude.{List, ℕ, ◌≡◌, ◌≤◌, ◌+◌, take, true, length};
    ghost use Rattle.names_parsed.specs.Standing.{stands_at, name_from, labels_from};

    ghost Value = { List (List ℕ) };

    ghost view = { λ it. take it.left (labels_from it.message.now it.place) };

    ghost invariant = { λ it. (stands_at it.message.now it.place ≡ true)
        × (it.left ≤ length (name_from it.message.now it.place) + 1) };
}

impl<'a> ParsedNameIter<'a> {
    /// The `left` labels of the name at a place.
    pub(crate) fn new(message: &'a [u8], place: usize, left: u8) -> Self
        requires stands { stands_at message.now place ≡ true }
        requires all { left ≡ length (name_from message.now place) + 1 }
        ensures { result ≡ labels_from message.now place }
    {
        ParsedNameIter {
            message,
            place,
            left,
        }
    }
}

impl<'a> ParsedNameIter<'a> {
    /// The labels of the name at a place, without the root's. The name has `left` labels, the
    /// root's included.
    pub(crate) fn without_root(message: &'a [u8], place: usize, left: u8) -> Self
        requires stands { stands_at message.now place ≡ true }
        requires all { left ≡ length (name_from message.now place) }
        ensures { result ≡ name_from message.now place }
    {
        ParsedNameIter {
            message,
            place,
            left,
        }
    }
}

impl<'a> Iterator for ParsedNameIter<'a> {
    type Item = Label<'a>;

    ghost can_next = { λ _. Unit {0} };

    ghost next_gives = { YieldsFirstBy octets_of (λ labels. labels) };

    ghost remaining = { item_count (λ labels. labels) };

    fn next(&mut self) -> Option<Label<'a>> {
        if self.left == 0 {
            return None;
        }
        let (label, behind) = label_from(self.message, self.place);
        self.place = behind;
        self.left -= 1;
        Some(label)
    }
}

impl<'a> DoubleEndedIterator for ParsedNameIter<'a> {
    ghost next_back_gives = { YieldsLastBy octets_of (λ labels. labels) };

    fn next_back(&mut self) -> Option<Label<'a>> {
        if self.left == 0 {
            return None;
        }
        let last = self.left - 1;
        let label = label_within(self.message, self.place, usize::from(last));
        self.left = last;
        Some(label)
    }
}
