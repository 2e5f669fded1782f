//! The labels of a row, from both ends.

ghost use Rattle.std.specs.Prelude.{◌≡◌};
ghost use Rattle.std.specs.Iterator.{YieldsFirstBy, YieldsLastBy, item_count};
ghost use Rattle.names_wire.specs.Label.{octets_of};
ghost use Rattle.names_labels.specs.Flat.{labels_in, IsRun};

use crate::flat::{split_label, split_last_label, split_near_end};
use names_wire::label::Label;
use std::marker::Model;

/// The labels of a name over flat octets, from both ends. It takes no memory.
///
/// A label at the back is found by a walk from the left. To keep these walks short, labels near the
/// end are kept apart.
#[derive(Drop)]
pub struct NameIter<'a> {
    run: &'a [u8],
    /// The labels behind those of `run`, once a label was asked for from the back.
    near: &'a [u8],
}

/// The labels that are left.
impl<'a> Model for NameIter<'a> {
    ghost use Rattle.std.specs.Prelude.{List, ℕ, ◌++◌};
    ghost use Rattle.names_labels.specs.Flat.{labels_in, IsRun};

    ghost Value = { List (List ℕ) };

    ghost view = { λ it. labels_in it.run.now ++ labels_in it.near.now };

    ghost invariant = { λ it. IsRun it.run.now × IsRun it.near.now };
}

impl<'a> NameIter<'a> {
    /// The labels of a row.
    pub fn over(run: &'a [u8]) -> NameIter<'a>
        requires { IsRun run.now }
        ensures { result ≡ labels_in run.now }
    {
        NameIter { run, near: &[] }
    }
}

impl<'a> Iterator for NameIter<'a> {
    type Item = Label<'a>;

    ghost can_next = { λ _. Unit {0} };

    ghost next_gives = { YieldsFirstBy octets_of (λ labels. labels) };

    ghost remaining = { item_count (λ labels. labels) };

    fn next(&mut self) -> Option<Label<'a>> {
        if let Some((label, rest)) = split_label(self.run) {
            self.run = rest;
            return Some(label);
        }
        let (label, rest) = split_label(self.near)?;
        self.near = rest;
        Some(label)
    }
}

impl<'a> DoubleEndedIterator for NameIter<'a> {
    ghost next_back_gives = { YieldsLastBy octets_of (λ labels. labels) };

    fn next_back(&mut self) -> Option<Label<'a>> {
        if self.near.is_empty() {
            (self.run, self.near) = split_near_end(self.run);
        }
        let (front, label) = split_last_label(self.near)?;
        self.near = front;
        Some(label)
    }
}
