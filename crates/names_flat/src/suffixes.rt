//! A name and its ancestors.

ghost use Rattle.std.specs.Prelude.{◌≡◌};
ghost use Rattle.std.specs.Iterator.{YieldsFirst, item_count};
ghost use Rattle.names_labels.specs.Suffixes.{suffixes};

use crate::name::Name;
use names_labels::flat::split_label;
use names_wire::octets::Octets;
use std::marker::Model;

/// A name, its parent and so on to the root. It takes no memory.
#[derive(Drop)]
pub struct SuffixIter<'a> {
    /// The wire form of the next name; empty behind the root.
    rest: &'a [u8],
}

/// The names that are left.
impl<'a> Model for SuffixIter<'a> {
    ghost use Rattle.std.specs.Prelude.{List, ℕ};
    ghost use Rattle.names_labels.specs.Suffixes.{names_left, IsLeft};

    ghost Value = { List (List (List ℕ)) };

    ghost view = { λ it. names_left it.rest.now };

    ghost invariant = { λ it. IsLeft it.rest.now };
}

impl<Octs: Octets> Name<Octs> {
    /// The name, its parent and so on to the root.
    pub fn iter_suffixes(&self) -> SuffixIter<'_>
        ensures { result ≡ suffixes self.now }
    {
        SuffixIter {
            rest: self.as_slice(),
        }
    }
}

impl<'a> Iterator for SuffixIter<'a> {
    type Item = Name<&'a [u8]>;

    ghost can_next = { λ _. Unit {0} };

    ghost next_gives = { YieldsFirst (λ names. names) };

    ghost remaining = { item_count (λ names. names) };

    fn next(&mut self) -> Option<Name<&'a [u8]>> {
        if self.rest.is_empty() {
            return None;
        }
        let octets = self.rest;
        let (_, rest) = split_label(octets)?;
        self.rest = rest;
        Some(Name::of_octets(octets))
    }
}
