//! A name in a message and its ancestors, from both ends.

ghost use Rattle.std.specs.Prelude.{◌≡◌, ◌+◌, length};
ghost use Rattle.std.specs.Iterator.{YieldsFirstBy, YieldsLastBy, item_count};
ghost use Rattle.names_labels.specs.Suffixes.{suffixes};
ghost use Rattle.names_parsed.specs.Parsed.{parsed_name};

use crate::parsed::ParsedName;
use std::marker::Model;

/// A name in a message, its parent and so on to the root, from both ends. It takes no memory.
#[derive(Drop)]
pub struct ParsedSuffixIter<'a> {
    /// The first name that is left.
    name: ParsedName<'a>,
    /// How many are left.
    left: u8,
}

/// The names that are left.
impl<'a> Model for ParsedSuffixIter<'a> {
    ghost use Rattle.std.specs.Prelude.{List, ℕ, ◌≤◌, ◌+◌, take, length};
    ghost use Rattle.names_labels.specs.Suffixes.{suffixes};
    ghost use Rattle.names_parsed.specs.Parsed.{parsed_name};

    ghost Value = { List (List (List ℕ)) };

    ghost view = { λ it. take it.left (suffixes (parsed_name it.name)) };

    ghost invariant = { λ it. it.left ≤ length (parsed_name it.name) + 1 };
}

impl<'a> ParsedSuffixIter<'a> {
    /// A name of `labels` labels, and its ancestors.
    pub(crate) fn new(name: ParsedName<'a>, labels: u8) -> Self
        requires { labels ≡ length (parsed_name name) + 1 }
        ensures { result ≡ suffixes (parsed_name name.entry) }
    {
        ParsedSuffixIter { name, left: labels }
    }
}

impl<'a> Iterator for ParsedSuffixIter<'a> {
    type Item = ParsedName<'a>;

    ghost can_next = { λ _. Unit {0} };

    ghost next_gives = { YieldsFirstBy parsed_name (λ names. names) };

    ghost remaining = { item_count (λ names. names) };

    fn next(&mut self) -> Option<ParsedName<'a>> {
        if self.left == 0 {
            return None;
        }
        let name = self.name;
        self.name = name.parent().unwrap_or(name);
        self.left -= 1;
        Some(name)
    }
}

impl<'a> DoubleEndedIterator for ParsedSuffixIter<'a> {
    ghost next_back_gives = { YieldsLastBy parsed_name (λ names. names) };

    fn next_back(&mut self) -> Option<ParsedName<'a>> {
        if self.left == 0 {
            return None;
        }
        let last = self.left - 1;
        let name = self.name.without(last);
        self.left = last;
        Some(name)
    }
}
