//! The owner of a record in a message.
ghost use Rattle.std.specs.Prelude.{◌≡◌};
ghost use Rattle.names_parsed.specs.Parsed.{parsed_name};

use crate::names::ParsedName;
use std::marker::Model;

/// The name that a record of a message belongs to, read in place. A contract sees its labels, as
/// spelled.
#[derive(Drop)]
pub struct Owner<'a> {
    name: ParsedName<'a>,
}

impl<'a> Model for Owner<'a> {
    ghost use Rattle.std.specs.Prelude.{List, ℕ};
    ghost use Rattle.names_parsed.specs.Parsed.{parsed_name};

    ghost Value = { List (List ℕ) };

    ghost view = { λ o. parsed_name o.name };

    ghost invariant = { λ _. Unit {0} };
}

impl<'a> Owner<'a> {
    /// The owner that has this name.
    pub(crate) fn new(name: ParsedName<'a>) -> Self
        ensures { result ≡ parsed_name name.entry }
    {
        Owner { name }
    }

    /// The name of the owner.
    pub fn name(&self) -> &ParsedName<'a>
        ensures { parsed_name result.now ≡ self.now }
    {
        &self.name
    }
}
