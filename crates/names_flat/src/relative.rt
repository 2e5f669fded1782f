//! Relative names over flat octets.

ghost use Rattle.std.specs.Prelude.{◌∷◌, ◌++◌, ◌≡◌, ◌↔◌, ◌-◌, ◌==◌, [], ℕ, List, length, slice_get};
ghost use Rattle.std.specs.Prelude.{option_map, IfOk, IfErr, IsOk};
ghost use Rattle.definitions.specs.Name.{IsName, low};
ghost use Rattle.names_labels.specs.Flat.{StartsLabel, IsRun, IsFlatRelative, labels_in, spelled};
ghost use Rattle.names_labels.specs.Flat.{SpellsRelative};
ghost use Rattle.names_labels.specs.RefusedRelative.{RefusedRelative};
ghost use Rattle.names_wire.specs.Label.{octets_of};

use crate::builder::{BuiltOctets, Finish, NameBuilder};
use crate::name::Name;
use crate::push_error::PushNameError;
use names_labels::check::check_relative;
use names_labels::flat;
use names_labels::relative_error::RelativeNameError;
use names_labels::traits::{Labels, Relative, ToLabelIter};
use names_wire::builder::ShortBuf;
use names_wire::label::Label;
use names_wire::octets::Octets;
use std::alloc::Global;
use std::borrow::CowSlice;
use std::marker::Model;

/// A relative domain name: labels in a row of octets, each behind its length, and no root's octet.
/// A contract sees its labels, the leftmost first.
#[derive(Drop)]
pub struct RelativeName<Octs: Octets> {
    octets: Octs,
}

impl<Octs: Octets> Model for RelativeName<Octs> {
    ghost use Rattle.std.specs.Prelude.{List, ℕ};
    ghost use Rattle.names_labels.specs.Flat.{labels_in, IsFlatRelative};

    ghost Value = { List (List ℕ) };

    ghost view = { λ n. labels_in (Octs.bytes n.octets) };

    ghost invariant = { λ n. IsFlatRelative (Octs.bytes n.octets) };
}

impl<Octs: Octets> RelativeName<Octs> {
    /// The name that the octets spell. Octets that spell no name are dropped.
    pub fn from_octets(octets: Octs) -> Result<Self, RelativeNameError>
    where
        Octs: Drop,
        ensures ok { IfOk result (SpellsRelative (Octs.bytes octets)) }
        ensures refused { IfErr result (RefusedRelative (Octs.bytes octets)) }
        ensures accepts { let spells = SpellsRelative (Octs.bytes octets) in
            IsOk result ↔ ((n : List (List ℕ)) × spells n) }
    {
        match check_relative(octets.as_slice()) {
            Ok(()) => Ok(RelativeName { octets }),
            Err(error) => Err(error),
        }
    }

    /// The name over octets that were found to spell one.
    pub(crate) fn of_octets(octets: Octs) -> Self
        requires { IsFlatRelative (Octs.bytes octets) }
        ensures { result ≡ labels_in (Octs.bytes octets) }
    {
        RelativeName { octets }
    }

    /// The labels, each behind its length.
    pub fn as_slice(&self) -> &[u8]
        ensures value { result.now ≡ spelled self.now }
        ensures name { IsName self.now }
    {
        self.octets.as_slice()
    }

    pub(crate) fn run(&self) -> &[u8]
        ensures run { IsRun result.now }
        ensures labels { labels_in result.now ≡ self.now }
        ensures value { result.now ≡ spelled self.now }
        ensures name { IsName self.now }
    {
        self.octets.as_slice()
    }

    pub fn as_octets(&self) -> &Octs
        ensures { Octs.bytes result.now ≡ spelled self.now }
    {
        &self.octets
    }

    pub fn into_octets(self) -> Octs
        ensures octets { Octs.bytes result ≡ spelled self }
        ensures name { IsName self }
    {
        self.octets
    }

    /// The name over a slice of its octets.
    pub fn for_ref(&self) -> RelativeName<&[u8]>
        ensures { result ≡ self.now }
    {
        RelativeName {
            octets: self.octets.as_slice(),
        }
    }

    /// The number of octets.
    pub fn len(&self) -> usize
        ensures { result ≡ length (spelled self.now) }
    {
        self.as_slice().len()
    }

    pub fn is_empty(&self) -> bool
        ensures { result ≡ (length self.now == 0) }
    {
        self.label_count() == 0
    }

    /// The number of labels.
    pub fn label_count(&self) -> usize
        ensures { result ≡ length self.now }
    {
        flat::label_count(self.run())
    }

    /// One less than the number of labels; 0 for the empty name.
    pub fn ndots(&self) -> usize
        ensures { result ≡ length self.now - 1 }
    {
        self.label_count().saturating_sub(1)
    }

    /// The leftmost label.
    pub fn first(&self) -> Option<Label<'_>>
        ensures { option_map octets_of result ≡ slice_get self.now 0 }
    {
        flat::label_at(self.run(), 0)
    }

    /// The rightmost label.
    pub fn last(&self) -> Option<Label<'_>>
        ensures { option_map octets_of result ≡ slice_get self.now (length self.now - 1) }
    {
        let run = self.run();
        flat::label_at(run, flat::label_count(run).saturating_sub(1))
    }
}

impl<Octs: BuiltOctets> RelativeName<Octs> {
    /// Lowers ASCII letters, as the canonical form has them (RFC 4034, 6.2).
    pub fn make_canonical(&mut self)
        ensures { self.new ≡ low self.old }
    {
        self.octets.as_mut_slice().make_ascii_lowercase();
    }

    /// Keeps the labels in front of a place. A label begins there or the last one ends
    /// (`is_label_start`).
    pub fn truncate(&mut self, len: usize)
        requires { StartsLabel self.old len }
        ensures parts { (rest : List (List ℕ)) × (self.new ++ rest ≡ self.old) }
        ensures place { length (spelled self.new) ≡ len }
    {
        self.octets.truncate(len);
    }

    /// The name under the root. The call is refused only for lack of room.
    pub fn into_absolute(self) -> Result<Name<Octs>, PushNameError>
    where
        Octs: Drop,
        ensures ok { IfOk result (λ n. n ≡ self) }
        ensures err { IfErr result (λ e. e ≡ PushNameError.ShortBuf) }
    {
        self.into_builder().into_name()
    }

    /// A builder that continues behind the labels.
    pub fn into_builder(self) -> NameBuilder<Octs>
        ensures { result ≡ record { done = self; open_label = [] } }
    {
        NameBuilder::behind(self.into_octets())
    }
}

impl RelativeName<Vec<u8>> {
    /// The name over octets that may be borrowed or owned.
    pub fn into_cow(self) -> RelativeName<CowSlice<'static, u8>>
        ensures { result ≡ self }
    {
        RelativeName {
            octets: CowSlice::Owned(self.octets),
        }
    }

    /// The name with no labels, with octets of its own. It takes no memory yet.
    pub fn empty(alloc: Global) -> Self
        ensures { result ≡ [] }
    {
        RelativeName::empty_vec(alloc)
    }

    /// The name of the label `*`, with octets of its own. `wildcard_ref` gives it without taking
    /// memory.
    pub fn wildcard(alloc: Global) -> Result<Self, ShortBuf>
        ensures { IfOk result (λ n. n ≡ (42 ∷ []) ∷ []) }
    {
        RelativeName::wildcard_vec(alloc)
    }

    /// The name with no labels, with octets of its own. It takes no memory yet.
    pub fn empty_vec(alloc: Global) -> Self
        ensures { result ≡ [] }
    {
        NameBuilder::new(alloc).finish()
    }

    /// The name of the label `*`, with octets of its own. The call is refused only for lack of
    /// memory.
    pub fn wildcard_vec(alloc: Global) -> Result<Self, ShortBuf>
        ensures { IfOk result (λ n. n ≡ (42 ∷ []) ∷ []) }
    {
        let mut builder = NameBuilder::new(alloc);
        match builder.append_label(b"*") {
            Ok(()) => Ok(builder.finish()),
            Err(_) => Err(ShortBuf),
        }
    }
}

impl<'a> RelativeName<&'a [u8]> {
    /// The name that the octets spell.
    pub fn from_slice(slice: &'a [u8]) -> Result<Self, RelativeNameError>
        ensures ok { IfOk result (SpellsRelative slice.now) }
        ensures refused { IfErr result (RefusedRelative slice.now) }
        ensures accepts { IsOk result ↔ ((n : List (List ℕ)) × SpellsRelative slice.now n) }
    {
        RelativeName::from_octets(slice)
    }
}

impl RelativeName<&'static [u8]> {
    /// The name with no labels.
    pub fn empty_ref() -> Self
        ensures { result ≡ [] }
    {
        RelativeName { octets: b"" }
    }

    /// The name of the label `*`.
    pub fn wildcard_ref() -> Self
        ensures { result ≡ (42 ∷ []) ∷ [] }
    {
        RelativeName { octets: b"\x01*" }
    }

    /// The name of the label `*`, over borrowed octets.
    pub fn wildcard_slice() -> Self
        ensures { result ≡ (42 ∷ []) ∷ [] }
    {
        RelativeName::wildcard_ref()
    }

    /// The name with no labels, over borrowed octets.
    pub fn empty_slice() -> Self
        ensures { result ≡ [] }
    {
        RelativeName::empty_ref()
    }
}

impl<Octs: Octets> Labels for RelativeName<Octs> {
    ghost labels = { λ n. n };

    ghost name = { λ n. n };

    ghost reaches = { λ _ _ _. Unit {0} };

    fn label_count(&self) -> usize {
        flat::label_count(self.run())
    }

    fn label_at(&self, index: usize) -> Option<Label<'_>> {
        flat::label_at(self.run(), index)
    }

    fn label_place(&self, _: usize) -> usize {
        0
    }

    fn label_onward(&self, _: usize, index: usize) -> Option<(Label<'_>, usize)> {
        Some((self.label_at(index)?, 0))
    }

    fn label_row(&self) -> Option<&[u8]> {
        Some(self.run())
    }
}

impl<Octs: Octets> ToLabelIter for RelativeName<Octs> {}

impl<Octs: Octets> Relative for RelativeName<Octs> {
    ghost use Rattle.std.specs.Prelude.{refl};

    ghost unrooted = { λ n. refl };
}
