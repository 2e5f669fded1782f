//! Absolute names over flat octets.

ghost use Rattle.std.specs.Prelude.{◌≡◌, ◌↔◌, ◌+◌, ◌++◌, ◌∷◌, [], ℕ, List, length, slice_index_or};
ghost use Rattle.std.specs.Prelude.{IfOk, IfErr, IsOk, IsTrue};
ghost use Rattle.definitions.specs.Name.{IsName, low, wire};
ghost use Rattle.names_labels.specs.Flat.{StartsLabel, spelled, IsRun, IsFlat, labels_in, name_in};
ghost use Rattle.names_labels.specs.Flat.{SpellsName};
ghost use Rattle.names_labels.specs.Refused.{RefusedName};
ghost use Rattle.names_wire.specs.Label.{octets_of};

use crate::builder::{BuiltOctets, Finish, NameBuilder};
use crate::relative::RelativeName;
use names_labels::check::check_absolute;
use names_labels::flat;
use names_labels::name_error::NameError;
use names_labels::traits::{Absolute, Labels, ToLabelIter};
use names_wire::builder::ShortBuf;
use names_wire::label::Label;
use names_wire::octets::Octets;
use std::alloc::{AllocError, Global};
use std::borrow::CowSlice;
use std::marker::Model;

/// An absolute domain name: labels in a row of octets, each behind its length, and the root's octet
/// (RFC 1035, 3.1). A contract sees its labels, the leftmost first, without the root's.
#[derive(Debug, Drop)]
pub struct Name<Octs: Octets> {
    octets: Octs,
}

impl<Octs: Octets> Model for Name<Octs> {
    ghost use Rattle.std.specs.Prelude.{List, ℕ};
    ghost use Rattle.names_labels.specs.Flat.{name_in, IsFlat};

    ghost Value = { List (List ℕ) };

    ghost view = { λ n. name_in (Octs.bytes n.octets) };

    ghost invariant = { λ n. IsFlat (Octs.bytes n.octets) };
}

impl<Octs: Octets> Name<Octs> {
    /// The most octets that a name has, the root's included (RFC 1035, 2.3.4).
    pub const MAX_LEN: usize = 255;

    /// The name that the octets spell. Octets that spell no name are dropped.
    pub fn from_octets(octets: Octs) -> Result<Self, NameError>
    where
        Octs: Drop,
        ensures ok { IfOk result (SpellsName (Octs.bytes octets)) }
        ensures refused { IfErr result (RefusedName (Octs.bytes octets)) }
        ensures accepts { let spells = SpellsName (Octs.bytes octets) in
            IsOk result ↔ ((n : List (List ℕ)) × spells n) }
    {
        match check_absolute(octets.as_slice()) {
            Ok(()) => Ok(Name { octets }),
            Err(error) => Err(error),
        }
    }

    /// The name over octets that were found to spell one.
    pub(crate) fn of_octets(octets: Octs) -> Self
        requires { IsFlat (Octs.bytes octets) }
        ensures { result ≡ name_in (Octs.bytes octets) }
    {
        Name { octets }
    }

    /// The wire form.
    pub fn as_slice(&self) -> &[u8]
        ensures value { result.now ≡ wire self.now }
        ensures name { IsName self.now }
    {
        self.octets.as_slice()
    }

    /// The labels in a row, the root's last.
    pub(crate) fn run(&self) -> &[u8]
        ensures run { IsRun result.now }
        ensures labels { labels_in result.now ≡ self.now ++ [] ∷ [] }
        ensures value { result.now ≡ wire self.now }
        ensures name { IsName self.now }
    {
        self.octets.as_slice()
    }

    /// The labels in a row without the root's.
    pub(crate) fn relative_run(&self) -> &[u8]
        ensures run { IsRun result.now }
        ensures labels { labels_in result.now ≡ self.now }
        ensures value { result.now ≡ spelled self.now }
        ensures name { IsName self.now }
    {
        let octets = self.as_slice();
        &octets[..octets.len() - 1]
    }

    pub fn as_octets(&self) -> &Octs
        ensures { Octs.bytes result.now ≡ wire self.now }
    {
        &self.octets
    }

    pub fn into_octets(self) -> Octs
        ensures octets { Octs.bytes result ≡ wire self }
        ensures name { IsName self }
    {
        self.octets
    }

    /// The name over a slice of its octets.
    pub fn for_ref(&self) -> Name<&[u8]>
        ensures { result ≡ self.now }
    {
        Name {
            octets: self.octets.as_slice(),
        }
    }

    /// The number of labels, the root's included.
    pub fn label_count(&self) -> usize
        ensures { result ≡ length self.now + 1 }
    {
        flat::label_count(self.run())
    }

    /// The leftmost label, which is the root's for the root.
    pub fn first(&self) -> Label<'_>
        ensures { octets_of result ≡ slice_index_or self.now 0 [] }
    {
        match flat::label_at(self.run(), 0) {
            Some(label) => label,
            None => Label::root(),
        }
    }

    /// The root's label.
    pub fn last(&self) -> Label<'_>
        ensures { octets_of result ≡ [] }
    {
        Label::root()
    }

    pub fn is_root(&self) -> bool
        ensures { IsTrue result ↔ (self.now ≡ []) }
    {
        self.as_slice().len() == 1
    }
}

impl<Octs: BuiltOctets> Name<Octs> {
    /// Lowers ASCII letters, as the canonical form has them (RFC 4034, 6.2).
    pub fn make_canonical(&mut self)
        ensures { self.new ≡ low self.old }
    {
        self.octets.as_mut_slice().make_ascii_lowercase();
    }

    /// The labels in front of a place at which a label begins (`is_label_start`).
    pub fn truncate(self, len: usize) -> RelativeName<Octs>
        requires { StartsLabel self len }
        ensures parts { (rest : List (List ℕ)) × (result ++ rest ≡ self) }
        ensures place { length (spelled result) ≡ len }
    {
        let mut octets = self.into_octets();
        octets.truncate(len);
        RelativeName::of_octets(octets)
    }
}

impl<'a> Name<&'a [u8]> {
    /// The name that the octets spell.
    pub fn from_slice(slice: &'a [u8]) -> Result<Self, NameError>
        ensures ok { IfOk result (SpellsName slice.now) }
        ensures refused { IfErr result (RefusedName slice.now) }
        ensures accepts { IsOk result ↔ ((n : List (List ℕ)) × SpellsName slice.now n) }
    {
        Name::from_octets(slice)
    }
}

impl Name<&'static [u8]> {
    /// The root.
    pub fn root_ref() -> Self
        ensures { result ≡ [] }
    {
        Name { octets: b"\x00" }
    }

    /// The root, over borrowed octets.
    pub fn root_slice() -> Self
        ensures { result ≡ [] }
    {
        Name::root_ref()
    }
}

impl<'a> Name<CowSlice<'a, u8>> {
    /// The name over octets that are known to spell one (`from_slice` tests this). The octets are
    /// borrowed.
    pub fn borrowed(octets: &'a [u8]) -> Self
        requires { IsFlat octets.now }
        ensures { result ≡ name_in octets.now }
    {
        Name {
            octets: CowSlice::Borrowed(octets),
        }
    }
}

impl Name<Vec<u8>> {
    /// The name over octets that may be borrowed or owned.
    pub fn into_cow(self) -> Name<CowSlice<'static, u8>>
        ensures { result ≡ self }
    {
        Name {
            octets: CowSlice::Owned(self.octets),
        }
    }

    /// The name over a copy of octets that are known to spell one (`from_slice` tests this). The
    /// call is refused only for lack of memory.
    pub fn copied(alloc: Global, octets: &[u8]) -> Result<Self, AllocError>
        requires { IsFlat octets.now }
        ensures { IfOk result (λ n. n ≡ name_in octets.now) }
    {
        Ok(Name {
            octets: Vec::from_slice(alloc, octets)?,
        })
    }

    /// The root with octets of its own. `root_ref` gives it without taking memory.
    pub fn root(alloc: Global) -> Result<Self, ShortBuf>
        ensures { IfOk result (λ n. n ≡ []) }
    {
        Name::root_vec(alloc)
    }

    /// The root with octets of its own. The call is refused only for lack of memory.
    pub fn root_vec(alloc: Global) -> Result<Self, ShortBuf>
        ensures { IfOk result (λ n. n ≡ []) }
    {
        match NameBuilder::new(alloc).into_name() {
            Ok(name) => Ok(name),
            Err(_) => Err(ShortBuf),
        }
    }
}

impl<Octs: Octets> Labels for Name<Octs> {
    ghost use Rattle.std.specs.Prelude.{◌++◌, ◌∷◌, []};

    ghost labels = { λ n. n ++ [] ∷ [] };

    ghost name = { λ n. n };

    ghost reaches = { λ _ _ _. Unit {0} };

    fn label_count(&self) -> usize {
        flat::label_count(self.run())
    }

    fn label_at(&self, index: usize) -> Option<Label<'_>> {
        flat::label_at(self.run(), index)
    }

    fn label_place(&self, _: usize) -> usize {
        0
    }

    fn label_onward(&self, _: usize, index: usize) -> Option<(Label<'_>, usize)> {
        Some((self.label_at(index)?, 0))
    }

    fn label_row(&self) -> Option<&[u8]> {
        Some(self.run())
    }
}

impl<Octs: Octets> ToLabelIter for Name<Octs> {}

impl<Octs: Octets> Absolute for Name<Octs> {
    ghost use Rattle.std.specs.Prelude.{refl};

    ghost rooted = { λ n. refl };
}
