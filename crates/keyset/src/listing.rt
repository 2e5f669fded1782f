//! The references that a call lists.
ghost use Rattle.std.specs.Prelude.{◌≡◌, ◌<◌, ◌+◌, ◌++◌, ◌∷◌, [], List, IfSome, length, map};
ghost use Rattle.keyset.specs.KeyState.{Reference, listed};
ghost use Rattle.keyset.specs.Listing.{IsIndexOf, listed_by};

use std::alloc::Global;
use std::collections::HashSet;
use std::convert::AsStr;
use std::marker::Model;

/// The first `count` of some references, each found by its hash, or one by one where there is no
/// memory for hashes.
#[derive(Drop)]
pub(crate) struct Listing<'a, T: AsStr> {
    all: &'a [T],
    count: usize,
    index: Option<HashSet<&'a str>>,
}

impl<'a, T: AsStr> Model for Listing<'a, T> {
    ghost use Rattle.std.specs.Prelude.{map, take, length, ◌≤◌, IfSome};
    ghost use Rattle.keyset.specs.Listing.{IsIndexOf};
    ghost use Rattle.keyset.specs.Listing as specs;

    ghost Value = { specs.Listing };

    ghost view = { λ l. record { all = map T.text l.all.now; count = l.count } };

    ghost invariant = { λ l. (l.count ≤ length l.all.now)
        × IfSome l.index (λ s. IsIndexOf (take l.count (map T.text l.all.now)) s.keys) };
}

impl<'a, T: AsStr> Listing<'a, T> {
    /// None of the references yet.
    pub(crate) fn none_of(alloc: Global, all: &'a [T]) -> Self
        ensures { result ≡ record { all = map T.text all.now; count = 0 } }
    {
        Listing {
            all,
            count: 0,
            index: Some(HashSet::new(alloc)),
        }
    }

    /// All of the references.
    pub(crate) fn all_of(alloc: Global, all: &'a [T]) -> Self
        ensures { result ≡ record { all = map T.text all.now; count = length all.now } }
    {
        let mut listing = Listing::none_of(alloc, all);
        for _ in 0..all.len() {
            listing.advance();
        }
        listing
    }

    /// Lists one more.
    pub(crate) fn advance(&mut self)
        requires { self.old.count < length self.old.all }
        ensures { self.new ≡ record self.old { count = self.old.count + 1 } }
    {
        if let Some(reference) = self.all.get(self.count) {
            self.index = with(self.index.take(), reference.as_str());
            self.count += 1;
        }
    }

    /// What is listed.
    pub(crate) fn references(&self) -> &'a [T]
        ensures { map T.text result.now ≡ listed_by self.now }
    {
        &self.all[..self.count]
    }

    /// Whether a reference is listed.
    pub(crate) fn contains(&self, reference: &str) -> bool
        ensures { result ≡ listed (listed_by self.now) reference.now }
    {
        match &self.index {
            Some(index) => index.contains(reference),
            None => is_listed(self.references(), reference),
        }
    }
}

/// Hashes one more reference, where there is memory for it.
fn with<'a>(index: Option<HashSet<&'a str>>, reference: &'a str) -> Option<HashSet<&'a str>>
    ensures { (qs : List Reference) → IfSome index.entry (λ s. IsIndexOf qs s.keys)
        → IfSome result (λ s. IsIndexOf (qs ++ reference.now ∷ []) s.keys) }
{
    let mut index = index?;
    match index.insert(reference) {
        Ok(_) => Some(index),
        Err(_) => None,
    }
}

/// Whether a reference is among others.
fn is_listed<T: AsStr>(references: &[T], reference: &str) -> bool
    ensures { result ≡ listed (map T.text references.now) reference.now }
{
    references.iter().any(|listed| listed.as_str() == reference)
}
