//! Items in a row, or references to some.

ghost use Rattle.std.specs.Prelude.{◌≡◌, ◌≤◌, ◌∷◌, [], MatchOption, take, drop, length, map};
ghost use Rattle.std.specs.Option.{option_map};
ghost use Rattle.std.specs.List.{slice_get};
ghost use Rattle.std.specs.Iterator.{YieldsFirstRef, item_count};
ghost use Rattle.denial_rrsets.specs.Slices.{items_of, referred};

use std::alloc::AllocError;
use std::marker::Model;

/// References to items.
#[derive(Drop)]
pub struct SliceRefs<'a, T> {
    items: &'a [&'a T],
}

impl<'a, T> Copy for SliceRefs<'a, T> {}

impl<'a, T> Clone for SliceRefs<'a, T> {
    ghost is_clone = { λ s copy. copy ≡ s };

    fn clone(&self) -> Result<Self, AllocError> {
        Ok(*self)
    }
}

impl<'a, T> SliceRefs<'a, T> {
    pub fn new(slice: &'a [&'a T]) -> Self
        ensures { referred result ≡ map (λ r. r.now) slice.now }
    {
        SliceRefs { items: slice }
    }

    fn len(&self) -> usize
        ensures { result ≡ length (referred self.now) }
    {
        self.items.len()
    }

    fn get(&self, place: usize) -> Option<&'a T>
        ensures { option_map (λ r. r.now) result ≡ slice_get (referred self.now) place }
    {
        let item = self.items.get(place)?;
        Some(*item)
    }

    fn split_first(self) -> Option<(&'a T, Self)>
        ensures { MatchOption result (referred self.entry ≡ [])
            (λ p. referred self.entry ≡ p.0.now ∷ referred p.1) }
    {
        let (first, items) = self.items.split_first()?;
        Some((*first, SliceRefs { items }))
    }

    fn split_at(self, place: usize) -> (Self, Self)
        requires { place ≤ length (referred self) }
        ensures front { referred result.0 ≡ take place (referred self.entry) }
        ensures behind { referred result.1 ≡ drop place (referred self.entry) }
    {
        let (front, behind) = self.items.split_at(place);
        (SliceRefs { items: front }, SliceRefs { items: behind })
    }
}

/// Items in a row, or references to some.
#[derive(Drop)]
#[derive_where(Clone, Copy)]
pub enum SliceRefsOrOwned<'a, T> {
    Refs(SliceRefs<'a, T>),
    Owned(&'a [T]),
}

impl<'a, T> SliceRefsOrOwned<'a, T> {
    pub fn new_from_owned(slice: &'a [T]) -> Self
        ensures { items_of result ≡ slice.now }
    {
        Self::Owned(slice)
    }

    pub fn new_from_refs(slice: &'a [&'a T]) -> Self
        ensures { items_of result ≡ map (λ r. r.now) slice.now }
    {
        SliceRefsOrOwned::Refs(SliceRefs::new(slice))
    }

    pub(crate) fn len(&self) -> usize
        ensures { result ≡ length (items_of self.now) }
    {
        match self {
            SliceRefsOrOwned::Refs(refs) => refs.len(),
            SliceRefsOrOwned::Owned(slice) => slice.len(),
        }
    }

    pub(crate) fn get(&self, place: usize) -> Option<&'a T>
        ensures { option_map (λ r. r.now) result ≡ slice_get (items_of self.now) place }
    {
        match self {
            SliceRefsOrOwned::Refs(refs) => refs.get(place),
            SliceRefsOrOwned::Owned(slice) => slice.get(place),
        }
    }

    /// The items before a place, and those from there on.
    pub(crate) fn split_at(self, place: usize) -> (Self, Self)
        requires { place ≤ length (items_of self) }
        ensures front { items_of result.0 ≡ take place (items_of self.entry) }
        ensures behind { items_of result.1 ≡ drop place (items_of self.entry) }
    {
        match self {
            SliceRefsOrOwned::Refs(refs) => {
                let (front, behind) = refs.split_at(place);
                (
                    SliceRefsOrOwned::Refs(front),
                    SliceRefsOrOwned::Refs(behind),
                )
            }
            SliceRefsOrOwned::Owned(slice) => {
                let (front, behind) = slice.split_at(place);
                (
                    SliceRefsOrOwned::Owned(front),
                    SliceRefsOrOwned::Owned(behind),
                )
            }
        }
    }

    /// The first item, and those behind it.
    pub(crate) fn split_first(self) -> Option<(&'a T, Self)>
        ensures { MatchOption result (items_of self.entry ≡ [])
            (λ p. items_of self.entry ≡ p.0.now ∷ items_of p.1) }
    {
        match self {
            SliceRefsOrOwned::Refs(refs) => {
                let (first, behind) = refs.split_first()?;
                Some((first, SliceRefsOrOwned::Refs(behind)))
            }
            SliceRefsOrOwned::Owned(slice) => {
                let (first, behind) = slice.split_first()?;
                Some((first, SliceRefsOrOwned::Owned(behind)))
            }
        }
    }

    /// The items in their order.
    pub fn iter(self) -> SliceRefsOrOwnedIterator<'a, T>
        ensures { result ≡ items_of self.entry }
    {
        SliceRefsOrOwnedIterator { rest: self }
    }
}

/// Items in their order, by reference. It takes no memory.
#[derive(Drop)]
pub struct SliceRefsOrOwnedIterator<'a, T> {
    rest: SliceRefsOrOwned<'a, T>,
}

/// The items that are left.
impl<'a, T> Model for SliceRefsOrOwnedIterator<'a, T> {
    ghost use Rattle.std.specs.Prelude.{List};
    ghost use Rattle.denial_rrsets.specs.Slices.{items_of};

    ghost Value = { List T };

    ghost view = { λ it. items_of it.rest };
}

impl<'a, T> Iterator for SliceRefsOrOwnedIterator<'a, T> {
    type Item = &'a T;

    ghost can_next = { λ _. Unit {0} };

    ghost next_gives = { YieldsFirstRef (λ items. items) };

    ghost remaining = { item_count (λ items. items) };

    fn next(&mut self) -> Option<&'a T> {
        let (first, behind) = self.rest.split_first()?;
        self.rest = behind;
        Some(first)
    }
}
