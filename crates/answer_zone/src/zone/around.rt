//! Names of the chain around a name that has no record there.
ghost use Rattle.std.specs.Prelude.{◌≡◌, ℕ, List, ◌+◌, ◌<◌, ◌≤◌, None, false, true, IfOk};
ghost use Rattle.std.specs.List.{list_any};
ghost use Rattle.definitions.specs.Name.{at_or_above, low, wire_len};
ghost use Rattle.definitions.specs.Zone.{
  cut_above,
  is_open,
  kept,
  kept_cut_above,
  kept_owners,
  star_under,
};
ghost use Rattle.definitions.specs.ZoneChain.{optout_of};
ghost use Rattle.denial_laws.specs.OwnFacts.{kept_ancestor};
ghost use Rattle.answer_zone_records.specs.Near.{shows};
ghost use Rattle.answer_zone.specs.Around.{IsAround};
ghost use Rattle.answer_zone.specs.Placed.{IsNear, shown_ancestor};
ghost use Rattle.answer_zone.specs.Questions.{zone_of};

use crate::zone::ZoneRecords;
use crate::zone::contents::opts_out;
use crate::zone::lookups::is_shown;
use answer_zone_records::near::{Neighbours, neighbours_of};
use denial_nsec3_hash::hasher::Nsec3Hasher;
use messages::names::{Name, ZoneName};
use names_rdata::rtype::Rtype;
use std::alloc::{AllocError, Global};

/// The closest ancestor of a name that the chain has, the next closer name below it, and the
/// wildcard under it (RFC 5155, 1.3; RFC 4592, 3.3.1).
#[derive(Drop)]
pub(super) struct Around {
    pub encloser: Name<Vec<u8>>,
    pub closer: Name<Vec<u8>>,
    pub star: Name<Vec<u8>>,
}

impl<'h, H: Nsec3Hasher> ZoneRecords<'h, H> {
    /// Whether opt-out leaves a name open: the chain has no record for it, and no delegation with
    /// DS stands above it (RFC 5155, 6 and 7.2.4).
    pub(super) fn leaves_open(&self, name: &Name<Vec<u8>>, near: &Neighbours<'_>) -> bool
        requires { IsNear name.now self.now.records near.now }
        ensures { let z = zone_of self.now in
            result ≡ is_open z (optout_of self.now.mode) (low name.now) }
    {
        opts_out(&self.mode) && !self.is_kept(name) && !self.is_below_kept_cut(name, near)
    }

    /// Whether a delegation stands strictly above a name and is kept under opt-out: it has DS.
    fn is_below_kept_cut(&self, name: &Name<Vec<u8>>, near: &Neighbours<'_>) -> bool
        requires { IsNear name.now self.now.records near.now }
        ensures { let z = zone_of self.now in
            result ≡ kept_cut_above z true (low name.now) }
    {
        match self.cut_above(name, near) {
            Some(cut) => cut.owned.has(Rtype::DS),
            None => false,
        }
    }

    /// Whether a name is at or below the apex, and an owner that opt-out keeps at or below the
    /// name.
    fn is_kept(&self, name: &Name<Vec<u8>>) -> bool
        requires { optout_of self.now.mode ≡ true }
        ensures { let z = zone_of self.now in
            result ≡ kept z true (low name.now) }
    {
        is_shown(&self.apex, &self.near_kept(name), name)
    }

    /// The owners that opt-out keeps between which a name stands.
    fn near_kept(&self, name: &Name<Vec<u8>>) -> Neighbours<'_>
        requires { optout_of self.now.mode ≡ true }
        ensures { let z = zone_of self.now in
            (a : List (List ℕ)) → at_or_above a name.now ≡ true
            → list_any (at_or_above a) (kept_owners z true) ≡ shows result a }
    {
        neighbours_of(&self.kept, name)
    }

    /// The names around one that the chain does not have.
    pub(super) fn around(
        &self,
        alloc: Global,
        name: &Name<Vec<u8>>,
        near: &Neighbours<'_>,
    ) -> Result<Around, AllocError>
        requires near { IsNear name.now self.now.records near.now }
        requires uncut { let z = zone_of self.now in
            optout_of self.now.mode ≡ false → cut_above z (low name.now) ≡ None }
        ensures { let z = zone_of self.now in
            IfOk result (IsAround z (optout_of self.now.mode) (low name.now)) }
    {
        let encloser = self.chain_encloser(alloc, name, near)?;
        let star = wildcard_under(alloc, &encloser)?;
        let count = one_more(encloser.depth(), name.depth());
        let closer = name.suffix(alloc, count)?;
        Ok(Around {
            encloser,
            closer,
            star,
        })
    }

    /// The longest proper ancestor of a name that the chain has, the root where it has none.
    fn chain_encloser(
        &self,
        alloc: Global,
        name: &Name<Vec<u8>>,
        near: &Neighbours<'_>,
    ) -> Result<Name<Vec<u8>>, AllocError>
        requires near { IsNear name.now self.now.records near.now }
        requires uncut { let z = zone_of self.now in
            optout_of self.now.mode ≡ false → cut_above z (low name.now) ≡ None }
        ensures ancestor { let z = zone_of self.now in
            IfOk result (λ e. low e ≡ kept_ancestor z (optout_of self.now.mode) (low name.now)) }
        ensures room { IfOk result (λ e. wire_len (star_under e) ≤ 255) }
    {
        if opts_out(&self.mode) {
            encloser_of(alloc, &self.apex, name, &self.near_kept(name))
        } else {
            encloser_of(alloc, &self.apex, name, near)
        }
    }

    /// The wildcard name under the closest encloser of a name that does not exist (RFC 4592,
    /// 3.3.1).
    pub(super) fn closest_wildcard(
        &self,
        alloc: Global,
        name: &Name<Vec<u8>>,
        near: &Neighbours<'_>,
    ) -> Result<Name<Vec<u8>>, AllocError>
        requires near { IsNear name.now self.now.records near.now }
        requires uncut { let z = zone_of self.now in
            cut_above z (low name.now) ≡ None }
        ensures { IfOk result (λ s. low s ≡ star_under
            (kept_ancestor (zone_of self.now) false (low name.now))) }
    {
        let encloser = encloser_of(alloc, &self.apex, name, near)?;
        wildcard_under(alloc, &encloser)
    }
}

/// The longest proper ancestor of a name that is at or below the apex and that neighbours show, the
/// root where none is.
fn encloser_of(
    alloc: Global,
    apex: &Name<Vec<u8>>,
    name: &Name<Vec<u8>>,
    near: &Neighbours<'_>,
) -> Result<Name<Vec<u8>>, AllocError>
    ensures ancestor { IfOk result (λ e. e ≡ shown_ancestor apex.now near.now name.now) }
    ensures room { IfOk result (λ e. wire_len (star_under e) ≤ 255) }
{
    let mut count = name.depth();
    while count > 0 {
        count -= 1;
        let ancestor = name.suffix(alloc, count)?;
        if is_shown(apex, near, &ancestor) {
            return Ok(ancestor);
        }
    }
    match Name::root(alloc) {
        Ok(root) => Ok(root),
        Err(_) => Err(AllocError),
    }
}

/// The wildcard name under an ancestor of a name, for which there is room.
fn wildcard_under(alloc: Global, name: &Name<Vec<u8>>) -> Result<Name<Vec<u8>>, AllocError>
    requires { wire_len (star_under name.now) ≤ 255 }
    ensures { IfOk result (λ s. s ≡ star_under name.now) }
{
    match name.wildcard_child(alloc)? {
        Some(star) => Ok(star),
        None => unreachable!(),
    }
}

/// One label more than a number of labels, and at most as many as a name has.
fn one_more(above: usize, depth: usize) -> usize
    ensures within { result ≤ depth }
    ensures fewer { above < depth → result ≡ above + 1 }
    ensures all { depth ≤ above → result ≡ depth }
{
    if above < depth { above + 1 } else { depth }
}
