//! The names of a chain: owners of records and their ancestors (RFC 5155, 7.1).

ghost use Rattle.std.specs.Prelude.{◌≡◌, ◌++◌, ◌<◌, map, IfOk, MatchOption, OnOk};
ghost use Rattle.definitions.specs.Name.{low, wire};
ghost use Rattle.denial_nsec3_names.specs.Chained.{chain_name, spot_of};
ghost use Rattle.denial_nsec3_names.specs.Walk.{last_spots, spots_of};
ghost use Rattle.denial_rrsets.specs.Groups.{group_owner};

use crate::labels::fresh_labels;
use denial_nsec3_hash::wire_form::write_lower_wire;
use denial_rrsets::groups::OwnerRrs;
use names_rdata::data::RecordData;
use names_traits::to_name::ToName;
use names_wire::builder::ShortBuf;
use std::alloc::{AllocError, Global};

/// A name of a chain: an owner of records without its first `skipped` labels, possibly none.
/// Nothing is copied.
#[derive(Drop)]
pub struct ChainName<'g, 'a, N: ToName, D> {
    group: &'g OwnerRrs<'a, N, D>,
    skipped: usize,
}

impl<'g, 'a, N: ToName, D> Copy for ChainName<'g, 'a, N, D> {}

impl<'g, 'a, N: ToName, D> Clone for ChainName<'g, 'a, N, D> {
    ghost is_clone = { λ name copy. copy ≡ name };

    fn clone(&self) -> Result<Self, AllocError> {
        Ok(*self)
    }
}

impl<'g, 'a, N: ToName, D: RecordData> ChainName<'g, 'a, N, D> {
    /// The records of the name, if it is an owner: it has all labels of the owner.
    pub fn records(&self) -> Option<&'g OwnerRrs<'a, N, D>>
        ensures { let spot = spot_of self.now in
            MatchOption result (0 < spot.skipped) (λ g. (spot.skipped ≡ 0) × (g.now ≡ spot.owner)) }
    {
        if self.skipped == 0 {
            Some(self.group)
        } else {
            None
        }
    }

    /// Replaces the content of a buffer by the name in lower-case wire form.
    pub(crate) fn write(&self, buffer: &mut Vec<u8>) -> Result<(), ShortBuf>
        ensures { OnOk result (buffer.new.items ≡ wire (low (chain_name N.name self.now))) }
    {
        write_lower_wire(buffer, self.group.owner(), self.skipped)
    }
}

/// The names of the chain of owners in canonical order, of which the apex is the first: each owner,
/// and before it those of its ancestors that aren't ancestors of the owner before it, the shortest
/// first.
#[inline(never)]
pub fn chain_names<'g, 'a, N: ToName, D: RecordData>(
    alloc: Global,
    owners: &'g [OwnerRrs<'a, N, D>],
) -> Result<Vec<ChainName<'g, 'a, N, D>>, AllocError>
    ensures { IfOk result (λ v. map spot_of v.items ≡ spots_of (group_owner N.name) owners.now) }
{
    let mut names = Vec::with_capacity(alloc, owners.len())?;
    let Some((apex, behind)) = owners.split_first() else {
        return Ok(names);
    };
    names.push(ChainName {
        group: apex,
        skipped: 0,
    })?;
    let mut before = apex;
    for owner in behind {
        let fresh = fresh_labels(before.owner(), owner.owner());
        push_names(&mut names, owner, fresh)?;
        before = owner;
    }
    Ok(names)
}

/// Adds an owner and `count` of its ancestors, the shortest first.
fn push_names<'g, 'a, N: ToName, D: RecordData>(
    names: &mut Vec<ChainName<'g, 'a, N, D>>,
    owner: &'g OwnerRrs<'a, N, D>,
    count: usize,
) -> Result<(), AllocError>
    ensures { OnOk result
        (map spot_of names.new.items ≡ map spot_of names.old.items ++ last_spots count owner.now) }
{
    let mut skipped = count;
    while skipped > 0 {
        skipped -= 1;
        names.push(ChainName {
            group: owner,
            skipped,
        })?;
    }
    Ok(())
}
