//! Records walked group by group.

ghost use Rattle.std.specs.Prelude.{◌≡◌, map};
ghost use Rattle.std.specs.Option.{option_map};
ghost use Rattle.std.specs.List.{slice_get};
ghost use Rattle.std.specs.Result.{result_ok};
ghost use Rattle.std.specs.Iterator.{YieldsFirst, YieldsFirstBy, item_count};
ghost use Rattle.definitions.specs.Name.{at_or_above};
ghost use Rattle.denial_rrsets.specs.Groups.{from_first, groups, of_one_owner, rrsets_of};
ghost use Rattle.denial_rrsets.specs.Slices.{items_of};
ghost use Rattle.denial_rrsets.specs.Starts.{starts_in};

use crate::ends::{Ends, split_owner, split_set};
use crate::groups::{MultipleTtlValues, OwnerRrs, Rrset, is_below};
use crate::slices::SliceRefsOrOwned;
use names_rdata::data::RecordData;
use names_traits::to_name::ToName;
use plain::record::Record;
use std::marker::Model;

/// Records in groups by owner and class, as they stand together. It takes no memory.
#[derive(Drop)]
pub struct RecordsIter<'a, N: ToName, D: RecordData> {
    slice: SliceRefsOrOwned<'a, Record<N, D>>,
    ends: Option<Ends<'a>>,
}

/// The records that are left.
impl<'a, N: ToName, D: RecordData> Model for RecordsIter<'a, N, D> {
    ghost use Rattle.std.specs.Prelude.{List};
    ghost use Rattle.plain.specs.declared.record.Record.{Record};
    ghost use Rattle.denial_rrsets.specs.Ends.{AreEnds};
    ghost use Rattle.denial_rrsets.specs.Slices.{items_of};

    ghost Value = { List (Record N D) };

    ghost view = { λ it. items_of it.slice };

    ghost invariant = { λ it. AreEnds N.name it.ends (items_of it.slice) };
}

impl<'a, N: ToName, D: RecordData> RecordsIter<'a, N, D> {
    pub fn new(slice: SliceRefsOrOwned<'a, Record<N, D>>) -> Self
        ensures { result ≡ items_of slice.entry }
    {
        RecordsIter { slice, ends: None }
    }

    /// Records whose owners begin at these places.
    pub fn indexed(slice: &'a [Record<N, D>], starts: &'a [usize]) -> Self
        requires { starts.now ≡ starts_in (of_one_owner N.name) slice.now }
        ensures { result ≡ slice.now }
    {
        RecordsIter {
            slice: SliceRefsOrOwned::new_from_owned(slice),
            ends: Some(Ends::new(starts, slice.len())),
        }
    }

    pub fn new_from_refs(slice: &'a [&'a Record<N, D>]) -> Self
        ensures { result ≡ map (λ r. r.now) slice.now }
    {
        RecordsIter::new(SliceRefsOrOwned::new_from_refs(slice))
    }

    pub fn new_from_owned(slice: &'a [Record<N, D>]) -> Self
        ensures { result ≡ slice.now }
    {
        RecordsIter::new(SliceRefsOrOwned::new_from_owned(slice))
    }

    /// The next record, which stays.
    pub fn first(&self) -> Option<&'a Record<N, D>>
        ensures { option_map (λ r. r.now) result ≡ slice_get self.now 0 }
    {
        self.slice.get(0)
    }

    /// Passes over the records before the first whose owner is at or below the apex; over all
    /// records where there is none.
    pub fn skip_before(&mut self, apex: &N)
        ensures { let is = λ (r : Record N D). at_or_above (N.name apex.now) (N.name r.owner) in
            self.new ≡ from_first is self.old }
    {
        let Some(rr) = self.first() else {
            return;
        };
        if !is_below(rr.owner(), apex) {
            *self = RecordsIter::new(skip_to(self.slice, apex));
        }
    }
}

/// The records from the first on whose owner is at or below an apex.
fn skip_to<'a, N: ToName, D: RecordData>(
    slice: SliceRefsOrOwned<'a, Record<N, D>>,
    apex: &N,
) -> SliceRefsOrOwned<'a, Record<N, D>>
    ensures { items_of result
        ≡ from_first (λ r. at_or_above (N.name apex.now) (N.name r.owner)) (items_of slice.entry) }
{
    let mut rest = slice;
    while let Some((rr, behind)) = rest.split_first() {
        if is_below(rr.owner(), apex) {
            break;
        }
        rest = behind;
    }
    rest
}

impl<'a, N: ToName, D: RecordData> Iterator for RecordsIter<'a, N, D> {
    type Item = OwnerRrs<'a, N, D>;

    ghost can_next = { λ _. Unit {0} };

    ghost next_gives = { YieldsFirst (groups (of_one_owner N.name)) };

    ghost remaining = { item_count (groups (of_one_owner N.name)) };

    fn next(&mut self) -> Option<OwnerRrs<'a, N, D>> {
        let parts = split_owner(self.slice, self.ends)?;
        self.slice = parts.behind;
        self.ends = parts.ends;
        Some(OwnerRrs::new(parts.group))
    }
}

/// Records in groups by owner, class and type, as they stand together. A group whose TTLs differ is
/// an error, and the next one comes behind it. It takes no memory.
#[derive(Drop)]
pub struct RrsetIter<'a, N: ToName, D: RecordData> {
    slice: SliceRefsOrOwned<'a, Record<N, D>>,
    ends: Option<Ends<'a>>,
}

/// The records that are left.
impl<'a, N: ToName, D: RecordData> Model for RrsetIter<'a, N, D> {
    ghost use Rattle.std.specs.Prelude.{List};
    ghost use Rattle.plain.specs.declared.record.Record.{Record};
    ghost use Rattle.denial_rrsets.specs.Ends.{AreEnds};
    ghost use Rattle.denial_rrsets.specs.Slices.{items_of};

    ghost Value = { List (Record N D) };

    ghost view = { λ it. items_of it.slice };

    ghost invariant = { λ it. AreEnds N.name it.ends (items_of it.slice) };
}

impl<'a, N: ToName, D: RecordData> RrsetIter<'a, N, D> {
    pub(crate) fn new(slice: SliceRefsOrOwned<'a, Record<N, D>>) -> Self
        ensures { result ≡ items_of slice.entry }
    {
        RrsetIter { slice, ends: None }
    }

    /// Records whose owners begin at these places.
    pub fn indexed(slice: &'a [Record<N, D>], starts: &'a [usize]) -> Self
        requires { starts.now ≡ starts_in (of_one_owner N.name) slice.now }
        ensures { result ≡ slice.now }
    {
        RrsetIter {
            slice: SliceRefsOrOwned::new_from_owned(slice),
            ends: Some(Ends::new(starts, slice.len())),
        }
    }
}

impl<'a, N: ToName, D: RecordData> Iterator for RrsetIter<'a, N, D> {
    type Item = Result<Rrset<'a, N, D>, MultipleTtlValues>;

    ghost can_next = { λ _. Unit {0} };

    ghost next_gives = { YieldsFirstBy result_ok (rrsets_of N.name D.type_of) };

    ghost remaining = { item_count (rrsets_of N.name D.type_of) };

    fn next(&mut self) -> Option<Result<Rrset<'a, N, D>, MultipleTtlValues>> {
        let parts = split_set(self.slice, self.ends)?;
        self.slice = parts.behind;
        self.ends = parts.ends;
        Some(Rrset::new(parts.group))
    }
}

/// The records of one owner in groups by type.
pub type OwnerRrsIter<'a, N, D> = RrsetIter<'a, N, D>;
