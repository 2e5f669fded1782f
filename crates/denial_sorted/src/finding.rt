//! Sorted records in groups, and RRsets found among them.

ghost use Rattle.std.specs.Prelude.{◌≡◌, [], MatchOption, Some};
ghost use Rattle.std.specs.List.{filter};
ghost use Rattle.std.specs.Result.{result_ok};
ghost use Rattle.denial_rrsets.specs.Ends.{AreEnds};
ghost use Rattle.denial_rrsets.specs.Groups.{found_set, groups, is_at, is_of_type, of_one_owner};
ghost use Rattle.denial_rrsets.specs.Groups.{of_one_set};
ghost use Rattle.denial_sorted.specs.Owned.{is_owned};
ghost use Rattle.denial_rrsets.specs.Partitions.{IsPartition};
ghost use Rattle.denial_rrsets.specs.Slices.{items_of};

use crate::search::{only_class, span_by, span_of};
use crate::sorted::SortedRecords;
use crate::sorter::Sorter;
use crate::starts::count_before;
use denial_rrsets::ends::{Ends, split_set};
use denial_rrsets::groups::{MultipleTtlValues, OwnerRrs, Rrset, first};
use denial_rrsets::runs::{BySet, split_group};
use denial_rrsets::slices::SliceRefsOrOwned;
use denial_rrsets::walks::{RecordsIter, RrsetIter};
use names_rdata::canonical::CanonicalOrd;
use names_rdata::data::RecordData;
use names_rdata::rtype::Rtype;
use names_traits::to_name::ToName;
use plain::Class;
use plain::record::Record;

impl<N: ToName + Drop, D: RecordData + CanonicalOrd + Drop, S: Sorter> SortedRecords<N, D, S> {
    /// The records in groups by owner and class.
    pub fn owner_rrs(&self) -> RecordsIter<'_, N, D>
        ensures records { result ≡ self.now }
        ensures partition { let alike = of_one_owner N.name in
            IsPartition alike self.now (groups alike result) }
    {
        RecordsIter::indexed(&self.records, &self.starts)
    }

    /// The records in groups by owner, class and type.
    pub fn rrsets(&self) -> RrsetIter<'_, N, D>
        ensures records { result ≡ self.now }
        ensures partition { let alike = of_one_set N.name D.type_of in
            IsPartition alike self.now (groups alike result) }
    {
        RrsetIter::indexed(&self.records, &self.starts)
    }

    /// The first SOA record, with the other SOA records of its owner and class. Only the TTLs of
    /// the records found matter.
    pub fn find_soa(&self) -> Result<Option<Rrset<'_, N, D>>, MultipleTtlValues>
        ensures { let sets = groups (of_one_set N.name D.type_of) self.now in
            result_ok result ≡ found_set D.type_of (is_of_type D.type_of 6) sets }
    {
        first_soa(
            SliceRefsOrOwned::new_from_owned(&self.records),
            Ends::new(&self.starts, self.records.len()),
        )
    }

    /// The RRset of a type at an owner, the apex of a zone; the RRset of the lowest class where
    /// there are several. Only the TTLs of the records found matter.
    pub fn find_apex_rtype(
        &self,
        apex: &N,
        rtype: Rtype,
    ) -> Result<Option<Rrset<'_, N, D>>, MultipleTtlValues>
        ensures { let sets = groups (of_one_set N.name D.type_of) self.now in
            result_ok result
            ≡ found_set D.type_of (is_at N.name D.type_of (N.name apex.now) rtype) sets }
    {
        let records = self.records.as_slice();
        let Some(class) = only_class(records) else {
            return first_at(SliceRefsOrOwned::new_from_owned(records), apex, rtype);
        };
        let Some(span) = span_of(records, &self.starts, class, apex) else {
            return Ok(None);
        };
        let owned = &records[span.start..span.end];
        first_at(SliceRefsOrOwned::new_from_owned(owned), apex, rtype)
    }

    /// The records of a class and an owner, up to ASCII case. It takes no memory.
    pub fn find_owner<O: ToName>(&self, class: Class, owner: &O) -> Option<OwnerRrs<'_, N, D>>
        ensures { let owned = filter (is_owned N.name class (O.name owner.now)) self.now in
            MatchOption result (owned ≡ []) (λ g. g ≡ owned) }
    {
        let records = self.records.as_slice();
        let Some(span) = span_of(records, &self.starts, class, owner) else {
            return None;
        };
        let owned = &records[span.start..span.end];
        Some(OwnerRrs::new(SliceRefsOrOwned::new_from_owned(owned)))
    }

    /// The records of a class and an owner, up to ASCII case. The search is fast where they stand
    /// at the guessed place or not far before it.
    pub fn find_owner_near<O: ToName>(
        &self,
        class: Class,
        owner: &O,
        place: usize,
    ) -> Option<OwnerRrs<'_, N, D>>
        ensures { let owned = filter (is_owned N.name class (O.name owner.now)) self.now in
            MatchOption result (owned ≡ []) (λ g. g ≡ owned) }
    {
        let records = self.records.as_slice();
        let starts = self.starts.as_slice();
        let guess = count_before(starts, place.min(records.len()));
        let Some(span) = span_by(records, starts, class, owner, guess) else {
            return None;
        };
        let owned = &records[span.start..span.end];
        Some(OwnerRrs::new(SliceRefsOrOwned::new_from_owned(owned)))
    }
}

/// The first group of SOA records.
fn first_soa<'a, N: ToName, D: RecordData>(
    slice: SliceRefsOrOwned<'a, Record<N, D>>,
    ends: Ends<'a>,
) -> Result<Option<Rrset<'a, N, D>>, MultipleTtlValues>
    requires { AreEnds N.name (Some ends) (items_of slice) }
    ensures { let sets = groups (of_one_set N.name D.type_of) (items_of slice.entry) in
        result_ok result ≡ found_set D.type_of (is_of_type D.type_of 6) sets }
{
    let (mut rest, mut left) = (slice, Some(ends));
    while let Some(parts) = split_set(rest, left) {
        if first(parts.group).rtype() == Rtype::SOA {
            let set = Rrset::new(parts.group)?;
            return Ok(Some(set));
        }
        rest = parts.behind;
        left = parts.ends;
    }
    Ok(None)
}

/// The first group of a type and an owner.
fn first_at<'a, N: ToName, D: RecordData>(
    slice: SliceRefsOrOwned<'a, Record<N, D>>,
    owner: &N,
    rtype: Rtype,
) -> Result<Option<Rrset<'a, N, D>>, MultipleTtlValues>
    ensures { let sets = groups (of_one_set N.name D.type_of) (items_of slice.entry) in
        let is = is_at N.name D.type_of (N.name owner.now) rtype in
        result_ok result ≡ found_set D.type_of is sets }
{
    let mut rest = slice;
    while let Some((group, behind)) = split_group::<Record<N, D>, BySet>(rest) {
        let rr = first(group);
        if rr.rtype() == rtype && rr.owner().name_eq(owner) {
            let set = Rrset::new(group)?;
            return Ok(Some(set));
        }
        rest = behind;
    }
    Ok(None)
}
