//! Records in canonical order.

ghost use Rattle.std.specs.Prelude.{◌≡◌, ◌<◌, ◌≤◌, ◌↔◌, List, [], length, IsTrue, IfErr, IfOk};
ghost use Rattle.std.specs.Prelude.{OnOk, OnErr, if◌then◌else◌, is_ok};
ghost use Rattle.std.specs.Cmp.{IsTotalOrder};
ghost use Rattle.std.specs.Ordering.{eq_by_cmp};
ghost use Rattle.std.specs.Iterator.{IsFinite, Drains};
ghost use Rattle.std.specs.List.{insert};
ghost use Rattle.std.specs.List.Sorted.{IsStrictlySortedBy};
ghost use Rattle.definitions.specs.Sorting.{put_by, put_all_by, sort_by};
ghost use Rattle.plain.specs.Records.{record_canonical_cmp};
ghost use Rattle.plain.specs.declared.record.Record.{Record};
ghost use Rattle.std.specs.Slice.Iter.{iter_rest};
ghost use Rattle.denial_rrsets.specs.Groups.{of_one_owner};
ghost use Rattle.denial_sorted.specs.Inserting.{Inserts};
ghost use Rattle.denial_sorted.specs.Neighbour.{IsApartAt};
ghost use Rattle.denial_sorted.specs.Places.{Places};
ghost use Rattle.denial_rrsets.specs.Starts.{starts_in};

use crate::keys::near_order;
use crate::sorter::{DefaultSorter, Sorter};
use crate::starts::{count_before, fill, move_behind, neighbour_at, starts_of};
use denial_rrsets::runs::ByOwner;
use names_rdata::canonical::CanonicalOrd;
use names_rdata::data::RecordData;
use names_traits::to_name::ToName;
use plain::record::Record;
use std::alloc::{AllocError, Global};
use std::marker::{Model, PhantomData};
use std::slice;
use thiserror::Error;

/// Why a record wasn't inserted into sorted ones. The record is returned.
#[derive(Debug, Drop, Error)]
pub enum InsertError<N, D> {
    /// An equal record is there.
    #[error("an equal record is present")]
    Present(Record<N, D>),
    #[error("out of memory")]
    Memory(Record<N, D>),
}

/// Records in canonical order, no two of them equal, whatever their TTLs (RFC 4034, 6). A contract
/// sees the records. The records of an owner are found by binary search over the places at which
/// owners begin.
#[derive(Drop)]
pub struct SortedRecords<N: ToName, D: RecordData + CanonicalOrd, S = DefaultSorter> {
    pub(crate) records: Vec<Record<N, D>>,
    /// The places at which another pair of class and owner begins, ascending.
    pub(crate) starts: Vec<usize>,
    sorter: PhantomData<S>,
}

impl<N: ToName, D: RecordData + CanonicalOrd, S> Model for SortedRecords<N, D, S> {
    ghost use Rattle.std.specs.Prelude.{◌≡◌, List};
    ghost use Rattle.std.specs.Cmp.{IsTotalOrder};
    ghost use Rattle.std.specs.List.Sorted.{IsStrictlySortedBy};
    ghost use Rattle.plain.specs.declared.record.Record.{Record};
    ghost use Rattle.plain.specs.Records.{record_canonical_cmp};
    ghost use Rattle.denial_rrsets.specs.Groups.{of_one_owner};
    ghost use Rattle.denial_rrsets.specs.Starts.{starts_in};

    ghost Value = { List (Record N D) };

    ghost view = { λ s. s.records.items };

    ghost invariant = { λ s. IsTotalOrder D.canonical
        × IsStrictlySortedBy (record_canonical_cmp N.name D.type_of D.canonical) s.records.items
        × (s.starts.items ≡ starts_in (of_one_owner N.name) s.records.items) };
}

impl<N: ToName + Drop, D: RecordData + CanonicalOrd + Drop, S: Sorter> SortedRecords<N, D, S> {
    pub fn new(alloc: Global) -> Self
        requires { IsTotalOrder D.canonical }
        ensures { result ≡ [] }
    {
        SortedRecords {
            records: Vec::new(alloc),
            starts: Vec::new(alloc),
            sorter: PhantomData,
        }
    }

    /// The records of a vector; of equal records the first is kept.
    pub fn from_vec(records: Vec<Record<N, D>>) -> Result<Self, AllocError>
        requires { IsTotalOrder D.canonical }
        ensures { let by = record_canonical_cmp N.name D.type_of D.canonical in
            IfOk result (λ s. s ≡ sort_by by records.items) }
    {
        let mut records = near_order(records)?;
        order_all::<N, D, S>(&mut records)?;
        let starts = starts_of::<Record<N, D>, ByOwner>(*records.allocator(), &records)?;
        Ok(SortedRecords {
            records,
            starts,
            sorter: PhantomData,
        })
    }

    /// The records of an iterator; of equal records the first is kept.
    pub fn from_iter<U: IntoIterator<Item = Record<N, D>>>(
        alloc: Global,
        records: U,
    ) -> Result<Self, AllocError>
        requires total { IsTotalOrder D.canonical }
        requires ends { (it : U.IntoIter) → U.into_iter_gives records it →
            U.IntoIter.can_next it × IsFinite (U.IntoIter.remaining it) }
        ensures { let by = record_canonical_cmp N.name D.type_of D.canonical in
            IfOk result (λ s. (it : U.IntoIter) × (xs : List (Record N D))
            × U.into_iter_gives records it × Drains U.IntoIter.next_gives it xs
            × (s ≡ sort_by by xs)) }
    {
        let records = Vec::from_iter(alloc, records)?;
        let sorted = SortedRecords::from_vec(records)?;
        Ok(sorted)
    }

    /// Adds the records of an iterator that have no equal record here or earlier in the iterator. A
    /// refused call adds none.
    pub fn extend<U: IntoIterator<Item = Record<N, D>>>(
        &mut self,
        records: U,
    ) -> Result<(), AllocError>
        requires { (it : U.IntoIter) → U.into_iter_gives records it →
            U.IntoIter.can_next it × IsFinite (U.IntoIter.remaining it) }
        ensures ok { let by = record_canonical_cmp N.name D.type_of D.canonical in
            OnOk result ((it : U.IntoIter) × (xs : List (Record N D)) × U.into_iter_gives records it
            × Drains U.IntoIter.next_gives it xs × (self.new ≡ put_all_by by self.old xs)) }
        ensures err { OnErr result (self.new ≡ self.old) }
    {
        add_all::<N, D, S, U>(&mut self.records, &mut self.starts, records)
    }

    /// Inserts a record at its place. Where an equal record is there or memory runs out, nothing
    /// changes.
    pub fn insert(&mut self, rr: Record<N, D>) -> Result<(), InsertError<N, D>>
        ensures { let by = record_canonical_cmp N.name D.type_of D.canonical in
            Inserts by rr self.old result self.new }
    {
        match place_for(&self.records, &rr) {
            Ok(_) => Err(InsertError::Present(rr)),
            Err(place) => match put_at(&mut self.records, &mut self.starts, place, rr) {
                Ok(()) => Ok(()),
                Err(refused) => Err(InsertError::Memory(refused)),
            },
        }
    }

    pub fn len(&self) -> usize
        ensures { result ≡ length self.now }
    {
        self.records.len()
    }

    pub fn is_empty(&self) -> bool
        ensures { IsTrue result ↔ (self.now ≡ []) }
    {
        self.records.is_empty()
    }

    pub fn as_slice(&self) -> &[Record<N, D>]
        ensures order { let by = record_canonical_cmp N.name D.type_of D.canonical in
            IsStrictlySortedBy by result.now }
        ensures records { result.now ≡ self.now }
    {
        self.records.as_slice()
    }

    /// The records in their order.
    pub fn iter(&self) -> slice::Iter<'_, Record<N, D>>
        ensures { iter_rest result ≡ self.now }
    {
        self.records.iter()
    }

    pub fn into_inner(self) -> Vec<Record<N, D>>
        ensures { result.items ≡ self }
    {
        let SortedRecords { records, .. } = self;
        records
    }
}

/// Puts records in order; of equal records the first is kept. A refused call leaves them as they
/// were.
fn order_all<N: ToName + Drop, D: RecordData + CanonicalOrd + Drop, S: Sorter>(
    records: &mut Vec<Record<N, D>>,
) -> Result<(), AllocError>
    requires { IsTotalOrder D.canonical }
    ensures ok { let by = record_canonical_cmp N.name D.type_of D.canonical in
        OnOk result (records.new.items ≡ sort_by by records.old.items) }
    ensures err { OnErr result (records.new.items ≡ records.old.items) }
{
    S::sort_by(records, |a, b| a.canonical_cmp(b))?;
    records.dedup_by(|later, kept| are_equal(later, kept));
    Ok(())
}

/// Whether two records are equal in canonical order. Names are compared last, since that takes
/// longest.
fn are_equal<N: ToName, D: RecordData + CanonicalOrd>(a: &Record<N, D>, b: &Record<N, D>) -> bool
    ensures { let by = record_canonical_cmp N.name D.type_of D.canonical in
        result ≡ eq_by_cmp by a.now b.now }
{
    if a.rtype() != b.rtype() {
        return false;
    }
    if a.class() != b.class() {
        return false;
    }
    if a.data().canonical_cmp(b.data()).is_ne() {
        return false;
    }
    a.owner().name_eq(b.owner())
}

/// Inserts a record at its place, and moves the places at which owners begin. Where memory runs
/// out, nothing changes and the record is returned.
fn put_at<N: ToName, D: RecordData>(
    records: &mut Vec<Record<N, D>>,
    starts: &mut Vec<usize>,
    place: usize,
    rr: Record<N, D>,
) -> Result<(), Record<N, D>>
    requires within { place ≤ length records.old.items }
    requires apart { IsApartAt (of_one_owner N.name) records.old.items place rr }
    requires starts { starts.old.items ≡ starts_in (of_one_owner N.name) records.old.items }
    ensures items { records.new.items
        ≡ (if is_ok result then insert records.old.items place rr else records.old.items) }
    ensures back { IfErr result (λ r. r ≡ rr) }
    ensures starts { starts.new.items ≡ starts_in (of_one_owner N.name) records.new.items }
{
    if starts.reserve(1).is_err() {
        return Err(rr);
    }
    let neighbour = neighbour_at::<Record<N, D>, ByOwner>(records.as_slice(), place, &rr);
    insert_at(records, place, rr)?;
    let at = count_before(starts.as_slice(), place);
    move_behind(starts, at, place, neighbour);
    Ok(())
}

/// Inserts an item at a place, or returns it where memory runs out. The item is appended, and the
/// items from the place on are rotated by one: one block move, where `Vec::insert` goes from item
/// to item.
fn insert_at<T>(items: &mut Vec<T>, place: usize, item: T) -> Result<(), T>
    requires { place ≤ length items.old.items }
    ensures items { items.new.items
        ≡ (if is_ok result then insert items.old.items place item else items.old.items) }
    ensures back { IfErr result (λ x. x ≡ item) }
{
    if let Err(refused) = items.push(item) {
        return Err(refused.value);
    }
    items[place..].rotate_right(1);
    Ok(())
}

/// Adds records to ordered ones, and updates the places at which owners begin. A refused call adds
/// none.
fn add_all<
    N: ToName + Drop,
    D: RecordData + CanonicalOrd + Drop,
    S: Sorter,
    U: IntoIterator<Item = Record<N, D>>,
>(held: &mut Vec<Record<N, D>>, starts: &mut Vec<usize>, records: U) -> Result<(), AllocError>
    requires total { IsTotalOrder D.canonical }
    requires order { let by = record_canonical_cmp N.name D.type_of D.canonical in
        IsStrictlySortedBy by held.old.items }
    requires starts { starts.old.items ≡ starts_in (of_one_owner N.name) held.old.items }
    requires ends { (it : U.IntoIter) → U.into_iter_gives records it →
        U.IntoIter.can_next it × IsFinite (U.IntoIter.remaining it) }
    ensures ok { let by = record_canonical_cmp N.name D.type_of D.canonical in
        OnOk result ((it : U.IntoIter) × (xs : List (Record N D)) × U.into_iter_gives records it
        × Drains U.IntoIter.next_gives it xs × (held.new.items ≡ put_all_by by held.old.items xs)) }
    ensures err { OnErr result (held.new.items ≡ held.old.items) }
    ensures order { let by = record_canonical_cmp N.name D.type_of D.canonical in
        IsStrictlySortedBy by held.new.items }
    ensures starts { starts.new.items ≡ starts_in (of_one_owner N.name) held.new.items }
{
    let len = held.len();
    let handed = Vec::from_iter(*held.allocator(), records)?;
    let mut more = near_order(handed)?;
    let room = len - starts.len() + more.len();
    starts.reserve(room)?;
    held.append(&mut more)?;
    if let Err(error) = order_all::<N, D, S>(held) {
        held.truncate(len);
        return Err(error);
    }
    fill::<Record<N, D>, ByOwner>(starts, held);
    Ok(())
}

/// The place of an equal record, or the place where a record belongs if there is none.
fn place_for<N: ToName, D: RecordData + CanonicalOrd>(
    records: &[Record<N, D>],
    rr: &Record<N, D>,
) -> Result<usize, usize>
    requires total { IsTotalOrder D.canonical }
    requires order { let by = record_canonical_cmp N.name D.type_of D.canonical in
        IsStrictlySortedBy by records.now }
    ensures { let by = record_canonical_cmp N.name D.type_of D.canonical in
        Places by rr.now records.now result }
{
    records.binary_search_by(|held| held.canonical_cmp(rr))
}
