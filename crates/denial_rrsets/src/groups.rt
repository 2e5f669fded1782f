//! The records of one owner, and of one type there.

ghost use Rattle.std.specs.Prelude.{◌≡◌, ◌<◌, Some, length, map, nat_eq, not};
ghost use Rattle.std.specs.Option.{option_map};
ghost use Rattle.definitions.specs.Name.{at_or_above};
ghost use Rattle.std.specs.List.{list_any, slice_get};
ghost use Rattle.std.specs.Result.{result_ok};
ghost use Rattle.denial_rrsets.specs.Groups.{IsGroup, in_zone, of_one_owner, of_one_set, rrset_of};
ghost use Rattle.denial_rrsets.specs.Groups.{ttls_differ, zone_cut};
ghost use Rattle.denial_rrsets.specs.Slices.{items_of};

use crate::rows::row_ends_with;
use crate::slices::{SliceRefsOrOwned, SliceRefsOrOwnedIterator};
use crate::walks::{OwnerRrsIter, RrsetIter};
use names_labels::traits::ToLabelIter;
use names_rdata::data::RecordData;
use names_rdata::rtype::Rtype;
use names_traits::to_name::ToName;
use plain::record::Record;
use plain::{Class, Ttl};
use std::marker::Model;
use thiserror::Error;

/// The records of an RRset have more than one TTL (RFC 2181, 5.2).
#[derive(Clone, Copy, Debug, PartialEq, Eq, Error)]
#[error("records of an RRset have different TTLs")]
pub struct MultipleTtlValues;

/// The records of one owner and class.
#[derive(Drop)]
pub struct OwnerRrs<'a, N: ToName, D> {
    records: SliceRefsOrOwned<'a, Record<N, D>>,
}

/// The records, in their order.
impl<'a, N: ToName, D> Model for OwnerRrs<'a, N, D> {
    ghost use Rattle.std.specs.Prelude.{List};
    ghost use Rattle.plain.specs.declared.record.Record.{Record};
    ghost use Rattle.denial_rrsets.specs.Groups.{IsGroup, of_one_owner};
    ghost use Rattle.denial_rrsets.specs.Slices.{items_of};

    ghost Value = { List (Record N D) };

    ghost view = { λ g. items_of g.records };

    ghost invariant = { λ g. IsGroup (of_one_owner N.name) (items_of g.records) };
}

impl<'a, N: ToName, D: RecordData> OwnerRrs<'a, N, D> {
    pub fn new(records: SliceRefsOrOwned<'a, Record<N, D>>) -> Self
        requires { IsGroup (of_one_owner N.name) (items_of records) }
        ensures { result ≡ items_of records.entry }
    {
        OwnerRrs { records }
    }

    /// The owner, as the first record spells it.
    pub fn owner(&self) -> &'a N
        ensures { Some result.now ≡ option_map (λ r. r.owner) (slice_get self.now 0) }
    {
        first(self.records).owner()
    }

    pub fn class(&self) -> Class
        ensures { Some result ≡ option_map (λ r. r.class) (slice_get self.now 0) }
    {
        first(self.records).class()
    }

    /// The records in groups by type.
    pub fn rrsets(&self) -> OwnerRrsIter<'a, N, D>
        ensures { result ≡ self.now }
    {
        RrsetIter::new(self.records)
    }

    /// The records in their order.
    pub fn records(&self) -> SliceRefsOrOwnedIterator<'a, Record<N, D>>
        ensures { result ≡ self.now }
    {
        self.records.iter()
    }

    /// Whether the owner is not the apex and has an NS record, which delegates what is at and below
    /// it (RFC 4035, 2.2).
    pub fn is_zone_cut(&self, apex: &N) -> bool
        ensures { result ≡ zone_cut N.name D.type_of (N.name apex.now) self.now }
    {
        let records = self.records;
        !first(records).owner().name_eq(apex) && has_type(records, Rtype::NS)
    }

    /// Whether the owner is at or below the apex.
    pub fn is_in_zone(&self, apex: &N) -> bool
        ensures { result ≡ in_zone N.name (N.name apex.now) self.now }
    {
        is_below(first(self.records).owner(), apex)
    }
}

/// Records of one owner, class and type, and of one TTL, RRSIG records aside (RFC 2181, 5).
#[derive(Drop)]
pub struct Rrset<'a, N: ToName, D: RecordData> {
    slice: SliceRefsOrOwned<'a, Record<N, D>>,
}

/// The records, in their order.
impl<'a, N: ToName, D: RecordData> Model for Rrset<'a, N, D> {
    ghost use Rattle.std.specs.Prelude.{List};
    ghost use Rattle.plain.specs.declared.record.Record.{Record};
    ghost use Rattle.denial_rrsets.specs.Groups.{IsRrset};
    ghost use Rattle.denial_rrsets.specs.Slices.{items_of};

    ghost Value = { List (Record N D) };

    ghost view = { λ g. items_of g.slice };

    ghost invariant = { λ g. IsRrset N.name D.type_of (items_of g.slice) };
}

impl<'a, N: ToName, D: RecordData> Rrset<'a, N, D> {
    /// The records of one owner, class and type; there is at least one. They are no RRset where
    /// their TTLs differ, except those of RRSIG records (RFC 4034, 3).
    pub fn new(slice: SliceRefsOrOwned<'a, Record<N, D>>) -> Result<Self, MultipleTtlValues>
        requires { IsGroup (of_one_set N.name D.type_of) (items_of slice) }
        ensures { result_ok result ≡ rrset_of D.type_of (items_of slice.entry) }
    {
        if have_ttls(slice) {
            return Err(MultipleTtlValues);
        }
        Ok(Rrset { slice })
    }

    /// The records of one owner, class and type, by reference; there is at least one. They are no
    /// RRset where their TTLs differ, except those of RRSIG records (RFC 4034, 3).
    pub fn new_from_refs(slice: &'a [&'a Record<N, D>]) -> Result<Self, MultipleTtlValues>
        requires { IsGroup (of_one_set N.name D.type_of) (map (λ r. r.now) slice.now) }
        ensures { result_ok result ≡ rrset_of D.type_of (map (λ r. r.now) slice.now) }
    {
        Rrset::new(SliceRefsOrOwned::new_from_refs(slice))
    }

    /// The records of one owner, class and type, in a row; there is at least one. They are no RRset
    /// where their TTLs differ, except those of RRSIG records (RFC 4034, 3).
    pub fn new_from_owned(slice: &'a [Record<N, D>]) -> Result<Self, MultipleTtlValues>
        requires { IsGroup (of_one_set N.name D.type_of) slice.now }
        ensures { result_ok result ≡ rrset_of D.type_of slice.now }
    {
        Rrset::new(SliceRefsOrOwned::new_from_owned(slice))
    }

    /// The owner, as the first record spells it.
    pub fn owner(&self) -> &'a N
        ensures { Some result.now ≡ option_map (λ r. r.owner) (slice_get self.now 0) }
    {
        first(self.slice).owner()
    }

    pub fn class(&self) -> Class
        ensures { Some result ≡ option_map (λ r. r.class) (slice_get self.now 0) }
    {
        first(self.slice).class()
    }

    pub fn rtype(&self) -> Rtype
        ensures { Some result ≡ option_map (λ r. D.type_of r.content) (slice_get self.now 0) }
    {
        first(self.slice).rtype()
    }

    /// The TTL. RRSIG records may differ in TTL; theirs is that of the first record.
    pub fn ttl(&self) -> Ttl
        ensures { Some result ≡ option_map (λ r. r.ttl) (slice_get self.now 0) }
    {
        first(self.slice).ttl()
    }

    pub fn first(&self) -> &'a Record<N, D>
        ensures { Some result.now ≡ slice_get self.now 0 }
    {
        first(self.slice)
    }

    /// The records in their order.
    pub fn iter(&self) -> SliceRefsOrOwnedIterator<'a, Record<N, D>>
        ensures { result ≡ self.now }
    {
        self.slice.iter()
    }

    pub fn len(&self) -> usize
        ensures some { 0 < result }
        ensures len { result ≡ length self.now }
    {
        self.slice.len()
    }

    pub fn into_inner(self) -> SliceRefsOrOwned<'a, Record<N, D>>
        ensures { items_of result ≡ self.entry }
    {
        let Rrset { slice } = self;
        slice
    }
}

/// The first item.
pub fn first<'a, T>(slice: SliceRefsOrOwned<'a, T>) -> &'a T
    requires { 0 < length (items_of slice) }
    ensures { Some result.now ≡ slice_get (items_of slice.entry) 0 }
{
    let Some(first) = slice.get(0) else {
        unreachable!()
    };
    first
}

/// Whether a name is at or below another.
pub(crate) fn is_below<N: ToName>(name: &N, apex: &N) -> bool
    ensures { result ≡ at_or_above (N.name apex.now) (N.name name.now) }
{
    if let (Some(run), Some(tail)) = (name.label_row(), apex.label_row()) {
        return row_ends_with(run, tail);
    }
    name.ends_with(apex)
}

/// Whether a record is of a type.
fn has_type<N, D: RecordData>(slice: SliceRefsOrOwned<Record<N, D>>, rtype: Rtype) -> bool
    ensures { result ≡ list_any (λ r. nat_eq (D.type_of r.content) rtype) (items_of slice.entry) }
{
    let mut records = slice.iter();
    while let Some(rr) = records.next() {
        if rr.rtype() == rtype {
            return true;
        }
    }
    false
}

/// Whether records other than RRSIG records have a TTL that differs from that of the first record.
fn have_ttls<N, D: RecordData>(slice: SliceRefsOrOwned<Record<N, D>>) -> bool
    ensures { result ≡ ttls_differ D.type_of (items_of slice.entry) }
{
    let mut records = slice.iter();
    let Some(first) = records.next() else {
        return false;
    };
    first.rtype() != Rtype::RRSIG && has_other_ttl(records, first.ttl())
}

/// Whether a record has another TTL.
fn has_other_ttl<N, D>(records: SliceRefsOrOwnedIterator<Record<N, D>>, ttl: Ttl) -> bool
    ensures { result ≡ list_any (λ r. not (nat_eq r.ttl ttl)) records.entry }
{
    let mut records = records;
    while let Some(rr) = records.next() {
        if rr.ttl() != ttl {
            return true;
        }
    }
    false
}
