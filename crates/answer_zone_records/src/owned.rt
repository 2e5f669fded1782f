//! The records of an owner of a zone, found by binary search, and the RRsets among them.
ghost use Rattle.std.specs.Prelude.{◌≡◌, ◌↔◌, ℕ, [], List, true, false, find, map, min};
ghost use Rattle.std.specs.Prelude.{slice_index, IfErr, IfOk, IsTrue, Some};
ghost use Rattle.std.specs.Option.{option_map};
ghost use Rattle.std.specs.List.{AllByRecursion, list_any, slice_get};
ghost use Rattle.definitions.specs.Name.{same};
ghost use Rattle.messages.specs.HandedRr.{handed_of};
ghost use Rattle.answer_terms.specs.GroupView.{spelled_by};
ghost use Rattle.answer_terms.specs.Served.{chain_ttl, minimum_of};
ghost use Rattle.answer_zone_records.specs.GroupRecords.{HoldsRrset, record_under};
ghost use Rattle.answer_zone_records.specs.OwnedRecords.{IsInternet, is_of_type, owned_by, ttl_in};

use crate::group::GroupRecord;
use crate::octets::written_octets;
use denial_rrsets::groups::OwnerRrs;
use denial_sorted::sorted::SortedRecords;
use messages::names::{Name, ToName, copy_name};
use messages::rdata::canonical_octets;
use messages::record::{ZoneData, ZoneRecord};
use names_rdata::rtype::Rtype;
use plain::{Class, Ttl};
use std::alloc::{AllocError, Global};
use std::marker::Model;

/// The records of one owner in canonical order; none where a name owns none.
#[derive(Drop)]
pub struct Owned<'a> {
    records: Option<OwnerRrs<'a, Name<Vec<u8>>, ZoneData>>,
}

impl<'a> Model for Owned<'a> {
    ghost use Rattle.std.specs.Prelude.{List};
    ghost use Rattle.messages.specs.HandedRr.{HandedRr};
    ghost use Rattle.answer_zone_records.specs.OwnedRecords.{handed_in};

    ghost Value = { List HandedRr };

    ghost view = { λ o. handed_in o.records };
}

/// A delegation: its name as its first record spells it, and its records (RFC 1034, 4.2).
#[derive(Drop)]
pub struct Cut<'a> {
    pub name: &'a Name<Vec<u8>>,
    pub owned: Owned<'a>,
}

/// An RRset: its records as they are written, under an owner that is still to be named, and its
/// canonical data.
#[derive(Drop)]
pub struct RrsetData {
    pub records: Vec<GroupRecord>,
    pub canonical: Vec<Vec<u8>>,
}

impl<'a> Owned<'a> {
    /// The records that a name owns among those of a zone. It takes no memory.
    pub fn found<O: ToName>(
        records: &'a SortedRecords<Name<Vec<u8>>, ZoneData>,
        name: &O,
    ) -> Owned<'a>
        requires { AllByRecursion IsInternet records.now }
        ensures { result ≡ owned_by (O.name name.now) (map handed_of records.now) }
    {
        Owned {
            records: records.find_owner(Class::IN, name),
        }
    }

    /// What a name owns among records. The search is short where it stands at a place or not far
    /// before it.
    pub fn found_near<O: ToName>(
        records: &'a SortedRecords<Name<Vec<u8>>, ZoneData>,
        name: &O,
        place: usize,
    ) -> Owned<'a>
        requires { AllByRecursion IsInternet records.now }
        ensures { result ≡ owned_by (O.name name.now) (map handed_of records.now) }
    {
        Owned {
            records: records.find_owner_near(Class::IN, name, place),
        }
    }

    /// No records.
    pub fn none() -> Self
        ensures { result ≡ [] }
    {
        Owned { records: None }
    }

    pub fn is_empty(&self) -> bool
        ensures { IsTrue result ↔ (self.now ≡ []) }
    {
        match &self.records {
            Some(owner) => {
                let _some = owner.owner();
                false
            }
            None => true,
        }
    }

    /// Whether a record of a type is among them.
    pub fn has(&self, rtype: Rtype) -> bool
        ensures { result ≡ list_any (is_of_type rtype) self.now }
    {
        self.first(rtype).is_some()
    }

    /// The first record of a type.
    pub fn first(&self, rtype: Rtype) -> Option<&'a ZoneRecord>
        ensures { option_map (λ r. handed_of r.now) result ≡ find (is_of_type rtype) self.now }
    {
        match &self.records {
            Some(owner) => first_of(owner, rtype),
            None => None,
        }
    }

    /// The TTL of the first record of a type, 0 where there is none.
    pub fn ttl(&self, rtype: Rtype) -> Ttl
        ensures { result ≡ ttl_in (find (is_of_type rtype) self.now) }
    {
        match self.first(rtype) {
            Some(rr) => rr.ttl(),
            None => Ttl::from_secs(0),
        }
    }

    /// The records as a delegation, if an NS record is among them; else they are handed back.
    pub fn into_delegation(self) -> Result<Cut<'a>, Owned<'a>>
        ensures cut { IfOk result (λ c. (c.owned ≡ self.entry)
            × (list_any (is_of_type 2) self.entry ≡ true)
            × (Some c.name.now ≡ option_map (λ r. r.owner) (slice_get self.entry 0))) }
        ensures back { IfErr result (λ o. (o ≡ self.entry)
            × (list_any (is_of_type 2) self.entry ≡ false)) }
    {
        if !self.has(Rtype::NS) {
            return Err(self);
        }
        match &self.records {
            Some(owner) => {
                let name = owner.owner();
                Ok(Cut { name, owned: self })
            }
            None => Err(self),
        }
    }

    /// The RRset of a type; each record keeps the spelling of its owner or goes without.
    pub fn rrset(&self, alloc: Global, rtype: Rtype, own: bool) -> Result<RrsetData, AllocError>
        ensures { IfOk result (λ d. (q : List (List ℕ))
            → AllByRecursion (λ r. same r.owner q ≡ true) self.now
            → HoldsRrset own q rtype self.now d.records.items d.canonical.items) }
    {
        match &self.records {
            Some(owner) => rrset_of(alloc, owner, rtype, own),
            None => Ok(RrsetData {
                records: Vec::new(alloc),
                canonical: Vec::new(alloc),
            }),
        }
    }
}

/// The first record of an owner and a type.
fn first_of<'a>(
    owner: &OwnerRrs<'a, Name<Vec<u8>>, ZoneData>,
    rtype: Rtype,
) -> Option<&'a ZoneRecord>
    ensures { option_map (λ r. handed_of r.now) result
        ≡ find (is_of_type rtype) (map handed_of owner.now) }
{
    let mut records = owner.records();
    while let Some(rr) = records.next() {
        if rr.rtype() == rtype {
            return Some(rr);
        }
    }
    None
}

/// The RRset of an owner and a type.
fn rrset_of(
    alloc: Global,
    owner: &OwnerRrs<'_, Name<Vec<u8>>, ZoneData>,
    rtype: Rtype,
    own: bool,
) -> Result<RrsetData, AllocError>
    ensures { IfOk result (λ d. (q : List (List ℕ))
        → AllByRecursion (λ r. same r.owner q ≡ true) (map handed_of owner.now)
        → HoldsRrset own q rtype (map handed_of owner.now) d.records.items d.canonical.items) }
{
    let (mut found, mut canonical) = (Vec::new(alloc), Vec::new(alloc));
    let mut records = owner.records();
    while let Some(rr) = records.next() {
        if rr.rtype() == rtype {
            found.push(grouped(alloc, rr, own)?)?;
            canonical.push(canonical_octets(alloc, rr.data())?)?;
        }
    }
    Ok(RrsetData {
        records: found,
        canonical,
    })
}

/// A record for an answer, with its owner as spelled or without.
fn grouped(alloc: Global, rr: &ZoneRecord, own: bool) -> Result<GroupRecord, AllocError>
    ensures { IfOk result (λ g. (owner : List (List ℕ))
        → record_under owner (handed_of rr.now).rtype g ≡ spelled_by own owner (handed_of rr.now)) }
{
    let owner = if own {
        Some(copy_name(alloc, rr.owner())?)
    } else {
        None
    };
    Ok(GroupRecord {
        owner,
        ttl: rr.ttl(),
        octets: written_octets(alloc, rr.data())?,
    })
}

/// The TTL of the chain: the lesser of the SOA record's own and its minimum (RFC 9077, 3), 0
/// without an SOA record.
pub fn chain_ttl(
    alloc: Global,
    apex: &Name<Vec<u8>>,
    records: &SortedRecords<Name<Vec<u8>>, ZoneData>,
) -> Result<Ttl, AllocError>
    requires { AllByRecursion IsInternet records.now }
    ensures { IfOk result (λ t. t ≡ chain_ttl apex.now (map handed_of records.now)) }
{
    match Owned::found(records, apex).first(Rtype::SOA) {
        Some(rr) => chain_ttl_of(alloc, rr),
        None => Ok(Ttl::from_secs(0)),
    }
}

/// The lesser of the TTL and the last four octets of the data, which in an SOA record are its
/// minimum (RFC 1035, 3.3.13; RFC 9077, 3).
fn chain_ttl_of(alloc: Global, rr: &ZoneRecord) -> Result<Ttl, AllocError>
    ensures { let r = handed_of rr.now in IfOk result (λ t. t ≡ min r.ttl (minimum_of r.bytes)) }
{
    let octets = canonical_octets(alloc, rr.data())?;
    Ok(Ttl::from_secs(rr.ttl().as_secs().min(last_number(&octets))))
}

/// The number that the last four octets spell; of fewer octets zeros stand behind them.
fn last_number(octets: &[u8]) -> u32
    ensures { result ≡ minimum_of octets.now }
{
    let last = &octets[octets.len().saturating_sub(4)..];
    u32::from_be_bytes([
        octet_at(last, 0),
        octet_at(last, 1),
        octet_at(last, 2),
        octet_at(last, 3),
    ])
}

/// The octet at a place, 0 where there is none.
fn octet_at(octets: &[u8], place: usize) -> u8
    ensures { result ≡ slice_index octets.now place }
{
    if place < octets.len() {
        octets[place]
    } else {
        0
    }
}
