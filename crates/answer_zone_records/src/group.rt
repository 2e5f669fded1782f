//! RRsets on their way into an answer.
ghost use Rattle.std.specs.Prelude.{◌≡◌, map, unwrap_or};

use messages::names::Name;
use names_rdata::rtype::Rtype;
use plain::Ttl;
use std::alloc::{AllocError, Global};
use std::marker::Model;

/// A record of an RRset as it is written: its owner, where it spells that otherwise than the RRset,
/// its TTL, and its data as they are spelled.
#[derive(Debug, Drop)]
pub struct GroupRecord {
    pub owner: Option<Name<Vec<u8>>>,
    pub ttl: Ttl,
    pub octets: Vec<u8>,
}

impl GroupRecord {
    /// The owner, which is the RRset's unless the record has its own.
    pub fn owner_in<'a>(&'a self, group: &'a Name<Vec<u8>>) -> &'a Name<Vec<u8>>
        ensures { result.now ≡ unwrap_or self.now.owner group.now }
    {
        match &self.owner {
            Some(owner) => owner,
            None => group,
        }
    }
}

/// An RRset of an answer: its records as they are written, and its data in canonical form, in
/// canonical order (RFC 4034, 6.3).
#[derive(Debug, Drop)]
pub struct RrGroup {
    owner: Name<Vec<u8>>,
    label_count: u8,
    rtype: Rtype,
    ttl: Ttl,
    records: Vec<GroupRecord>,
    canonical: Vec<Vec<u8>>,
    signed: bool,
}

impl Model for RrGroup {
    ghost use Rattle.std.specs.Prelude.{map};
    ghost use Rattle.answer_terms.specs.GroupView.{GroupView};
    ghost use Rattle.answer_zone_records.specs.GroupRecords.{record_under};

    ghost Value = { GroupView };

    ghost view = { λ g. record {
      owner = g.owner;
      labels = g.label_count;
      rtype = g.rtype;
      ttl = g.ttl;
      written = map (record_under g.owner g.rtype) g.records.items;
      canonical = map (λ v. v.items) g.canonical.items;
      signed = g.signed;
    } };
}

impl RrGroup {
    ghost use Rattle.std.specs.Prelude.{◌≡◌, false, map, IfOk};
    ghost use Rattle.answer_terms.specs.GroupView.{canonical_view};
    ghost use Rattle.answer_zone_records.specs.GroupRecords.{record_under};

    /// An RRset of its parts. Owner and TTL are those of its signatures, and the owner is that of
    /// each record which has none of its own. The label count is that of the owner that the records
    /// stem from, which for a wildcard's records is the wildcard (RFC 4034, 3.1.3).
    pub fn new(
        owner: Name<Vec<u8>>,
        label_count: u8,
        rtype: Rtype,
        ttl: Ttl,
        records: Vec<GroupRecord>,
        canonical: Vec<Vec<u8>>,
        signed: bool,
    ) -> Self
        ensures owner { result.owner ≡ owner }
        ensures label_count { result.labels ≡ label_count }
        ensures rtype { result.rtype ≡ rtype }
        ensures ttl { result.ttl ≡ ttl }
        ensures written { result.written ≡ map (record_under owner rtype) records.items }
        ensures canonical { result.canonical ≡ map (λ v. v.items) canonical.items }
        ensures signed { result.signed ≡ signed }
    {
        RrGroup {
            owner,
            label_count,
            rtype,
            ttl,
            records,
            canonical,
            signed,
        }
    }

    /// An RRset that is written in canonical form, under one owner; it is signed if it has a
    /// record.
    pub fn canonical_form(
        alloc: Global,
        owner: Name<Vec<u8>>,
        label_count: u8,
        rtype: Rtype,
        ttl: Ttl,
        canonical: Vec<Vec<u8>>,
    ) -> Result<Self, AllocError>
        ensures { IfOk result (λ g. g
            ≡ canonical_view owner label_count rtype ttl (map (λ d. d.items) canonical.items)) }
    {
        let mut records = Vec::with_capacity(alloc, canonical.len())?;
        for octets in &canonical {
            records.push(GroupRecord {
                owner: None,
                ttl,
                octets: octets.clone()?,
            })?;
        }
        let signed = !canonical.is_empty();
        Ok(RrGroup::new(owner, label_count, rtype, ttl, records, canonical, signed))
    }

    /// The group as one that is not signed (RFC 4035, 2.2).
    pub fn unsigned(self) -> Self
        ensures { result ≡ record self { signed = false } }
    {
        RrGroup {
            signed: false,
            ..self
        }
    }

    /// The owner of the signatures, and of each record that has none of its own.
    pub fn owner(&self) -> &Name<Vec<u8>>
        ensures { result.now ≡ self.now.owner }
    {
        &self.owner
    }

    /// The labels that a signature counts (RFC 4034, 3.1.3).
    pub fn label_count(&self) -> u8
        ensures { result ≡ self.now.labels }
    {
        self.label_count
    }

    /// The type of the records.
    pub fn rtype(&self) -> Rtype
        ensures { result ≡ self.now.rtype }
    {
        self.rtype
    }

    /// The TTL of the signatures, and the one that they cover (RFC 4034, 3.1.4).
    pub fn ttl(&self) -> Ttl
        ensures { result ≡ self.now.ttl }
    {
        self.ttl
    }

    /// The records as they are written, in canonical order.
    pub fn records(&self) -> &[GroupRecord]
        ensures { map (record_under self.now.owner self.now.rtype) result.now ≡ self.now.written }
    {
        self.records.as_slice()
    }

    /// The data in canonical form and order (RFC 4034, 6.2 and 6.3).
    pub fn canonical(&self) -> &[Vec<u8>]
        ensures { map (λ v. v.items) result.now ≡ self.now.canonical }
    {
        self.canonical.as_slice()
    }

    /// Whether signatures stand behind the records; they don't at a delegation (RFC 4035, 2.2).
    pub fn is_signed(&self) -> bool
        ensures { result ≡ self.now.signed }
    {
        self.signed
    }
}
