//! A zone's records in canonical order, and the RRsets of its answers. Keys are not known here.
ghost use Rattle.std.specs.Prelude.{◌≡◌, map, IfErr, IfOk, OnErr, OnOk};
ghost use Rattle.std.specs.List.{AllByRecursion};
ghost use Rattle.definitions.specs.Name.{IsName};
ghost use Rattle.messages.specs.Handed.{AreHanded, IsHanded};
ghost use Rattle.messages.specs.HandedRr.{handed_of};
ghost use Rattle.answer_terms.specs.Accepted.{IsAccepted};
ghost use Rattle.answer_terms.specs.Accepting.{sorted_records};
ghost use Rattle.answer_zone_records.specs.Faults.{RefusesZone, first_fault};
ghost use Rattle.answer_zone_records.specs.ZoneInOrder.{AreZoneRecords};
ghost use Rattle.answer_terms.specs.ModeView.{mode_of};

use crate::zone::contents::contents_of;
use answer_terms::mode::Mode;
use answer_zone_records::chains::Chain;
use answer_zone_records::fault::ZoneFault;
use answer_zone_records::faults::first_fault;
use denial_nsec3_hash::hasher::Nsec3Hasher;
use denial_sorted::sorted::SortedRecords;
use messages::names::Name;
use messages::record::{ZoneData, ZoneRecord};
use plain::Ttl;
use std::alloc::Global;
use std::marker::Model;

mod aliases;
pub mod answers;
mod around;
mod asked;
mod contents;
mod finding;
mod lookups;
mod open_answers;

/// The records of a zone in canonical order, and its chain with the TTL of its records.
/// The chain is that of one hasher, which is borrowed for as long as the zone is kept: names of
/// questions are hashed by no other.
#[derive(Drop)]
pub struct ZoneRecords<'h, H: Nsec3Hasher> {
    apex: Name<Vec<u8>>,
    mode: Mode,
    limit: u16,
    records: SortedRecords<Name<Vec<u8>>, ZoneData>,
    kept: Vec<Name<Vec<u8>>>,
    chain: Chain,
    link_ttl: Ttl,
    has_aliases: bool,
    hasher: &'h H,
}

impl<'h, H: Nsec3Hasher> Model for ZoneRecords<'h, H> {
    ghost use Rattle.messages.specs.Handed.{AreHanded};
    ghost use Rattle.std.specs.Prelude.{◌≡◌, true, map};
    ghost use Rattle.std.specs.List.{AllByRecursion, list_any};
    ghost use Rattle.definitions.specs.ZoneChain.{optout_of};
    ghost use Rattle.messages.specs.HandedRr.{handed_of};
    ghost use Rattle.answer_terms.specs.Accepting.{is_alias};
    ghost use Rattle.answer_terms.specs.Served.{chain_ttl};
    ghost use Rattle.answer_zone_records.specs.ZoneInOrder.{AreZoneRecords};
    ghost use Rattle.answer_zone.specs.HashedZone.{HashedZone};
    ghost use Rattle.answer_zone_records.specs.MadeLinks.{IsChain};
    ghost use Rattle.answer_terms.specs.ModeView.{mode_of};
    ghost use Rattle.answer_zone_records.specs.KeptNames.{KeepsNames};
    ghost use Rattle.answer_zone_records.specs.OwnedRecords.{IsInternet};

    ghost Value = { HashedZone H };

    ghost view = { λ z. record {
      apex = z.apex;
      mode = mode_of z.mode;
      limit = z.limit;
      records = map handed_of z.records;
      hasher = z.hasher.now;
    } };

    ghost invariant = { λ z. AreZoneRecords z.apex (map handed_of z.records)
        × AreHanded z.apex (map handed_of z.records)
        × IsChain (H.hash_of z.hasher.now) z.apex (mode_of z.mode) (map handed_of z.records) z.chain
        × (z.link_ttl ≡ chain_ttl z.apex (map handed_of z.records))
        × AllByRecursion IsInternet z.records
        × (optout_of (mode_of z.mode) ≡ true
        → KeepsNames z.apex (map handed_of z.records) z.kept.items)
        × (z.has_aliases ≡ list_any is_alias (map handed_of z.records)) };
}

impl<'h, H: Nsec3Hasher> ZoneRecords<'h, H> {
    /// A zone of these records, unless one of them or the chain has a fault. Each fault of the list
    /// is sought in the whole list before the next (RFC 1035, 5.2; RFC 2181, 5.2; RFC 4035, 2).
    /// Iterations beyond the limit are refused (RFC 5155, 10.3), and so is a chain in which two
    /// names would share a hash (RFC 5155, 7.1).
    pub fn new(
        alloc: Global,
        apex: Name<Vec<u8>>,
        records: Vec<ZoneRecord>,
        mode: Mode,
        limit: u16,
        hasher: &'h H,
    ) -> Result<Self, ZoneFault>
        ensures zone { IfOk result (λ z. z ≡ record {
          apex = apex;
          mode = mode_of mode;
          limit = limit;
          records = sorted_records (map handed_of records.items);
          hasher = hasher.now;
        }) }
        ensures accepted { let hash = H.hash_of hasher.now in IfOk result
            (λ z. IsAccepted hash apex (mode_of mode) limit (map handed_of records.items)) }
        ensures handed { IfOk result
            (λ z. IsName apex × AllByRecursion IsHanded (map handed_of records.items)) }
        ensures fault { let hash = H.hash_of hasher.now in IfErr result
            (RefusesZone hash apex (mode_of mode) limit (map handed_of records.items)) }
    {
        let contents = contents_of(alloc, &apex, records, &mode, limit, hasher)?;
        Ok(ZoneRecords {
            apex,
            mode,
            limit,
            records: contents.records,
            kept: contents.kept,
            chain: contents.chain,
            link_ttl: contents.link_ttl,
            has_aliases: contents.has_aliases,
            hasher,
        })
    }

    /// Makes the zone anew of other records, with the same apex, chain, limit and hasher. It is
    /// refused as a new zone would be, and then stays as it was.
    pub fn replace_records(
        &mut self,
        alloc: Global,
        records: Vec<ZoneRecord>,
    ) -> Result<(), ZoneFault>
        ensures replaced { OnOk result (self.new ≡ record self.old {
          records = sorted_records (map handed_of records.items);
        }) }
        ensures accepted { let z = self.old in let rs = map handed_of records.items in
            OnOk result (IsAccepted (H.hash_of z.hasher) z.apex z.mode z.limit rs) }
        ensures handed { OnOk result (AllByRecursion IsHanded (map handed_of records.items)) }
        ensures refused { OnErr result (self.new ≡ self.old) }
        ensures fault { let z = self.old in let rs = map handed_of records.items in
            IfErr result (RefusesZone (H.hash_of z.hasher) z.apex z.mode z.limit rs) }
    {
        let contents = contents_of(
            alloc,
            &self.apex,
            records,
            &self.mode,
            self.limit,
            self.hasher,
        )?;
        self.records = contents.records;
        self.kept = contents.kept;
        self.chain = contents.chain;
        self.link_ttl = contents.link_ttl;
        self.has_aliases = contents.has_aliases;
        Ok(())
    }

    /// The first fault of a list by itself, for which it would not replace the zone's records.
    pub fn fault_of_list(&self, records: &[ZoneRecord]) -> Option<ZoneFault>
        ensures { let z = self.now in
            result ≡ first_fault z.apex z.mode z.limit (map handed_of records.now) }
    {
        first_fault(&self.apex, &self.mode, self.limit, records)
    }

    /// The name of the zone.
    pub fn apex(&self) -> &Name<Vec<u8>>
        ensures { result.now ≡ self.now.apex }
    {
        &self.apex
    }

    /// What hashes its names.
    pub fn hasher(&self) -> &'h H
        ensures { result.now ≡ self.now.hasher }
    {
        self.hasher
    }

    /// What every zone keeps. It does nothing.
    pub fn keeps(&self)
        ensures published { AreZoneRecords self.now.apex self.now.records }
        ensures handed { AreHanded self.now.apex self.now.records }
    {
        let _ = &self.apex;
    }
}
