//! Zones in which aliases stand.
ghost use Rattle.std.specs.Prelude.{◌≡◌, map, IfErr, IfOk, OnErr, OnOk};
ghost use Rattle.std.specs.List.{AllByRecursion};
ghost use Rattle.definitions.specs.Name.{IsName};
ghost use Rattle.messages.specs.Handed.{IsHanded};
ghost use Rattle.messages.specs.HandedRr.{handed_of};
ghost use Rattle.answer_terms.specs.Accepting.{sorted_records};
ghost use Rattle.answer_terms.specs.ModeView.{mode_of};
ghost use Rattle.answer_zone.specs.Contents.{IsContents};
ghost use Rattle.answer_zone_records.specs.AliasFaults.{IsAcceptedWithAliases};
ghost use Rattle.answer_zone_records.specs.AliasFaults.{RefusesZoneWithAliases};

use crate::zone::ZoneRecords;
use crate::zone::contents::{Contents, contents_in_order};
use answer_terms::mode::Mode;
use answer_zone_records::alias_faults::first_plain_fault;
use answer_zone_records::fault::ZoneFault;
use denial_nsec3_hash::hasher::Nsec3Hasher;
use messages::names::Name;
use messages::record::ZoneRecord;
use std::alloc::Global;

impl<'h, H: Nsec3Hasher> ZoneRecords<'h, H> {
    /// A zone of these records, among which aliases may stand that are in order: nothing but what
    /// signing adds beside a CNAME, and one CNAME of an owner (RFC 1034, 3.6.2; RFC 2181, 10.1);
    /// one DNAME of an owner, at no delegation and no wildcard, and nothing below it (RFC 6672,
    /// 2.3, 2.4 and 3.3). Else it is refused as [`ZoneRecords::new`] refuses records.
    pub fn with_aliases(
        alloc: Global,
        apex: Name<Vec<u8>>,
        records: Vec<ZoneRecord>,
        mode: Mode,
        limit: u16,
        hasher: &'h H,
    ) -> Result<Self, ZoneFault>
        ensures zone { IfOk result (λ z. z ≡ record {
          apex = apex;
          mode = mode_of mode;
          limit = limit;
          records = sorted_records (map handed_of records.items);
          hasher = hasher.now;
        }) }
        ensures accepted { let hash = H.hash_of hasher.now in
            let rs = map handed_of records.items in
            IfOk result (λ z. IsAcceptedWithAliases hash apex (mode_of mode) limit rs) }
        ensures handed { IfOk result
            (λ z. IsName apex × AllByRecursion IsHanded (map handed_of records.items)) }
        ensures fault { let hash = H.hash_of hasher.now in let rs = map handed_of records.items in
            IfErr result (RefusesZoneWithAliases hash apex (mode_of mode) limit rs) }
    {
        let contents = contents_with_aliases(alloc, &apex, records, &mode, limit, hasher)?;
        Ok(ZoneRecords {
            apex,
            mode,
            limit,
            records: contents.records,
            kept: contents.kept,
            chain: contents.chain,
            link_ttl: contents.link_ttl,
            has_aliases: contents.has_aliases,
            hasher,
        })
    }

    /// Makes the zone anew of other records, among which aliases may stand that are in order, with
    /// the same apex, chain, limit and hasher. It is refused as a new zone with aliases would be,
    /// and then stays as it was.
    pub fn replace_records_with_aliases(
        &mut self,
        alloc: Global,
        records: Vec<ZoneRecord>,
    ) -> Result<(), ZoneFault>
        ensures replaced { OnOk result (self.new ≡ record self.old {
          records = sorted_records (map handed_of records.items);
        }) }
        ensures accepted { let z = self.old in let rs = map handed_of records.items in
            let hash = H.hash_of z.hasher in
            OnOk result (IsAcceptedWithAliases hash z.apex z.mode z.limit rs) }
        ensures handed { OnOk result (AllByRecursion IsHanded (map handed_of records.items)) }
        ensures refused { OnErr result (self.new ≡ self.old) }
        ensures fault { let z = self.old in let rs = map handed_of records.items in
            IfErr result (RefusesZoneWithAliases (H.hash_of z.hasher) z.apex z.mode z.limit rs) }
    {
        let contents = contents_with_aliases(
            alloc,
            &self.apex,
            records,
            &self.mode,
            self.limit,
            self.hasher,
        )?;
        self.records = contents.records;
        self.kept = contents.kept;
        self.chain = contents.chain;
        self.link_ttl = contents.link_ttl;
        self.has_aliases = contents.has_aliases;
        Ok(())
    }
}

/// What is made of these records, among which aliases may stand that are in order, unless one of
/// them or the chain has a fault, as without aliases.
fn contents_with_aliases<H: Nsec3Hasher>(
    alloc: Global,
    apex: &Name<Vec<u8>>,
    records: Vec<ZoneRecord>,
    mode: &Mode,
    limit: u16,
    hasher: &H,
) -> Result<Contents, ZoneFault>
    ensures made { let hash = H.hash_of hasher.now in let rs = map handed_of records.items in
        IfOk result (IsContents hash apex.now (mode_of mode.now) rs) }
    ensures accepted { let hash = H.hash_of hasher.now in let rs = map handed_of records.items in
        IfOk result (λ _. IsAcceptedWithAliases hash apex.now (mode_of mode.now) limit rs) }
    ensures handed { IfOk result (λ _. AllByRecursion IsHanded (map handed_of records.items)) }
    ensures fault { let hash = H.hash_of hasher.now in let rs = map handed_of records.items in
        IfErr result (RefusesZoneWithAliases hash apex.now (mode_of mode.now) limit rs) }
{
    if let Some(fault) = first_plain_fault(apex, mode, limit, &records) {
        return Err(fault);
    }
    contents_in_order(alloc, apex, records, mode, hasher)
}
