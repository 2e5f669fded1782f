//! What is made of a zone's records.
ghost use Rattle.std.specs.Prelude.{◌≡◌, false, true, map, IfErr, IfOk};
ghost use Rattle.std.specs.List.{AllByRecursion};
ghost use Rattle.definitions.specs.ZoneChain.{optout_of};
ghost use Rattle.messages.specs.Handed.{IsHanded};
ghost use Rattle.messages.specs.HandedRr.{handed_of};
ghost use Rattle.answer_terms.specs.Accepted.{IsAccepted};
ghost use Rattle.answer_terms.specs.Accepting.{sorted_records};
ghost use Rattle.answer_zone_records.specs.AliasFaults.{IsChained, IsPlainList, RefusesPlainList};
ghost use Rattle.answer_zone_records.specs.AliasFaults.{has_disorder};
ghost use Rattle.answer_zone_records.specs.Faults.{RefusesZone, zone_fault};
ghost use Rattle.answer_zone_records.specs.KeptNames.{KeepsNames};
ghost use Rattle.answer_terms.specs.ModeView.{mode_of};
ghost use Rattle.answer_zone_records.specs.OwnedRecords.{IsInternet};
ghost use Rattle.answer_zone.specs.Contents.{IsContents};

use answer_terms::mode::Mode;
use answer_zone_records::alias_faults::has_disorder;
use answer_zone_records::chains::{Chain, made_chain};
use answer_zone_records::fault::ZoneFault;
use answer_zone_records::faults::{any_alias, first_fault};
use answer_zone_records::kept::kept_names;
use answer_zone_records::owned::chain_ttl;
use denial_chain_owners::error::SigningError;
use denial_nsec3_hash::hasher::Nsec3Hasher;
use denial_sorted::laws::zone_data_order_is_total;
use denial_sorted::sorted::SortedRecords;
use messages::names::{Name, ZoneName};
use messages::record::{ZoneData, ZoneRecord, keeps};
use plain::Ttl;
use std::alloc::{AllocError, Global};

/// The records of a zone in canonical order, the owners that opt-out keeps, the chain with the TTL
/// of its records, and whether a record is an alias.
#[derive(Drop)]
pub(super) struct Contents {
    pub(super) records: SortedRecords<Name<Vec<u8>>, ZoneData>,
    pub(super) kept: Vec<Name<Vec<u8>>>,
    pub(super) chain: Chain,
    pub(super) link_ttl: Ttl,
    pub(super) has_aliases: bool,
}

/// What is made of these records, unless one of them or the chain has a fault: the faults of the
/// list come before any of the chain, and before memory is asked for.
pub(super) fn contents_of<H: Nsec3Hasher>(
    alloc: Global,
    apex: &Name<Vec<u8>>,
    records: Vec<ZoneRecord>,
    mode: &Mode,
    limit: u16,
    hasher: &H,
) -> Result<Contents, ZoneFault>
    ensures made { let hash = H.hash_of hasher.now in let rs = map handed_of records.items in
        IfOk result (IsContents hash apex.now (mode_of mode.now) rs) }
    ensures accepted { let hash = H.hash_of hasher.now in let rs = map handed_of records.items in
        IfOk result (λ _. IsAccepted hash apex.now (mode_of mode.now) limit rs) }
    ensures handed { IfOk result (λ _. AllByRecursion IsHanded (map handed_of records.items)) }
    ensures fault { let hash = H.hash_of hasher.now in let rs = map handed_of records.items in
        IfErr result (RefusesZone hash apex.now (mode_of mode.now) limit rs) }
{
    if let Some(fault) = first_fault(apex, mode, limit, &records) {
        return Err(fault);
    }
    contents_in_order(alloc, apex, records, mode, hasher)
}

/// What is made of records without a fault of their own, unless aliases among them are out of order
/// or the chain has a fault. They are put in order once.
pub(super) fn contents_in_order<H: Nsec3Hasher>(
    alloc: Global,
    apex: &Name<Vec<u8>>,
    records: Vec<ZoneRecord>,
    mode: &Mode,
    hasher: &H,
) -> Result<Contents, ZoneFault>
    requires { IsPlainList apex.now (map handed_of records.items) }
    ensures made { let hash = H.hash_of hasher.now in let rs = map handed_of records.items in
        IfOk result (IsContents hash apex.now (mode_of mode.now) rs) }
    ensures chained { let hash = H.hash_of hasher.now in let rs = map handed_of records.items in
        IfOk result (λ _. IsChained hash apex.now (mode_of mode.now) rs) }
    ensures orderly { let rs = sorted_records (map handed_of records.items) in
        IfOk result (λ _. has_disorder apex.now rs ≡ false) }
    ensures handed { IfOk result (λ _. AllByRecursion IsHanded (map handed_of records.items)) }
    ensures fault { let hash = H.hash_of hasher.now in let rs = map handed_of records.items in
        IfErr result (RefusesPlainList hash apex.now (mode_of mode.now) rs) }
{
    apex.keeps();
    all_keep(&records);
    zone_data_order_is_total::<Vec<u8>, Name<Vec<u8>>>();
    let Ok(sorted) = SortedRecords::from_vec(records) else {
        return Err(ZoneFault::Memory);
    };
    if has_disorder(apex, &sorted) {
        return Err(ZoneFault::Alias);
    }
    let chain = match made_chain(alloc, apex, &sorted, mode, hasher) {
        Ok(chain) => chain,
        Err(error) => return Err(fault_of(error)),
    };
    let Ok(kept) = kept_under(alloc, apex, &sorted, mode) else {
        return Err(ZoneFault::Memory);
    };
    let Ok(link_ttl) = chain_ttl(alloc, apex, &sorted) else {
        return Err(ZoneFault::Memory);
    };
    let has_aliases = any_alias(sorted.as_slice());
    Ok(Contents {
        records: sorted,
        kept,
        chain,
        link_ttl,
        has_aliases,
    })
}

/// The owners that opt-out keeps, none without it.
fn kept_under(
    alloc: Global,
    apex: &Name<Vec<u8>>,
    records: &SortedRecords<Name<Vec<u8>>, ZoneData>,
    mode: &Mode,
) -> Result<Vec<Name<Vec<u8>>>, AllocError>
    requires { AllByRecursion IsInternet records.now }
    ensures { let rs = map handed_of records.now in
        IfOk result (λ v. optout_of (mode_of mode.now) ≡ true → KeepsNames apex.now rs v.items) }
{
    if opts_out(mode) {
        kept_names(alloc, apex, records)
    } else {
        Ok(Vec::new(alloc))
    }
}

/// Whether delegations without DS are left out of the chain (RFC 5155, 6).
pub(super) fn opts_out(mode: &Mode) -> bool
    ensures { result ≡ optout_of (mode_of mode.now) }
{
    match mode {
        Mode::Nsec => false,
        Mode::Nsec3 { opt_out, .. } => *opt_out,
    }
}

/// What all records keep. It does nothing.
fn all_keep(records: &[ZoneRecord])
    ensures { AllByRecursion IsHanded (map handed_of records.now) }
{
    for record in records {
        keeps(record);
    }
}

/// A fault of the chain as one of the zone. Want of memory is none of the chain.
fn fault_of(error: SigningError) -> ZoneFault
    ensures { result ≡ zone_fault error }
{
    match error {
        SigningError::Memory => ZoneFault::Memory,
        error => ZoneFault::Chain(error),
    }
}
