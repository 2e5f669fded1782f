//! Opening a zone from its journal, and applying a line.
ghost use Rattle.std.specs.Prelude.{◌≡◌, true, IfErr, IfOk};
ghost use Rattle.server_answers.specs.World.{world_of};
ghost use Rattle.server_answers.specs.Zones.{IsZone};
ghost use Rattle.server_zone.specs.Refusals.{is_key_memory, is_memory, is_replace_memory};
ghost use Rattle.server_zone.specs.Refusals.{is_zone_memory};
ghost use Rattle.server_zone_octets.specs.Lines.{AppliesLine, IsToldApplied, IsToldRefused};
ghost use Rattle.server_zone_octets.specs.Lines.{OpensAs, RefusesOpening, SaysApplied};
ghost use Rattle.server_zone_octets.specs.Telling.{is_known, told_seen};

use crate::code::ZoneCode;
use crate::report::ZoneReport;
use crate::text::{push_applied, push_refusal};
use crate::told::{CodeAndOctets, put};
use answer_publisher::fault::{KeyFault, ReplaceFault, ZoneFault};
use answer_scheme::Scheme;
use denial_nsec3_hash::hasher::Nsec3Hasher;
use server_zone::{Applied, Refusal, Zone};
use std::alloc::Global;

/// Opens a zone from its journal as [`Zone::open`] does. Where it is refused, the report says at
/// which line, and why is written to the front of `out` if there is room for it.
pub fn open_octets<'a, S: Scheme, H: Nsec3Hasher>(
    alloc: Global,
    journal: &[u8],
    scheme: &'a S,
    hasher: &'a H,
    out: &mut [u8],
    report: &mut ZoneReport,
) -> Result<Zone<'a, S, H>, ZoneCode>
    ensures opened { let digest = S.digest_of scheme.now in let hash = H.hash_of hasher.now in
        let opens = OpensAs digest hash scheme.now hasher.now journal.now report.new in
        IfOk result (λ z. opens z × (out.new ≡ out.old)) }
    ensures accepted { let world = world_of S.signature_of S.verifies S.digest_of H.hash_of in
        IfOk result (λ z. IsZone (world z.publisher)) }
    ensures known { IfOk result (λ z. is_known report.old ≡ true) }
    ensures refused { let digest = S.digest_of scheme.now in let hash = H.hash_of hasher.now in
        let refuses = RefusesOpening digest hash journal.now report.old report.new in
        IfErr result (refuses out.old out.new) }
{
    if !report.is_known() {
        return Err(ZoneCode::BadCall);
    }
    match Zone::open(alloc, journal, scheme, hasher) {
        Ok(opened) => {
            *report = ZoneReport::of(0);
            report.whole = opened.whole;
            report.settled = opened.settled;
            Ok(opened.zone)
        }
        Err(error) => {
            let told = told_refusal(alloc, &error.reason);
            *report = ZoneReport::of(told.octets.len());
            report.line = error.number;
            let _ = put(&told.octets, out);
            Err(told.code)
        }
    }
}

/// Applies a line, without its line feed, as [`Zone::apply`] does. What the bench prints of it is
/// written to the front of `out` if there is room for it. With `Done` the line is accepted, whether
/// there is room or not, and so it is with `Untold`; else everything is as it was.
pub fn apply_octets<S: Scheme, H: Nsec3Hasher>(
    alloc: Global,
    zone: &mut Zone<'_, S, H>,
    line: &[u8],
    out: &mut [u8],
    report: &mut ZoneReport,
) -> ZoneCode
    ensures { let p = zone.old.publisher in
        let digest = S.digest_of p.scheme.now in let hash = H.hash_of p.zone.hasher in
        let applies = AppliesLine digest hash line.now zone.old zone.new in
        applies report.old report.new out.old out.new result }
{
    if !report.is_known() {
        return ZoneCode::BadCall;
    }
    let told = told_line(alloc, zone, line);
    *report = ZoneReport::of(told.octets.len());
    let _ = put(&told.octets, out);
    told.code
}

/// What applying a line answers.
fn told_line<S: Scheme, H: Nsec3Hasher>(
    alloc: Global,
    zone: &mut Zone<'_, S, H>,
    line: &[u8],
) -> CodeAndOctets
    ensures { let p = zone.old.publisher in
        let digest = S.digest_of p.scheme.now in let hash = H.hash_of p.zone.hasher in
        SaysApplied digest hash line.now zone.old zone.new (told_seen result) }
{
    match zone.apply(line) {
        Ok(applied) => told_applied(alloc, &applied),
        Err(refusal) => told_refusal(alloc, &refusal),
    }
}

/// What an accepted line answers.
fn told_applied(alloc: Global, applied: &Applied) -> CodeAndOctets
    ensures { IsToldApplied applied.now (told_seen result) }
{
    let mut text = String::new(alloc);
    match push_applied(&mut text, applied) {
        Ok(()) => CodeAndOctets {
            code: ZoneCode::Done,
            octets: text.into_bytes(),
        },
        Err(_) => CodeAndOctets::only(alloc, ZoneCode::Untold),
    }
}

/// Why a line is refused.
fn told_refusal(alloc: Global, refusal: &Refusal) -> CodeAndOctets
    ensures { IsToldRefused refusal.now (told_seen result) }
{
    if is_memory(refusal) {
        return CodeAndOctets::only(alloc, ZoneCode::OutOfMemory);
    }
    let mut text = String::new(alloc);
    match push_refusal(&mut text, refusal) {
        Ok(()) => CodeAndOctets {
            code: ZoneCode::Refused,
            octets: text.into_bytes(),
        },
        Err(_) => CodeAndOctets::only(alloc, ZoneCode::OutOfMemory),
    }
}

/// Whether memory ran out, for the line itself or for what the zone makes of it.
fn is_memory(refusal: &Refusal) -> bool
    ensures { result ≡ is_memory refusal.now }
{
    match refusal {
        Refusal::Memory => true,
        Refusal::Zone(fault) => is_zone_memory(fault),
        Refusal::Key(fault) => is_key_memory(fault),
        Refusal::Replace(fault) => is_replace_memory(fault),
        _ => false,
    }
}

/// Whether memory ran out for a zone of records.
fn is_zone_memory(fault: &ZoneFault) -> bool
    ensures { result ≡ is_zone_memory fault.now }
{
    matches!(fault, ZoneFault::Memory)
}

/// Whether memory ran out for a call on keys.
fn is_key_memory(fault: &KeyFault) -> bool
    ensures { result ≡ is_key_memory fault.now }
{
    matches!(fault, KeyFault::Memory)
}

/// Whether memory ran out for a replacement.
fn is_replace_memory(fault: &ReplaceFault) -> bool
    ensures { result ≡ is_replace_memory fault.now }
{
    match fault {
        ReplaceFault::TooSoon => false,
        ReplaceFault::Zone(fault) => is_zone_memory(fault),
    }
}
