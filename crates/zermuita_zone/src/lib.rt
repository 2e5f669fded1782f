//! The library for C that serves a zone. `include/zermuita_zone.h` declares it, and `tools/install`
//! puts both libraries into one archive.
#![tactic(auto)]

mod handle;
mod held;
mod loose;
mod opened;

ghost use Rattle.std.specs.Prelude.{◌≡◌};
ghost use Rattle.server_zone_octets.specs.Codes.{number_of};
ghost use Rattle.server_zone_octets.specs.declared.code.ZoneCode.TheVariants as c;
ghost use Rattle.zermuita_zone.specs.Calls.{AnswersFrom, AppliesTo, ForgetsIn, OpensFrom};
ghost use Rattle.zermuita_zone.specs.Calls.{TellsDueOf, TellsFactsOf, TellsLines, TellsSetOf};
ghost use Rattle.zermuita_zone.specs.Calls.{zone_in};

use denial_nsec3_sha1::hasher::Sha1Hasher;
use handle::ZoneHandle;
use opened::OpenZone;
use server_signatures::DigestScheme;
use server_zone_octets::{
    OctetDue, OctetFacts, OctetMaster, OctetRequest, ZoneCode, ZoneReport, apply_octets,
    due_octets, facts_octets, master_octets, open_octets, records_octets, respond_octets,
};
use std::alloc::Global;

/// Tells the lines of a journal for a master file, as [`master_octets`] does.
#[unsafe(no_mangle)]
pub extern "C" fn zermuita_zone_lines_of(
    alloc: Global,
    master: &OctetMaster,
    out: &mut [u8],
    report: &mut ZoneReport,
) -> u32
    ensures { TellsLines master.now report.old report.new out.old out.new result }
{
    master_octets(alloc, master, out, report).number()
}

/// Opens a zone that is closed, as [`open_octets`] does.
#[unsafe(no_mangle)]
pub extern "C" fn zermuita_zone_open(
    alloc: Global,
    handle: &mut ZoneHandle,
    journal: &[u8],
    out: &mut [u8],
    report: &mut ZoneReport,
) -> u32
    ensures { let opens = OpensFrom journal.now (zone_in handle.old) (zone_in handle.new) in
        opens report.old report.new out.old out.new result }
{
    if handle.is_open() {
        return ZoneCode::IsOpen.number();
    }
    match open_octets(alloc, journal, &DigestScheme, &Sha1Hasher, out, report) {
        Ok(zone) => match Box::new(alloc, OpenZone { zone }) {
            Ok(open) => {
                *handle = ZoneHandle::of(open);
                ZoneCode::Done.number()
            }
            Err(_) => ZoneCode::OutOfMemory.number(),
        },
        Err(code) => code.number(),
    }
}

/// Applies a line as [`apply_octets`] does.
#[unsafe(no_mangle)]
pub extern "C" fn zermuita_zone_apply(
    alloc: Global,
    handle: &mut ZoneHandle,
    line: &[u8],
    out: &mut [u8],
    report: &mut ZoneReport,
) -> u32
    ensures { let applies = AppliesTo line.now (zone_in handle.old) (zone_in handle.new) in
        applies report.old report.new out.old out.new result }
{
    let Some(mut open) = handle.take(alloc) else {
        return ZoneCode::NotOpen.number();
    };
    let code = apply_octets(alloc, &mut open.zone, line, out, report);
    *handle = ZoneHandle::of(open);
    code.number()
}

/// Drops the records that wait for their replacement.
#[unsafe(no_mangle)]
pub extern "C" fn zermuita_zone_forget(alloc: Global, handle: &mut ZoneHandle) -> u32
    ensures { ForgetsIn (zone_in handle.old) (zone_in handle.new) result }
{
    let Some(mut open) = handle.take(alloc) else {
        return ZoneCode::NotOpen.number();
    };
    open.zone.forget_gathered();
    *handle = ZoneHandle::of(open);
    ZoneCode::Done.number()
}

/// Closes a zone, and frees all that it holds.
#[unsafe(no_mangle)]
pub extern "C" fn zermuita_zone_close(alloc: Global, handle: &mut ZoneHandle) -> u32
    ensures closed { zone_in handle.new ≡ None }
    ensures done { result ≡ number_of c.Done }
{
    let _ = handle.take(alloc);
    ZoneCode::Done.number()
}

/// Says what is due of a roll, as [`due_octets`] does.
#[unsafe(no_mangle)]
pub extern "C" fn zermuita_zone_due(
    alloc: Global,
    handle: &mut ZoneHandle,
    roll: u32,
    out: &mut [u8],
    due: &mut OctetDue,
) -> u32
    ensures { let tells = TellsDueOf roll (zone_in handle.old) (zone_in handle.new) in
        tells due.old due.new out.old out.new result }
{
    let Some(open) = handle.take(alloc) else {
        return ZoneCode::NotOpen.number();
    };
    let code = due_octets(alloc, &open.zone, roll, out, due);
    *handle = ZoneHandle::of(open);
    code.number()
}

/// Says what the lines of a zone say of it, as [`facts_octets`] does.
#[unsafe(no_mangle)]
pub extern "C" fn zermuita_zone_facts(
    alloc: Global,
    handle: &mut ZoneHandle,
    out: &mut [u8],
    facts: &mut OctetFacts,
) -> u32
    ensures { let tells = TellsFactsOf (zone_in handle.old) (zone_in handle.new) in
        tells facts.old facts.new out.old out.new result }
{
    let Some(open) = handle.take(alloc) else {
        return ZoneCode::NotOpen.number();
    };
    let code = facts_octets(alloc, &open.zone, out, facts);
    *handle = ZoneHandle::of(open);
    code.number()
}

/// Tells a set of records, as [`records_octets`] does.
#[unsafe(no_mangle)]
pub extern "C" fn zermuita_zone_records(
    alloc: Global,
    handle: &mut ZoneHandle,
    rtype: u16,
    out: &mut [u8],
    report: &mut ZoneReport,
) -> u32
    ensures { let tells = TellsSetOf rtype (zone_in handle.old) (zone_in handle.new) in
        tells report.old report.new out.old out.new result }
{
    let Some(open) = handle.take(alloc) else {
        return ZoneCode::NotOpen.number();
    };
    let code = records_octets(alloc, &open.zone, rtype, out, report);
    *handle = ZoneHandle::of(open);
    code.number()
}

/// Answers a request as [`respond_octets`] does.
#[unsafe(no_mangle)]
pub extern "C" fn zermuita_zone_respond_to(
    alloc: Global,
    handle: &mut ZoneHandle,
    request: &OctetRequest,
    out: &mut [u8],
    report: &mut ZoneReport,
) -> u32
    ensures { let answers = AnswersFrom request.now (zone_in handle.old) (zone_in handle.new) in
        answers report.old report.new out.old out.new result }
{
    let Some(mut open) = handle.take(alloc) else {
        return ZoneCode::NotOpen.number();
    };
    let code = respond_octets(alloc, &mut open.zone, request, out, report);
    *handle = ZoneHandle::of(open);
    code.number()
}
