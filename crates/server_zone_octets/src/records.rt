//! The zone's keys, what the parent has, and what it is asked for.
ghost use Rattle.std.specs.Prelude.{◌≡◌, IfErr, IfOk};
ghost use Rattle.std.specs.List.{flat_map};
ghost use Rattle.definitions.specs.Dnskey.{dnskey_data};
ghost use Rattle.denial_keys.specs.Keys.{ds_data};
ghost use Rattle.names_rdata.specs.Composing.{with_length};
ghost use Rattle.server_zone_octets.specs.Sets.{IsSetRefused, SaysSet, TellsSet, set_data};
ghost use Rattle.server_zone_octets.specs.Telling.{told_seen};

use crate::code::ZoneCode;
use crate::parts::put_short;
use crate::report::ZoneReport;
use crate::told::{CodeAndOctets, hand_out};
use answer_scheme::Scheme;
use answer_terms::dnskey::{Dnskey, ZoneKey};
use denial_data::Ds;
use denial_nsec3_hash::hasher::Nsec3Hasher;
use names_rdata::data::ComposeRecordData;
use server_zone::Zone;
use std::alloc::{AllocError, Global};

/// The types of sets that are told.
const DS: u16 = 43;

const DNSKEY: u16 = 48;

const CDS: u16 = 59;

const CDNSKEY: u16 = 60;

/// Tells a set of records by its type: DNSKEY, the keys that are present; DS, what the parent is to
/// have; CDS and CDNSKEY, what it is asked for (RFC 7344, 3). The data of each record are written
/// behind their length in two octets.
pub fn records_octets<S: Scheme, H: Nsec3Hasher>(
    alloc: Global,
    zone: &Zone<'_, S, H>,
    rtype: u16,
    out: &mut [u8],
    report: &mut ZoneReport,
) -> ZoneCode
    ensures { let keys = zone.now.publisher.keys in
        SaysSet keys rtype report.old report.new out.old out.new result }
{
    if !report.is_known() {
        return ZoneCode::BadCall;
    }
    let told = told_set(alloc, zone, rtype);
    hand_out(&told, out, report)
}

/// What is told of a set.
fn told_set<S: Scheme, H: Nsec3Hasher>(
    alloc: Global,
    zone: &Zone<'_, S, H>,
    rtype: u16,
) -> CodeAndOctets
    ensures { TellsSet zone.now.publisher.keys rtype (told_seen result) }
{
    match set_of(alloc, zone, rtype) {
        Ok(octets) => CodeAndOctets {
            code: ZoneCode::Done,
            octets,
        },
        Err(code) => CodeAndOctets::only(alloc, code),
    }
}

/// The data of a set.
fn set_of<S: Scheme, H: Nsec3Hasher>(
    alloc: Global,
    zone: &Zone<'_, S, H>,
    rtype: u16,
) -> Result<Vec<u8>, ZoneCode>
    ensures octets { let keys = zone.now.publisher.keys in
        IfOk result (λ v. Some v.items ≡ set_data keys rtype) }
    ensures refused { IfErr result (IsSetRefused zone.now.publisher.keys rtype) }
{
    let octets = match rtype {
        DS => ds_octets(alloc, &zone.publisher.ds_set()?)?,
        CDS => ds_octets(alloc, &zone.publisher.cds_set()?)?,
        CDNSKEY => key_octets(alloc, &zone.publisher.cdnskey_set()?)?,
        DNSKEY => key_octets(alloc, &zone.publisher.dnskey_set()?)?,
        _ => return Err(ZoneCode::BadCall),
    };
    Ok(octets)
}

/// The data of DS records, each behind its length.
fn ds_octets(alloc: Global, set: &[Ds<Vec<u8>>]) -> Result<Vec<u8>, AllocError>
    ensures { IfOk result (λ v. v.items ≡ flat_map (λ d. with_length (ds_data d)) set.now) }
{
    let mut octets = Vec::new(alloc);
    for record in set {
        let mut rdata = Vec::new(alloc);
        record.compose_rdata(&mut rdata).map_err(|_| AllocError)?;
        put_short(&mut octets, &rdata)?;
    }
    Ok(octets)
}

/// The data of DNSKEY records, each behind its length.
fn key_octets(alloc: Global, set: &[Dnskey<Vec<u8>>]) -> Result<Vec<u8>, AllocError>
    ensures { IfOk result (λ v. v.items ≡ flat_map (λ k. with_length (dnskey_data k)) set.now) }
{
    let mut octets = Vec::new(alloc);
    for record in set {
        let mut rdata = Vec::new(alloc);
        record.compose(&mut rdata)?;
        put_short(&mut octets, &rdata)?;
    }
    Ok(octets)
}
