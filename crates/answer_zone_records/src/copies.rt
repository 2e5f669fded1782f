//! Copies of records.
ghost use Rattle.std.specs.Prelude.{◌≡◌, IfOk, map};
ghost use Rattle.messages.specs.HandedRr.{handed_of};

use messages::names::copy_name;
use messages::record::{ZoneData, ZoneRecord};
use names_rdata::unknown::UnknownRecordData;
use plain::ns::Ns;
use plain::record::Record;
use plain::soa::Soa;
use plain::zone_data::ZoneRecordData;
use std::alloc::{AllocError, Global};

/// Copies of records that spell the same: a refused replacement leaves the caller its own.
pub fn copy_records(alloc: Global, records: &[ZoneRecord]) -> Result<Vec<ZoneRecord>, AllocError>
    ensures { IfOk result (λ v. map handed_of v.items ≡ map handed_of records.now) }
{
    let mut copies = Vec::with_capacity(alloc, records.len())?;
    for record in records {
        copies.push(copy_record(alloc, record)?)?;
    }
    Ok(copies)
}

/// A record that spells the same.
fn copy_record(alloc: Global, original: &ZoneRecord) -> Result<ZoneRecord, AllocError>
    ensures { IfOk result (λ r. handed_of r ≡ handed_of original.now) }
{
    Ok(Record::new(
        copy_name(alloc, original.owner())?,
        original.class(),
        original.ttl(),
        copy_data(alloc, original.data())?,
    ))
}

/// A copy of a record's data.
fn copy_data(alloc: Global, original: &ZoneData) -> Result<ZoneData, AllocError>
    ensures { IfOk result (λ d. d ≡ original.now) }
{
    match original {
        ZoneRecordData::Soa(soa) => Ok(ZoneRecordData::Soa(Soa::new(
            copy_name(alloc, soa.mname())?,
            copy_name(alloc, soa.rname())?,
            soa.serial(),
            soa.refresh(),
            soa.retry(),
            soa.expire(),
            soa.minimum(),
        ))),
        ZoneRecordData::Ns(ns) => Ok(ZoneRecordData::Ns(Ns::new(copy_name(alloc, ns.nsdname())?))),
        ZoneRecordData::Unknown(unknown) => Ok(ZoneRecordData::Unknown(copy_unknown(
            alloc, unknown,
        )?)),
    }
}

/// A copy of data that are kept as octets.
fn copy_unknown(
    alloc: Global,
    original: &UnknownRecordData<Vec<u8>>,
) -> Result<UnknownRecordData<Vec<u8>>, AllocError>
    ensures { IfOk result (λ d. d ≡ original.now) }
{
    let octets = original.as_slice().to_vec(alloc)?;
    let Ok(copy) = UnknownRecordData::from_octets(original.rtype(), octets) else {
        unreachable!();
    };
    Ok(copy)
}
