//! Records of a zone, a line each: an owner, the number of a type and the data, the octets of a
//! word. SOA records have data of their own.

use names::{Name, Rtype, Serial, UnknownRecordData};
use plain::record::Record;
use plain::soa::Soa;
use plain::zone_data::ZoneRecordData;
use plain::{Class, Ttl};
use std::alloc::{AllocError, Global};

pub(crate) type Owner = Name<Vec<u8>>;

pub(crate) type Data = ZoneRecordData<Vec<u8>, Owner>;

pub(crate) type Rr = Record<Owner, Data>;

fn soa(alloc: Global) -> Option<Data> {
    let mname = Name::vec_from_str(alloc, "ns.example").ok()?;
    let rname = Name::vec_from_str(alloc, "root.example").ok()?;
    let hour = Ttl::from_secs(3600);
    Some(ZoneRecordData::Soa(Soa::new(mname, rname, Serial(1), hour, hour, hour, hour)))
}

fn content(alloc: Global, rtype: Rtype, word: &str) -> Option<Data> {
    if rtype == Rtype::SOA {
        return soa(alloc);
    }
    let octets = Vec::from_slice(alloc, word.as_bytes()).ok()?;
    Some(ZoneRecordData::Unknown(UnknownRecordData::from_octets(rtype, octets).ok()?))
}

/// The record of a line, if it is one.
fn record(alloc: Global, line: &str) -> Option<Rr> {
    let (owner, rest) = line.split_once(' ')?;
    let (rtype, word) = rest.split_once(' ')?;
    let owner = Name::vec_from_str(alloc, owner).ok()?;
    let content = content(alloc, Rtype::from_int(rtype.parse().ok()?), word)?;
    Some(Record::new(owner, Class::IN, Ttl::from_secs(3600), content))
}

/// The records of lines; a line that is none is left out.
pub(crate) fn records(alloc: Global, lines: &[String]) -> Result<Vec<Rr>, AllocError> {
    let mut records = Vec::new(alloc);
    for line in lines {
        if let Some(rr) = record(alloc, line.as_str()) {
            records.push(rr)?;
        }
    }
    Ok(records)
}
