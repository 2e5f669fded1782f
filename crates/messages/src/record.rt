//! Records as a zone holds them: they own their names and octets.
ghost use Rattle.messages.specs.Handed.{IsHanded};
ghost use Rattle.messages.specs.HandedRr.{HasNames, handed_of};

use crate::names::{Name, ZoneName};
use plain::record::Record;
use plain::zone_data::ZoneRecordData;

/// Data of a zone's record.
pub type ZoneData = ZoneRecordData<Vec<u8>, Name<Vec<u8>>>;

/// A record of a zone.
pub type ZoneRecord = Record<Name<Vec<u8>>, ZoneData>;

/// What every record keeps: a name, numbers that fit their places, and data of their type. It does
/// nothing.
pub fn keeps(rr: &ZoneRecord)
    ensures { IsHanded (handed_of rr.now) }
{
    rr.owner().keeps();
    data_keep_names(rr.data());
    let _ = rr.rtype().to_int();
    let _ = rr.ttl().as_secs();
}

/// What the names in data keep. It does nothing.
fn data_keep_names(rdata: &ZoneData)
    ensures { HasNames rdata.now }
{
    match rdata {
        ZoneRecordData::Soa(soa) => {
            soa.mname().keeps();
            soa.rname().keeps();
        },
        ZoneRecordData::Ns(ns) => ns.nsdname().keeps(),
        ZoneRecordData::Unknown(_) => {},
    }
}
