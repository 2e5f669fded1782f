//! The zone that is asked: its records, and keys that have rolled in.
use crate::copying::Copying;
use answer::{
    Available, Class, Mode, Name, Publisher, Record, RollType, Rtype, SecurityAlgorithm, Serial,
    Soa, Ttl, UnixTime, UnknownRecordData, ZoneData, ZoneRecord, ZoneRecordData,
};
use std::alloc::Global;
use std::time::Duration;

const ROLL: RollType = RollType::AlgorithmRoll;

/// The name of a text, as the publisher and the judge take it.
pub fn name(alloc: Global, text: &str) -> anyhow::Result<Name<Vec<u8>>> {
    Ok(Name::vec_from_str(alloc, text)?)
}

/// A publisher that signs by copying.
pub type ZonePublisher = Publisher<'static, Copying, Copying>;

/// A publisher whose first two keys sign since moment 0, and whose parent has their DS record since
/// 3600.
pub fn published(alloc: Global) -> anyhow::Result<ZonePublisher> {
    let records = records(alloc)?;
    let mut publisher = publisher(alloc, records)?;
    add_key_signing_key(alloc, &mut publisher)?;
    add_zone_signing_key(alloc, &mut publisher)?;
    roll_in(&mut publisher)?;
    Ok(publisher)
}

/// The publisher of records under `example`, with an NSEC chain and signatures of a day.
fn publisher(alloc: Global, records: Vec<ZoneRecord>) -> anyhow::Result<ZonePublisher> {
    let apex = name(alloc, "example")?;
    Ok(Publisher::new(
        alloc,
        apex,
        records,
        Mode::Nsec,
        &Copying,
        &Copying,
        0,
        86400,
    )?)
}

fn add_key_signing_key(alloc: Global, publisher: &mut ZonePublisher) -> anyhow::Result<()> {
    let (ecdsa, there) = (SecurityAlgorithm::ECDSAP256SHA256, Available::Available);
    let key = b"\x00\x10".to_vec(alloc)?;
    let reference = String::from_str(alloc, "ksk")?;
    Ok(publisher.add_key_ksk(reference, None, ecdsa, key, moment(0), there)?)
}

fn add_zone_signing_key(alloc: Global, publisher: &mut ZonePublisher) -> anyhow::Result<()> {
    let (ecdsa, there) = (SecurityAlgorithm::ECDSAP256SHA256, Available::Available);
    let key = b"\x00\x01".to_vec(alloc)?;
    let reference = String::from_str(alloc, "zsk")?;
    Ok(publisher.add_key_zsk(reference, None, ecdsa, key, moment(0), there)?)
}

/// Rolls both keys in, up to the DS record.
fn roll_in(publisher: &mut ZonePublisher) -> anyhow::Result<()> {
    publisher.start_roll(ROLL, &[], &["ksk", "zsk"], &moment(0))?;
    publisher.propagation1_complete(ROLL, 3600, &moment(0))?;
    publisher.cache_expired1(ROLL, &moment(3600))?;
    Ok(())
}

/// A moment in seconds.
pub fn moment(seconds: u64) -> UnixTime {
    UnixTime::new(Duration::from_secs(seconds))
}

fn records(alloc: Global) -> anyhow::Result<Vec<ZoneRecord>> {
    let mut records = Vec::new(alloc);
    records.push(soa(alloc)?)?;
    records.push(address(alloc)?)?;
    Ok(records)
}

fn soa(alloc: Global) -> anyhow::Result<ZoneRecord> {
    let soa = Soa::new(
        name(alloc, "example")?,
        name(alloc, "example")?,
        Serial(1),
        Ttl::from_secs(3600),
        Ttl::from_secs(600),
        Ttl::from_secs(86400),
        Ttl::from_secs(300),
    );
    record(alloc, "example", ZoneRecordData::Soa(soa))
}

fn address(alloc: Global) -> anyhow::Result<ZoneRecord> {
    let address = UnknownRecordData::from_octets(Rtype::A, b"\xc0\x00\x02\x50".to_vec(alloc)?)?;
    record(alloc, "www.example", ZoneRecordData::Unknown(address))
}

fn record(alloc: Global, owner: &str, data: ZoneData) -> anyhow::Result<ZoneRecord> {
    Ok(Record::new(name(alloc, owner)?, Class::IN, Ttl::from_secs(3600), data))
}
