//! Zones that are accepted or refused, and their answers.

use crate::words::{name_at, say_name};
use answer_terms::mode::Mode;
use answer_zone::zone::ZoneRecords;
use answer_zone::zone::answers::ZoneAnswer;
use answer_zone_records::group::RrGroup;
use denial_fields::salt::Nsec3Salt;
use denial_nsec3_sha1::hasher::Sha1Hasher;
use messages::names::{Name, copy_name};
use messages::record::ZoneRecord;
use messages_canonical::are_records_in_form;
use names::{Rtype, Serial, UnknownRecordData};
use plain::ns::Ns;
use plain::record::Record;
use plain::soa::Soa;
use plain::zone_data::ZoneRecordData;
use plain::{Class, Ttl};
use std::alloc::Global;
use test_lines::Line;

type Accepted = ZoneRecords<'static, Sha1Hasher>;

/// The records of a zone while its lines are read, its mode, and the zone that was accepted. Names
/// are hashed by SHA-1.
#[derive(Drop)]
pub struct Zone {
    apex: Option<Name<Vec<u8>>>,
    records: Vec<ZoneRecord>,
    mode: Mode,
    limit: u16,
    zone: Option<Accepted>,
}

impl Zone {
    pub fn new(alloc: Global) -> Zone {
        Zone {
            apex: None,
            records: Vec::new(alloc),
            mode: Mode::Nsec,
            limit: 0,
            zone: None,
        }
    }

    pub fn accepted(&self) -> Option<&Accepted> {
        self.zone.as_ref()
    }

    /// Asks for a chain of hashes, with opt-out where the word says `yes`.
    pub fn put_mode(&mut self, line: &mut Line<'_>) {
        let (iterations, limit) = (line.u16_at(1), line.u16_at(4));
        let opt_out = line.word(3) == "yes";
        match Nsec3Salt::from_str(line.alloc(), line.word(2)) {
            Ok(salt) => {
                self.limit = limit;
                self.mode = Mode::Nsec3 {
                    iterations,
                    salt,
                    opt_out,
                };
                line.say("ok");
            }
            Err(_) => line.lose(),
        }
    }

    /// Begins a zone without records.
    pub fn begin(&mut self, line: &mut Line<'_>) {
        if let Some(apex) = name_at(line, 1) {
            self.apex = Some(apex);
            self.records.clear();
            self.zone = None;
            line.say("ok");
        }
    }

    /// The SOA record of the apex, which is its server and its keeper too.
    pub fn put_soa(&mut self, line: &mut Line<'_>) {
        match &self.apex {
            Some(apex) => {
                let record = soa(line, apex);
                self.push(line, record);
            }
            None => line.lose(),
        }
    }

    /// A record with opaque data.
    pub fn put(&mut self, line: &mut Line<'_>) {
        let record = record(line);
        self.push(line, record);
    }

    /// A name server of an owner.
    pub fn put_ns(&mut self, line: &mut Line<'_>) {
        let record = ns(line);
        self.push(line, record);
    }

    fn push(&mut self, line: &mut Line<'_>, record: Option<ZoneRecord>) {
        match record {
            Some(record) if !line.is_lost() => {
                line.must(self.records.push(record));
                line.say("ok");
            }
            _ => line.lose(),
        }
    }

    /// Whether every signer signs the data of the records so far alike.
    pub fn in_form(&self, line: &mut Line<'_>) {
        match are_records_in_form(line.alloc(), &self.records) {
            Ok(is_so) => line.yes(is_so),
            Err(_) => line.lose(),
        }
    }

    /// Makes the zone of the records so far.
    pub fn accept(&mut self, line: &mut Line<'_>) {
        let alloc = line.alloc();
        let records = std::mem::replace(&mut self.records, Vec::new(alloc));
        let mode = std::mem::replace(&mut self.mode, Mode::Nsec);
        match self.apex.take() {
            Some(apex) => {
                match ZoneRecords::new(alloc, apex, records, mode, self.limit, &Sha1Hasher) {
                    Ok(zone) => {
                        self.zone = Some(zone);
                        line.say("ok");
                    }
                    Err(fault) => line.refused(&fault),
                }
            }
            None => line.lose(),
        }
    }
}

/// A record with opaque data.
fn record(line: &mut Line<'_>) -> Option<ZoneRecord> {
    let (class, ttl) = (
        Class::from_int(line.u16_at(2)),
        Ttl::from_secs(line.u32_at(3)),
    );
    let (rtype, octets) = (Rtype::from_int(line.u16_at(4)), line.octets(5));
    match (
        name_at(line, 1),
        UnknownRecordData::from_octets(rtype, octets),
    ) {
        (Some(owner), Ok(content)) => {
            Some(Record::new(owner, class, ttl, ZoneRecordData::Unknown(content)))
        }
        _ => None,
    }
}

fn ns(line: &mut Line<'_>) -> Option<ZoneRecord> {
    let ttl = Ttl::from_secs(line.u32_at(2));
    match (name_at(line, 1), name_at(line, 3)) {
        (Some(owner), Some(server)) => {
            let content = ZoneRecordData::Ns(Ns::new(server));
            Some(Record::new(owner, Class::IN, ttl, content))
        }
        _ => None,
    }
}

/// An SOA record of TTL 3600 and minimum 300.
fn soa(line: &mut Line<'_>, apex: &Name<Vec<u8>>) -> Option<ZoneRecord> {
    let (alloc, serial) = (line.alloc(), Serial(line.u32_at(1)));
    let hour = Ttl::from_secs(3600);
    match (
        copy_name(alloc, apex),
        copy_name(alloc, apex),
        copy_name(alloc, apex),
    ) {
        (Ok(owner), Ok(server), Ok(keeper)) => {
            let (retry, expire) = (Ttl::from_secs(600), Ttl::from_secs(86400));
            let minimum = Ttl::from_secs(300);
            let content = Soa::new(server, keeper, serial, hour, retry, expire, minimum);
            Some(Record::new(owner, Class::IN, hour, ZoneRecordData::Soa(content)))
        }
        _ => None,
    }
}

/// Answers a line that asks something of an accepted zone.
pub fn answer(line: &mut Line<'_>, zone: &Accepted) {
    match line.word(0) {
        "apex" => {
            say_name(line, zone.apex());
            line.value(&zone.soa_ttl().as_secs());
        }
        "exists" | "has" | "ttl" | "ask" => {
            if let Some(name) = name_at(line, 1) {
                answer_of(line, zone, &name);
            }
        }
        _ => line.lose(),
    }
}

fn answer_of(line: &mut Line<'_>, zone: &Accepted, name: &Name<Vec<u8>>) {
    if line.word(0) == "exists" {
        line.yes(zone.exists(name));
        return;
    }
    let rtype = Rtype::from_int(line.u16_at(2));
    match line.word(0) {
        "has" => line.yes(zone.has(name, rtype)),
        "ttl" => line.value(&zone.ttl_at(name, rtype).as_secs()),
        _ => ask(line, zone, name, rtype),
    }
}

/// The answer to a question; none of the types of a chain is asked for.
fn ask(line: &mut Line<'_>, zone: &Accepted, name: &Name<Vec<u8>>, rtype: Rtype) {
    if rtype.to_int() == 47 || rtype.to_int() == 50 {
        line.lose();
        return;
    }
    match zone.answer_to(line.alloc(), name, rtype) {
        Ok(answer) => told(line, &answer),
        Err(_) => line.lose(),
    }
}

fn told(line: &mut Line<'_>, found: &ZoneAnswer) {
    line.hex(found.flags.to_be_bytes().as_slice());
    groups(line, "answer", &found.answer);
    groups(line, "authority", &found.authority);
}

fn groups(line: &mut Line<'_>, section: &str, groups: &[RrGroup]) {
    for group in groups {
        line.mark(";");
        line.say(section);
        group_told(line, group);
    }
}

/// Owner, type, TTL and label count of an RRset, its data as written and in canonical form.
fn group_told(line: &mut Line<'_>, group: &RrGroup) {
    say_name(line, group.owner());
    line.value(&group.rtype().to_int());
    line.value(&group.ttl().as_secs());
    line.say("of");
    line.value(&group.label_count());
    line.mark(", signed");
    line.yes(group.is_signed());
    line.mark(":");
    for record in group.records() {
        line.hex(&record.octets);
    }
    line.say("as");
    for octets in group.canonical() {
        line.hex(octets);
    }
}
