//! What the lines so far made: the records of a zone, its publisher, and what was handed out last.

use crate::asked::question_at;
use crate::scheme::{TestScheme, scheme_at};
use crate::words::{name_at, octets_at, say_octets};
use answer::denial::Nsec3Salt;
use answer::{
    AnswerFault, Class, Mode, Name, Publisher, Record, Rtype, Serial, Soa, Ttl, UnknownRecordData,
    ZoneRecord, ZoneRecordData,
};
use messages::read_message;
use std::alloc::Global;
use test_keyset::moment_at;
use test_lines::Line;

pub type TestPublisher = Publisher<'static, TestScheme, TestScheme>;

#[derive(Drop)]
pub struct Desk {
    apex: Option<Name<Vec<u8>>>,
    records: Vec<ZoneRecord>,
    pub publisher: Option<TestPublisher>,
    /// The DNSKEY answer that is judged.
    pub keys: Vec<u8>,
    /// The zone answer that is judged.
    pub answer: Vec<u8>,
}

impl Desk {
    pub fn new(alloc: Global) -> Desk {
        Desk {
            apex: None,
            records: Vec::new(alloc),
            publisher: None,
            keys: Vec::new(alloc),
            answer: Vec::new(alloc),
        }
    }

    /// Begins a zone without records.
    pub fn begin(&mut self, line: &mut Line<'_>) {
        if let Some(apex) = name_at(line, 1) {
            self.apex = Some(apex);
            self.records.clear();
            self.publisher = None;
            line.say("ok");
        }
    }

    pub fn put_soa(&mut self, line: &mut Line<'_>) {
        let record = soa(line);
        self.push(line, record);
        line.say("ok");
    }

    pub fn put(&mut self, line: &mut Line<'_>) {
        let record = record(line);
        self.push(line, record);
        line.say("ok");
    }

    fn push(&mut self, line: &mut Line<'_>, record: Option<ZoneRecord>) {
        match record {
            Some(record) if !line.is_lost() => line.must(self.records.push(record)),
            _ => line.lose(),
        }
    }

    /// Adds a number of addresses, each at an owner of its own.
    pub fn put_addresses(&mut self, line: &mut Line<'_>) {
        for number in 0..line.u32_at(1) {
            let record = match &self.apex {
                Some(apex) => numbered(line, apex, number),
                None => None,
            };
            self.push(line, record);
        }
        line.say("ok");
    }

    /// Publishes the zone with a chain; not with signatures whose end could not be told from their
    /// beginning.
    pub fn publish(&mut self, line: &mut Line<'_>) {
        let alloc = line.alloc();
        let (life, scheme) = (line.u32_at(1), scheme_at(line, 2));
        let records = std::mem::replace(&mut self.records, Vec::new(alloc));
        match (self.apex.take(), mode(line)) {
            (Some(apex), Some(mode)) => {
                if life > 0x7fff_ffff {
                    line.lose();
                    return;
                }
                match Publisher::new(alloc, apex, records, mode, scheme, scheme, 0, life) {
                    Ok(publisher) => {
                        self.publisher = Some(publisher);
                        line.say("ok");
                    }
                    Err(fault) => line.refused(&fault),
                }
            }
            _ => line.lose(),
        }
    }

    /// Takes a DNSKEY answer.
    pub fn take_keys(&mut self, line: &mut Line<'_>) {
        self.keys = octets_at(line, 1);
        line.say("ok");
    }

    /// Takes a zone answer, and says how many records it has.
    pub fn take_answer(&mut self, line: &mut Line<'_>) {
        self.answer = octets_at(line, 1);
        match read_message(&self.answer) {
            Ok(view) => {
                line.value(&view.record_count());
                line.say("records");
            }
            Err(error) => line.refused(&error),
        }
    }

    /// The DNSKEY answer at a moment.
    pub fn dnskey(&mut self, line: &mut Line<'_>) {
        let now = moment_at(line, 1);
        match &self.publisher {
            Some(publisher) => hold(line, &mut self.keys, publisher.dnskey_answer(&now)),
            None => line.lose(),
        }
    }

    /// The zone answer to a question at a moment.
    pub fn ask(&mut self, line: &mut Line<'_>) {
        let now = moment_at(line, 3);
        match (&mut self.publisher, question_at(line, 1)) {
            (Some(publisher), Some(question)) => {
                hold(line, &mut self.answer, publisher.answer(&question, &now))
            }
            _ => line.lose(),
        }
    }
}

/// Holds an answer, or says why there is none.
fn hold(line: &mut Line<'_>, held: &mut Vec<u8>, shown: Result<Vec<u8>, AnswerFault>) {
    match shown {
        Ok(octets) => {
            *held = octets;
            say_octets(line, held);
        }
        Err(fault) => line.refused(&fault),
    }
}

/// A chain of names; or one of hashes, without salt and further iterations.
fn mode(line: &Line<'_>) -> Option<Mode> {
    if line.word(0) == "publish" {
        return Some(Mode::Nsec);
    }
    match Nsec3Salt::from_octets(Vec::new(line.alloc())) {
        Ok(salt) => Some(Mode::Nsec3 {
            iterations: 0,
            salt,
            opt_out: false,
        }),
        Err(_) => None,
    }
}

/// A record with opaque data.
fn record(line: &mut Line<'_>) -> Option<ZoneRecord> {
    let (class, ttl) = (
        Class::from_int(line.u16_at(2)),
        Ttl::from_secs(line.u32_at(3)),
    );
    let (rtype, octets) = (Rtype::from_int(line.u16_at(4)), octets_at(line, 5));
    match (
        name_at(line, 1),
        UnknownRecordData::from_octets(rtype, octets),
    ) {
        (Some(owner), Ok(content)) => {
            Some(Record::new(owner, class, ttl, ZoneRecordData::Unknown(content)))
        }
        _ => None,
    }
}

/// The SOA record of an owner, TTL and minimum of 3600 and 300 seconds; the owner is its server and
/// its keeper too.
fn soa(line: &mut Line<'_>) -> Option<ZoneRecord> {
    let (serial, hour) = (Serial(line.u32_at(2)), Ttl::from_secs(3600));
    match (name_at(line, 1), name_at(line, 1), name_at(line, 1)) {
        (Some(owner), Some(server), Some(keeper)) => {
            let (retry, expire) = (Ttl::from_secs(600), Ttl::from_secs(86400));
            let minimum = Ttl::from_secs(300);
            let content = Soa::new(server, keeper, serial, hour, retry, expire, minimum);
            Some(Record::new(owner, Class::IN, hour, ZoneRecordData::Soa(content)))
        }
        _ => None,
    }
}

/// An address of the owner whose label is the four octets of a number.
fn numbered(line: &mut Line<'_>, apex: &Name<Vec<u8>>, number: u32) -> Option<ZoneRecord> {
    let mut owner = line.read_octets("04");
    line.must(owner.extend_from_slice(&number.to_be_bytes()));
    line.must(owner.extend_from_slice(apex.as_slice()));
    let address = line.read_octets("c0000201");
    match (
        Name::from_octets(owner),
        UnknownRecordData::from_octets(Rtype::A, address),
    ) {
        (Ok(owner), Ok(content)) => {
            let hour = Ttl::from_secs(3600);
            Some(Record::new(owner, Class::IN, hour, ZoneRecordData::Unknown(content)))
        }
        _ => None,
    }
}
