//! A zone, and what it says.

use crate::labels::labels_at;
use definitions::reference::Octets;
use definitions::reference::verdict::PlainVerdict;
use definitions::reference::zone::{PlainRecord, PlainZone};
use std::alloc::{AllocError, Global};
use test_lines::Line;

/// The records of a zone while its lines are read, and the zone.
#[derive(Drop)]
pub struct Zone {
    apex: Vec<Octets>,
    records: Vec<PlainRecord>,
    zone: Option<PlainZone>,
}

impl Zone {
    pub fn new(alloc: Global) -> Zone {
        Zone {
            apex: Vec::new(alloc),
            records: Vec::new(alloc),
            zone: None,
        }
    }

    /// A line of a zone, or one that asks something of it.
    pub fn answer(&mut self, line: &mut Line<'_>) {
        match line.word(0) {
            "zone" => self.begin(line),
            "rr" => self.put(line),
            "made" => self.make(line),
            _ => match &self.zone {
                Some(zone) => answer(line, zone),
                None => line.lose(),
            },
        }
    }

    /// Begins a zone without records.
    fn begin(&mut self, line: &mut Line<'_>) {
        self.apex = labels_at(line, 1);
        self.records.clear();
        line.say("ok");
    }

    fn put(&mut self, line: &mut Line<'_>) {
        let (owner, rtype, octets) = (labels_at(line, 1), line.u16_at(2), line.octets(3));
        match Octets::from_slice(line.alloc(), &octets) {
            Ok(octets) => match PlainRecord::new(line.alloc(), &owner, rtype, octets) {
                Ok(record) => line.must(self.records.push(record)),
                Err(_) => line.lose(),
            },
            Err(_) => line.lose(),
        }
        line.say("ok");
    }

    /// Makes the zone of the records so far.
    fn make(&mut self, line: &mut Line<'_>) {
        let records = std::mem::replace(&mut self.records, Vec::new(line.alloc()));
        match PlainZone::new(line.alloc(), &self.apex, records) {
            Ok(zone) => {
                self.zone = Some(zone);
                line.say("ok");
            }
            Err(_) => line.lose(),
        }
    }
}

/// What a zone says.
fn answer(line: &mut Line<'_>, zone: &PlainZone) {
    match line.word(0) {
        "says" | "says-opt-out" => says(line, zone),
        "exists" => {
            let labels = labels_at(line, 1);
            line.yes(zone.exists(&labels));
        }
        "nsec" => {
            let (alloc, has_keys, labels) = keys_and_labels(line);
            types(line, zone.nsec_types(alloc, has_keys, &labels));
        }
        "nsec3" => {
            let (alloc, has_keys, labels) = keys_and_labels(line);
            types(line, zone.nsec3_types(alloc, has_keys, &labels));
        }
        _ => line.lose(),
    }
}

fn keys_and_labels(line: &mut Line<'_>) -> (Global, bool, Vec<Octets>) {
    (line.alloc(), line.word(1) == "keys", labels_at(line, 2))
}

fn says(line: &mut Line<'_>, zone: &PlainZone) {
    let (labels, rtype) = (labels_at(line, 1), line.u16_at(2));
    match zone.verdict(line.alloc(), line.word(0) == "says-opt-out", &labels, rtype) {
        Ok(verdict) => say_verdict(line, &verdict),
        Err(_) => line.lose(),
    }
}

/// The types that a record of a chain tells of.
fn types(line: &mut Line<'_>, types: Result<Vec<u16>, AllocError>) {
    match types {
        Ok(types) => {
            let mut numbers = line.aside(",");
            for rtype in &types {
                numbers.value(rtype);
            }
            numbers.say_if_empty("-");
            line.append(numbers);
        }
        Err(_) => line.lose(),
    }
}

fn say_verdict(line: &mut Line<'_>, verdict: &PlainVerdict) {
    match verdict {
        PlainVerdict::Records(found) => say_with_data(line, "records", found),
        PlainVerdict::NoType => line.say("no type"),
        PlainVerdict::NoName => line.say("no name"),
        PlainVerdict::StarRecords(found) => say_with_data(line, "records of a wildcard", found),
        PlainVerdict::StarNoType => line.say("no type at a wildcard"),
        PlainVerdict::Delegated => line.say("delegated"),
        PlainVerdict::Open => line.say("open"),
    }
}

fn say_with_data(line: &mut Line<'_>, word: &str, list: &[Octets]) {
    line.say(word);
    for octets in list {
        line.hex(octets.as_slice());
    }
}
