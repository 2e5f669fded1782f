//! A zone while its lines are read.

use denial::{DefaultSorter, SortedRecords, is_canonical_order, is_one_class};
use denial_sorted::laws::zone_data_order_is_total;
use names::{ParsedName, Parser, Rtype};
use plain::record::Record;
use plain::zone_data::ZoneRecordData;
use plain::{Class, Ttl};
use std::alloc::Global;
use test_lines::Line;

/// Record data over the octets of a line.
pub type Data<'a> = ZoneRecordData<&'a [u8], ParsedName<'a>>;

/// A record of a zone, over the octets of a line.
pub type Rr<'a> = Record<ParsedName<'a>, Data<'a>>;

pub type Sorted<'a> = SortedRecords<ParsedName<'a>, Data<'a>, DefaultSorter>;

/// The octets of a record's line.
#[derive(Drop)]
struct RrLine {
    owner: Vec<u8>,
    ttl: Ttl,
    rtype: Rtype,
    content: Vec<u8>,
}

impl RrLine {
    fn record(&self) -> Option<Rr<'_>> {
        let content = ZoneRecordData::parse(self.rtype, &mut Parser::from_ref(&self.content));
        match (name(&self.owner), content) {
            (Some(owner), Ok(content)) => Some(Record::new(owner, Class::IN, self.ttl, content)),
            _ => None,
        }
    }
}

/// The name that octets spell.
pub fn name(octets: &[u8]) -> Option<ParsedName<'_>> {
    ParsedName::parse(&mut Parser::from_ref(octets)).ok()
}

#[derive(Drop)]
pub struct Zone {
    apex: Vec<u8>,
    records: Vec<RrLine>,
}

impl Zone {
    pub fn new(alloc: Global) -> Zone {
        Zone {
            apex: Vec::new(alloc),
            records: Vec::new(alloc),
        }
    }

    /// Begins a zone without records.
    pub fn begin(&mut self, line: &mut Line<'_>) {
        let apex = line.octets(1);
        if !line.is_lost() {
            self.apex = apex;
            self.records.clear();
        }
    }

    /// Adds a record.
    pub fn put(&mut self, line: &mut Line<'_>) {
        let rr = RrLine {
            owner: line.octets(1),
            ttl: Ttl::from_secs(line.u32_at(2)),
            rtype: Rtype::from_int(line.u16_at(3)),
            content: line.octets(4),
        };
        if !line.is_lost() {
            line.must(self.records.push(rr));
        }
    }

    pub fn apex(&self) -> Option<ParsedName<'_>> {
        name(&self.apex)
    }

    /// The records, as they stand in the lines.
    pub fn records(&self, line: &mut Line<'_>) -> Vec<Rr<'_>> {
        let mut records = Vec::new(line.alloc());
        for rr in &self.records {
            match rr.record() {
                Some(rr) => line.must(records.push(rr)),
                None => line.lose(),
            }
        }
        records
    }

    /// The records in order; none, and no answer, where they are not of one class and in canonical
    /// order then.
    pub fn sorted(&self, line: &mut Line<'_>) -> Option<Sorted<'_>> {
        zone_data_order_is_total::<&[u8], ParsedName<'_>>();
        match Sorted::from_vec(self.records(line)) {
            Ok(sorted) if !line.is_lost() => Some(sorted),
            _ => {
                line.lose();
                None
            }
        }
    }
}
