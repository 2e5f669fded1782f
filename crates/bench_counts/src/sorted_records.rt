//! Work on sorted records, each on a line: its owner, the number of its type and its data, the
//! octets of a word.

use denial_sorted::laws::unknown_data_order_is_total;
use denial_sorted::sorted::SortedRecords;
use denial_sorted::sorter::DefaultSorter;
use names::{Name, Rtype, UnknownRecordData};
use plain::record::Record;
use plain::{Class, Ttl};
use std::alloc::Global;
use std::io;

type Rr = Record<Name<Vec<u8>>, UnknownRecordData<Vec<u8>>>;

type Sorted = SortedRecords<Name<Vec<u8>>, UnknownRecordData<Vec<u8>>, DefaultSorter>;

/// The record of a line, if it is one.
fn record(alloc: Global, line: &str) -> Option<Rr> {
    let (owner, rest) = line.split_once(' ')?;
    let (rtype, word) = rest.split_once(' ')?;
    let owner = Name::vec_from_str(alloc, owner).ok()?;
    let rtype = Rtype::from_int(rtype.parse().ok()?);
    let octets = Vec::from_slice(alloc, word.as_bytes()).ok()?;
    let content = UnknownRecordData::from_octets(rtype, octets).ok()?;
    Some(Record::new(owner, Class::IN, Ttl::from_secs(3600), content))
}

/// How many records are held once all are sorted, and the last ones, as many as are given, put in
/// one by one.
fn sort(alloc: Global, records: Vec<Rr>, last: u64) -> u64 {
    unknown_data_order_is_total::<Vec<u8>>();
    let (mut records, mut later) = (records, Vec::new(alloc));
    for _ in 0..last {
        if let Some(rr) = records.pop() {
            let _pushed = later.push(rr);
        }
    }
    let Ok(mut sorted) = Sorted::from_vec(records) else {
        return 0;
    };
    for rr in later {
        let _inserted = sorted.insert(rr);
    }
    sorted.len() as u64
}

/// How many groups by owner there are.
fn owners(sorted: &Sorted) -> u64 {
    let mut count = 0u64;
    for group in sorted.owner_rrs() {
        count = count.wrapping_add(group.records().count() as u64);
    }
    count
}

/// How many groups by owner and type there are.
fn sets(sorted: &Sorted) -> u64 {
    let mut count = 0u64;
    for set in sorted.rrsets() {
        if let Ok(set) = set {
            count = count.wrapping_add(set.len() as u64);
        }
    }
    count
}

/// How many SOA records are found.
fn soa(sorted: &Sorted) -> u64 {
    match sorted.find_soa() {
        Ok(Some(set)) => set.len() as u64,
        _ => 0,
    }
}

/// How many records are found with each hundredth record, by its owner.
fn found(sorted: &Sorted) -> u64 {
    let mut count = 0u64;
    for (index, rr) in sorted.as_slice().iter().enumerate() {
        if index % 100 == 0 {
            if let Some(group) = sorted.find_owner(rr.class(), rr.owner()) {
                count = count.wrapping_add(group.records().count() as u64);
            }
        }
    }
    count
}

/// What the task counts, done as often as asked.
fn work(alloc: Global, task: &str, rounds: u64, records: Vec<Rr>) -> u64 {
    match task {
        "read" => return records.len() as u64,
        "sort" => return sort(alloc, records, rounds),
        _ => {}
    }
    unknown_data_order_is_total::<Vec<u8>>();
    let Ok(sorted) = Sorted::from_vec(records) else {
        return 0;
    };
    let mut count = 0u64;
    for _ in 0..rounds {
        let more = match task {
            "owners" => owners(&sorted),
            "sets" => sets(&sorted),
            "found" => found(&sorted),
            _ => soa(&sorted),
        };
        count = count.wrapping_add(more);
    }
    count
}

pub(crate) fn counted(alloc: Global, task: &str, rounds: u64, lines: &[String]) -> io::Result<u64> {
    let mut records = Vec::new(alloc);
    for line in lines {
        if let Some(rr) = record(alloc, line.as_str()) {
            records.push(rr)?;
        }
    }
    Ok(work(alloc, task, rounds, records))
}
