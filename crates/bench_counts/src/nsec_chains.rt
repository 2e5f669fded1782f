//! Makes NSEC chains of a zone, or keeps the owners of one.

use crate::zone::{Data, Owner, Rr, records};
use denial_chain_owners::conditions::{is_canonical_order, is_one_class};
use denial_chain_owners::kept::kept_owners;
use denial_nsec_chain::config::GenerateNsecConfig;
use denial_nsec_chain::generate::generate_nsecs;
use denial_rrsets::walks::RecordsIter;
use denial_sorted::laws::zone_data_order_is_total;
use denial_sorted::sorted::SortedRecords;
use denial_sorted::sorter::DefaultSorter;
use names::Name;
use std::alloc::Global;
use std::io;

type Sorted = SortedRecords<Owner, Data, DefaultSorter>;

/// How many records the task makes, or owners it keeps.
fn made(alloc: Global, task: &str, apex: &Owner, records: &[Rr]) -> u64 {
    zone_data_order_is_total::<Vec<u8>, Owner>();
    if !is_one_class(records) || !is_canonical_order(records) {
        return 0;
    }
    if task == "tests" {
        return records.len() as u64;
    }
    let records = RecordsIter::new_from_owned(records);
    if task == "owners" {
        return match kept_owners(alloc, apex, records, false) {
            Ok(owners) => owners.len() as u64,
            Err(_) => 0,
        };
    }
    match generate_nsecs(alloc, apex, records, GenerateNsecConfig::new()) {
        Ok(chain) => chain.len() as u64,
        Err(_) => 0,
    }
}

/// What the task counts, done as often as asked.
fn work(alloc: Global, task: &str, rounds: u64, records: Vec<Rr>) -> u64 {
    zone_data_order_is_total::<Vec<u8>, Owner>();
    let Ok(apex) = Name::vec_from_str(alloc, "example") else {
        return 0;
    };
    let Ok(sorted) = Sorted::from_vec(records) else {
        return 0;
    };
    let mut count = 0u64;
    for _ in 0..rounds {
        count = count.wrapping_add(made(alloc, task, &apex, sorted.as_slice()));
    }
    count
}

pub(crate) fn counted(alloc: Global, task: &str, rounds: u64, lines: &[String]) -> io::Result<u64> {
    let records = records(alloc, lines)?;
    Ok(work(alloc, task, rounds, records))
}
