//! Makes chains of hashed names of a zone.

use crate::zone::{Data, Owner, Rr, records};
use denial_chain_owners::conditions::{is_canonical_order, is_one_class};
use denial_fields::salt::Nsec3Salt;
use denial_nsec_data::nsec3param::Nsec3param;
use denial_nsec3_chain::generate::generate_nsec3s;
use denial_nsec3_hash::config::GenerateNsec3Config;
use denial_nsec3_sha1::hasher::Sha1Hasher;
use denial_rrsets::walks::RecordsIter;
use denial_sorted::laws::zone_data_order_is_total;
use denial_sorted::sorted::SortedRecords;
use denial_sorted::sorter::DefaultSorter;
use names::Name;
use std::alloc::Global;
use std::io;

type Sorted = SortedRecords<Owner, Data, DefaultSorter>;

/// How many records the chain of a zone has; none where it has no chain.
fn chain(alloc: Global, apex: &Owner, zone: &Sorted) -> u64 {
    zone_data_order_is_total::<Vec<u8>, Owner>();
    let records = zone.as_slice();
    if !is_one_class(records) || !is_canonical_order(records) {
        return 0;
    }
    let records = RecordsIter::new_from_owned(records);
    let config = GenerateNsec3Config::new(Nsec3param::new(1, 0, 0, Nsec3Salt::empty(alloc)));
    match generate_nsec3s(alloc, apex, records, &config, &Sha1Hasher) {
        Ok(made) => made.nsec3s.len() as u64,
        Err(_) => 0,
    }
}

/// How many records were made, the chain made as often as asked.
fn work(alloc: Global, rounds: u64, records: Vec<Rr>) -> u64 {
    zone_data_order_is_total::<Vec<u8>, Owner>();
    let Ok(apex) = Name::vec_from_str(alloc, "example.") else {
        return 0;
    };
    let Ok(zone) = Sorted::from_vec(records) else {
        return 0;
    };
    let mut count = 0u64;
    for _ in 0..rounds {
        count = count.wrapping_add(chain(alloc, &apex, &zone));
    }
    count
}

pub(crate) fn counted(alloc: Global, rounds: u64, lines: &[String]) -> io::Result<u64> {
    let records = records(alloc, lines)?;
    Ok(work(alloc, rounds, records))
}
