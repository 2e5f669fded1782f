//! The links of chains of hashed names, as lines.

use super::chains::{end, link_of, refused, say_types, tell_record};
use super::options::Options;
use super::zone::{Rr, Zone, name};
use denial::{
    Nsec3, Nsec3Hasher, Nsec3Records, Nsec3Salt, RecordsIter, generate_nsec3s, is_canonical_order,
    is_one_class, mk_hashed_nsec3_owner_name,
};
use denial_nsec3_sha1::hasher::Sha1Hasher;
use denial_sorted::laws::zone_data_order_is_total;
use names::{Name, ParsedName};
use plain::record::Record;
use test_lines::Line;

/// The chain of hashes with the iterations, the salt and the options that a line names, by SHA-1
/// unless it names other hashes.
pub fn nsec3(line: &mut Line<'_>, zone: &Zone) {
    let options = Options::read(line, 4);
    match (zone.apex(), zone.sorted(line)) {
        (Some(apex), Some(records)) => of_records(line, &apex, records.as_slice(), &options),
        _ => line.lose(),
    }
}

fn of_records<'a>(
    line: &mut Line<'_>,
    apex: &ParsedName<'a>,
    records: &[Rr<'a>],
    options: &Options,
) {
    match &options.hasher {
        Some(hasher) => by_hasher(line, apex, records, options, hasher),
        None => by_hasher(line, apex, records, options, &Sha1Hasher),
    }
}

fn by_hasher<'a, H: Nsec3Hasher>(
    line: &mut Line<'_>,
    apex: &ParsedName<'a>,
    records: &[Rr<'a>],
    options: &Options,
    hasher: &H,
) {
    zone_data_order_is_total::<&[u8], ParsedName<'_>>();
    let (count, salt) = (line.u16_at(2), line.octets(3));
    if line.is_lost() || !is_one_class(records) || !is_canonical_order(records) {
        line.lose();
        return;
    }
    let records = RecordsIter::new_from_owned(records);
    match options.of_hashes(count, salt) {
        Some(config) => match generate_nsec3s(line.alloc(), apex, records, &config, hasher) {
            Ok(chain) => tell_all(line, &chain),
            Err(error) => refused(line, &error),
        },
        None => line.lose(),
    }
}

fn tell_all(line: &mut Line<'_>, chain: &Nsec3Records<Name<Vec<u8>>, Vec<u8>>) {
    for rr in &chain.nsec3s {
        tell(line, rr);
    }
    if line.word(0) == "records" {
        tell_record(line, &chain.nsec3param);
    }
}

fn tell(line: &mut Line<'_>, rr: &Record<Name<Vec<u8>>, Nsec3<Vec<u8>>>) {
    if line.word(0) == "records" {
        tell_record(line, rr);
        return;
    }
    let mut link = link_of(line, rr.owner());
    link.hex(rr.data().next_owner().as_slice());
    say_types(&mut link, rr.data().types());
    end(line, link);
}

/// The owner of the NSEC3 record of a name under the apex.
pub fn owner(line: &mut Line<'_>, zone: &Zone) {
    let options = Options::read(line, 5);
    match &options.hasher {
        Some(hasher) => owner_by(line, zone, hasher),
        None => owner_by(line, zone, &Sha1Hasher),
    }
}

fn owner_by<H: Nsec3Hasher>(line: &mut Line<'_>, zone: &Zone, hasher: &H) {
    let (octets, salt) = (line.octets(1), line.octets(4));
    match (name(&octets), zone.apex(), Nsec3Salt::from_octets(salt)) {
        (Some(name), Some(apex), Ok(salt)) => hashed(line, &name, &apex, &salt, hasher),
        _ => line.lose(),
    }
}

fn hashed<H: Nsec3Hasher>(
    line: &mut Line<'_>,
    name: &ParsedName<'_>,
    apex: &ParsedName<'_>,
    salt: &Nsec3Salt<Vec<u8>>,
    hasher: &H,
) {
    let (alloc, algorithm, count) = (line.alloc(), line.u8_at(2), line.u16_at(3));
    match mk_hashed_nsec3_owner_name(alloc, name, algorithm, count, salt, apex, hasher) {
        Ok(owner) => {
            line.value(&owner);
            line.mark("\n");
        }
        Err(error) => refused(line, &error),
    }
}
