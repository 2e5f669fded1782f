//! The most octets of data.

use denial_data::{Dnskey, Ds, Nsec, Nsec3, Nsec3Salt, OwnerHash, Rrsig, RtypeBitmap, Timestamp};
use names::{ComposeRecordData, LongRecordData, Name, Rtype};
use plain::{DigestAlgorithm, SecurityAlgorithm, Ttl};
use test_lines::Line;

/// How many octets data have whose last field has so many zero octets, or so many windows of a
/// bitmap, or that they are too long; and, for types that have it, how many they have where it is
/// not tested again.
pub fn longest(line: &mut Line<'_>) {
    let rtype = line.word(1);
    let has_windows = rtype == "47" || rtype == "50";
    let piece: &[u8] = if has_windows {
        b"\x00\x01\x40"
    } else {
        b"\x00"
    };
    let mut octets = Vec::new(line.alloc());
    for _ in 0..line.usize_at(2) {
        line.must(octets.extend_from_slice(piece));
    }
    match rtype {
        "43" => digest(line, &octets),
        "46" => signature(line, &octets),
        "47" => link(line, &octets),
        "48" => key(line, &octets),
        "50" => hashed_link(line, &octets),
        _ => line.lose(),
    }
}

/// How many octets data have, or why there are none.
fn len<D: ComposeRecordData + Drop>(line: &mut Line<'_>, made: Result<D, LongRecordData>) {
    match made {
        Ok(data) => match data.rdlen(false) {
            Some(len) => line.value(&len),
            None => line.lose(),
        },
        Err(error) => line.value(&error),
    }
}

fn key(line: &mut Line<'_>, octets: &[u8]) {
    let eight = SecurityAlgorithm::from_int(8);
    len(line, Dnskey::new(256, 3, eight, octets));
    if Dnskey::fits_rdlen(&octets) {
        len(line, Ok(Dnskey::new_unchecked(256, 3, eight, octets)));
    }
}

fn digest(line: &mut Line<'_>, octets: &[u8]) {
    let (eight, sha) = (SecurityAlgorithm::from_int(8), DigestAlgorithm::SHA256);
    len(line, Ds::new(1, eight, sha, octets));
    if Ds::fits_rdlen(&octets) {
        len(line, Ok(Ds::new_unchecked(1, eight, sha, octets)));
    }
}

/// A signature of the root.
fn signature(line: &mut Line<'_>, octets: &[u8]) {
    let root = Name::root_ref();
    let (ttl, time) = (Ttl::from_secs(0), Timestamp::from(0));
    let ecdsa = SecurityAlgorithm::ECDSAP256SHA256;
    let fits = Rrsig::fits_rdlen(&root, &octets);
    let made = Rrsig::new(
        Rtype::A,
        ecdsa,
        0,
        ttl,
        time,
        time,
        0,
        Name::root_ref(),
        octets,
    );
    len(line, made);
    if fits {
        let made = Rrsig::new_unchecked(Rtype::A, ecdsa, 0, ttl, time, time, 0, root, octets);
        len(line, Ok(made));
    }
}

/// A link to the root. Bitmaps that are handed in have at most 65,535 octets.
fn link(line: &mut Line<'_>, octets: &[u8]) {
    match RtypeBitmap::from_octets(octets) {
        Ok(types) if types.fits_rdlen() => len(line, Nsec::new(Name::root_ref(), types)),
        _ => line.lose(),
    }
}

/// A link without salt and hash.
fn hashed_link(line: &mut Line<'_>, octets: &[u8]) {
    let types = RtypeBitmap::from_octets(octets);
    match (
        types,
        Nsec3Salt::from_slice(b""),
        OwnerHash::from_slice(b""),
    ) {
        (Ok(types), Ok(salt), Ok(hash)) => len(line, Nsec3::new(1, 0, 0, salt, hash, types)),
        _ => line.lose(),
    }
}
