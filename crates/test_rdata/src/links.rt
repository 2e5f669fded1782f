//! Links and parameters of chains, made and changed.

use denial_data::{Nsec, Nsec3, Nsec3Salt, Nsec3param, OwnerHash, RtypeBitmap};
use names::{CanonicalOrd, ComposeRecordData, ParseError, ParsedName, Parser};
use test_lines::Line;

type ReadNsec<'a> = Nsec<&'a [u8], ParsedName<'a>>;

fn nsec_of(octets: &[u8]) -> Result<ReadNsec<'_>, ParseError> {
    Nsec::parse(&mut Parser::from_ref(octets))
}

fn nsec3_of(octets: &[u8]) -> Result<Nsec3<&[u8]>, ParseError> {
    Nsec3::parse(&mut Parser::from_ref(octets))
}

/// NSEC data with another next name: as text, how many octets they have, and how they stand to what
/// they were.
pub fn renamed(line: &mut Line<'_>) {
    let (octets, name) = (line.octets(1), line.octets(2));
    let name = ParsedName::parse(&mut Parser::from_ref(&name));
    match (nsec_of(&octets), nsec_of(&octets), name) {
        (Ok(nsec), Ok(before), Ok(name)) => rename(line, nsec, &before, name),
        _ => line.lose(),
    }
}

fn rename<'a>(
    line: &mut Line<'_>,
    nsec: ReadNsec<'a>,
    before: &ReadNsec<'a>,
    name: ParsedName<'a>,
) {
    let mut nsec = nsec;
    if Nsec::fits_rdlen(&name, nsec.types()) {
        nsec.set_next_name(name);
    } else {
        line.lose();
    }
    line.value(&nsec);
    line.mark(",");
    match nsec.rdlen(false) {
        Some(len) => line.value(&len),
        None => line.lose(),
    }
    line.order(nsec.cmp(before));
}

/// The octets of the NSEC data at a place of a message, whose next name may be compressed.
pub fn nsec_at(line: &mut Line<'_>) {
    let (octets, place) = (line.octets(1), line.usize_at(2));
    let mut parser = Parser::from_ref(&octets);
    line.must(parser.seek(place));
    let read: Result<ReadNsec<'_>, _> = Nsec::parse(&mut parser);
    match read {
        Ok(nsec) => {
            let mut written = Vec::new(line.alloc());
            line.must(nsec.compose_rdata(&mut written));
            line.hex(&written);
        }
        Err(_) => line.lose(),
    }
}

/// NSEC3 data of their fields: salt and hash as text, types as octets.
pub fn nsec3(line: &mut Line<'_>) {
    let octets = line.octets(6);
    let types = RtypeBitmap::from_octets(octets);
    let salt = Nsec3Salt::from_str(line.alloc(), line.word(4));
    match (types, salt, OwnerHash::from_str(line.alloc(), line.word(5))) {
        (Ok(types), Ok(salt), Ok(hash)) => nsec3_of_fields(line, salt, hash, types),
        _ => line.lose(),
    }
}

fn nsec3_of_fields(
    line: &mut Line<'_>,
    salt: Nsec3Salt<Vec<u8>>,
    hash: OwnerHash<Vec<u8>>,
    types: RtypeBitmap<Vec<u8>>,
) {
    let (algorithm, flags, iterations) = (line.u8_at(1), line.u8_at(2), line.u16_at(3));
    match Nsec3::new(algorithm, flags, iterations, salt, hash, types) {
        Ok(nsec3) => nsec3_told(line, &nsec3),
        Err(error) => line.refused(&error),
    }
}

/// The octets of NSEC3 data, how many they are, and whether they say opt-out.
fn nsec3_told(line: &mut Line<'_>, nsec3: &Nsec3<Vec<u8>>) {
    let mut octets = Vec::new(line.alloc());
    line.must(nsec3.compose_rdata(&mut octets));
    line.hex(&octets);
    match nsec3.rdlen(false) {
        Some(len) => line.value(&len),
        None => line.lose(),
    }
    line.mark(", opt-out");
    line.yes(nsec3.opt_out());
}

/// NSEC3 data with another next hash: how they stand to what they were; and then without types, as
/// text.
pub fn rehashed(line: &mut Line<'_>) {
    let (octets, hash) = (line.octets(1), line.octets(2));
    let hash = OwnerHash::from_slice(hash.as_slice());
    match (nsec3_of(&octets), nsec3_of(&octets), hash) {
        (Ok(nsec3), Ok(before), Ok(hash)) => rehash(line, nsec3, &before, hash),
        _ => line.lose(),
    }
}

fn rehash<'a>(
    line: &mut Line<'_>,
    nsec3: Nsec3<&'a [u8]>,
    before: &Nsec3<&'a [u8]>,
    hash: OwnerHash<&'a [u8]>,
) {
    let mut nsec3 = nsec3;
    if Nsec3::fits_rdlen(nsec3.salt(), &hash, nsec3.types()) {
        nsec3.set_next_owner(hash);
    } else {
        line.lose();
    }
    line.order(nsec3.cmp(before));
    line.order(nsec3.canonical_cmp(before));
    line.mark(",");
    without_types(line, nsec3);
}

fn without_types(line: &mut Line<'_>, nsec3: Nsec3<&[u8]>) {
    let mut nsec3 = nsec3;
    match RtypeBitmap::from_octets(b"".as_slice()) {
        Ok(none) if Nsec3::fits_rdlen(nsec3.salt(), nsec3.next_owner(), &none) => {
            nsec3.set_types(none);
        }
        _ => line.lose(),
    }
    line.value(&nsec3);
}

/// The flags of parameters, and whether they say opt-out: as read, and set twice. Of their fields
/// the same are made.
pub fn opted(line: &mut Line<'_>) {
    let octets = line.octets(1);
    match Nsec3param::parse(&mut Parser::from_ref(&octets)) {
        Ok(params) => opt(line, params),
        Err(_) => line.lose(),
    }
}

fn opt(line: &mut Line<'_>, params: Nsec3param<&[u8]>) {
    let mut params = params;
    let is_made = match Nsec3Salt::from_slice(params.salt().as_slice()) {
        Ok(salt) => {
            let (algorithm, iterations) = (params.hash_algorithm(), params.iterations());
            params == Nsec3param::new(algorithm, params.flags(), iterations, salt)
        }
        Err(_) => false,
    };
    line.value(&params.flags());
    line.yes(params.opt_out_flag());
    line.mark(",");
    params.set_opt_out_flag();
    params.set_opt_out_flag();
    line.value(&params.flags());
    line.yes(params.opt_out_flag());
    line.mark(", made");
    line.yes(is_made);
}
