//! Keys, lists in order, and what is signed.

use crate::words::{list_at, name_at};
use answer_terms::dnskey::{Dnskey, ZoneKey, key_of_data};
use answer_terms::ranked::{put_data, put_ranked};
use denial_data::{Ds, Rrsig};
use messages::names::Name;
use messages::signed::{compose_fields, signed_octets};
use names::{ParseError, ParsedName, Parser};
use plain::{Class, DigestAlgorithm, SecurityAlgorithm};
use test_lines::Line;

type ReadRrsig<'a> = Rrsig<&'a [u8], ParsedName<'a>>;

fn rrsig_of(octets: &[u8]) -> Result<ReadRrsig<'_>, ParseError> {
    Rrsig::parse(&mut Parser::from_ref(octets))
}

/// A key of its fields.
pub fn key(line: &mut Line<'_>) {
    let (flags, octets) = (line.u16_at(1), line.octets(3));
    let algorithm = SecurityAlgorithm::from_int(line.u8_at(2));
    match Dnskey::<&[u8]>::new(flags, 3, algorithm, octets.as_slice()) {
        Ok(key) => told(line, &key),
        Err(_) => line.lose(),
    }
}

/// A key of its data.
pub fn key_of(line: &mut Line<'_>) {
    let octets = line.octets(1);
    if octets.len() > 65_535 {
        line.lose();
        return;
    }
    match key_of_data(&octets) {
        Some(key) => told(line, &key),
        None => line.say("no key"),
    }
}

fn told(line: &mut Line<'_>, key: &Dnskey<&[u8]>) {
    let mut octets = Vec::new(line.alloc());
    line.must(key.compose(&mut octets));
    match key.try_clone(line.alloc()) {
        Ok(copy) => line.check(copy.for_ref() == *key),
        Err(_) => line.lose(),
    }
    line.value(key);
    line.mark("; tag");
    line.value(&key.key_tag());
    line.mark(", zone key");
    line.yes(key.is_zone_key());
    line.mark(";");
    line.hex(&octets);
}

/// Data in order, each once.
pub fn ranked(line: &mut Line<'_>) {
    let (mut ranked, mut texts) = (Vec::new(line.alloc()), line.aside(", "));
    for octets in list_at(line, 1) {
        line.must(put_data(&mut ranked, octets));
    }
    for octets in &ranked {
        texts.hex(octets);
    }
    line.append(texts);
}

/// DS records of algorithm 5 and these tags in order, each once.
pub fn digests(line: &mut Line<'_>) {
    let (mut set, mut texts) = (Vec::new(line.alloc()), line.aside(", "));
    for tag in &line.numbers(1) {
        put_digest(line, &mut set, *tag);
    }
    for ds in &set {
        texts.value(ds);
    }
    line.append(texts);
}

fn put_digest(line: &mut Line<'_>, set: &mut Vec<Ds<Vec<u8>>>, tag: u16) {
    let (five, one) = (SecurityAlgorithm::from_int(5), DigestAlgorithm::from_int(1));
    match Ds::new(tag, five, one, line.read_octets("2bb1")) {
        Ok(ds) => line.must(put_ranked(set, ds)),
        Err(_) => line.lose(),
    }
}

/// The fields of a signature, as spelled and in canonical form.
pub fn fields(line: &mut Line<'_>) {
    let octets = line.octets(1);
    match rrsig_of(&octets) {
        Ok(rrsig) => {
            let (mut spelled, mut canonical) = (Vec::new(line.alloc()), Vec::new(line.alloc()));
            line.must(compose_fields(rrsig.proto(), &mut spelled));
            line.must(rrsig.proto().compose_canonical(&mut canonical));
            line.hex(&spelled);
            line.hex(&canonical);
        }
        Err(_) => line.lose(),
    }
}

/// The octets that a signature is made over, of an owner's data.
pub fn signed(line: &mut Line<'_>) {
    let octets = line.octets(1);
    match (rrsig_of(&octets), name_at(line, 2)) {
        (Ok(rrsig), Some(owner)) => signed_by(line, &rrsig, &owner),
        _ => line.lose(),
    }
}

fn signed_by(line: &mut Line<'_>, rrsig: &ReadRrsig<'_>, owner: &Name<Vec<u8>>) {
    let canonical = list_at(line, 3);
    match signed_octets(line.alloc(), rrsig.proto(), owner, Class::IN, &canonical) {
        Ok(octets) => line.hex(&octets),
        Err(_) => line.lose(),
    }
}
