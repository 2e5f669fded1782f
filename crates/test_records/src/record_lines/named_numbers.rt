//! Numbers with names of their own, and octets as base32hex.

use names::LongRecordData;
use plain::{Class, DigestAlgorithm, Rtype, SecurityAlgorithm, Ttl, base32hex};
use test_lines::Line;

/// What is printed of a type, and the number again.
pub fn rtype(line: &mut Line<'_>) {
    let rtype = Rtype::from_int(line.u16_at(1));
    line.value(&rtype);
    line.value(&rtype.to_int());
}

/// The same of a class.
pub fn class(line: &mut Line<'_>) {
    let class = Class::from_int(line.u16_at(1));
    line.value(&class);
    line.value(&class.to_int());
}

/// The same of a TTL.
pub fn ttl(line: &mut Line<'_>) {
    let ttl = Ttl::from_secs(line.u32_at(1));
    line.value(&ttl);
    line.value(&ttl.as_secs());
}

/// The same of an algorithm, and whether it is the one with a name of its own.
pub fn algorithm(line: &mut Line<'_>) {
    let algorithm = SecurityAlgorithm::from_int(line.u8_at(1));
    line.value(&algorithm);
    line.value(&algorithm.to_int());
    let is_ecdsa = algorithm == SecurityAlgorithm::ECDSAP256SHA256;
    line.say(if is_ecdsa {
        "ECDSAP256SHA256"
    } else {
        "another"
    });
}

/// The same of a digest algorithm.
pub fn digest(line: &mut Line<'_>) {
    let algorithm = DigestAlgorithm::from_int(line.u8_at(1));
    line.value(&algorithm);
    line.value(&algorithm.to_int());
    let is_sha256 = algorithm == DigestAlgorithm::SHA256;
    line.say(if is_sha256 { "SHA256" } else { "another" });
}

/// The numbers of a few types and of the one class by their names, and the order of two types.
pub fn constants(line: &mut Line<'_>) {
    line.say("A");
    line.value(&Rtype::A.to_int());
    line.say("NS");
    line.value(&Rtype::NS.to_int());
    line.say("SOA");
    line.value(&Rtype::SOA.to_int());
    line.say("NSEC3PARAM");
    line.value(&Rtype::NSEC3PARAM.to_int());
    line.say("IN");
    line.value(&Class::IN.to_int());
    line.say(if Rtype::A < Rtype::NS { "A<NS" } else { "A>NS" });
}

/// Octets as base32hex, which are read as these again.
pub fn encode(line: &mut Line<'_>) {
    let octets = line.octets(1);
    match base32hex::encode(line.alloc(), &octets) {
        Ok(digits) => encoded(line, &octets, &digits),
        Err(_) => line.lose(),
    }
}

fn encoded(line: &mut Line<'_>, octets: &[u8], digits: &str) {
    match base32hex::decode(line.alloc(), digits) {
        Ok(again) => line.check(again.as_slice() == octets),
        Err(_) => line.lose(),
    }
    line.say(if digits.is_empty() { "-" } else { digits });
}

/// The octets of base32hex, or the fault of the text.
pub fn decode(line: &mut Line<'_>) {
    match base32hex::decode(line.alloc(), line.rest(1)) {
        Ok(octets) => line.hex(&octets),
        Err(error) => line.value(&error),
    }
}

/// Whether data may be so long: of one length, of one and so many octets behind it, or of three
/// lengths together.
pub fn lengths(line: &mut Line<'_>) {
    let first = line.usize_at(1);
    if line.word(2).is_empty() {
        fits(line, LongRecordData::check_len(first));
        return;
    }
    let second = line.usize_at(2);
    if line.word(3).is_empty() {
        let together = LongRecordData::check_multi_len(&[first, second]);
        let appended = LongRecordData::check_append_len(first, second);
        line.check(together.is_ok() == appended.is_ok());
        fits(line, appended);
        return;
    }
    let lens = [first, second, line.usize_at(3)];
    fits(line, LongRecordData::check_multi_len(&lens));
}

fn fits(line: &mut Line<'_>, checked: Result<(), LongRecordData>) {
    match checked {
        Ok(()) => line.say("fits"),
        Err(error) => line.say(error.as_str()),
    }
}
