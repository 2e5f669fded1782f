//! Keys, their digests, and hashes of names.

use denial_data::{Dnskey, Nsec3Salt};
use denial_nsec3_chain::owner_name::mk_hashed_nsec3_owner_name;
use denial_nsec3_sha1::hasher::Sha1Hasher;
use names::{ComposeRecordData, Name, Parser, compose_canonical_name};
use sha2::{Digest, Sha256};
use test_lines::Line;

/// The tag of a key.
pub fn tag(line: &mut Line<'_>) {
    let octets = line.octets(1);
    match Dnskey::parse(&mut Parser::from_ref(&octets)) {
        Ok(key) => line.value(&key.key_tag()),
        Err(_) => line.lose(),
    }
}

/// Whether a key is a zone key, a secure entry point, revoked.
pub fn flags(line: &mut Line<'_>) {
    let octets = line.octets(1);
    match Dnskey::parse(&mut Parser::from_ref(&octets)) {
        Ok(key) => {
            line.yes(key.is_zone_key());
            line.yes(key.is_secure_entry_point());
            line.yes(key.is_revoked());
        }
        Err(_) => line.lose(),
    }
}

/// The digest of an owner and its key (RFC 4034, 5.1.4).
pub fn digest(line: &mut Line<'_>) {
    let (owner, key) = (line.octets(1), line.octets(2));
    let owner = Name::from_slice(owner.as_slice());
    match (owner, Dnskey::parse(&mut Parser::from_ref(&key))) {
        (Ok(owner), Ok(key)) => digested(line, &owner, &key),
        _ => line.lose(),
    }
}

fn digested(line: &mut Line<'_>, owner: &Name<&[u8]>, key: &Dnskey<&[u8]>) {
    let mut digested = Vec::new(line.alloc());
    line.must(compose_canonical_name(owner, &mut digested));
    line.must(key.compose_canonical_rdata(&mut digested));
    line.hex(Sha256::digest(digested.as_slice()).as_slice());
}

/// The hash of a name in base32hex, by SHA-1: the first label of its owner under the root
/// (RFC 5155, 3 and 5).
pub fn hash(line: &mut Line<'_>) {
    let (octets, iterations, salt) = (line.octets(1), line.u16_at(2), line.octets(3));
    match (
        Name::from_slice(octets.as_slice()),
        Nsec3Salt::from_octets(salt),
    ) {
        (Ok(name), Ok(salt)) => hashed(line, &name, iterations, &salt),
        _ => line.lose(),
    }
}

fn hashed(line: &mut Line<'_>, name: &Name<&[u8]>, iterations: u16, salt: &Nsec3Salt<Vec<u8>>) {
    let (alloc, root) = (line.alloc(), Name::root_ref());
    match mk_hashed_nsec3_owner_name(alloc, name, 1, iterations, salt, &root, &Sha1Hasher) {
        Ok(owner) => line.value(&owner.first()),
        Err(_) => line.lose(),
    }
}
