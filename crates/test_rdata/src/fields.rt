//! Times, salts, hashes, and texts in base32hex.

use crate::typed::compared;
use arrayvec::ArrayVec;
use denial_data::{Nsec3Salt, OwnerHash, Timestamp};
use names::{CanonicalOrd, Parser};
use plain::base32hex as digits;
use std::str::FromStr;
use test_lines::Line;

/// The moment that seconds say near a reference.
pub fn near(line: &mut Line<'_>) {
    let time = Timestamp::from(line.u32_at(1));
    match time.to_system_time(line.number(2)) {
        Some(moment) => line.value(&moment),
        None => line.say("none"),
    }
}

/// How a time stands to another, as serial numbers and in canonical order.
pub fn times(line: &mut Line<'_>) {
    let (time, other) = (
        Timestamp::from(line.u32_at(1)),
        Timestamp::from(line.u32_at(2)),
    );
    match time.partial_cmp(&other) {
        Some(order) => line.order(order),
        None => line.say("none"),
    }
    line.order(time.canonical_cmp(&other));
}

/// A time of octets, written again.
pub fn time(line: &mut Line<'_>) {
    let octets = line.octets(1);
    match Timestamp::parse(&mut Parser::from_ref(&octets)) {
        Ok(time) => told(line, time),
        Err(error) => line.refused(&error),
    }
}

/// A time of a text, written.
pub fn time_text(line: &mut Line<'_>) {
    match Timestamp::from_str(line.rest(1)) {
        Ok(time) => told(line, time),
        Err(error) => line.refused(&error),
    }
}

/// A time, its number, and its octets.
fn told(line: &mut Line<'_>, time: Timestamp) {
    let mut octets = Vec::new(line.alloc());
    line.must(time.compose(&mut octets));
    line.value(&time);
    line.value(&time.into_int());
    line.hex(&octets);
    line.say("of");
    line.value(&Timestamp::COMPOSE_LEN);
}

/// The salt of a text: its octets, and its text.
pub fn salt(line: &mut Line<'_>) {
    match Nsec3Salt::from_str(line.alloc(), line.rest(1)) {
        Ok(salt) => {
            line.hex(salt.as_slice());
            line.value(&salt);
            if salt == Nsec3Salt::empty(line.alloc()) {
                line.mark(", empty");
            }
        }
        Err(error) => line.refused(&error),
    }
}

/// How many octets a salt has, and how many one may have.
pub fn salt_octets(line: &mut Line<'_>) {
    let octets = line.octets(1);
    match Nsec3Salt::from_slice(octets.as_slice()) {
        Ok(salt) => {
            line.value(&salt.as_slice().len());
            line.say("of");
            line.value(&Nsec3Salt::<&[u8]>::MAX_LEN);
        }
        Err(error) => line.refused(&error),
    }
}

/// How a salt stands to another.
pub fn salts(line: &mut Line<'_>) {
    let (first, second) = (line.octets(1), line.octets(2));
    let salt = Nsec3Salt::from_slice(first.as_slice());
    match (salt, Nsec3Salt::from_slice(second.as_slice())) {
        (Ok(salt), Ok(other)) => compared(line, &salt, &other),
        _ => line.lose(),
    }
}

/// How a hash stands to another.
pub fn hashes(line: &mut Line<'_>) {
    let (first, second) = (line.octets(1), line.octets(2));
    let hash = OwnerHash::from_slice(first.as_slice());
    match (hash, OwnerHash::from_slice(second.as_slice())) {
        (Ok(hash), Ok(other)) => compared(line, &hash, &other),
        _ => line.lose(),
    }
}

/// Whether the first octets, and then others, are written as a salt, and as a hash, to a buffer
/// that never has more than four octets; and the buffers.
pub fn in_four_octets(line: &mut Line<'_>) {
    let (first, second) = (line.octets(1), line.octets(2));
    let (mut salts, mut hashes) = (ArrayVec::<u8, 4>::new(), ArrayVec::<u8, 4>::new());
    for octets in [first.as_slice(), second.as_slice()] {
        match (Nsec3Salt::from_slice(octets), OwnerHash::from_slice(octets)) {
            (Ok(salt), Ok(hash)) => {
                line.yes(salt.compose(&mut salts).is_ok());
                line.yes(hash.compose(&mut hashes).is_ok());
            }
            _ => line.lose(),
        }
    }
    line.hex(salts.as_slice());
    line.hex(hashes.as_slice());
}

/// The hash of a text: its text, and its octets.
pub fn owner_hash(line: &mut Line<'_>) {
    match OwnerHash::from_str(line.alloc(), line.rest(1)) {
        Ok(hash) => {
            line.value(&hash);
            line.hex(&hash.into_octets());
        }
        Err(error) => line.refused(&error),
    }
}

/// The text of a hash, and its octets in base32hex.
pub fn hash_octets(line: &mut Line<'_>) {
    let octets = line.octets(1);
    match OwnerHash::from_slice(octets.as_slice()) {
        Ok(hash) => {
            line.value(&hash);
            match digits::encode(line.alloc(), hash.as_slice()) {
                Ok(text) => line.say(&text),
                Err(_) => line.lose(),
            }
        }
        Err(error) => line.refused(&error),
    }
}

/// The octets of base32hex, or the fault of the text.
pub fn base32hex(line: &mut Line<'_>) {
    match digits::decode(line.alloc(), line.rest(1)) {
        Ok(octets) => line.hex(&octets),
        Err(error) => line.refused(&error),
    }
}
