//! What is asked of DNSSEC record data, by the first word of a line.

use crate::{bitmaps, faults, fields, keys, links, longest, signatures, typed};
use test_lines::Line;

/// Answers a line of DNSSEC data.
pub fn answer(line: &mut Line<'_>) {
    match line.word(0) {
        "data" => typed::data(line),
        "end" => typed::end(line),
        "text" | "canonical" | "fault" | "order" => typed::typed(line),
        "tag" => keys::tag(line),
        "flags" => keys::flags(line),
        "digest" => keys::digest(line),
        "hash" => keys::hash(line),
        "longest" => longest::longest(line),
        "faults" => faults::faults(line),
        _ => of_bitmaps(line),
    }
}

fn of_bitmaps(line: &mut Line<'_>) {
    match line.word(0) {
        "bitmap" => bitmaps::bitmap(line),
        "each" => bitmaps::each(line),
        "room" => bitmaps::in_five_octets(line),
        "has" => bitmaps::has(line),
        "types" => bitmaps::types(line),
        "lengths" => bitmaps::lengths(line),
        "bitmaps" => bitmaps::compare(line),
        _ => of_signatures(line),
    }
}

fn of_signatures(line: &mut Line<'_>) {
    match line.word(0) {
        "fields" => signatures::fields(line),
        "same-fields" => signatures::same_fields(line),
        "signature" => signatures::resigned(line),
        "signed" => signatures::signed(line),
        "renamed" => links::renamed(line),
        "rehashed" => links::rehashed(line),
        "nsec-at" => links::nsec_at(line),
        "nsec3" => links::nsec3(line),
        "opted" => links::opted(line),
        _ => of_fields(line),
    }
}

fn of_fields(line: &mut Line<'_>) {
    match line.word(0) {
        "near" => fields::near(line),
        "times" => fields::times(line),
        "time" => fields::time(line),
        "time-text" => fields::time_text(line),
        _ => of_salts(line),
    }
}

fn of_salts(line: &mut Line<'_>) {
    match line.word(0) {
        "salt" => fields::salt(line),
        "salt-octets" => fields::salt_octets(line),
        "salts" => fields::salts(line),
        "owner-hash" => fields::owner_hash(line),
        "hash-octets" => fields::hash_octets(line),
        "hashes" => fields::hashes(line),
        "rooms" => fields::in_four_octets(line),
        "base32hex" => fields::base32hex(line),
        _ => line.lose(),
    }
}
