//! Lines of names, messages, keys and accepted zones, answered, so that the output is compared with
//! the standards and results worked out by hand.
//!
//! Names are texts, octets hexadecimal digits (`-` for none), numbers decimal, lists joined by
//! commas:
//!
//! - `name OCTETS PLACE`: the name at a place of a message as spelled, in canonical form, and the
//!   place behind it; `is OCTETS PLACE NAME`: whether it is this one. `flat OCTETS PLACE`: the same
//!   of octets without pointers; `whole OCTETS`: the name that octets are, and how many labels it
//!   has.
//! - `compare NAME NAME`: how the first stands to the second, how that to the first and to its
//!   copy, and whether the first is above the second. `parts NAME COUNT`: how many labels a name
//!   has and a signature counts, and how many octets; whether its first label is a star, whether
//!   any is, and the wildcard below it; its last labels; its octets, spelled and canonical.
//! - `message OCTETS`: what a message asks, and each record with the place of its data; `data
//!   OCTETS`: the canonical data of the first record, and what a link or signature says; `write
//!   NAME TYPE CLASS OWNER TTL OCTETS`: a message of one record; `numbers NUMBER NUMBER`: of 16 and
//!   of 32 bits, as they are written. `canonical OCTETS`: the message in canonical form; `form
//!   OCTETS`: as whoever verifies signatures is to see it; `data-form TYPE OCTETS`: whether data by
//!   themselves are canonical, or only in form, since names in them are read as names.
//! - `key FLAGS ALGORITHM OCTETS`, `key-data OCTETS`: a key with its tag, whether it is a zone key,
//!   and its data. `ranked OCTETS,..`: data in order; `digests TAG,..`: DS records in order.
//! - `fields RRSIG`: the fields of a signature, spelled and canonical; `signed RRSIG OWNER
//!   OCTETS,..`: what it is made over.
//! - `response TRANSPORT SIZE QUERY MESSAGE`: what a client sent and what the zone's publisher made
//!   of it, carried by `tcp` or by a datagram of so many octets at most (TRANSPORT), for a server
//!   that takes SIZE octets by UDP. Printed are the octets of the response, or `unreadable` where
//!   the message does not read.
//! - `zone NAME`: begins a zone; `soa SERIAL`, `ns OWNER TTL SERVER`, `rr OWNER CLASS TTL TYPE
//!   OCTETS`: its records; `nsec3 ITERATIONS SALT OPTOUT LIMIT`: asks for a chain of hashes, by
//!   SHA-1, instead of one of names; `accept`: makes it; `in-form`, before that: whether every
//!   signer signs the data of the records so far alike. Then `ask NAME TYPE`: the flags and RRsets
//!   of the answer, the data of each as written and in canonical form; `has NAME TYPE`, `exists
//!   NAME`, `ttl NAME TYPE`, `apex`.

#![tactic(auto)]

mod keys;
mod name_parts;
mod records;
mod responses;
mod words;
mod zone;

use test_lines::Line;
pub use zone::Zone;

/// Answers a line of messages.
pub fn answer(line: &mut Line<'_>, zone: &mut Zone) {
    match line.word(0) {
        "name" => name_parts::read(line),
        "is" => name_parts::is_name(line),
        "flat" => name_parts::at_place(line),
        "whole" => name_parts::whole(line),
        "compare" => name_parts::compare(line),
        "parts" => name_parts::parts(line),
        "response" => responses::told(line),
        _ => of_messages(line, zone),
    }
}

fn of_messages(line: &mut Line<'_>, zone: &mut Zone) {
    match line.word(0) {
        "message" => records::message(line),
        "data" => records::data(line),
        "write" => records::written(line),
        "numbers" => records::numbers(line),
        "canonical" => records::canonical(line),
        "form" => records::form(line),
        "data-form" => records::data_form(line),
        _ => of_keys(line, zone),
    }
}

fn of_keys(line: &mut Line<'_>, zone: &mut Zone) {
    match line.word(0) {
        "key" => keys::key(line),
        "key-data" => keys::key_of(line),
        "ranked" => keys::ranked(line),
        "digests" => keys::digests(line),
        "fields" => keys::fields(line),
        "signed" => keys::signed(line),
        _ => of_records(line, zone),
    }
}

fn of_records(line: &mut Line<'_>, zone: &mut Zone) {
    match line.word(0) {
        "zone" => zone.begin(line),
        "soa" => zone.put_soa(line),
        "rr" => zone.put(line),
        "ns" => zone.put_ns(line),
        "nsec3" => zone.put_mode(line),
        "in-form" => zone.in_form(line),
        "accept" => zone.accept(line),
        _ => match zone.accepted() {
            Some(zone) => zone::answer(line, zone),
            None => line.lose(),
        },
    }
}
