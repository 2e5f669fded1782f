//! What is set of a publisher's keys by hand, what its references are bound to, and its DS set.

use crate::calls::made;
use crate::desk::TestPublisher;
use crate::words::octets_at;
use answer::{SecurityAlgorithm, UnixTime};
use std::time::Duration;
use test_keyset::moment_at;
use test_lines::Line;

/// Adds a key of another owner, of algorithm 13 and made at 0.
pub fn include(line: &mut Line<'_>, publisher: &mut TestPublisher) {
    let (reference, octets) = (line.text(line.word(1)), octets_at(line, 2));
    let is_there = line.is_yes(3);
    if line.is_lost() || octets.len() > 65_531 {
        line.lose();
        return;
    }
    let (ecdsa, time) = (
        SecurityAlgorithm::ECDSAP256SHA256,
        UnixTime::new(Duration::ZERO),
    );
    made(
        line,
        publisher.add_public_key(reference, ecdsa, octets, time, is_there),
    );
}

/// Sets a flag of a key.
pub fn set_flag(line: &mut Line<'_>, publisher: &mut TestPublisher) {
    let (reference, value) = (line.word(1), line.is_yes(2));
    if !line.is_lost() {
        let answered = match line.word(0) {
            "set-decoupled" => publisher.set_decoupled(reference, value),
            "set-signer" => publisher.set_signer(reference, value),
            _ => publisher.set_at_parent(reference, value),
        };
        made(line, answered);
    }
}

/// Puts a key into the DNSKEY RRset or takes it out.
pub fn set_present(line: &mut Line<'_>, publisher: &mut TestPublisher) {
    let (reference, value, now) = (line.word(1), line.is_yes(2), moment_at(line, 3));
    if !line.is_lost() {
        made(line, publisher.set_present(reference, value, &now));
    }
}

/// Sets a stamp of a key.
pub fn set_stamp(line: &mut Line<'_>, publisher: &mut TestPublisher) {
    let (reference, time) = (line.word(1), moment_at(line, 2));
    if !line.is_lost() {
        let answered = match line.word(0) {
            "set-visible" => publisher.set_visible(reference, time),
            "set-ds-visible" => publisher.set_ds_visible(reference, time),
            _ => publisher.set_rrsig_visible(reference, time),
        };
        made(line, answered);
    }
}

/// Takes a key out of use, or deletes it.
pub fn leave(line: &mut Line<'_>, publisher: &mut TestPublisher) {
    let answered = match line.word(0) {
        "set-stale" => publisher.set_stale(line.word(1)),
        _ => publisher.delete_key(line.word(1)),
    };
    made(line, answered);
}

/// The DNSKEY record's data that a reference is bound to.
pub fn bound(line: &mut Line<'_>, publisher: &TestPublisher) {
    match publisher.dnskey_of(line.word(1)) {
        Some(key) => line.value(key),
        None => line.say("no key"),
    }
}

/// The DS set, as its records are printed; of none `-`.
pub fn ds_set(line: &mut Line<'_>, publisher: &TestPublisher) {
    match publisher.ds_set() {
        Ok(set) => {
            let mut texts = line.aside(", ");
            for ds in &set {
                texts.value(ds);
            }
            texts.say_if_empty("-");
            line.append(texts);
        }
        Err(_) => line.lose(),
    }
}
