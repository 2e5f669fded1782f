//! Calls on the keys of a publisher. None is made of a line that cannot be read.

use crate::desk::TestPublisher;
use crate::words::{octets_at, text_at};
use answer::{Action, Available, KeyFault, SecurityAlgorithm, UnixTime};
use std::time::Duration;
use test_keyset::{moment_at, roll_at};
use test_lines::Line;

/// Says what a call answered.
pub fn made(line: &mut Line<'_>, answered: Result<(), KeyFault>) {
    match answered {
        Ok(()) => line.say("ok"),
        Err(fault) => line.refused(&fault),
    }
}

/// Adds a key of algorithm 13, made at 0 and available; none that is longer than its data may be.
pub fn add(line: &mut Line<'_>, publisher: &mut TestPublisher) {
    let (reference, octets) = (line.text(line.word(1)), octets_at(line, 3));
    let private = if line.word(2) == "-" {
        None
    } else {
        Some(text_at(line, 2))
    };
    if line.is_lost() || octets.len() > 65_531 {
        line.lose();
        return;
    }
    let ecdsa = SecurityAlgorithm::ECDSAP256SHA256;
    let (time, is_there) = (UnixTime::new(Duration::ZERO), Available::Available);
    let answered = match line.word(0) {
        "ksk" => publisher.add_key_ksk(reference, private, ecdsa, octets, time, is_there),
        _ => publisher.add_key_zsk(reference, private, ecdsa, octets, time, is_there),
    };
    made(line, answered);
}

/// How many actions a call of a roll asks for.
fn owed(line: &mut Line<'_>, answered: Result<Vec<Action>, KeyFault>) {
    match answered {
        Ok(actions) => {
            line.value(&actions.len());
            line.say("actions");
        }
        Err(fault) => line.refused(&fault),
    }
}

pub fn start(line: &mut Line<'_>, publisher: &mut TestPublisher) {
    let (roll, now) = (roll_at(line, 1), moment_at(line, 4));
    let (old, new) = (line.list(2), line.list(3));
    if !line.is_lost() {
        owed(line, publisher.start_roll(roll, &old, &new, &now));
    }
}

pub fn report(line: &mut Line<'_>, publisher: &mut TestPublisher) {
    let (roll, ttl, now) = (roll_at(line, 1), line.u32_at(2), moment_at(line, 3));
    if !line.is_lost() {
        let answered = match line.word(0) {
            "report1" => publisher.propagation1_complete(roll, ttl, &now),
            _ => publisher.propagation2_complete(roll, ttl, &now),
        };
        owed(line, answered);
    }
}

pub fn wait(line: &mut Line<'_>, publisher: &mut TestPublisher) {
    let (roll, now) = (roll_at(line, 1), moment_at(line, 2));
    if !line.is_lost() {
        let answered = match line.word(0) {
            "wait1" => publisher.cache_expired1(roll, &now),
            _ => publisher.cache_expired2(roll, &now),
        };
        owed(line, answered);
    }
}

pub fn end(line: &mut Line<'_>, publisher: &mut TestPublisher) {
    let roll = roll_at(line, 1);
    if !line.is_lost() {
        owed(line, publisher.roll_done(roll));
    }
}

/// How many actions the last step of a roll asked for.
pub fn still_owed(line: &mut Line<'_>, publisher: &TestPublisher) {
    let roll = roll_at(line, 1);
    match publisher.key_set().actions(roll) {
        Ok(actions) => owed(line, Ok(actions)),
        Err(error) => line.refused(&error),
    }
}

/// Whether a key is there, and how long its private reference is.
pub fn key(line: &mut Line<'_>, publisher: &TestPublisher) {
    match publisher.key_set().key(line.word(1)) {
        Some(key) => {
            line.say("tag");
            line.value(&key.key_tag());
            line.mark(", private reference of");
            line.value(&key.privref().map_or(0, |text| text.len()));
            line.say("letters");
        }
        None => line.say("no key"),
    }
}
