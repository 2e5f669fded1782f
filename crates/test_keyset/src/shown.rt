//! What a key set shows of itself.

use crate::rows::name_all;
use crate::words::roll_at;
use keyset::{Key, KeySet, KeyType, RollState, UnixTime};
use std::time::Duration;
use test_lines::Line;

/// Everything of a key.
pub fn key(line: &mut Line<'_>, set: &KeySet) {
    match set.key(line.word(1)) {
        Some(key) => whole(line, key),
        None => line.say("no key"),
    }
}

/// A key beside a copy of it that is decoupled.
pub fn alone(line: &mut Line<'_>, set: &KeySet) {
    match set.key(line.word(1)) {
        Some(key) => match key.clone() {
            Ok(copy) => beside(line, key, copy),
            Err(_) => line.lose(),
        },
        None => line.lose(),
    }
}

fn beside(line: &mut Line<'_>, key: &Key, copy: Key) {
    let mut copy = copy;
    copy.set_decoupled(true);
    whole(line, key);
    line.say("|");
    whole(line, &copy);
}

/// What the last step of a roll asked for.
pub fn owed(line: &mut Line<'_>, set: &KeySet) {
    let roll = roll_at(line, 1);
    match set.actions(roll) {
        Ok(actions) => name_all(line, &actions),
        Err(error) => line.refused(&error),
    }
}

/// How many keys and rolls there are.
pub fn counts(line: &mut Line<'_>, set: &KeySet) {
    line.value(&set.keys().len());
    line.say("keys,");
    line.value(&set.rollstates().len());
    line.say("rolls");
}

fn whole(line: &mut Line<'_>, key: &Key) {
    kind(line, key.keytype());
    line.mark(";");
    line.value(&key.algorithm().to_int());
    line.value(&key.key_tag());
    line.mark(";");
    let stamps = key.timestamps();
    stamp(line, stamps.creation());
    stamp(line, stamps.published());
    stamp(line, stamps.withdrawn());
    stamp(line, stamps.visible());
    stamp(line, stamps.ds_visible());
    stamp(line, stamps.rrsig_visible());
    line.mark(";");
    line.say(key.privref().unwrap_or("-"));
    line.mark(",");
    line.say(if key.decoupled() {
        "decoupled"
    } else {
        "coupled"
    });
}

/// The kind of a key, and its flags: of a combined one those of both roles.
fn kind(line: &mut Line<'_>, keytype: KeyType) {
    match keytype {
        KeyType::Ksk(state) => line.value(&format_args!("ksk {state}")),
        KeyType::Zsk(state) => line.value(&format_args!("zsk {state}")),
        KeyType::Csk(ksk, zsk) => line.value(&format_args!("ksk {ksk}, zsk {zsk}")),
        KeyType::Include(state) => line.value(&format_args!("included {state}")),
    }
}

/// The whole seconds of a stamp: when a key was made, put in or taken out, or since when something
/// of it is seen; `-` for none.
fn stamp(line: &mut Line<'_>, stamp: Option<UnixTime>) {
    match stamp {
        Some(time) => line.value(&Duration::from(time).as_secs()),
        None => line.say("-"),
    }
}

/// How far a roll is.
pub fn phase(line: &mut Line<'_>, set: &KeySet) {
    let roll = roll_at(line, 1);
    match set.rollstates().get(&roll).copied() {
        None => line.say("none"),
        Some(RollState::Propagation1) => line.say("first changes"),
        Some(RollState::CacheExpire1(ttl)) => line.value(&format_args!("first wait for {ttl}")),
        Some(RollState::Propagation2) => line.say("second changes"),
        Some(RollState::CacheExpire2(ttl)) => line.value(&format_args!("second wait for {ttl}")),
        Some(RollState::Done) => line.say("last actions"),
    }
}
