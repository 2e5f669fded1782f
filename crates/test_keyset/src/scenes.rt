//! What is shown behind each call of a roll.

use crate::rows::{Column, keys_in};
use crate::words::at;
use keyset::{Error, KeySet, RollState, RollType};
use test_lines::Line;

/// What is handed out of a zone.
#[derive(Clone, Copy, PartialEq, Eq)]
pub enum Thing {
    DsSet,
    DnskeyAnswer,
    ZoneAnswer,
}

/// What is shown behind a call of a roll.
#[derive(Drop)]
pub struct Scene {
    pub roll: RollType,
    pub step: &'static str,
    pub now: u64,
    /// The wait that begins with this step, where it is a report.
    pub wait: Option<Wait>,
    ds: String,
    dnskey: String,
    signatures: String,
}

/// A wait for what caches may hold.
#[derive(Clone, Copy)]
pub struct Wait {
    pub ttl: u64,
    /// The moment from which on the key set accepts that the wait is over.
    pub end: u64,
}

impl Scene {
    /// What a set shows behind a call of a roll.
    pub fn new(
        line: &mut Line<'_>,
        set: &KeySet,
        keys: &[String],
        roll: RollType,
        step: &'static str,
        now: u64,
    ) -> Option<Scene> {
        let mut dnskey = keys_in(line, set, keys, Column::Present);
        dnskey.mark(", signed by");
        dnskey.append(keys_in(line, set, keys, Column::SignsKeys));
        match set.clone() {
            Ok(copy) => Some(Scene {
                roll,
                step,
                now,
                wait: wait_of(copy, roll, now),
                ds: line.text_from(keys_in(line, set, keys, Column::AtParent)),
                dnskey: line.text_from(dnskey),
                signatures: line.text_from(keys_in(line, set, keys, Column::SignsZone)),
            }),
            Err(_) => {
                line.lose();
                None
            }
        }
    }

    pub fn content(&self, thing: Thing) -> &str {
        match thing {
            Thing::DsSet => self.ds.as_str(),
            Thing::DnskeyAnswer => self.dnskey.as_str(),
            Thing::ZoneAnswer => self.signatures.as_str(),
        }
    }
}

/// The wait that a roll is in at a moment: a copy of the set is asked how long it still is.
fn wait_of(copy: KeySet, roll: RollType, now: u64) -> Option<Wait> {
    let mut copy = copy;
    let state = copy.rollstates().get(&roll).copied();
    let (ttl, ended) = match state {
        Some(RollState::CacheExpire1(ttl)) => (ttl, copy.cache_expired1(roll, &at(now))),
        Some(RollState::CacheExpire2(ttl)) => (ttl, copy.cache_expired2(roll, &at(now))),
        _ => return None,
    };
    let rest = match ended {
        Err(Error::Wait(rest)) => rest.as_secs(),
        _ => 0,
    };
    Some(Wait {
        ttl: u64::from(ttl),
        end: now.saturating_add(rest),
    })
}
