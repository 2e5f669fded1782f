//! What the keeper of keys owes, and when.
ghost use Rattle.std.specs.Prelude.{◌≡◌, ℕ, ◌<◌, ◌≤◌, ◌*◌, ◌^◌, ◌↔◌, IfOk, Some};
ghost use Rattle.keyset_rolls.specs.Rolls.{awaited, stamp_read};
ghost use Rattle.keyset.specs.KeyState.{by_reference, misses, phase_of, wait_fault};
ghost use Rattle.keyset_due.specs.Dues.{IsDue, IsPassedFrom, IsReached, IsWaitFrom, end_of};
ghost use Rattle.keyset_due.specs.Dues.{greatest_end};

use keyset::{Action, Key, KeySet, RollState, RollType, UnixTime};
use keyset_rolls::Turn;
use std::alloc::{AllocError, Global};
use std::collections::HashMap;
use std::time::Duration;

const NANOS_PER_SEC: u128 = 1_000_000_000;

/// What is due of a roll that runs.
#[derive(Debug, Drop)]
pub struct Due {
    pub phase: RollState,
    /// What the phase asks the keeper for; nothing while a wait lasts.
    pub actions: Vec<Action>,
    /// The first whole second at which the wait of the phase is accepted, as it is at each one
    /// behind; nothing where there is none below 2^64, or the phase is no wait.
    pub from: Option<u64>,
}

/// What is due of a roll; nothing where it does not run.
pub fn due_of(alloc: Global, keys: &KeySet, rolltype: RollType) -> Result<Option<Due>, AllocError>
    ensures { IfOk result (IsDue keys.now rolltype) }
{
    let Some(phase) = phase_of(keys, rolltype) else {
        return Ok(None);
    };
    Ok(Some(Due {
        phase,
        actions: rolltype.actions_in(alloc, Some(phase))?,
        from: accepted_from(keys, rolltype, phase),
    }))
}

fn phase_of(keys: &KeySet, rolltype: RollType) -> Option<RollState>
    ensures { result ≡ phase_of keys.now rolltype }
{
    keys.rollstates().get(&rolltype).copied()
}

/// The first whole second at which the wait of a phase is accepted.
fn accepted_from(keys: &KeySet, rolltype: RollType, phase: RollState) -> Option<u64>
    requires { phase_of keys.now rolltype ≡ Some phase }
    ensures { IsWaitFrom keys.now rolltype phase result }
{
    match phase {
        RollState::CacheExpire1(ttl) => wait_from(keys, rolltype, Turn::First, ttl),
        RollState::CacheExpire2(ttl) => wait_from(keys, rolltype, Turn::Second, ttl),
        RollState::Propagation1 | RollState::Propagation2 | RollState::Done => None,
    }
}

/// The first whole second at which a wait is accepted.
fn wait_from(keys: &KeySet, rolltype: RollType, turn: Turn, ttl: u32) -> Option<u64>
    ensures { IsPassedFrom result (λ now. wait_fault rolltype turn ttl now keys.now.keys) }
{
    let keys = keys.keys();
    if misses_stamp(keys, rolltype, turn) {
        return None;
    }
    first_second(greatest_end(keys, rolltype, turn, ttl))
}

/// The first whole second at or behind a moment that is given in nanoseconds.
fn first_second(nanos: u128) -> Option<u64>
    requires { nanos < 2 ^ 96 }
    ensures { (second : ℕ) → second < 2 ^ 64
        → (nanos ≤ second * 1000000000) ↔ IsReached result second }
{
    let seconds = (nanos + NANOS_PER_SEC - 1) / NANOS_PER_SEC;
    if seconds > u128::from(u64::MAX) {
        return None;
    }
    Some(seconds as u64)
}

/// Whether a key that a wait looks at lacks the stamp that it reads.
fn misses_stamp(keys: &HashMap<String, Key>, rolltype: RollType, turn: Turn) -> bool
    ensures { result ≡ misses rolltype turn (by_reference keys.now.entries) }
{
    keys.values().any(|key| rolltype.misses_stamp(turn, key))
}

/// The moment, in nanoseconds, from which no key holds a wait back.
fn greatest_end(keys: &HashMap<String, Key>, rolltype: RollType, turn: Turn, ttl: u32) -> u128
    ensures exact { let es = by_reference keys.now.entries in
        result ≡ greatest_end rolltype turn ttl es }
    ensures small { result < 2 ^ 96 }
{
    let mut greatest = 0;
    for key in keys.values() {
        greatest = end_of(key, rolltype, turn, ttl).max(greatest);
    }
    greatest
}

/// The moment, in nanoseconds, from which a key does not hold a wait back.
fn end_of(key: &Key, rolltype: RollType, turn: Turn, ttl: u32) -> u128
    ensures exact { result ≡ end_of ttl (awaited turn rolltype key.now) }
    ensures small { result < 2 ^ 96 }
{
    let beginning = UnixTime::new(Duration::from_secs(0));
    let whole = rolltype.rest(turn, key, ttl, &beginning);
    let Some(since) = stamp_read(key, rolltype, turn) else {
        return 0;
    };
    if whole == 0 {
        return 0;
    }
    nanos_of(&since) + whole
}

/// The nanoseconds of a moment.
fn nanos_of(moment: &UnixTime) -> u128
    ensures value { result ≡ moment.now }
    ensures small { result < 2 ^ 94 }
{
    UnixTime::new(Duration::from_secs(0))
        .elapsed(moment)
        .as_nanos()
}

/// The stamp that a wait reads.
fn stamp_read(key: &Key, rolltype: RollType, turn: Turn) -> Option<UnixTime>
    ensures { result ≡ stamp_read turn rolltype key.now.stamps }
{
    let stamps = key.timestamps();
    match (turn, rolltype) {
        (Turn::First, RollType::KskDoubleDsRoll) => stamps.ds_visible(),
        (Turn::First, _) => stamps.visible(),
        (Turn::Second, RollType::KskRoll | RollType::AlgorithmRoll) => stamps.ds_visible(),
        (Turn::Second, RollType::KskDoubleDsRoll) => stamps.visible(),
        (Turn::Second, RollType::ZskRoll | RollType::ZskDoubleSignatureRoll | RollType::CskRoll) =>
            stamps.rrsig_visible(),
    }
}
