//! Reading and changing a set's two maps, which contracts see in order of reference and of kind.
ghost use Rattle.std.specs.Prelude.{◌≡◌, ℕ, ◌*◌, ◌≤◌, string_bytes, OnOk, OnErr};
ghost use Rattle.std.specs.List.{list_any};
ghost use Rattle.std.specs.FinMap.Entries.{put};
ghost use Rattle.keyset.specs.KeyState.{by_reference, by_kind, reference_cmp, kind_cmp, has_tag};
ghost use Rattle.keyset.specs.KeyState.{has_needed, listed, roles_after, on_keys, started, misses};
ghost use Rattle.keyset.specs.KeyState.{greatest_rest, without, removed, suitable};
ghost use Rattle.keyset.specs.KeySteps.{stepped};
ghost use Rattle.keyset.specs.Listing.{listed_by};
ghost use Rattle.keyset_rolls.specs.Rolls.{conflicts, started_roles};

use crate::listing::Listing;
use keyset_keys::{Key, KeyType, UnixTime};
use keyset_rolls::table::Need;
use keyset_rolls::{RollState, RollType, Turn};
use std::alloc::AllocError;
use std::collections::HashMap;
use std::convert::AsStr;

/// Whether a key has this tag.
pub(crate) fn has_tag(keys: &HashMap<String, Key>, key_tag: u16) -> bool
    ensures { result ≡ has_tag key_tag (by_reference keys.now.entries) }
{
    keys.values().any(|key| key.key_tag() == key_tag)
}

/// Whether a key that a wait looks at lacks the stamp that it reads.
pub(crate) fn misses_stamp(keys: &HashMap<String, Key>, rolltype: RollType, turn: Turn) -> bool
    ensures { result ≡ misses rolltype turn (by_reference keys.now.entries) }
{
    keys.values().any(|key| rolltype.misses_stamp(turn, key))
}

/// How many nanoseconds a wait still takes.
pub(crate) fn greatest_rest(
    keys: &HashMap<String, Key>,
    rolltype: RollType,
    turn: Turn,
    ttl: u32,
    now: &UnixTime,
) -> u128
    ensures exact { let es = by_reference keys.now.entries in
        result ≡ greatest_rest rolltype turn ttl now.now es }
    ensures bound { result ≤ ttl * 1_000_000_000 }
{
    let mut greatest = 0;
    for key in keys.values() {
        greatest = rolltype.rest(turn, key, ttl, now).max(greatest);
    }
    greatest
}

/// Whether a running roll conflicts with this one.
pub(crate) fn is_blocked(rollstates: &HashMap<RollType, RollState>, rolltype: RollType) -> bool
    ensures { result ≡ list_any (λ e. conflicts rolltype e.0) (by_kind rollstates.now.entries) }
{
    rollstates
        .keys()
        .any(|running| rolltype.conflicts_with(*running))
}

/// Whether keys would serve in all roles that a roll requires, after its start.
pub(crate) fn serves_after_start<T: AsStr>(
    keys: &HashMap<String, Key>,
    rolltype: RollType,
    old: &Listing<T>,
    new: &Listing<T>,
) -> bool
    ensures { let es = by_reference keys.now.entries in
        let roles = roles_after rolltype (listed_by old.now) (listed_by new.now) es in
        result ≡ suitable rolltype roles }
{
    rolltype.needs().iter().all(|need| has_needed_after_start(keys, rolltype, *need, old, new))
}

fn has_needed_after_start<T: AsStr>(
    keys: &HashMap<String, Key>,
    rolltype: RollType,
    need: Need,
    old: &Listing<T>,
    new: &Listing<T>,
) -> bool
    ensures { let es = by_reference keys.now.entries in
        let after = roles_after rolltype (listed_by old.now) (listed_by new.now) es in
        result ≡ has_needed rolltype need after }
{
    keys.iter().any(|(reference, key)| {
        let keytype = keytype_after_start(reference.as_str(), key, rolltype, old, new);
        rolltype.touches(keytype) && need.is_met_by(keytype)
    })
}

/// The roles of a key after a start.
fn keytype_after_start<T: AsStr>(
    reference: &str,
    key: &Key,
    rolltype: RollType,
    old: &Listing<T>,
    new: &Listing<T>,
) -> KeyType
    ensures { let is_old = listed (listed_by old.now) reference.now in
        let is_new = listed (listed_by new.now) reference.now in
        result ≡ started_roles rolltype is_old is_new key.now.roles }
{
    let (is_old, is_new) = (old.contains(reference), new.contains(reference));
    rolltype.roles_after_start(key.keytype(), is_old, is_new)
}

/// Inserts a key.
pub(crate) fn put_key(
    keys: &mut HashMap<String, Key>,
    reference: String,
    key: Key,
) -> Result<(), AllocError>
    ensures ok { let es = by_reference keys.old.entries in
        let after = put reference_cmp (string_bytes reference) key es in
        OnOk result (by_reference keys.new.entries ≡ after) }
    ensures err { OnErr result (by_reference keys.new.entries ≡ by_reference keys.old.entries) }
{
    keys.insert(reference, key)?;
    Ok(())
}

/// Sets the phase of a roll.
pub(crate) fn put_phase(
    rollstates: &mut HashMap<RollType, RollState>,
    rolltype: RollType,
    state: RollState,
) -> Result<(), AllocError>
    ensures ok { let after = put kind_cmp rolltype state (by_kind rollstates.old.entries) in
        OnOk result (by_kind rollstates.new.entries ≡ after) }
    ensures err { OnErr result (by_kind rollstates.new.entries ≡ by_kind rollstates.old.entries) }
{
    rollstates.insert(rolltype, state)?;
    Ok(())
}

/// Ends a roll.
pub(crate) fn remove_phase(rollstates: &mut HashMap<RollType, RollState>, rolltype: RollType)
    ensures { by_kind rollstates.new.entries ≡ without rolltype (by_kind rollstates.old.entries) }
{
    rollstates.remove(&rolltype);
}

/// Marks the old keys of a roll, and puts its new keys into use.
pub(crate) fn start_keys<T: AsStr>(
    keys: &mut HashMap<String, Key>,
    rolltype: RollType,
    old: &Listing<T>,
    new: &Listing<T>,
    now: &UnixTime,
)
    ensures { let es = by_reference keys.old.entries in
        let after = started rolltype now.now (listed_by old.now) (listed_by new.now) es in
        by_reference keys.new.entries ≡ after }
{
    keys.retain(|reference, key| {
        let is_old = old.contains(reference.as_str());
        let is_new = new.contains(reference.as_str());
        rolltype.start(key, is_old, is_new, now);
        true
    });
}

/// A report of a roll, or the wait behind it.
#[derive(Clone, Copy, Debug, PartialEq, Eq)]
pub(crate) enum Step {
    Report1,
    Wait1,
    Report2,
    Wait2,
}

impl Step {
    /// Changes a key that the roll touches.
    fn apply(self, rolltype: RollType, key: &mut Key, now: &UnixTime)
        ensures { key.new ≡ stepped self rolltype now.now key.old }
    {
        match self {
            Step::Report1 => rolltype.report1(key, now),
            Step::Wait1 => rolltype.wait1(key, now),
            Step::Report2 => rolltype.report2(key, now),
            Step::Wait2 => rolltype.wait2(key, now),
        }
    }
}

/// Changes the keys that a roll touches as one of its reports or waits does.
pub(crate) fn step_keys(
    keys: &mut HashMap<String, Key>,
    rolltype: RollType,
    step: Step,
    now: &UnixTime,
)
    ensures { let change = stepped step rolltype now.now in
        by_reference keys.new.entries ≡ on_keys rolltype change (by_reference keys.old.entries) }
{
    keys.retain(|_, key| {
        if rolltype.touches(key.keytype()) {
            step.apply(rolltype, key, now);
        }
        true
    });
}

/// Removes a key.
pub(crate) fn remove_key(keys: &mut HashMap<String, Key>, reference: &str)
    ensures { let es = by_reference keys.old.entries in
        by_reference keys.new.entries ≡ removed reference.now es }
{
    keys.remove(reference);
}
