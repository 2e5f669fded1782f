//! Key lives of a few calls, all of them: what was handed out and isn't retired meets.

use crate::calls::NewKey;
use crate::rows::Column;
use crate::scenes::Thing;
use crate::words::{at, read_roll};
use keyset::{KeySet, RollType};
use names_flat::name::Name;
use test_lines::Line;

/// What is found of all lists of calls.
#[derive(Clone, Copy)]
struct Found {
    /// Some things that were handed out and aren't retired do not meet.
    is_apart: bool,
    /// A call changed the keys and was refused.
    is_changed: bool,
}

/// What is said of all lists of a number of accepted calls of some rolls.
pub fn lives_of(line: &mut Line<'_>) {
    let mut rolls = Vec::new(line.alloc());
    for name in &line.list(1) {
        let roll = read_roll(line, name);
        line.must(rolls.push(roll));
    }
    let mut found = Found {
        is_apart: false,
        is_changed: false,
    };
    let calls = line.usize_at(2);
    let count = lives(line, &mut found, &rolls, calls);
    line.say(match (found.is_apart, found.is_changed) {
        (true, _) => "some do not meet",
        (_, true) => "a refused call changed the keys",
        _ if count == 0 => "no list of so many calls",
        _ => "all meet",
    });
}

/// The TTL of each report, in seconds.
const TTL: u64 = 2;

/// What a state shows of the keys: a bit for each.
#[derive(Clone, Copy, PartialEq, Eq)]
struct Shown {
    ds: u8,
    present: u8,
    signs_keys: u8,
    signs_zone: u8,
}

const NAMES: [(&str, u8); 5] = [("K1", 1), ("Z1", 2), ("K2", 4), ("Z2", 8), ("C1", 16)];

fn bits(set: &KeySet, column: Column) -> u8 {
    let mut bits = 0;
    for (name, bit) in NAMES {
        if let Some(key) = set.key(name) {
            if column.has(key.keytype()) {
                bits |= bit;
            }
        }
    }
    bits
}

fn state_of(set: &KeySet) -> Shown {
    Shown {
        ds: bits(set, Column::AtParent),
        present: bits(set, Column::Present),
        signs_keys: bits(set, Column::SignsKeys),
        signs_zone: bits(set, Column::SignsZone),
    }
}

fn content(thing: Thing, shown: Shown) -> (u8, u8) {
    match thing {
        Thing::DsSet => (shown.ds, 0),
        Thing::DnskeyAnswer => (shown.present, shown.signs_keys),
        Thing::ZoneAnswer => (shown.signs_zone, 0),
    }
}

#[derive(Clone, Copy, PartialEq, Eq)]
enum Call {
    Start,
    Report1,
    Wait1,
    Report2,
    Wait2,
    Finish,
}

const CALLS: [Call; 6] = [
    Call::Start,
    Call::Report1,
    Call::Wait1,
    Call::Report2,
    Call::Wait2,
    Call::Finish,
];

impl Call {
    /// How much later than the call before it may come, in seconds.
    fn latest(self) -> u64 {
        match self {
            Call::Wait1 | Call::Wait2 => TTL,
            _ => 0,
        }
    }
}

#[derive(Clone, Copy)]
struct Made {
    call: Call,
    roll: RollType,
    now: u64,
}

fn olds(roll: RollType) -> &'static [&'static str] {
    match roll {
        RollType::KskRoll | RollType::KskDoubleDsRoll => &["K1"],
        RollType::ZskRoll | RollType::ZskDoubleSignatureRoll => &["Z1"],
        RollType::CskRoll | RollType::AlgorithmRoll => &["K1", "Z1"],
    }
}

fn news(roll: RollType) -> &'static [&'static str] {
    match roll {
        RollType::KskRoll | RollType::KskDoubleDsRoll => &["K2"],
        RollType::ZskRoll | RollType::ZskDoubleSignatureRoll => &["Z2"],
        RollType::CskRoll | RollType::AlgorithmRoll => &["C1"],
    }
}

fn is_accepted(set: &mut KeySet, made: Made) -> bool {
    let now = at(made.now);
    let ttl = TTL as u32;
    match made.call {
        Call::Start => set
            .start_roll(made.roll, olds(made.roll), news(made.roll), &now)
            .is_ok(),
        Call::Report1 => set.propagation1_complete(made.roll, ttl, &now).is_ok(),
        Call::Wait1 => set.cache_expired1(made.roll, &now).is_ok(),
        Call::Report2 => set.propagation2_complete(made.roll, ttl, &now).is_ok(),
        Call::Wait2 => set.cache_expired2(made.roll, &now).is_ok(),
        Call::Finish => set.roll_done(made.roll).is_ok(),
    }
}

/// The things of which a roll's first report says that they are everywhere.
pub fn in_report1(roll: RollType, thing: Thing) -> bool {
    match roll {
        RollType::KskRoll | RollType::ZskRoll | RollType::CskRoll => thing == Thing::DnskeyAnswer,
        RollType::KskDoubleDsRoll => thing == Thing::DsSet,
        RollType::ZskDoubleSignatureRoll | RollType::AlgorithmRoll => thing != Thing::DsSet,
    }
}

/// The things of which a roll's second report says that they are everywhere.
pub fn in_report2(roll: RollType, thing: Thing) -> bool {
    match roll {
        RollType::KskRoll | RollType::AlgorithmRoll => thing == Thing::DsSet,
        RollType::KskDoubleDsRoll => thing == Thing::DnskeyAnswer,
        RollType::ZskRoll => thing == Thing::ZoneAnswer,
        RollType::ZskDoubleSignatureRoll => thing != Thing::DsSet,
        RollType::CskRoll => thing != Thing::DnskeyAnswer,
    }
}

/// How many calls there are up to the last of this kind before a place.
fn last_call(steps: &[Made], place: usize, call: Call, roll: RollType) -> usize {
    let mut last = 0;
    for (before, step) in steps.iter().enumerate() {
        if before < place && step.call == call && step.roll == roll {
            last = before.saturating_add(1);
        }
    }
    last
}

/// Whether what was handed out in a state changed up to and with a call.
fn is_replaced(states: &[Shown], thing: Thing, state: usize, call: usize) -> bool {
    let mut before = None;
    let mut changed = false;
    for (place, shown) in states.iter().enumerate() {
        let now = content(thing, *shown);
        if state < place && place <= call && before != Some(now) {
            changed = true;
        }
        before = Some(now);
    }
    changed
}

fn is_retired(states: &[Shown], steps: &[Made], thing: Thing, state: usize, moment: u64) -> bool {
    let mut retired = false;
    for (place, step) in steps.iter().enumerate() {
        let began = match step.call {
            Call::Report1 if in_report1(step.roll, thing) => Some(Call::Start),
            Call::Report2 if in_report2(step.roll, thing) => Some(Call::Wait1),
            _ => None,
        };
        if let Some(call) = began {
            if step.now.saturating_add(TTL) <= moment {
                let last = last_call(steps, place, call, step.roll);
                if is_replaced(states, thing, state, last) {
                    retired = true;
                }
            }
        }
    }
    retired
}

/// The states whose thing is not retired at a moment.
fn live(
    line: &mut Line<'_>,
    states: &[Shown],
    steps: &[Made],
    thing: Thing,
    moment: u64,
) -> Vec<Shown> {
    let mut live = Vec::new(line.alloc());
    for (place, shown) in states.iter().enumerate() {
        if !is_retired(states, steps, thing, place, moment) {
            line.must(live.push(*shown));
        }
    }
    live
}

/// Whether the DS set of one state, the DNSKEY answer of another and a zone answer of a third fit
/// together.
fn meet(ds: Shown, keys: Shown, zone: Shown) -> bool {
    ds.ds & keys.present & keys.signs_keys != 0 && keys.present & zone.signs_zone != 0
}

fn all_meet(line: &mut Line<'_>, states: &[Shown], steps: &[Made], moment: u64) -> bool {
    let ds_sets = live(line, states, steps, Thing::DsSet, moment);
    let keys = live(line, states, steps, Thing::DnskeyAnswer, moment);
    let zones = live(line, states, steps, Thing::ZoneAnswer, moment);
    let mut all = true;
    for ds in &ds_sets {
        for key in &keys {
            for zone in &zones {
                if ds.ds != 0 && !meet(*ds, *key, *zone) {
                    all = false;
                }
            }
        }
    }
    all
}

/// Adds a key of algorithm 13, made at 0 and available.
fn add(line: &mut Line<'_>, set: &mut KeySet, kind: &str, reference: &str, key_tag: u16) {
    let key = NewKey::plain(line.text(reference), key_tag);
    line.must(key.put(set, kind));
}

/// Puts K1 and Z1 in use, with nothing of before left, and fresh keys beside them.
fn put_in_use(line: &mut Line<'_>, set: &mut KeySet) {
    add(line, set, "ksk", "K1", 0);
    add(line, set, "zsk", "Z1", 1);
    let first = RollType::AlgorithmRoll;
    line.must(set.start_roll(first, &[], &["K1", "Z1"], &at(0)));
    line.must(set.propagation1_complete(first, 0, &at(0)));
    line.must(set.cache_expired1(first, &at(0)));
    line.must(set.propagation2_complete(first, 0, &at(0)));
    line.must(set.cache_expired2(first, &at(0)));
    line.must(set.roll_done(first));
    add(line, set, "ksk", "K2", 2);
    add(line, set, "zsk", "Z2", 3);
    add(line, set, "csk", "C1", 4);
}

/// The states behind the calls that are accepted; those that are refused change nothing.
fn states_of(line: &mut Line<'_>, found: &mut Found, steps: &[Made]) -> Vec<Shown> {
    let mut states = Vec::new(line.alloc());
    match Name::root(line.alloc()) {
        Ok(root) => {
            let mut set = KeySet::new(line.alloc(), root);
            put_in_use(line, &mut set);
            line.must(states.push(state_of(&set)));
            for step in steps {
                make_step(line, found, &mut set, *step, &mut states);
            }
        }
        Err(_) => line.lose(),
    }
    states
}

fn make_step(
    line: &mut Line<'_>,
    found: &mut Found,
    set: &mut KeySet,
    step: Made,
    states: &mut Vec<Shown>,
) {
    let before = state_of(set);
    if is_accepted(set, step) {
        line.must(states.push(state_of(set)));
    } else if before != state_of(set) {
        found.is_changed = true;
    }
}

/// A list with one call more.
fn with_call(line: &mut Line<'_>, steps: &[Made], made: Made) -> Vec<Made> {
    let mut longer = Vec::new(line.alloc());
    line.must(longer.extend_from_slice(steps));
    line.must(longer.push(made));
    longer
}

/// Adds the list with one call more, if that is accepted; checked at its moment and behind it.
fn push_longer(
    line: &mut Line<'_>,
    found: &mut Found,
    next: &mut Vec<Vec<Made>>,
    list: &[Made],
    made: Made,
) {
    let steps = with_call(line, list, made);
    let states = states_of(line, found, steps.as_slice());
    if states.len() <= steps.len() {
        return;
    }
    for later in [0, 1, TTL] {
        let moment = made.now.saturating_add(later);
        if !all_meet(line, states.as_slice(), steps.as_slice(), moment) {
            found.is_apart = true;
        }
    }
    line.must(next.push(steps));
}

/// All lists of accepted calls of these rolls that are one call longer than a list.
fn push_all_longer(
    line: &mut Line<'_>,
    found: &mut Found,
    next: &mut Vec<Vec<Made>>,
    list: &[Made],
    rolls: &[RollType],
) {
    let last = list.last().map_or(0, |made| made.now);
    for roll in rolls {
        for call in CALLS {
            for later in 0..=call.latest() {
                let made = Made {
                    call,
                    roll: *roll,
                    now: last.saturating_add(later),
                };
                push_longer(line, found, next, list, made);
            }
        }
    }
}

/// How many lists there are of a number of calls.
fn lives(line: &mut Line<'_>, found: &mut Found, rolls: &[RollType], calls: usize) -> usize {
    let mut lists = Vec::new(line.alloc());
    line.must(lists.push(Vec::new(line.alloc())));
    for _ in 0..calls {
        let mut next = Vec::new(line.alloc());
        for list in &lists {
            push_all_longer(line, found, &mut next, list, rolls);
        }
        lists = next;
    }
    lists.len()
}
