//! Lines of calls on a key set, answered with results and keys, so that whole rolls are compared
//! with the tables of rolls.
//!
//! Words lie one blank apart, lists are joined by commas, `-` is an empty one, `old*2` in a list of
//! keys is `old0,old1`, and moments are seconds:
//!
//! - `zone NAME KEYS`: a set without keys, of a zone; these keys are shown from now on, in this
//!   order.
//! - `ksk KEY TAG`, `zsk KEY TAG`, `csk KEY TAG`: adds a key of algorithm 13, made at 0 and
//!   available; `new KIND KEY PRIVATE ALGORITHM TAG MOMENT yes`: adds any, available or not;
//!   `include KEY ALGORITHM TAG MOMENT`: one of another owner; `many KEYS TAG`: zone signing keys
//!   with tags from this on.
//! - `start ROLL OLD NEW MOMENT`, `report1 ROLL TTL MOMENT`, `wait1 ROLL MOMENT`, `report2 ROLL TTL
//!   MOMENT`, `wait2 ROLL MOMENT`, `done ROLL`: the calls of a roll.
//! - `delete KEY`, `present KEY yes MOMENT`, `decoupled KEY yes`, `signer KEY yes`, `parent KEY
//!   yes`, `stale KEY`, `visible KEY MOMENT`, `ds-visible KEY MOMENT`, `rrsig-visible KEY MOMENT`:
//!   other calls; `no` in place of `yes` unsets.
//!
//! What is answered: of a roll's call a row with the keys in the DNSKEY RRset, those that sign it,
//! those that sign the zone, those at the parent, and what is to be done; of another call `ok`; of
//! either why it was refused. What is asked besides:
//!
//! - `key KEY`: its kind and flags; algorithm and tag; when it was made, put in and taken out,
//!   since when its record, its DS record and its signatures are seen; its private reference, and
//!   whether it is decoupled. `alone KEY`: the same, and that of a copy that is decoupled.
//! - `phase ROLL`, `owed ROLL`: how far a roll is, and what its last step asked for; `counts`: of
//!   keys and rolls.
//! - `drawing`: the last roll drawn against time, in SVG.
//! - `copy`: puts a copy of the set aside; `swap`: takes that and puts the set aside.
//! - `elapsed MOMENT MOMENT`, `later MOMENT SECONDS`, `before MOMENT MOMENT`, `timestamp MOMENT`,
//!   `from-timestamp NUMBER`: of moments; `roll NAME`: the roll of a name; `errors`: the texts of
//!   all errors, in the order of the enum.
//! - `lives ROLLS CALLS`: whether in all lists of so many accepted calls of these rolls, with keys
//!   in use and fresh ones, what was handed out and isn't retired meets.
#![tactic(auto)]

mod calls;
mod drawing;
mod lives;
mod moments;
mod rows;
mod scenes;
mod shown;
mod words;
mod zone;

use test_lines::Line;
pub use words::{moment_at, roll_at};
pub use zone::Zone;

/// Answers a line of keys.
pub fn answer(line: &mut Line<'_>, zone: &mut Option<Zone>) {
    match line.word(0) {
        "zone" => *zone = Zone::read(line),
        "elapsed" => moments::elapsed(line),
        "later" => moments::later(line),
        "before" => moments::before(line),
        "timestamp" => moments::timestamp(line),
        "from-timestamp" => moments::from_timestamp(line),
        "roll" => moments::roll_named(line),
        "errors" => moments::errors(line),
        "lives" => lives::lives_of(line),
        _ => match zone {
            Some(zone) => of_set(line, zone),
            None => line.lose(),
        },
    }
}

/// Answers a line that speaks of the set.
fn of_set(line: &mut Line<'_>, zone: &mut Zone) {
    match line.word(0) {
        "key" => shown::key(line, zone.set()),
        "alone" => shown::alone(line, zone.set()),
        "phase" => shown::phase(line, zone.set()),
        "owed" => shown::owed(line, zone.set()),
        "counts" => shown::counts(line, zone.set()),
        "drawing" => zone.drawing(line),
        "copy" => zone.copy(line),
        "swap" => zone.swap(line),
        _ => of_rolls(line, zone),
    }
}

fn of_rolls(line: &mut Line<'_>, zone: &mut Zone) {
    match line.word(0) {
        "start" => zone.start(line),
        "report1" | "report2" => zone.report(line),
        "wait1" | "wait2" => zone.wait(line),
        "done" => zone.end(line),
        "ksk" | "zsk" | "csk" => calls::add(line, zone.set_mut()),
        "new" => calls::add_any(line, zone.set_mut()),
        "include" => calls::include(line, zone.set_mut()),
        "many" => calls::add_many(line, zone.set_mut()),
        _ => by_hand(line, zone.set_mut()),
    }
}

fn by_hand(line: &mut Line<'_>, set: &mut keyset::KeySet) {
    match line.word(0) {
        "present" => calls::set_present(line, set),
        "decoupled" | "signer" | "parent" => calls::set_flag(line, set),
        "visible" | "ds-visible" | "rrsig-visible" => calls::set_stamp(line, set),
        "stale" | "delete" => calls::leave(line, set),
        _ => line.lose(),
    }
}
