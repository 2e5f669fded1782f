//! Answers lines of small zones, names and bitmaps by the plain programs of the definitions, so that
//! these are compared with what was worked out by hand; and tries whether what the records of small
//! zones prove is what the zone says.
//!
//! A line `section definitions` or `section denial` says which lines follow. Names are labels
//! between dots, octets hexadecimal digits, numbers decimal, `-` is none of them. Of definitions:
//!
//! - `zone NAME`: begins a zone; `rr OWNER TYPE OCTETS`: a record of it; `made`: makes it.
//! - `says NAME TYPE`, `says-opt-out NAME TYPE`: the verdict of the zone, without and with opt-out;
//!   `exists NAME`.
//! - `nsec keys NAME`, `nsec none NAME`, and so `nsec3`: the types of the owner's record, where
//!   keys are assumed or not.
//! - `order NAME NAME`: how a name stands to another; `covers APEX OWNER NEXT NAME`, `hash-covers
//!   OWNER NEXT HASH`: whether a link covers what is last.
//! - `name OCTETS PLACE POINTERS`: the place behind the name at a place, read with so many pointers
//!   at most, and its labels.
//! - `bitmap TYPES`: the bitmap of types; `types OCTETS`: the types below 2000 of a bitmap.
//!
//! Of denial: a zone is a line `zone APEX` and lines `rr OWNER TYPE`, in lower case. A line `cases
//! nsec SIZE`, `nsec3` or `nsec3optout` is answered by how many sets of facts were tried, of at most
//! SIZE records of the chain and an RRset or none, how many of them proved a verdict, and how many
//! of these verdicts the zone does not say: of an alias it says none.
//!
//! Each line is printed, and the answer behind it. Lines that begin with `#` and empty ones are
//! printed alone.
#![tactic(auto)]

mod bitmaps;
mod chain;
mod hash;
mod labels;
mod names;
mod small_zone;
mod trial;
mod zone;

use small_zone::SmallZone;
use std::alloc::Global;
use std::io;
use test_lines::{Form, Line};
use zone::Zone;

/// What the lines so far made.
#[derive(Drop)]
struct State {
    is_of_denial: bool,
    zone: Zone,
    small: SmallZone,
}

impl State {
    fn new(alloc: Global) -> State {
        State {
            is_of_denial: false,
            zone: Zone::new(alloc),
            small: SmallZone::new(alloc),
        }
    }

    fn answer(&mut self, line: &mut Line<'_>) {
        if line.is_section() {
            self.is_of_denial = line.word(1) == "denial";
        } else if self.is_of_denial {
            of_denial(line, &mut self.small);
        } else {
            of_definitions(line, &mut self.zone);
        }
    }

    fn form(&self) -> Form {
        if self.is_of_denial {
            Form::Lines
        } else {
            Form::Below
        }
    }
}

fn of_definitions(line: &mut Line<'_>, zone: &mut Zone) {
    match line.word(0) {
        "bitmap" => bitmaps::bitmap_of(line),
        "types" => bitmaps::types_of(line),
        "order" => names::order(line),
        "covers" => names::covered(line),
        "hash-covers" => names::hash_covered(line),
        "name" => names::read(line),
        _ => zone.answer(line),
    }
}

fn of_denial(line: &mut Line<'_>, zone: &mut SmallZone) {
    match line.word(0) {
        "zone" => zone.begin(line),
        "rr" => zone.put(line),
        "cases" => trial::cases(line, zone),
        _ => line.lose(),
    }
}

fn main(rt: HostRuntime) -> io::Result<()> {
    let alloc = rt.alloc();
    let mut state = State::new(alloc);
    for text in rt.lines(alloc) {
        let text = text?;
        let mut line = Line::new(alloc, &text);
        if !line.is_comment() {
            state.answer(&mut line);
        }
        let (before, said, behind) = line.printed(state.form());
        print!(rt; "{text}{before}{said}{behind}")?;
    }
    Ok(())
}
