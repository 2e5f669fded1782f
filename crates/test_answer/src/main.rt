//! Answers lines about messages, zones, keys, answers and judgements, so that the output is
//! compared with the standards, the tables of rolls and results worked out by hand.
//!
//! A line begins with what is asked for. A line `section NAME` says which lines follow: those of
//! `messages` are told in the crate `test_messages`, of `keys` in `test_keyset`, of `answers` below. Each line is printed,
//! and the answer behind it. Lines that begin with `#` and empty ones are printed alone.
//!
//! Names are texts, octets hexadecimal digits (`07*3` for `070707`, `-` for none), lists are joined
//! by commas, moments are seconds. A signature is a copy of the octets that it is made over, and a
//! digest of type 2 the octet 7. The scheme `well` signs, digests, and hashes no name. `no-digest`
//! and `no-signature` fail at that too, `one-hash` hashes each name to the octet 7, and with
//! `keyed` the octets of a signature's key stand before the copy.
//!
//! - `zone NAME`: begins a zone; `soa OWNER SERIAL`, `rr OWNER CLASS TTL TYPE OCTETS`: its records;
//!   `addresses COUNT`: so many addresses, at owners whose first label is the four octets of their
//!   number.
//! - `publish LIFE SCHEME`: publishes the zone with a chain of names, signatures living so long;
//!   `publish-hashed LIFE SCHEME`: with one of hashes.
//! - `ksk KEY PRIVATE OCTETS`, `zsk KEY PRIVATE OCTETS`, `start ROLL OLD NEW MOMENT`, `report1 ROLL
//!   TTL MOMENT`, `wait1 ROLL MOMENT`, `report2 ROLL TTL MOMENT`, `wait2 ROLL MOMENT`, `done ROLL`:
//!   calls on its keys; `owed ROLL`: the actions of its last step; `key KEY`: whether a key is
//!   there; `apex`: whose keys they are.
//! - `include KEY OCTETS AVAILABLE`, `set-present KEY VALUE MOMENT`, `set-decoupled KEY VALUE`,
//!   `set-signer KEY VALUE`, `set-at-parent KEY VALUE`, `set-visible KEY MOMENT`, `set-ds-visible
//!   KEY MOMENT`, `set-rrsig-visible KEY MOMENT`, `set-stale KEY`, `delete KEY`: further calls,
//!   values `yes` or `no`; `bound KEY`: what a key is bound to.
//! - `ds`, `dnskey MOMENT`, `answer NAME TYPE MOMENT`: what is handed out; both answers are held,
//!   and are judged.
//! - `keys OCTETS`, `message OCTETS`: holds these messages in their place.
//! - `judge APEX DS NAME TYPE MOMENT`: what is said of the messages that are held, beside a list of
//!   DS records, each a tag and a type of digest, as `1054:2`; `judge-by SCHEME APEX DS NAME TYPE
//!   MOMENT`: by another scheme than `well`; `judge-any-moments APEX DS NAME TYPE MOMENT`: where
//!   signatures may be of unlike times; `judge-any-question APEX DS NAME TYPE MOMENT`: where the
//!   answer may be one to another question; `cuts APEX DS NAME TYPE MOMENT`: what is said of no
//!   octets in place of the DNSKEY answer, and how many of its beginnings that is said of; then the
//!   same of the zone answer.
//! - `lasts APEX DS NAME TYPE MOMENT`: how long the verdict lasts of the messages that are held,
//!   each signature passing and of any moment.
//! - `allowed APEX NAME TYPE CLASS`: whether a question is.
//! - `session LINE`, `session-octets OCTETS`: reads a session of the zone `example` and a line;
//!   `sessions COUNT LINE`: makes one with so many times the line.
//! - `faults KIND`: the texts of faults; `flags`: those of keys.
//!
//! Octets that are more than 1000 are counted.
#![tactic(auto)]

mod answers;
mod asked;
mod calls;
mod counting;
mod desk;
mod faults;
mod judged;
mod scheme;
mod sessions;
mod settings;
mod validity;
mod words;

use desk::Desk;
use std::alloc::Global;
use std::io;
use test_lines::{Form, Line};

/// Which lines follow.
#[derive(Clone, Copy)]
enum Section {
    Messages,
    Keys,
    Answers,
}

/// What the lines so far made.
#[derive(Drop)]
struct State {
    section: Section,
    accepted: test_messages::Zone,
    keys: Option<test_keyset::Zone>,
    desk: Desk,
}

impl State {
    fn new(alloc: Global) -> State {
        State {
            section: Section::Messages,
            accepted: test_messages::Zone::new(alloc),
            keys: None,
            desk: Desk::new(alloc),
        }
    }

    /// Begins a section.
    fn begin(&mut self, line: &mut Line<'_>) {
        match line.word(1) {
            "messages" => self.section = Section::Messages,
            "keys" => self.section = Section::Keys,
            "answers" => self.section = Section::Answers,
            _ => line.lose(),
        }
    }

    fn answer(&mut self, line: &mut Line<'_>) {
        if line.is_section() {
            self.begin(line);
            return;
        }
        match self.section {
            Section::Messages => test_messages::answer(line, &mut self.accepted),
            Section::Keys => test_keyset::answer(line, &mut self.keys),
            Section::Answers => answers::answer(line, &mut self.desk),
        }
    }
}

fn main(rt: HostRuntime) -> io::Result<()> {
    let alloc = rt.alloc();
    let mut state = State::new(alloc);
    for text in rt.lines(alloc) {
        let text = text?;
        let mut line = Line::new(alloc, &text);
        if !line.is_comment() {
            state.answer(&mut line);
        }
        let (before, said, behind) = line.printed(Form::Below);
        print!(rt; "{text}{before}{said}{behind}")?;
    }
    Ok(())
}
