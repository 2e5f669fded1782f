//! Answers lines about names, records, DNSSEC data and denial chains, so that the output is
//! compared with the standards, other name servers and tools.
//!
//! A line begins with what is asked for. A line `section NAME` says which lines follow: `names` are
//! told in the crate `test_names`, `records` and `chains` in `test_records`, `data` below. The
//! answer to each line stands behind it, for chains on lines of its own. Lines that begin with `#`
//! and empty ones are printed as they are.
//!
//! All octets are in hexadecimal, numbers in decimal, and `-` is none of them:
//!
//! - `tag KEY`: the key tag of DNSKEY data; `flags KEY`: whether it is a zone key, a secure entry
//!   point, revoked.
//! - `digest OWNER KEY`: the SHA-256 digest of a DS record for a key at an owner in wire octets.
//! - `bitmap TYPES`: the bitmap of types, joined by commas, and the types that it gives; `each
//!   NUMBER`: that of its multiples; `room TYPES`: which of them a bitmap of five octets at most
//!   takes, and the bitmap, twice.
//! - `types OCTETS`: of a bitmap how many octets it has, whether it has none, and its types as
//!   text; `has OCTETS TYPES`: which it has; `lengths OCTETS`: how many octets from the front on
//!   are one; `bitmaps OCTETS OCTETS`: how one stands to another.
//! - `data TYPE OCTETS`: record data, read and written again; and how many octets from the front
//!   on, a zero counted behind the last, are data of the type too, as ranges joined by commas.
//! - `text TYPE OCTETS`, `canonical TYPE OCTETS`: the data as text, and in canonical form; `fault
//!   TYPE OCTETS`: why they are refused, and where; `order TYPE OCTETS OCTETS`: how data stand to
//!   others, plainly and in canonical order, and of equal ones whether they have one hash; `end
//!   TYPE OCTETS`: the key, digest or salt, taken out.
//! - `longest TYPE COUNT`: how many octets data have with so many octets, or windows of a bitmap,
//!   at their end; and where that is not tested.
//! - `fields RRSIG`: the fields of a signature, as spelled and canonical; `same-fields RRSIG
//!   RRSIG`; `signature RRSIG OCTETS`: the fields with these octets as the signature, and then with
//!   the one that was there.
//! - `renamed NSEC NAME`, `rehashed NSEC3 HASH`: links with another next name or hash; `nsec-at
//!   OCTETS PLACE`: those at a place of a message; `nsec3 ALGORITHM FLAGS ITERATIONS SALT HASH
//!   TYPES`: NSEC3 data of their fields; `opted NSEC3PARAM`: flags.
//! - `near SECONDS REFERENCE`, `time OCTETS`, `time-text TEXT`, `times SECONDS SECONDS`: times of
//!   signatures.
//! - `salt TEXT`, `salt-octets OCTETS`, `salts OCTETS OCTETS`; `owner-hash TEXT`, `hash-octets
//!   OCTETS`, `hashes OCTETS OCTETS`: salts and hashes, read, printed and compared; `rooms OCTETS
//!   OCTETS`: both of each written to four octets at most; `base32hex TEXT`: octets of digits.
//! - `hash NAME ITERATIONS SALT`: the hash of a name in wire octets, in base32hex.
//! - `signed RRSIG OWNER DATA`: the octets that a signature is made over, of an RRset of data
//!   joined by commas.
//! - `faults KIND`: texts of faults.
#![tactic(auto)]

mod bitmaps;
mod data;
mod faults;
mod fields;
mod keys;
mod links;
mod longest;
mod ranges;
mod signatures;
mod typed;

use std::alloc::Global;
use std::io;
use test_lines::{Form, Line};
use test_records::{chain_lines, record_lines};

/// Which lines follow.
#[derive(Clone, Copy)]
enum Section {
    Names,
    Records,
    Data,
    Chains,
}

/// What the lines so far made.
#[derive(Drop)]
struct State {
    section: Section,
    zone: chain_lines::Zone,
}

impl State {
    fn new(alloc: Global) -> State {
        State {
            section: Section::Names,
            zone: chain_lines::Zone::new(alloc),
        }
    }

    /// Begins a section.
    fn begin(&mut self, line: &mut Line<'_>) {
        match line.word(1) {
            "names" => self.section = Section::Names,
            "records" => self.section = Section::Records,
            "data" => self.section = Section::Data,
            "chains" => self.section = Section::Chains,
            _ => line.lose(),
        }
    }

    fn answer(&mut self, line: &mut Line<'_>) {
        if line.is_section() {
            self.begin(line);
            return;
        }
        match self.section {
            Section::Names => test_names::answer(line),
            Section::Records => record_lines::answer(line),
            Section::Data => data::answer(line),
            Section::Chains => chain_lines::answer(line, &mut self.zone),
        }
    }

    fn form(&self) -> Form {
        match self.section {
            Section::Chains => Form::Lines,
            _ => Form::Aside,
        }
    }
}

fn main(rt: HostRuntime) -> io::Result<()> {
    let alloc = rt.alloc();
    let mut state = State::new(alloc);
    for text in rt.lines(alloc) {
        let text = text?;
        let mut line = Line::new(alloc, &text);
        if !line.is_comment() {
            state.answer(&mut line);
        }
        let (before, said, behind) = line.printed(state.form());
        print!(rt; "{text}{before}{said}{behind}")?;
    }
    Ok(())
}
