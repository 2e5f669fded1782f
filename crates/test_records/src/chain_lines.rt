//! What is asked of zones and their denial chains.
//!
//! A zone is a line `zone APEX` and lines `rr OWNER TTL TYPE DATA`: names and data as hexadecimal
//! digits of their wire form, no data as `-`, numbers in decimal. Behind a line that asks for
//! something are printed its lines, or why there are none:
//!
//! - `chain nsec`: the NSEC chain of the zone so far, `chain nsec3 ITERATIONS SALT`: the NSEC3
//!   chain of SHA-1 hashes; a line `link OWNER NEXT TYPES` for each record, names in lower case, of
//!   no types `-`. `records nsec` and `records nsec3 ITERATIONS SALT`: the same, each record as
//!   text, and the NSEC3PARAM record last.
//! - `owners all`, `owners without-unsigned`: the TTLs of the SOA record and of a chain, and the
//!   owners that have records, with their types; `conditions`: whether the records stand in the
//!   order that a chain needs.
//! - `owner NAME ALGORITHM ITERATIONS SALT`: the owner of the NSEC3 record of a name.
//! - `excludes`, `ways`: what a configuration says of unsigned delegations, and each way to deny
//!   gaps of keys to come.
//! - `faults`: the texts of faults.
//!
//! Words behind these are options: `without-keys` (no DNSKEY records are to come), `opt-out`,
//! `covering-all` (also unsigned delegations have records), `ttl=soa`, `ttl=minimum`, `ttl=SECONDS`
//! (of the NSEC3PARAM record), and `hashes=OCTETS,NAME` (each name has this hash, but this one's
//! fails). What stands behind `by` is passed over.

mod chains;
mod hashed;
mod hasher;
mod options;
mod owners;
mod texts;
mod zone;

use test_lines::Line;
pub use zone::Zone;

/// Answers a line of a zone, each answer on lines of its own.
pub fn answer(line: &mut Line<'_>, zone: &mut Zone) {
    match line.word(0) {
        "zone" => zone.begin(line),
        "rr" => zone.put(line),
        "chain" | "records" => of_chain(line, zone),
        "owners" => owners::owners(line, zone),
        "conditions" => owners::conditions(line, zone),
        "owner" => hashed::owner(line, zone),
        "excludes" => texts::excludes(line),
        "ways" => texts::ways(line),
        "faults" => texts::faults(line),
        _ => line.lose(),
    }
}

fn of_chain(line: &mut Line<'_>, zone: &Zone) {
    match line.word(1) {
        "nsec" => chains::nsec(line, zone),
        "nsec3" => hashed::nsec3(line, zone),
        _ => line.mark("no chain of this kind\n"),
    }
}
