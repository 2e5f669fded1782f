//! The calls on a key set, as lines say them. None is made of a line that cannot be read.

use crate::words::{at, keys_at, moment_at};
use keyset::{Available, Error, KeySet, UnixTime};
use numbers::algorithm::SecurityAlgorithm;
use test_lines::Line;

/// Says what a call answered.
fn made(line: &mut Line<'_>, answered: Result<(), Error>) {
    match answered {
        Ok(()) => line.say("ok"),
        Err(error) => line.refused(&error),
    }
}

/// A key that is to be added.
#[derive(Drop)]
pub struct NewKey {
    reference: String,
    private: Option<String>,
    algorithm: SecurityAlgorithm,
    key_tag: u16,
    made: UnixTime,
    is_there: Available,
}

impl NewKey {
    /// A key of algorithm 13, made at 0 and available.
    pub fn plain(reference: String, key_tag: u16) -> NewKey {
        NewKey {
            reference,
            private: None,
            algorithm: SecurityAlgorithm::from_int(13),
            key_tag,
            made: at(0),
            is_there: Available::Available,
        }
    }

    /// Adds it, as a key of a kind.
    pub fn put(self, set: &mut KeySet, kind: &str) -> Result<(), Error> {
        let NewKey {
            reference,
            private,
            algorithm,
            key_tag,
            made,
            is_there,
        } = self;
        match kind {
            "ksk" => set.add_key_ksk(reference, private, algorithm, key_tag, made, is_there),
            "zsk" => set.add_key_zsk(reference, private, algorithm, key_tag, made, is_there),
            _ => set.add_key_csk(reference, private, algorithm, key_tag, made, is_there),
        }
    }
}

/// Adds a key of algorithm 13, made at 0 and available.
pub fn add(line: &mut Line<'_>, set: &mut KeySet) {
    let (kind, reference) = (line.word(0), line.text(line.word(1)));
    let tag = line.u16_at(2);
    if !line.is_lost() {
        made(line, NewKey::plain(reference, tag).put(set, kind));
    }
}

/// Adds a key of which everything is said.
pub fn add_any(line: &mut Line<'_>, set: &mut KeySet) {
    let (kind, is_there) = (line.word(1), line.is_yes(7));
    let key = NewKey {
        reference: line.text(line.word(2)),
        private: Some(line.text(line.word(3))),
        algorithm: SecurityAlgorithm::from_int(line.u8_at(4)),
        key_tag: line.u16_at(5),
        made: moment_at(line, 6),
        is_there: if is_there {
            Available::Available
        } else {
            Available::NotAvailable
        },
    };
    if !line.is_lost() {
        made(line, key.put(set, kind));
    }
}

/// Adds a key of another owner, which is available.
pub fn include(line: &mut Line<'_>, set: &mut KeySet) {
    let algorithm = SecurityAlgorithm::from_int(line.u8_at(2));
    let (reference, tag, now) = (line.text(line.word(1)), line.u16_at(3), moment_at(line, 4));
    if !line.is_lost() {
        made(
            line,
            set.add_public_key(reference, algorithm, tag, now, true),
        );
    }
}

/// Adds zone signing keys, with tags that follow one another; ends where one is refused.
pub fn add_many(line: &mut Line<'_>, set: &mut KeySet) {
    let (references, mut tag) = (keys_at(line, 1), line.u16_at(2));
    let (mut answered, is_read) = (Ok(()), !line.is_lost());
    for reference in references {
        if is_read && answered.is_ok() {
            answered = NewKey::plain(reference, tag).put(set, "zsk");
            tag = tag.wrapping_add(1);
        }
    }
    made(line, answered);
}

/// Puts a key into the DNSKEY RRset or takes it out.
pub fn set_present(line: &mut Line<'_>, set: &mut KeySet) {
    let (reference, value, now) = (line.word(1), line.is_yes(2), moment_at(line, 3));
    if !line.is_lost() {
        made(line, set.set_present(reference, value, &now));
    }
}

/// Sets a flag of a key.
pub fn set_flag(line: &mut Line<'_>, set: &mut KeySet) {
    let (reference, value) = (line.word(1), line.is_yes(2));
    if !line.is_lost() {
        let answered = match line.word(0) {
            "decoupled" => set.set_decoupled(reference, value),
            "signer" => set.set_signer(reference, value),
            _ => set.set_at_parent(reference, value),
        };
        made(line, answered);
    }
}

/// Sets a stamp of a key.
pub fn set_stamp(line: &mut Line<'_>, set: &mut KeySet) {
    let (reference, time) = (line.word(1), moment_at(line, 2));
    if !line.is_lost() {
        let answered = match line.word(0) {
            "visible" => set.set_visible(reference, time),
            "ds-visible" => set.set_ds_visible(reference, time),
            _ => set.set_rrsig_visible(reference, time),
        };
        made(line, answered);
    }
}

/// Takes a key out of use, or deletes it.
pub fn leave(line: &mut Line<'_>, set: &mut KeySet) {
    let answered = match line.word(0) {
        "stale" => set.set_stale(line.word(1)),
        _ => set.delete_key(line.word(1)),
    };
    made(line, answered);
}
