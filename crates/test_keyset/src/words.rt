//! Keys, rolls and moments as they stand in a line.

use keyset::{RollType, UnixTime};
use std::time::Duration;
use test_lines::Line;

/// The keys of the list at a place: `old*2` for `old0,old1`.
pub fn keys_at(line: &mut Line<'_>, place: usize) -> Vec<String> {
    let mut keys = Vec::new(line.alloc());
    for word in &line.list(place) {
        push_keys(line, &mut keys, word);
    }
    keys
}

fn push_keys(line: &mut Line<'_>, keys: &mut Vec<String>, word: &str) {
    match word.split_once('*') {
        None => {
            let key = line.text(word);
            line.must(keys.push(key));
        }
        Some((letters, count)) => {
            for number in 0..line.read_u16(count) {
                let key = line.text_of(&format_args!("{letters}{number}"));
                line.must(keys.push(key));
            }
        }
    }
}

/// The moment at a place, in whole seconds.
pub fn moment_at(line: &mut Line<'_>, place: usize) -> UnixTime {
    at(line.number(place))
}

/// The moment that is a number of seconds after the beginning of 1970.
pub fn at(seconds: u64) -> UnixTime {
    UnixTime::new(Duration::from_secs(seconds))
}

/// The roll whose name stands at a place.
pub fn roll_at(line: &mut Line<'_>, place: usize) -> RollType {
    let name = line.word(place);
    read_roll(line, name)
}

pub fn read_roll(line: &mut Line<'_>, name: &str) -> RollType {
    match name.parse::<RollType>() {
        Ok(roll) => roll,
        Err(_) => {
            line.lose();
            RollType::KskRoll
        }
    }
}
