//! Words of a line.

use answer::Name;
use test_lines::Line;

/// The most octets that are printed each; of more, only how many they are.
const MOST_PRINTED: usize = 1000;

/// The name of the text at a place (RFC 1035, 5.1).
pub fn name_at(line: &mut Line<'_>, place: usize) -> Option<Name<Vec<u8>>> {
    match Name::vec_from_str(line.alloc(), line.word(place)) {
        Ok(name) => Some(name),
        Err(_) => {
            line.lose();
            None
        }
    }
}

/// What the word at a place says once, and how often: `TEXT*COUNT`, or a text that stands once.
fn repeated<'l>(line: &mut Line<'l>, place: usize) -> (&'l str, u64) {
    match line.word(place).split_once('*') {
        Some((text, count)) => (text, line.read_number(count)),
        None => (line.word(place), 1),
    }
}

/// The text at a place, `p*3` for `ppp`.
pub fn text_at(line: &mut Line<'_>, place: usize) -> String {
    let (part, count) = repeated(line, place);
    let mut text = String::new(line.alloc());
    for _ in 0..count {
        line.must(text.push_str(part));
    }
    text
}

/// The octets of the digits at a place, `07*3` for `070707`; `-` is no octet.
pub fn octets_at(line: &mut Line<'_>, place: usize) -> Vec<u8> {
    let (digits, count) = repeated(line, place);
    let part = line.read_octets(digits);
    let mut octets = Vec::new(line.alloc());
    for _ in 0..count {
        line.must(octets.extend_from_slice(&part));
    }
    octets
}

/// Says the hexadecimal digits of octets; of none `-`, of many how many they are.
pub fn say_octets(line: &mut Line<'_>, octets: &[u8]) {
    if octets.len() > MOST_PRINTED {
        line.value(&octets.len());
        line.say("octets");
    } else {
        line.hex(octets);
    }
}
