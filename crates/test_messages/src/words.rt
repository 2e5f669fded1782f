//! Names and lists as they stand in a line.

use messages::names::{Name, ToName, ZoneName, copy_name};
use test_lines::Line;

/// Strings of octets, joined by commas.
pub fn list_at(line: &mut Line<'_>, place: usize) -> Vec<Vec<u8>> {
    let mut list = Vec::new(line.alloc());
    for octets in line.word(place).split(',') {
        let octets = line.read_octets(octets);
        line.must(list.push(octets));
    }
    list
}

/// The name of the text at a place (RFC 1035, 5.1).
pub fn name_at(line: &mut Line<'_>, place: usize) -> Option<Name<Vec<u8>>> {
    match Name::vec_from_str(line.alloc(), line.word(place)) {
        Ok(name) => Some(name),
        Err(_) => {
            line.lose();
            None
        }
    }
}

/// Says the wire form of a name, as spelled.
pub fn say_name<N: ToName>(line: &mut Line<'_>, name: &N) {
    let mut spelled = Vec::new(line.alloc());
    match copy_name(line.alloc(), name) {
        Ok(flat) => line.must(flat.compose(&mut spelled)),
        Err(_) => line.lose(),
    }
    line.hex(&spelled);
}
