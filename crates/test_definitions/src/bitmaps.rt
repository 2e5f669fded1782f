//! Bitmaps of types.

use definitions::reference::bitmap::{bitmap, bitmap_has, is_bitmap};
use test_lines::Line;

/// The types below this are looked for.
const TYPES: u16 = 2000;

/// The bitmap of types, joined by commas.
pub fn bitmap_of(line: &mut Line<'_>) {
    let types = line.numbers(1);
    match bitmap(line.alloc(), &types) {
        Ok(octets) => line.hex(&octets),
        Err(_) => line.lose(),
    }
}

/// The types below 2000 that octets have as a bitmap.
pub fn types_of(line: &mut Line<'_>) {
    let octets = line.octets(1);
    if !is_bitmap(&octets) {
        line.say("no bitmap");
        return;
    }
    let mut types = line.aside(",");
    for rtype in 0..TYPES {
        if bitmap_has(&octets, rtype) {
            types.value(&rtype);
        }
    }
    types.say_if_empty("-");
    line.append(types);
}
