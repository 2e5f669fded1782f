//! Bitmaps of types.

use crate::typed::compared;
use arrayvec::ArrayVec;
use denial_data::{RtypeBitmap, RtypeBitmapBuilder};
use names::Rtype;
use test_lines::Line;

/// The bitmap of types and the types that it gives, where it is the same built from the last type
/// on, with each type twice, and is read as a bitmap that has these types, and of their neighbours
/// those that are among them.
pub fn bitmap(line: &mut Line<'_>) {
    let mut types = line.numbers(1);
    let mut builder = RtypeBitmapBuilder::new_vec(line.alloc());
    add(line, &mut builder, &types);
    let bitmap = builder.finalize();
    types.reverse();
    let mut builder = RtypeBitmap::builder(line.alloc());
    add(line, &mut builder, &types);
    add(line, &mut builder, &types);
    line.check(builder.finalize() == bitmap);
    check_types(line, bitmap.as_slice(), &types);
    line.hex(bitmap.as_slice());
    let mut given = line.aside(",");
    for rtype in bitmap.iter() {
        given.value(&rtype.to_int());
    }
    given.say_if_empty("-");
    line.append(given);
}

fn add(line: &mut Line<'_>, builder: &mut RtypeBitmapBuilder<Vec<u8>>, types: &[u16]) {
    for rtype in types {
        line.must(builder.add(Rtype::from_int(*rtype)));
    }
}

/// Says which types fit in a bitmap that never has more than five octets, and the bitmap.
pub fn in_five_octets(line: &mut Line<'_>) {
    let types = line.numbers(1);
    let mut builder = RtypeBitmapBuilder::with_builder(ArrayVec::<u8, 5>::new());
    for rtype in &types {
        line.yes(builder.add(Rtype::from_int(*rtype)).is_ok());
    }
    let bitmap = builder.finalize();
    line.hex(bitmap.as_slice());
    line.check(bitmap.as_octets().len() == bitmap.as_slice().len());
    line.hex(bitmap.into_octets().as_slice());
}

/// Leaves no answer unless octets are a bitmap that has types, and of their neighbours those that
/// are among them.
fn check_types(line: &mut Line<'_>, octets: &[u8], types: &[u16]) {
    match RtypeBitmap::from_octets(octets) {
        Ok(bitmap) => {
            for rtype in types {
                let next = rtype.wrapping_add(1);
                line.check(bitmap.contains(Rtype::from_int(*rtype)));
                line.check(bitmap.contains(Rtype::from_int(next)) == types.contains(&next));
            }
        }
        Err(_) => line.lose(),
    }
}

/// The bitmap of the types that are multiples of a number.
pub fn each(line: &mut Line<'_>) {
    let step = line.u16_at(1);
    let mut builder = RtypeBitmap::builder(line.alloc());
    let mut rtype = Some(0u16);
    for _ in 0..=u16::MAX {
        if let Some(number) = rtype {
            line.must(builder.add(Rtype::from_int(number)));
            rtype = number.checked_add(step);
        }
    }
    line.hex(builder.finalize().as_slice());
}

/// Whether a bitmap has types.
pub fn has(line: &mut Line<'_>) {
    let (octets, types) = (line.octets(1), line.numbers(2));
    let mut found = line.aside(",");
    match RtypeBitmap::from_octets(octets.as_slice()) {
        Ok(bitmap) => {
            for rtype in &types {
                found.yes(bitmap.contains(Rtype::from_int(*rtype)));
            }
        }
        Err(_) => found.lose(),
    }
    line.append(found);
}

/// The types of a bitmap as text, how many octets it has, whether data may hold them and whether
/// they are none.
pub fn types(line: &mut Line<'_>) {
    let octets = line.octets(1);
    match RtypeBitmap::from_octets(octets.as_slice()) {
        Ok(bitmap) => told(line, &bitmap),
        Err(error) => line.refused(&error),
    }
}

fn told(line: &mut Line<'_>, bitmap: &RtypeBitmap<&[u8]>) {
    if !bitmap.fits_rdlen() {
        line.lose();
        return;
    }
    line.value(&bitmap.compose_len());
    line.mark(", none");
    line.yes(bitmap.is_empty());
    line.mark(":");
    line.value(bitmap);
}

/// How many octets from the front on are a bitmap: numbers, joined by commas.
pub fn lengths(line: &mut Line<'_>) {
    let octets = line.octets(1);
    let mut lengths = line.aside(",");
    for len in 0..=octets.len() {
        let (part, _) = octets.split_at(len);
        if RtypeBitmap::from_octets(part).is_ok() {
            lengths.value(&len);
        }
    }
    line.append(lengths);
}

/// How a bitmap stands to another.
pub fn compare(line: &mut Line<'_>) {
    let (first, second) = (line.octets(1), line.octets(2));
    let bitmap = RtypeBitmap::from_octets(first.as_slice());
    match (bitmap, RtypeBitmap::from_octets(second.as_slice())) {
        (Ok(bitmap), Ok(other)) => compared(line, &bitmap, &other),
        _ => line.lose(),
    }
}
