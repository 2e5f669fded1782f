//! Buffers of fixed sizes, which take a whole record or nothing.

use super::rows::{Fields, ZoneRr};
use arrayvec::ArrayVec;
use names::ComposeRecordData;
use test_lines::Line;

/// Whether a record, its canonical form and its data are written to buffers of 0 to 51 octets, and
/// how many octets stand there then.
pub fn rooms(line: &mut Line<'_>) {
    let fields = Fields::at(line, 1);
    match fields.zone_record() {
        Some(rr) => in_rooms(line, &rr),
        None => line.lose(),
    }
}

fn in_rooms(line: &mut Line<'_>, rr: &ZoneRr<'_>) {
    write(line, rr, ArrayVec::<u8, 0>::new());
    write(line, rr, ArrayVec::<u8, 12>::new());
    write(line, rr, ArrayVec::<u8, 13>::new());
    write(line, rr, ArrayVec::<u8, 37>::new());
    write(line, rr, ArrayVec::<u8, 38>::new());
    write(line, rr, ArrayVec::<u8, 50>::new());
    write(line, rr, ArrayVec::<u8, 51>::new());
}

fn write<const N: usize>(line: &mut Line<'_>, rr: &ZoneRr<'_>, room: ArrayVec<u8, N>) {
    let (mut told, mut room) = (line.aside(","), room);
    told.yes(rr.compose(&mut room).is_ok());
    told.value(&room.len());
    room.clear();
    told.yes(rr.compose_canonical(&mut room).is_ok());
    told.value(&room.len());
    room.clear();
    told.yes(rr.data().compose_rdata(&mut room).is_ok());
    told.value(&room.len());
    line.append(told);
}
