//! Messages and their records.

use crate::words::{name_at, say_name};
use messages::names::Name;
use messages::write::{push_header, push_question, push_record, push_u16, push_u32};
use messages::{MessageView, ViewRecord, read_message};
use messages_canonical::laws::{canonical_reads_back, data_stay_in_form, names_are_read_so};
use messages_canonical::{canonical_cow, canonical_message, is_canonical_data, is_data_in_form};
use names::Rtype;
use plain::{Class, Ttl};
use std::borrow::CowSlice;
use test_lines::Line;

/// What a message asks, and its records.
pub fn message(line: &mut Line<'_>) {
    let octets = line.octets(1);
    match read_message(&octets) {
        Ok(view) => contents(line, &octets, &view),
        Err(error) => line.refused(&error),
    }
}

/// A message in canonical form: its octets, and what they read as.
pub fn canonical(line: &mut Line<'_>) {
    let octets = line.octets(1);
    match canonical_message(line.alloc(), &octets) {
        Ok(octets) => {
            line.hex(&octets);
            line.mark(":");
            match read_message(&octets) {
                Ok(view) => contents(line, &octets, &view),
                Err(_) => line.lose(),
            }
        }
        Err(error) => line.refused(&error),
    }
}

/// A message as whoever verifies signatures is to see it: its octets, unless they are those that
/// were received.
pub fn form(line: &mut Line<'_>) {
    canonical_reads_back();
    data_stay_in_form();
    names_are_read_so();
    let octets = line.octets(1);
    match canonical_cow(line.alloc(), &octets) {
        Ok(CowSlice::Borrowed(_)) => line.say("as received"),
        Ok(CowSlice::Owned(written)) => line.hex(&written),
        Err(error) => line.refused(&error),
    }
}

/// Whether data by themselves are canonical, and whether every signer signs them alike.
pub fn data_form(line: &mut Line<'_>) {
    let (rtype, octets) = (Rtype::from_int(line.u16_at(1)), line.octets(2));
    let is_canonical = is_canonical_data(line.alloc(), rtype, &octets);
    match (is_canonical, is_data_in_form(line.alloc(), rtype, &octets)) {
        (Ok(true), Ok(true)) => line.say("canonical"),
        (Ok(false), Ok(true)) => line.say("in form"),
        (Ok(true), Ok(false)) => line.say("canonical, not in form"),
        (Ok(false), Ok(false)) => line.say("neither"),
        _ => line.lose(),
    }
}

fn contents(line: &mut Line<'_>, octets: &[u8], view: &MessageView<'_>) {
    let asked = view.question();
    say_name(line, &asked.name);
    line.value(&asked.rtype.to_int());
    line.value(&asked.class.to_int());
    line.mark(",");
    line.value(&view.record_count());
    line.say("records");
    for record in view.records() {
        line.mark(";");
        one_record(line, octets, &record);
    }
}

fn one_record(line: &mut Line<'_>, message: &[u8], record: &ViewRecord<'_>) {
    say_name(line, record.owner.name());
    line.value(&record.rtype.to_int());
    line.value(&record.class.to_int());
    line.value(&record.ttl.as_secs());
    line.hex(record.octets(message));
    line.say("at");
    line.value(&record.start);
}

/// The canonical data of the first record of a message; and what they say, of a link and a
/// signature.
pub fn data(line: &mut Line<'_>) {
    let octets = line.octets(1);
    match read_message(&octets) {
        Ok(view) => match view.records().next() {
            Some(record) => data_of(line, &octets, &record),
            None => line.lose(),
        },
        Err(_) => line.lose(),
    }
}

fn data_of(line: &mut Line<'_>, octets: &[u8], record: &ViewRecord<'_>) {
    match record.canonical_cow(line.alloc(), octets) {
        Ok(Some(canonical)) => line.hex(canonical.as_slice()),
        _ => line.lose(),
    }
    match record.rtype.to_int() {
        46 => match record.signature(octets) {
            Some(signature) => {
                line.mark(";");
                line.value(&signature);
            }
            None => line.lose(),
        },
        47 => match record.link(octets) {
            Some(link) => {
                line.mark(";");
                line.value(&link);
            }
            None => line.lose(),
        },
        _ => {}
    }
}

/// A message that asks for the type and class of one record and has it.
pub fn written(line: &mut Line<'_>) {
    match (name_at(line, 1), name_at(line, 4)) {
        (Some(name), Some(owner)) => write(line, &name, &owner),
        _ => line.lose(),
    }
}

fn write(line: &mut Line<'_>, name: &Name<Vec<u8>>, owner: &Name<Vec<u8>>) {
    let (rtype, class) = (
        Rtype::from_int(line.u16_at(2)),
        Class::from_int(line.u16_at(3)),
    );
    let (ttl, octets) = (Ttl::from_secs(line.u32_at(5)), line.octets(6));
    let mut out = Vec::new(line.alloc());
    line.must(push_header(&mut out, 0x8400, 1, 0));
    line.must(push_question(&mut out, name, rtype, class));
    if octets.len() <= 65_535 {
        line.must(push_record(&mut out, owner, rtype, class, ttl, &octets));
    } else {
        line.lose();
    }
    line.hex(&out);
}

/// Two numbers as they are written.
pub fn numbers(line: &mut Line<'_>) {
    let (first, second) = (line.u16_at(1), line.u32_at(2));
    let mut out = Vec::new(line.alloc());
    line.must(push_u16(&mut out, first));
    line.must(push_u32(&mut out, second));
    line.hex(&out);
}
