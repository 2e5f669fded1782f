//! Octets as data of a type that is not known.

use super::data::ordered;
use names::{ComposeRecordData, ParseAnyRecordData, Parser, RecordData, Rtype, UnknownRecordData};
use test_lines::Line;

/// What is printed of octets as data of a type (RFC 3597, 5).
pub fn unknown(line: &mut Line<'_>) {
    let (rtype, octets) = (Rtype::from_int(line.u16_at(1)), line.octets(2));
    match UnknownRecordData::from_octets(rtype, octets.as_slice()) {
        Ok(data) => of_data(line, &data, rtype, &octets),
        Err(_) => line.lose(),
    }
}

fn of_data(line: &mut Line<'_>, data: &UnknownRecordData<&[u8]>, rtype: Rtype, octets: &[u8]) {
    let mut parser = Parser::from_ref(octets);
    match UnknownRecordData::parse_any_rdata(rtype, &mut parser) {
        Ok(read) => line.check(read == *data),
        Err(_) => line.lose(),
    }
    line.check(parser.remaining() == 0);
    line.check(data.rtype() == rtype);
    line.check(*data.data() == octets);
    line.check(data.rdlen(true).map(usize::from) == Some(octets.len()));
    line.value(data);
}

/// How octets as data of a type stand to others of a type.
pub fn order(line: &mut Line<'_>) {
    let (rtype, octets) = (Rtype::from_int(line.u16_at(1)), line.octets(2));
    let (other_rtype, others) = (Rtype::from_int(line.u16_at(3)), line.octets(4));
    let data = UnknownRecordData::from_octets(rtype, octets);
    match (data, UnknownRecordData::from_octets(other_rtype, others)) {
        (Ok(data), Ok(other)) => ordered(line, &data, &other),
        _ => line.lose(),
    }
}

/// Whether a number of octets are data, and read as data; or why not; and where the parser stands
/// then.
pub fn zeros(line: &mut Line<'_>) {
    let mut octets = Vec::new(line.alloc());
    let count = line.usize_at(1);
    line.must(octets.resize(count, 0u8));
    match UnknownRecordData::from_octets(Rtype::A, octets.as_slice()) {
        Ok(_) => line.say("data"),
        Err(error) => line.say(error.as_str()),
    }
    let mut parser = Parser::from_ref(&octets);
    match UnknownRecordData::parse_any_rdata(Rtype::A, &mut parser) {
        Ok(_) => line.say("read"),
        Err(error) => line.value(&error),
    }
    line.value(&parser.pos());
}
