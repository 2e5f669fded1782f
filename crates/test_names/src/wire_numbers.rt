//! Numbers in wire form, and serial numbers (RFC 1982).

use names::{Compose, Parse, Parser, Serial};
use std::fmt::Display;
use std::net::{Ipv4Addr, Ipv6Addr};
use test_lines::Line;

/// Octets as numbers of 8, 16 and 32 bits, one of 16 with its sign and two octets, or the fault of
/// the first that is not read; and whether they are written as these octets.
pub fn numbers(line: &mut Line<'_>) {
    let octets = line.octets(1);
    let mut copy = Copy {
        parser: Parser::from_ref(&octets),
        written: Vec::new(line.alloc()),
        is_faulty: false,
    };
    copy.number::<u8>(line);
    copy.number::<u16>(line);
    copy.number::<u32>(line);
    copy.number::<i16>(line);
    copy.pair(line);
    copy.number::<u8>(line);
    line.yes(copy.written.as_slice() == octets.as_slice());
}

/// Numbers that are read, and written behind one another, up to the first that is not read.
#[derive(Drop)]
struct Copy<'a> {
    parser: Parser<'a>,
    written: Vec<u8>,
    is_faulty: bool,
}

impl<'a> Copy<'a> {
    fn number<N: Parse + Compose + Display + Drop>(&mut self, line: &mut Line<'_>) {
        if self.is_faulty {
            return;
        }
        match N::parse(&mut self.parser) {
            Ok(number) => {
                check_appended(line, &number, &mut self.written);
                line.value(&number);
            }
            Err(error) => {
                self.is_faulty = true;
                line.value(&error);
            }
        }
    }

    fn pair(&mut self, line: &mut Line<'_>) {
        if self.is_faulty {
            return;
        }
        match <[u8; 2]>::parse(&mut self.parser) {
            Ok(pair) => {
                check_appended(line, &pair, &mut self.written);
                line.hex(&pair);
            }
            Err(error) => {
                self.is_faulty = true;
                line.value(&error);
            }
        }
    }
}

/// Leaves no answer unless a value is appended, by its own bound.
fn check_appended<V: Compose>(line: &mut Line<'_>, value: &V, target: &mut Vec<u8>) {
    line.must(value.compose(target));
}

/// Octets as one value of a kind, and the octets that are written by a reference to it.
pub fn value(line: &mut Line<'_>) {
    match line.word(1) {
        "u64" => written_again::<u64>(line),
        "i8" => written_again::<i8>(line),
        "i32" => written_again::<i32>(line),
        "i64" => written_again::<i64>(line),
        "ipv4" => written_again::<Ipv4Addr>(line),
        "ipv6" => written_again::<Ipv6Addr>(line),
        _ => line.lose(),
    }
}

fn written_again<V: Parse + Compose + Display + Drop>(line: &mut Line<'_>) {
    let octets = line.octets(2);
    let mut written = Vec::new(line.alloc());
    match V::parse(&mut Parser::from_ref(&octets)) {
        Ok(value) => {
            check_appended(line, &&value, &mut written);
            line.value(&value);
        }
        Err(_) => line.lose(),
    }
    line.hex(&written);
}

/// Where a parser of octets stands that is to go to a place and on by so many: or the fault, and
/// where it stayed.
pub fn seek(line: &mut Line<'_>) {
    let octets = line.octets(1);
    let (place, count) = (line.usize_at(2), line.usize_at(3));
    let mut parser = Parser::from_ref(&octets);
    if let Err(error) = parser.seek(place) {
        line.value(&error);
    }
    if let Err(error) = parser.advance(count) {
        line.value(&error);
    }
    line.value(&parser.pos());
    line.value(&parser.remaining());
}

fn serial_at(line: &mut Line<'_>, place: usize) -> Serial {
    match line.word(place).parse::<Serial>() {
        Ok(serial) => serial,
        Err(_) => {
            line.lose();
            Serial(0)
        }
    }
}

/// A serial number, its order to another one, if they have one, and their canonical order.
pub fn serials(line: &mut Line<'_>) {
    let (serial, other) = (serial_at(line, 1), serial_at(line, 2));
    line.value(&serial);
    match serial.partial_cmp(&other) {
        Some(order) => line.order(order),
        None => line.say("none"),
    }
    line.order(serial.canonical_cmp(&other));
}

/// The number so much later, by less than half of all numbers.
pub fn later(line: &mut Line<'_>) {
    let (serial, count) = (serial_at(line, 1), line.u32_at(2));
    if count <= 0x7fff_ffff {
        line.value(&serial.add(count));
    } else {
        line.lose();
    }
}
