//! Work on names in a message: it stands on the first line in hexadecimal, and a place of it on
//! each other one.

use arrayvec::ArrayVec;
use names_parsed::parsed::ParsedName;
use names_parser::parser::Parser;
use names_rdata::composer::compose_name;
use std::alloc::Global;
use std::io;

/// How many labels the names at the places have.
fn read(message: &[u8], places: &[usize]) -> u64 {
    let mut count = 0u64;
    for &place in places {
        let mut parser = Parser::from_ref(message);
        if parser.seek(place).is_ok() {
            if let Ok(name) = ParsedName::parse(&mut parser) {
                count = count.wrapping_add(name.label_count() as u64);
            }
        }
    }
    count
}

/// The sum of the places behind the names.
fn skip(message: &[u8], places: &[usize]) -> u64 {
    let mut count = 0u64;
    for &place in places {
        let mut parser = Parser::from_ref(message);
        if parser.seek(place).is_ok() && ParsedName::skip(&mut parser).is_ok() {
            count = count.wrapping_add(parser.pos() as u64);
        }
    }
    count
}

/// How many octets the names have, each walked from label to label.
fn walk(message: &[u8], places: &[usize]) -> u64 {
    let mut count = 0u64;
    for &place in places {
        let mut parser = Parser::from_ref(message);
        if parser.seek(place).is_ok() {
            if let Ok(name) = ParsedName::parse(&mut parser) {
                let mut labels = name.iter();
                while let Some(label) = labels.next() {
                    count = count.wrapping_add(label.len() as u64 + 1);
                }
            }
        }
    }
    count
}

/// How many octets the names have, each written in full.
fn compose(message: &[u8], places: &[usize]) -> u64 {
    let mut count = 0u64;
    for &place in places {
        let mut parser = Parser::from_ref(message);
        if parser.seek(place).is_ok() {
            if let Ok(name) = ParsedName::parse(&mut parser) {
                let mut target = ArrayVec::<u8, 255>::new();
                if compose_name(&name, &mut target).is_ok() {
                    count = count.wrapping_add(target.len() as u64);
                }
            }
        }
    }
    count
}

/// How many names come before that at the next place in canonical order.
fn order(message: &[u8], places: &[usize]) -> u64 {
    let mut count = 0u64;
    for pair in places.windows(2) {
        let mut left = Parser::from_ref(message);
        let mut right = Parser::from_ref(message);
        if left.seek(pair[0]).is_ok() && right.seek(pair[1]).is_ok() {
            if let (Ok(a), Ok(b)) = (ParsedName::parse(&mut left), ParsedName::parse(&mut right)) {
                if a < b {
                    count = count.wrapping_add(1);
                }
            }
        }
    }
    count
}

/// How many names are equal to that at the next place.
fn equal(message: &[u8], places: &[usize]) -> u64 {
    let mut count = 0u64;
    for pair in places.windows(2) {
        let mut left = Parser::from_ref(message);
        let mut right = Parser::from_ref(message);
        if left.seek(pair[0]).is_ok() && right.seek(pair[1]).is_ok() {
            if let (Ok(a), Ok(b)) = (ParsedName::parse(&mut left), ParsedName::parse(&mut right)) {
                if a == b {
                    count = count.wrapping_add(1);
                }
            }
        }
    }
    count
}

/// What the task counts, done as often as asked.
pub(crate) fn counted(alloc: Global, task: &str, rounds: u64, lines: &[String]) -> io::Result<u64> {
    let (mut message, mut places) = (Vec::new(alloc), Vec::new(alloc));
    for line in lines {
        if message.is_empty() {
            message = hex::decode(alloc, line.as_str()).unwrap_or(Vec::new(alloc));
        } else {
            places.push(line.parse().unwrap_or(0))?;
        }
    }
    let mut count = 0u64;
    for _ in 0..rounds {
        let more = match task {
            "read" => read(&message, &places),
            "skip" => skip(&message, &places),
            "walk" => walk(&message, &places),
            "compose" => compose(&message, &places),
            "order" => order(&message, &places),
            _ => equal(&message, &places),
        };
        count = count.wrapping_add(more);
    }
    Ok(count)
}
