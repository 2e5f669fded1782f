//! What is asked of record data of any type.

use crate::ranges::Ranges;
use denial_data::{Dnskey, Ds, Nsec, Nsec3, Nsec3param, Rrsig};
use names::{CanonicalOrd, ComposeRecordData, ParseRecordData, ParsedName, Parser, Rtype};
use std::fmt::Display;
use std::hash::{DefaultHasher, Hash, Hasher};
use test_lines::Line;

/// Octets as data of a type, and what is asked of them.
#[derive(Clone, Copy)]
struct Asked<'a> {
    asked: &'a str,
    rtype: Rtype,
    octets: &'a [u8],
    others: &'a [u8],
}

/// Answers a line of a type and octets, or of two times octets of the type.
pub fn typed(line: &mut Line<'_>) {
    let rtype = Rtype::from_int(line.u16_at(1));
    let is_order = line.word(0) == "order";
    let (octets, others) = (
        line.octets(2),
        line.read_octets(if is_order { line.word(3) } else { "-" }),
    );
    let asked = Asked {
        asked: line.word(0),
        rtype,
        octets: &octets,
        others: &others,
    };
    answer(line, &asked);
}

/// What is asked of octets as data of a type: how they are printed (`text`), their octets in
/// canonical form (`canonical`), these as they are written again (`data`), whether these are the
/// same (`same`), how they stand to others (`order`), and else why they are refused, and where the
/// parser stands then.
fn answer(line: &mut Line<'_>, asked: &Asked<'_>) {
    match asked.rtype {
        Rtype::DS => of_type::<Ds<&[u8]>>(line, asked),
        Rtype::RRSIG => of_type::<Rrsig<&[u8], ParsedName>>(line, asked),
        Rtype::NSEC => of_type::<Nsec<&[u8], ParsedName>>(line, asked),
        Rtype::DNSKEY => of_type::<Dnskey<&[u8]>>(line, asked),
        Rtype::NSEC3 => of_type::<Nsec3<&[u8]>>(line, asked),
        Rtype::NSEC3PARAM => of_type::<Nsec3param<&[u8]>>(line, asked),
        _ => line.lose(),
    }
}

fn of_type<
    'a,
    D: ParseRecordData<'a> + ComposeRecordData + Ord + CanonicalOrd + Hash + Display + Drop,
>(line: &mut Line<'_>, asked: &Asked<'a>) {
    let mut parser = Parser::from_ref(asked.octets);
    match D::parse_rdata(asked.rtype, &mut parser) {
        Ok(Some(found)) => of_data(line, asked, &found, parser.remaining() == 0),
        Ok(None) => line.lose(),
        Err(error) => {
            line.check(asked.asked == "fault");
            line.value(&error);
            line.say("at");
            line.value(&parser.pos());
        }
    }
}

fn of_data<
    'a,
    D: ParseRecordData<'a> + ComposeRecordData + Ord + CanonicalOrd + Hash + Display + Drop,
>(line: &mut Line<'_>, asked: &Asked<'a>, found: &D, is_read: bool) {
    match asked.asked {
        "text" => line.value(found),
        "canonical" => canonical(line, found),
        "order" => ordered(line, asked, found),
        "fault" => line.say("no fault"),
        _ => {
            line.check(is_read);
            line.check(found.rtype() == asked.rtype);
            let other = D::parse_rdata(Rtype::from_int(0), &mut Parser::from_ref(asked.octets));
            line.check(matches!(other, Ok(None)));
            written(line, asked, found);
        }
    }
}

fn ordered<'a, D: ParseRecordData<'a> + Ord + CanonicalOrd + Hash + Drop>(
    line: &mut Line<'_>,
    asked: &Asked<'a>,
    found: &D,
) {
    match D::parse_rdata(asked.rtype, &mut Parser::from_ref(asked.others)) {
        Ok(Some(other)) => compared(line, found, &other),
        _ => line.lose(),
    }
}

fn canonical<D: ComposeRecordData>(line: &mut Line<'_>, data: &D) {
    let mut canonical = Vec::new(line.alloc());
    line.must(data.compose_canonical_rdata(&mut canonical));
    line.hex(&canonical);
}

/// Data as they are written, where they say their length, and are as long in canonical form; or
/// whether they are written the same.
fn written<D: ComposeRecordData>(line: &mut Line<'_>, asked: &Asked<'_>, data: &D) {
    let (mut written, mut canonical) = (Vec::new(line.alloc()), Vec::new(line.alloc()));
    line.must(data.compose_rdata(&mut written));
    line.must(data.compose_canonical_rdata(&mut canonical));
    line.check(canonical.len() == written.len());
    line.check(data.rdlen(true) == data.rdlen(false));
    line.check(data.rdlen(false).map(usize::from) == Some(written.len()));
    if asked.asked == "same" {
        line.check(written.as_slice() == asked.octets);
        line.say("same");
    } else {
        line.hex(&written);
    }
}

/// How a value stands to another, plainly and in canonical order; and of equal ones whether they
/// have one hash.
pub fn compared<T: Ord + CanonicalOrd + Hash>(line: &mut Line<'_>, first: &T, second: &T) {
    line.order(first.cmp(second));
    line.order(first.canonical_cmp(second));
    if first == second {
        line.mark(", one hash");
        line.yes(hash_of(first) == hash_of(second));
    }
}

fn hash_of<T: Hash>(value: &T) -> u64 {
    let mut hasher = DefaultHasher::new();
    value.hash(&mut hasher);
    hasher.finish()
}

/// Data as they are written again; and how many octets from the front on, a zero octet counted
/// behind them, are data of the type too, written again the same.
pub fn data(line: &mut Line<'_>) {
    let (rtype, mut octets) = (Rtype::from_int(line.u16_at(1)), line.octets(2));
    let asked = Asked {
        asked: "data",
        rtype,
        octets: &octets,
        others: b"",
    };
    answer(line, &asked);
    line.must(octets.push(0));
    let mut ranges = Ranges::new(line);
    for len in 0..=octets.len() {
        let (part, _) = octets.split_at(len);
        let is_among = is_written_again(line, rtype, part);
        // Where memory lacks for one of two tries, they differ.
        line.check(is_written_again(line, rtype, part) == is_among);
        ranges.push(len, is_among);
    }
    line.append(ranges.ended(octets.len()));
}

/// Whether octets are data of a type, and are written again the same.
fn is_written_again(line: &Line<'_>, rtype: Rtype, octets: &[u8]) -> bool {
    let mut again = line.aside(" ");
    let asked = Asked {
        asked: "same",
        rtype,
        octets,
        others: b"",
    };
    answer(&mut again, &asked);
    !again.is_lost()
}

/// The octets of a key, a digest or a salt, taken out of their data.
pub fn end(line: &mut Line<'_>) {
    let (rtype, octets) = (Rtype::from_int(line.u16_at(1)), line.octets(2));
    let mut parser = Parser::from_ref(&octets);
    match rtype {
        Rtype::DS => match Ds::parse(&mut parser) {
            Ok(ds) => line.hex(ds.into_digest()),
            Err(_) => line.lose(),
        },
        Rtype::DNSKEY => match Dnskey::parse(&mut parser) {
            Ok(key) => {
                let key: Dnskey<&[u8]> = key.convert();
                line.hex(key.into_public_key())
            }
            Err(_) => line.lose(),
        },
        _ => match Nsec3param::parse(&mut parser) {
            Ok(params) => line.hex(params.into_salt().into_octets()),
            Err(_) => line.lose(),
        },
    }
}
