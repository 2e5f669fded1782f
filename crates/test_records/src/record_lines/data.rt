//! Record data of zones: SOA and NS data, and any other as its octets.

use names::{
    CanonicalOrd, ComposeRecordData, Composer, ParseAnyRecordData, ParseError, ParseRecordData,
    ParsedName, Parser, RecordData, Rtype, ToName,
};
use plain::ns::Ns;
use plain::soa::Soa;
use plain::zone_data::ZoneRecordData;
use test_lines::Line;

pub type Data<'a> = ZoneRecordData<&'a [u8], ParsedName<'a>>;

/// Data of a type that stand in a message from a place on, to its end.
#[derive(Drop)]
struct Place {
    rtype: Rtype,
    message: Vec<u8>,
    place: usize,
}

impl Place {
    /// A type, a message and a place of it, from a word on.
    fn read(line: &mut Line<'_>, word: usize) -> Place {
        let rtype = Rtype::from_int(line.u16_at(word));
        let message = line.octets(word.saturating_add(1));
        let place = line.usize_at(word.saturating_add(2));
        line.check(place <= message.len());
        Place {
            rtype,
            message,
            place,
        }
    }

    /// A parser of a number of octets from the place on; of none where these are not there.
    fn parser(&self, len: usize) -> Parser<'_> {
        let mut parser = Parser::from_ref(&self.message);
        let is_there = parser.seek(self.place).is_ok();
        match parser.parse_parser(len) {
            Ok(parser) if is_there => parser,
            _ => Parser::from_ref(b""),
        }
    }

    fn len(&self) -> usize {
        self.message.len().saturating_sub(self.place)
    }

    /// The data of all octets from the place on, where two functions agree.
    fn data(&self, line: &mut Line<'_>) -> Result<Data<'_>, ParseError> {
        let (mut parser, mut again) = (self.parser(self.len()), self.parser(self.len()));
        let begin = parser.pos();
        let read = ZoneRecordData::parse(self.rtype, &mut parser);
        let same = ZoneRecordData::parse_any_rdata(self.rtype, &mut again);
        let is_at_end = parser.remaining() == 0;
        line.check(if read.is_ok() {
            is_at_end
        } else {
            parser.pos() == begin
        });
        line.check(again.pos() == parser.pos() && same.is_ok() == read.is_ok());
        read
    }

    /// How many beginnings of the octets are data of the type; the parser of each other has to stay
    /// where it is.
    fn read_beginnings(&self, line: &mut Line<'_>) -> usize {
        let mut count = 0usize;
        for len in 0..=self.len() {
            let mut parser = self.parser(len);
            let begin = parser.pos();
            if ZoneRecordData::parse(self.rtype, &mut parser).is_ok() {
                count = count.saturating_add(1);
            } else {
                line.check(parser.pos() == begin);
            }
        }
        count
    }
}

/// How long data are, and whether names in them may be shortened; the data written in full and in
/// canonical form; how many beginnings of the octets are data too. Or the fault.
pub fn data(line: &mut Line<'_>) {
    let place = Place::read(line, 1);
    match place.data(line) {
        Ok(data) => of_data(line, &place, &data),
        Err(error) => line.value(&error),
    }
}

fn of_data(line: &mut Line<'_>, place: &Place, data: &Data<'_>) {
    line.check(data.rtype() == place.rtype);
    let (full, short) = (data.rdlen(false), data.rdlen(true));
    match full {
        Some(len) => line.value(&len),
        None => line.lose(),
    }
    line.say(if short == full { "fixed" } else { "shorter" });
    written(line, data);
    canonical(line, data);
    let count = place.read_beginnings(line);
    line.value(&count);
}

/// The data as they are written, alone and behind their length.
fn written<D: ComposeRecordData>(line: &mut Line<'_>, data: &D) {
    let (mut alone, mut behind) = (Vec::new(line.alloc()), Vec::new(line.alloc()));
    line.must(data.compose_rdata(&mut alone));
    line.must((&data).compose_len_rdata(&mut &mut behind));
    line.check(is_behind_len(&behind, &alone));
    line.check(!behind.can_compress());
    line.hex(&alone);
}

/// The data as they are written in canonical form, alone and behind their length.
fn canonical<D: ComposeRecordData>(line: &mut Line<'_>, data: &D) {
    let (mut alone, mut behind) = (Vec::new(line.alloc()), Vec::new(line.alloc()));
    line.must(data.compose_canonical_rdata(&mut alone));
    line.must(data.compose_canonical_len_rdata(&mut behind));
    line.check(is_behind_len(&behind, &alone));
    line.hex(&alone);
}

/// Whether octets are others behind their length, in two octets.
fn is_behind_len(behind: &[u8], alone: &[u8]) -> bool {
    match u16::try_from(alone.len()) {
        Ok(len) => behind.strip_prefix(&len.to_be_bytes()) == Some(alone),
        Err(_) => false,
    }
}

/// Leaves no answer unless octets are no data of the type that is asked for, and their parser stays
/// where it was.
fn check_none<'a, D: ParseRecordData<'a> + Drop>(
    line: &mut Line<'_>,
    rtype: Rtype,
    parser: &mut Parser<'a>,
) {
    let begin = parser.pos();
    let found = D::parse_rdata(rtype, parser);
    line.check(matches!(found, Ok(None)));
    line.check(parser.pos() == begin);
}

/// The data that are read where their type is asked for.
fn found<'a, D: ParseRecordData<'a> + Drop>(rtype: Rtype, parser: &mut Parser<'a>) -> Option<D> {
    match D::parse_rdata(rtype, parser) {
        Ok(found) => found,
        Err(_) => None,
    }
}

/// The fields of SOA data, which are none of NS data.
pub fn soa(line: &mut Line<'_>) {
    let place = Place::read(line, 1);
    let (mut parser, mut again) = (place.parser(place.len()), place.parser(place.len()));
    check_none::<Soa<ParsedName<'_>>>(line, Rtype::NS, &mut parser);
    let asked = found::<Soa<ParsedName<'_>>>(Rtype::SOA, &mut again);
    match (asked, Soa::parse(&mut parser)) {
        (Some(asked), Ok(soa)) => {
            line.check(asked == soa);
            soa_fields(line, &soa);
        }
        _ => line.lose(),
    }
    line.check(parser.remaining() == 0);
}

fn soa_fields(line: &mut Line<'_>, soa: &Soa<ParsedName<'_>>) {
    line.value(soa.mname());
    line.value(soa.rname());
    line.value(&soa.serial());
    line.value(&soa.refresh());
    line.value(&soa.retry());
    line.value(&soa.expire());
    line.value(&soa.minimum());
}

/// The name of NS data, which are none of SOA data.
pub fn ns(line: &mut Line<'_>) {
    let place = Place::read(line, 1);
    let (mut parser, mut again) = (place.parser(place.len()), place.parser(place.len()));
    check_none::<Ns<ParsedName<'_>>>(line, Rtype::SOA, &mut parser);
    let asked = found::<Ns<ParsedName<'_>>>(Rtype::NS, &mut again);
    match (asked, Ns::parse(&mut parser)) {
        (Some(asked), Ok(ns)) => {
            line.check(asked == ns);
            line.check(ns.nsdname().name_eq(ns.nsdname()));
            line.value(ns.nsdname());
        }
        _ => line.lose(),
    }
}

/// The canonical order of two data, and their own.
pub fn order(line: &mut Line<'_>) {
    let (place, others) = (Place::read(line, 1), Place::read(line, 4));
    match (place.data(line), others.data(line)) {
        (Ok(data), Ok(other)) => ordered(line, &data, &other),
        _ => line.lose(),
    }
}

/// The canonical order of two values where all its functions agree, and their own.
pub fn ordered<D: CanonicalOrd + Ord>(line: &mut Line<'_>, value: &D, other: &D) {
    let (order, own) = (value.canonical_cmp(other), value.cmp(other));
    line.check(value.canonical_lt(other) == order.is_lt());
    line.check(value.canonical_le(other) == order.is_le());
    line.check(value.canonical_gt(other) == order.is_gt());
    line.check(value.canonical_ge(other) == order.is_ge());
    line.check(other.canonical_cmp(value) == order.reverse());
    line.check((value == other) == own.is_eq());
    line.order(order);
    line.order(own);
}
