//! Records, `OWNER,CLASS,TTL,TYPE,DATA` in a line.

use super::data::{Data, ordered};
use names::{Name, Parser, Rtype, UnknownRecordData};
use plain::record::Record;
use plain::zone_data::ZoneRecordData;
use plain::{Class, Ttl};
use test_lines::Line;

/// A record that owns its octets.
pub type Rr = Record<Name<Vec<u8>>, UnknownRecordData<Vec<u8>>>;

/// A record over the octets of a line.
pub type ZoneRr<'a> = Record<Name<&'a [u8]>, Data<'a>>;

/// The fields of a record.
#[derive(Drop)]
pub struct Fields {
    owner: Vec<u8>,
    class: Class,
    ttl: Ttl,
    rtype: Rtype,
    content: Vec<u8>,
}

/// The word of a list at a place; an empty one behind the last.
fn field(text: &str, place: usize) -> &str {
    let mut count = 0usize;
    for word in text.split(',') {
        if count == place {
            return word;
        }
        count = count.saturating_add(1);
    }
    ""
}

impl Fields {
    /// Those of the word at a place.
    pub fn at(line: &mut Line<'_>, place: usize) -> Fields {
        let text = line.word(place);
        Fields::read(line, text)
    }

    fn read(line: &mut Line<'_>, text: &str) -> Fields {
        Fields {
            owner: line.read_octets(field(text, 0)),
            class: Class::from_int(line.read_u16(field(text, 1))),
            ttl: Ttl::from_secs(line.read_u32(field(text, 2))),
            rtype: Rtype::from_int(line.read_u16(field(text, 3))),
            content: line.read_octets(field(text, 4)),
        }
    }

    pub fn zone_record(&self) -> Option<ZoneRr<'_>> {
        let content = ZoneRecordData::parse(self.rtype, &mut Parser::from_ref(&self.content));
        match (Name::from_slice(self.owner.as_slice()), content) {
            (Ok(owner), Ok(content)) => Some(Record::new(owner, self.class, self.ttl, content)),
            _ => None,
        }
    }
}

/// The record of a text.
pub fn record_of(line: &mut Line<'_>, text: &str) -> Option<Rr> {
    let Fields {
        owner,
        class,
        ttl,
        rtype,
        content,
    } = Fields::read(line, text);
    match (
        Name::from_octets(owner),
        UnknownRecordData::from_octets(rtype, content),
    ) {
        (Ok(owner), Ok(content)) => Some(Record::new(owner, class, ttl, content)),
        _ => {
            line.lose();
            None
        }
    }
}

/// Says a record as it stands in a line.
pub fn show(line: &mut Line<'_>, rr: &Rr) {
    let mut fields = line.aside(",");
    fields.hex(rr.owner().as_slice());
    fields.value(&rr.class().to_int());
    fields.value(&rr.ttl());
    fields.value(&rr.rtype().to_int());
    fields.hex(rr.data().as_slice());
    line.append(fields);
}

/// A record as it is written, and in canonical form.
pub fn record(line: &mut Line<'_>) {
    let fields = Fields::at(line, 1);
    match fields.zone_record() {
        Some(rr) => written(line, &rr),
        None => line.lose(),
    }
}

fn written(line: &mut Line<'_>, rr: &ZoneRr<'_>) {
    let (mut written, mut canonical) = (Vec::new(line.alloc()), Vec::new(line.alloc()));
    line.must(rr.compose(&mut written));
    line.must(rr.compose_canonical(&mut canonical));
    line.hex(&written);
    line.hex(&canonical);
}

/// The canonical order of two records, and the order of their values.
pub fn order(line: &mut Line<'_>) {
    let (fields, others) = (Fields::at(line, 1), Fields::at(line, 2));
    match (fields.zone_record(), others.zone_record()) {
        (Some(rr), Some(other)) => ordered(line, &rr, &other),
        _ => line.lose(),
    }
}
