//! The links of chains, as lines.

use super::options::Options;
use super::zone::{Rr, Zone};
use denial::{Nsec, RecordsIter, RtypeBitmap, generate_nsecs, is_canonical_order, is_one_class};
use denial_sorted::laws::zone_data_order_is_total;
use names::{ParsedName, ToName};
use plain::record::Record;
use std::fmt::Display;
use test_lines::Line;

/// The NSEC chain of a zone.
pub fn nsec(line: &mut Line<'_>, zone: &Zone) {
    let options = Options::read(line, 2);
    match (zone.apex(), zone.sorted(line)) {
        (Some(apex), Some(records)) => of_records(line, &apex, records.as_slice(), &options),
        _ => line.lose(),
    }
}

fn of_records<'a>(
    line: &mut Line<'_>,
    apex: &ParsedName<'a>,
    records: &[Rr<'a>],
    options: &Options,
) {
    zone_data_order_is_total::<&[u8], ParsedName<'_>>();
    if !is_one_class(records) || !is_canonical_order(records) {
        line.lose();
        return;
    }
    let records = RecordsIter::new_from_owned(records);
    match generate_nsecs(line.alloc(), apex, records, options.of_names()) {
        Ok(chain) => {
            for rr in &chain {
                tell(line, rr);
            }
        }
        Err(error) => refused(line, &error),
    }
}

/// Says why there is no chain.
pub fn refused<E: Display>(line: &mut Line<'_>, error: &E) {
    let text = line.text_of(error);
    line.mark("no chain: ");
    line.mark(&text);
    line.mark("\n");
}

fn tell<'a>(line: &mut Line<'_>, rr: &Record<&ParsedName<'a>, Nsec<Vec<u8>, &ParsedName<'a>>>) {
    if line.word(0) == "records" {
        tell_record(line, rr);
        return;
    }
    let mut link = link_of(line, rr.owner());
    say_name(&mut link, rr.data().next_name());
    say_types(&mut link, rr.data().types());
    end(line, link);
}

/// A link whose owner is said.
pub fn link_of<'l, N: ToName>(line: &Line<'l>, owner: &N) -> Line<'l> {
    let mut link = line.aside(" ");
    link.say("link");
    say_name(&mut link, owner);
    link
}

/// Adds a line to the answer.
pub fn end<'l>(line: &mut Line<'l>, added: Line<'l>) {
    line.check(!added.is_lost());
    line.mark(added.answer());
    line.mark("\n");
}

/// A record as text: owner, TTL, class and data.
pub fn tell_record<N: Display, D: Display>(line: &mut Line<'_>, rr: &Record<N, D>) {
    let mut record = line.aside(" ");
    record.say("record");
    record.value(rr.owner());
    record.value(&rr.ttl().as_secs());
    record.value(&rr.class().to_int());
    record.value(rr.data());
    end(line, record);
}

/// A name in wire form and lower case, as hexadecimal digits.
fn say_name<N: ToName>(line: &mut Line<'_>, name: &N) {
    match name.to_canonical_name(line.alloc()) {
        Ok(name) => line.hex(name.as_slice()),
        Err(_) => line.lose(),
    }
}

/// Types in decimal, between commas; of none `-`.
pub fn say_types(line: &mut Line<'_>, types: &RtypeBitmap<Vec<u8>>) {
    let mut numbers = line.aside(",");
    for rtype in types.iter() {
        numbers.value(&rtype.to_int());
    }
    numbers.say_if_empty("-");
    line.append(numbers);
}
