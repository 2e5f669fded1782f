//! Records put in order, added and taken out.

use super::groups::group_len;
use super::rows::{Rr, record_of, show};
use denial_sorted::laws::{added_records_are_the_first, unknown_data_order_is_total};
use denial_sorted::sorted::{InsertError, SortedRecords};
use denial_sorted::sorter::DefaultSorter;
use names::{Name, Rtype, UnknownRecordData};
use plain::Class;
use test_lines::Line;

type Owner = Name<Vec<u8>>;

type Data = UnknownRecordData<Vec<u8>>;

pub type Sorted = SortedRecords<Owner, Data, DefaultSorter>;

/// The records of a text, one blank apart.
fn records_of(line: &mut Line<'_>, text: &str) -> Vec<Rr> {
    let mut records = Vec::new(line.alloc());
    for word in text.split(' ') {
        if let Some(rr) = record_of(line, word) {
            line.must(records.push(rr));
        }
    }
    records
}

/// The records of a text in order.
fn sorted_of(line: &mut Line<'_>, text: &str) -> Sorted {
    unknown_data_order_is_total::<Vec<u8>>();
    match Sorted::from_vec(records_of(line, text)) {
        Ok(sorted) => sorted,
        Err(_) => {
            line.lose();
            Sorted::new(line.alloc())
        }
    }
}

/// The records from a word of the line on, in order.
pub fn sorted_at(line: &mut Line<'_>, place: usize) -> Sorted {
    let text = line.rest(place);
    sorted_of(line, text)
}

/// Says records as they stand in a line.
fn show_all(line: &mut Line<'_>, records: &[Rr]) {
    let mut held = line.aside(" ");
    for rr in records {
        show(&mut held, rr);
    }
    held.say_if_empty("none");
    line.append(held);
}

fn check_held(line: &mut Line<'_>, records: &[Rr]) {
    let mut again = line.aside(" ");
    show_all(&mut again, records);
    line.check_same(again);
}

/// Records in order, of equal ones the first, put in at once from a vector and an iterator, and one
/// by one.
pub fn sort(line: &mut Line<'_>) {
    unknown_data_order_is_total::<Vec<u8>>();
    let (alloc, text) = (line.alloc(), line.rest(1));
    let sorted = sorted_of(line, text);
    show_all(line, sorted.as_slice());
    match Sorted::from_iter(alloc, records_of(line, text)) {
        Ok(again) => check_held(line, &again.into_inner()),
        Err(_) => line.lose(),
    }
    let mut single = Sorted::new(line.alloc());
    line.check(single.is_empty());
    for rr in records_of(line, text) {
        match single.insert(rr) {
            Ok(()) | Err(InsertError::Present(_)) => {}
            Err(InsertError::Memory(_)) => line.lose(),
        }
    }
    check_held(line, single.as_slice());
    line.check(single.len() > 0);
}

/// The records of the line up to a plus, and the text behind it.
fn records_and_more<'l>(line: &mut Line<'l>) -> (Sorted, &'l str) {
    // A law of what is added.
    added_records_are_the_first::<Owner, Data>();
    let (first, more) = line.rest(1).split_once(" + ").unwrap_or(("", ""));
    (sorted_of(line, first), more)
}

/// Adds records to others in order.
pub fn extend(line: &mut Line<'_>) {
    let (mut sorted, more) = records_and_more(line);
    let more = records_of(line, more);
    line.must(sorted.extend(more));
    show_all(line, sorted.as_slice());
}

/// Puts a record in its place; or says why it was not put in, and the record that is handed back.
pub fn insert(line: &mut Line<'_>) {
    let (mut sorted, more) = records_and_more(line);
    if let Some(rr) = record_of(line, more) {
        match sorted.insert(rr) {
            Ok(()) => {}
            Err(refused) => not_put_in(line, refused),
        }
    }
    show_all(line, sorted.as_slice());
}

fn not_put_in(line: &mut Line<'_>, refused: InsertError<Owner, Data>) {
    match refused {
        InsertError::Present(back) => present(line, back),
        InsertError::Memory(_back) => line.lose(),
    }
}

fn present(line: &mut Line<'_>, back: Rr) {
    let mut told = line.aside(" ");
    show(&mut told, &back);
    line.value(&InsertError::Present(back));
    line.append(told);
    line.say("|");
}

/// A number that may be `*`, for any.
fn asked(line: &mut Line<'_>, place: usize) -> Option<u16> {
    if line.word(place) == "*" {
        None
    } else {
        Some(line.u16_at(place))
    }
}

/// Whether there was a record of an owner, class and type, and what is left when it, or all of
/// them, are taken out; and how many records the owner then has in class 1.
pub fn remove(line: &mut Line<'_>) {
    let octets = line.octets(1);
    match Name::from_octets(octets) {
        Ok(owner) => remove_of(line, &owner),
        Err(_) => line.lose(),
    }
}

fn remove_of(line: &mut Line<'_>, owner: &Owner) {
    let class = asked(line, 2).map(Class::from_int);
    let rtype = asked(line, 3).map(Rtype::from_int);
    let mut sorted = sorted_at(line, 4);
    line.yes(match line.word(0) {
        "remove-all" => sorted.remove_all_by_name_class_rtype(owner, class, rtype),
        _ => sorted.remove_first_by_name_class_rtype(owner, class, rtype),
    });
    show_all(line, sorted.as_slice());
    line.say("|");
    line.value(&group_len(&sorted, 1, owner));
}
