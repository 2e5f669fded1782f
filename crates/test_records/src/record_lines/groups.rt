//! Groups of sorted records, by owner and by type.

use super::rows::show;
use super::sorted::{Sorted, sorted_at};
use denial_rrsets::groups::{MultipleTtlValues, Rrset};
use denial_rrsets::slices::SliceRefsOrOwned;
use denial_rrsets::walks::RecordsIter;
use names::{Name, Rtype, UnknownRecordData};
use plain::Class;
use test_lines::Line;

type Owner = Name<Vec<u8>>;

type Data = UnknownRecordData<Vec<u8>>;

type Set<'a> = Result<Rrset<'a, Owner, Data>, MultipleTtlValues>;

/// How many records an owner has in a class.
pub fn group_len(sorted: &Sorted, class: u16, owner: &Owner) -> usize {
    match sorted.find_owner(Class::from_int(class), owner) {
        Some(group) => group.records().count(),
        None => 0,
    }
}

/// The owners of records in groups, with the class and how many records each has.
pub fn owners(line: &mut Line<'_>) {
    let sorted = sorted_at(line, 1);
    let mut refs = Vec::new(line.alloc());
    for rr in sorted.iter() {
        line.must(refs.push(rr));
    }
    let owned = sorted.as_slice();
    walk(line, sorted.owner_rrs());
    check_walk(line, RecordsIter::new_from_refs(&refs));
    check_walk(
        line,
        RecordsIter::new(SliceRefsOrOwned::new_from_owned(owned)),
    );
    check_walk(line, RecordsIter::new_from_owned(owned));
}

fn check_walk(line: &mut Line<'_>, owners: RecordsIter<'_, Owner, Data>) {
    let mut again = line.aside(" ");
    walk(&mut again, owners);
    line.check_same(again);
}

fn walk(line: &mut Line<'_>, owners: RecordsIter<'_, Owner, Data>) {
    for group in owners {
        let mut told = line.aside(",");
        told.hex(group.owner().as_slice());
        told.value(&group.class().to_int());
        told.value(&group.records().count());
        line.append(told);
    }
}

/// The RRsets of records, by two walks.
pub fn sets(line: &mut Line<'_>) {
    let sorted = sorted_at(line, 1);
    for set in sorted.rrsets() {
        tell(line, set);
    }
    let mut again = line.aside(" ");
    for group in sorted.owner_rrs() {
        for set in group.rrsets() {
            tell(&mut again, set);
        }
    }
    line.check_same(again);
}

/// An RRset: owner, class, type, TTL, how many records it has, and the first of them; or why it is
/// none.
fn tell(line: &mut Line<'_>, set: Set<'_>) {
    let mut told = line.aside(",");
    match set {
        Ok(set) => tell_set(&mut told, set),
        Err(error) => {
            let text = told.text_of(&error);
            told.say("(");
            told.mark(&text);
            told.mark(")");
        }
    }
    line.append(told);
}

fn tell_set(told: &mut Line<'_>, set: Rrset<'_, Owner, Data>) {
    let (len, mut first) = (set.len(), told.aside(","));
    told.hex(set.owner().as_slice());
    told.value(&set.class().to_int());
    told.value(&set.rtype().to_int());
    told.value(&set.ttl());
    told.value(&len);
    told.mark("=");
    show(&mut first, set.first());
    told.mark(first.answer());
    told.check(!first.is_lost());
    told.check(set.iter().count() == len);
    told.check(set.into_inner().iter().count() == len);
}

/// The RRset that was found, if there is one.
fn found(line: &mut Line<'_>, found: Result<Option<Rrset<'_, Owner, Data>>, MultipleTtlValues>) {
    match found {
        Ok(Some(set)) => tell(line, Ok(set)),
        Ok(None) => line.say("none"),
        Err(error) => tell(line, Err(error)),
    }
}

/// The first RRset of SOA records.
pub fn find_soa(line: &mut Line<'_>) {
    let sorted = sorted_at(line, 1);
    found(line, sorted.find_soa());
}

/// The RRset of an owner and a type.
pub fn find(line: &mut Line<'_>) {
    let octets = line.octets(1);
    let (rtype, sorted) = (Rtype::from_int(line.u16_at(2)), sorted_at(line, 3));
    match Name::from_octets(octets) {
        Ok(name) => found(line, sorted.find_apex_rtype(&name, rtype)),
        Err(_) => line.lose(),
    }
}

/// How many records an owner has in a class.
pub fn group(line: &mut Line<'_>) {
    let octets = line.octets(1);
    let (class, sorted) = (line.u16_at(2), sorted_at(line, 3));
    match Name::from_octets(octets) {
        Ok(name) => line.value(&group_len(&sorted, class, &name)),
        Err(_) => line.lose(),
    }
}

/// The first record; and from the apex on each owner, whether it is in the zone and whether it
/// delegates.
pub fn zone(line: &mut Line<'_>) {
    let octets = line.octets(1);
    let sorted = sorted_at(line, 2);
    match Name::from_octets(octets) {
        Ok(apex) => of_zone(line, &apex, &sorted),
        Err(_) => line.lose(),
    }
}

fn of_zone(line: &mut Line<'_>, apex: &Owner, sorted: &Sorted) {
    let mut owners = sorted.owner_rrs();
    match owners.first() {
        Some(rr) => show(line, rr),
        None => line.lose(),
    }
    owners.skip_before(apex);
    for group in owners {
        let mut told = line.aside(",");
        told.hex(group.owner().as_slice());
        told.say(match (group.is_in_zone(apex), group.is_zone_cut(apex)) {
            (true, false) => "inside",
            (true, true) => "cut",
            (false, _) => "outside",
        });
        line.append(told);
    }
}

/// Whether each record alone is an RRset.
pub fn singles(line: &mut Line<'_>) {
    let sorted = sorted_at(line, 1);
    for rr in sorted.iter() {
        let (owned, refs) = (std::slice::from_ref(rr), [rr]);
        let (mut single, mut again) = (line.aside(" "), line.aside(" "));
        tell(&mut single, Rrset::new_from_owned(owned));
        tell(&mut again, Rrset::new_from_refs(&refs));
        single.check_same(again);
        line.append(single);
    }
}
