//! What the records of a zone keep together, so that it is served: what is refused is told with its
//! line.

use crate::fault::EntryFault;
use messages::names::{Name, ToName, ZoneName, is_above, is_at_or_above};
use names_rdata::rtype::Rtype;
use std::alloc::{AllocError, Global};

/// A record, and the line where it begins.
#[derive(Drop)]
pub(crate) struct Noted {
    pub(crate) line: usize,
    pub(crate) owner: Name<Vec<u8>>,
    pub(crate) ttl: u32,
    pub(crate) rtype: Rtype,
    pub(crate) octets: Vec<u8>,
}

/// A fault, and the line of the record that has it.
#[derive(Clone, Copy, Drop)]
pub(crate) struct NotedFault {
    pub(crate) line: usize,
    pub(crate) fault: EntryFault,
}

/// The faults of records by themselves, of those at one name, and of those below others; of each
/// kind the first is told.
pub(crate) fn first_fault(
    alloc: Global,
    apex: &Name<Vec<u8>>,
    records: &[Noted],
) -> Result<Option<NotedFault>, AllocError> {
    if let Some(found) = fault_alone(apex, records) {
        return Ok(Some(found));
    }
    let mut sorted: Vec<&Noted> = Vec::new(alloc);
    for record in records {
        sorted.push(record)?;
    }
    sorted.sort_by(|a, b| a.owner.name_cmp(&b.owner).then(a.rtype.cmp(&b.rtype)))?;
    Ok(fault_together(apex, &sorted))
}

/// The first record that no zone of the apex has, or that there is none of its servers.
fn fault_alone(apex: &Name<Vec<u8>>, records: &[Noted]) -> Option<NotedFault> {
    let (mut soa_line, mut has_server) = (1, false);
    for record in records {
        if let Some(fault) = fault_of(apex, record) {
            let line = record.line;
            return Some(NotedFault { line, fault });
        }
        if record.rtype == Rtype::SOA {
            soa_line = record.line;
        }
        has_server |= record.rtype == Rtype::NS && record.owner.name_eq(apex);
    }
    if has_server {
        return None;
    }
    Some(NotedFault {
        line: soa_line,
        fault: EntryFault::NoServer,
    })
}

/// Why no zone of the apex has the record.
fn fault_of(apex: &Name<Vec<u8>>, record: &Noted) -> Option<EntryFault> {
    let (owner, rtype) = (&record.owner, record.rtype);
    let is_apex = owner.name_eq(apex);
    if !is_at_or_above(apex, owner) {
        Some(EntryFault::Outside)
    } else if is_added_by_signing(rtype) {
        Some(EntryFault::SignedType)
    } else if is_meta(rtype) {
        Some(EntryFault::MetaType)
    } else if rtype == Rtype::SOA && !is_apex {
        Some(EntryFault::SoaBelowApex)
    } else if rtype == Rtype::DS && is_apex {
        Some(EntryFault::DsAtApex)
    } else if (rtype == Rtype::NS || rtype == Rtype::DNAME) && owner.is_wildcard() {
        Some(EntryFault::Star)
    } else {
        None
    }
}

/// Whether records of the type come by signing.
fn is_added_by_signing(rtype: Rtype) -> bool {
    matches!(
        rtype,
        Rtype::RRSIG | Rtype::NSEC | Rtype::DNSKEY | Rtype::NSEC3 | Rtype::NSEC3PARAM
    )
}

/// Whether no zone holds records of the type.
fn is_meta(rtype: Rtype) -> bool {
    let number = rtype.to_int();
    number == 0 || rtype == Rtype::OPT || (128 <= number && number <= 255)
}

/// The first record in order that may not stand where another does.
fn fault_together(apex: &Name<Vec<u8>>, records: &[&Noted]) -> Option<NotedFault> {
    let mut cut: Option<&Noted> = None;
    let mut before: Option<&Noted> = None;
    for record in records {
        if let Some(fault) = fault_behind(before, record, cut) {
            let line = record.line;
            return Some(NotedFault { line, fault });
        }
        let is_below = cut.is_some_and(|cut| is_above(&cut.owner, &record.owner));
        if !is_below && is_cut(apex, record) {
            cut = Some(record);
        }
        before = Some(record);
    }
    None
}

/// Whether the zone ends at the record, as delegation or alias of all below.
fn is_cut(apex: &Name<Vec<u8>>, record: &Noted) -> bool {
    record.rtype == Rtype::DNAME || (record.rtype == Rtype::NS && !record.owner.name_eq(apex))
}

/// Why a record may not stand behind the one before it in order, where the last cut is.
fn fault_behind(before: Option<&Noted>, record: &Noted, cut: Option<&Noted>) -> Option<EntryFault> {
    if let Some(cut) = cut {
        let is_dname = cut.rtype == Rtype::DNAME;
        if is_dname && is_above(&cut.owner, &record.owner) {
            return Some(EntryFault::BelowDname);
        }
        if !is_dname && record.rtype == Rtype::DNAME && cut.owner.name_eq(&record.owner) {
            return Some(EntryFault::DnameAtCut);
        }
    }
    let before = before?;
    if !before.owner.name_eq(&record.owner) {
        return None;
    }
    let is_at_cut = cut.is_some_and(|cut| is_at_or_above(&cut.owner, &record.owner));
    fault_beside(before, record, is_at_cut)
}

/// Why a record may not stand beside another of its owner.
fn fault_beside(before: &Noted, record: &Noted, is_at_cut: bool) -> Option<EntryFault> {
    let is_same = before.rtype == record.rtype;
    let is_alias = before.rtype == Rtype::CNAME || record.rtype == Rtype::CNAME;
    if is_same && before.octets.as_slice() == record.octets.as_slice() {
        None
    } else if is_alias {
        Some(EntryFault::BesideCname)
    } else if is_same && record.rtype == Rtype::SOA {
        Some(EntryFault::TwoSoa)
    } else if is_same && record.rtype == Rtype::DNAME {
        Some(EntryFault::TwoDname)
    } else if is_same && before.ttl != record.ttl && !is_at_cut {
        Some(EntryFault::TwoTtls)
    } else {
        None
    }
}
