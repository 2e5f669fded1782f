//! What makes a list of records with aliases no zone that is published.
ghost use Rattle.std.specs.Prelude.{◌≡◌, ◌==◌, ◌&&◌, ◌||◌, not, map, true};
ghost use Rattle.std.specs.List.{AllByRecursion, list_any};
ghost use Rattle.std.specs.Option.{is_none};
ghost use Rattle.definitions.specs.Name.{strictly_above};
ghost use Rattle.messages.specs.HandedRr.{handed_of};
ghost use Rattle.messages.specs.NameOctets.{name_of_octets};
ghost use Rattle.answer_terms.specs.Accepting.{is_alias};
ghost use Rattle.answer_terms.specs.ModeView.{mode_of};
ghost use Rattle.answer_zone_records.specs.AliasFaults.{
  crowds,
  first_plain_fault,
  has_data,
  has_disorder,
  is_below_dname,
  is_disorderly,
  lacks_target,
  redirects_star,
  rivals,
  rivals_cname,
  rivals_dname,
};
ghost use Rattle.answer_zone_records.specs.OwnedRecords.{IsInternet, owned_by};

use crate::fault::ZoneFault;
use crate::faults::{
    any_added_by_signing, any_meta, any_of_other_class, any_outside, any_star_delegation,
    is_over_limit,
};
use crate::near::has_below;
use crate::record_faults::is_alias;
use answer_terms::mode::Mode;
use denial_rrsets::groups::OwnerRrs;
use denial_sorted::sorted::SortedRecords;
use messages::names::{Name, ToName, ZoneName, is_above};
use messages::record::{ZoneData, ZoneRecord};
use names_rdata::canonical::CanonicalOrd;
use names_rdata::rtype::Rtype;
use plain::Class;
use plain::zone_data::ZoneRecordData;

/// The first fault of a list in which aliases may stand, each sought in the whole list before the
/// next. What aliases do is no fault here: [`has_disorder`] looks at it, once the list is in order.
pub fn first_plain_fault(
    apex: &Name<Vec<u8>>,
    mode: &Mode,
    limit: u16,
    records: &[ZoneRecord],
) -> Option<ZoneFault>
    ensures { let rs = map handed_of records.now in
        result ≡ first_plain_fault apex.now (mode_of mode.now) limit rs }
{
    if any_of_other_class(records) {
        Some(ZoneFault::WrongClass)
    } else if any_outside(apex, records) {
        Some(ZoneFault::OutsideApex)
    } else if any_added_by_signing(records) {
        Some(ZoneFault::SignedType)
    } else if any_meta(records) {
        Some(ZoneFault::MetaType)
    } else if any_star_delegation(records) {
        Some(ZoneFault::StarNs)
    } else if is_over_limit(mode, limit) {
        Some(ZoneFault::IterationsOverLimit)
    } else {
        None
    }
}

/// Whether an alias among a zone's records is out of order: its data are no name, something stands
/// beside a CNAME (RFC 1034, 3.6.2), or a DNAME stands at a wildcard, at a delegation, beside
/// another DNAME or above a record (RFC 6672, 2.3, 2.4 and 3.3). What stands at an alias and below
/// it is found by binary search, and no memory is taken.
pub fn has_disorder(apex: &Name<Vec<u8>>, records: &SortedRecords<Name<Vec<u8>>, ZoneData>) -> bool
    requires { AllByRecursion IsInternet records.now }
    ensures { result ≡ has_disorder apex.now (map handed_of records.now) }
{
    records.iter().any(|rr| is_disorderly(rr, apex, records))
}

/// Whether the record is an alias that is out of order among all records.
fn is_disorderly(
    rr: &ZoneRecord,
    apex: &Name<Vec<u8>>,
    records: &SortedRecords<Name<Vec<u8>>, ZoneData>,
) -> bool
    requires { AllByRecursion IsInternet records.now }
    ensures { result ≡ is_disorderly apex.now (map handed_of records.now) (handed_of rr.now) }
{
    is_alias(rr) && (lacks_target(rr) || redirects_star(rr) || is_crowded(rr, apex, records))
}

/// Whether the data of an alias are not exactly one name in wire form (RFC 1035, 3.3.1; RFC 6672,
/// 2.1).
fn lacks_target(rr: &ZoneRecord) -> bool
    requires { is_alias (handed_of rr.now) ≡ true }
    ensures { result ≡ lacks_target (handed_of rr.now) }
{
    match rr.data() {
        ZoneRecordData::Unknown(data) => !is_name(data.as_slice()),
        ZoneRecordData::Soa(_) => true,
        ZoneRecordData::Ns(_) => true,
    }
}

/// Whether octets are exactly one name in wire form.
fn is_name(octets: &[u8]) -> bool
    ensures { result ≡ not (is_none (name_of_octets octets.now)) }
{
    Name::from_slice(octets).is_ok()
}

/// Whether this is a DNAME of a wildcard name (RFC 6672, 3.3).
fn redirects_star(rr: &ZoneRecord) -> bool
    ensures { result ≡ redirects_star (handed_of rr.now) }
{
    is_dname(rr) && rr.owner().is_wildcard()
}

/// Whether a record stands where the alias leaves no place for it: at its owner, or below a DNAME.
fn is_crowded(
    rr: &ZoneRecord,
    apex: &Name<Vec<u8>>,
    records: &SortedRecords<Name<Vec<u8>>, ZoneData>,
) -> bool
    requires { AllByRecursion IsInternet records.now }
    ensures { let rs = map handed_of records.now in
        result ≡ list_any (crowds apex.now (handed_of rr.now)) rs }
{
    has_rival(rr, apex, records) || has_below_dname(rr, records)
}

/// Whether a record of its owner is one for which the alias leaves no place.
fn has_rival(
    rr: &ZoneRecord,
    apex: &Name<Vec<u8>>,
    records: &SortedRecords<Name<Vec<u8>>, ZoneData>,
) -> bool
    requires { AllByRecursion IsInternet records.now }
    ensures { let r = handed_of rr.now in
        let owned = owned_by r.owner (map handed_of records.now) in
        result ≡ list_any (rivals apex.now r) owned }
{
    match records.find_owner(Class::IN, rr.owner()) {
        Some(owner) => is_rivalled(rr, apex, &owner),
        None => false,
    }
}

/// Whether one of an owner's records is one for which an alias there leaves no place.
fn is_rivalled(
    rr: &ZoneRecord,
    apex: &Name<Vec<u8>>,
    owner: &OwnerRrs<'_, Name<Vec<u8>>, ZoneData>,
) -> bool
    ensures { result ≡ list_any (rivals apex.now (handed_of rr.now)) (map handed_of owner.now) }
{
    let mut others = owner.records();
    while let Some(other) = others.next() {
        if rivals(rr, apex, other) {
            return true;
        }
    }
    false
}

/// Whether a record of an alias's owner is one for which the alias leaves no place.
fn rivals(rr: &ZoneRecord, apex: &Name<Vec<u8>>, other: &ZoneRecord) -> bool
    ensures { result ≡ rivals apex.now (handed_of rr.now) (handed_of other.now) }
{
    rivals_cname(rr, other) || rivals_dname(rr, apex, other)
}

/// Whether the record is a CNAME, and another one is not the same.
fn rivals_cname(rr: &ZoneRecord, other: &ZoneRecord) -> bool
    ensures { result ≡ rivals_cname (handed_of rr.now) (handed_of other.now) }
{
    rr.rtype() == Rtype::CNAME && !(other.rtype() == rr.rtype() && has_data(rr, other))
}

/// Whether the record is a DNAME, and another one is another DNAME, or delegates its owner.
fn rivals_dname(rr: &ZoneRecord, apex: &Name<Vec<u8>>, other: &ZoneRecord) -> bool
    ensures { result ≡ rivals_dname apex.now (handed_of rr.now) (handed_of other.now) }
{
    is_dname(rr)
        && ((is_dname(other) && !has_data(rr, other))
            || (other.rtype() == Rtype::NS && is_above(apex, other.owner())))
}

/// Whether two records have the same data.
fn has_data(rr: &ZoneRecord, other: &ZoneRecord) -> bool
    ensures { result ≡ has_data (handed_of rr.now) (handed_of other.now) }
{
    rr.data().canonical_cmp(other.data()).is_eq()
}

/// Whether the record is a DNAME with a record below it (RFC 6672, 2.4).
fn has_below_dname(rr: &ZoneRecord, records: &SortedRecords<Name<Vec<u8>>, ZoneData>) -> bool
    requires { AllByRecursion IsInternet records.now }
    ensures { let rs = map handed_of records.now in
        result ≡ list_any (is_below_dname (handed_of rr.now)) rs }
{
    is_dname(rr) && has_below(records.as_slice(), rr.owner())
}

fn is_dname(rr: &ZoneRecord) -> bool
    ensures { result ≡ ((handed_of rr.now).rtype == 39) }
{
    rr.rtype() == Rtype::DNAME
}
