//! Records as they are handed in, and what makes one of them no record of a zone that is published.
ghost use Rattle.std.specs.Prelude.{◌≡◌, ◌==◌, not, ◌&&◌, [], ◌∷◌};
ghost use Rattle.definitions.specs.Name.{at_or_above};
ghost use Rattle.messages.specs.HandedRr.{among, handed_of, is_meta, is_unknown};
ghost use Rattle.messages.specs.Star.{begins_with_star};
ghost use Rattle.plain.specs.ZoneData.{zone_type};

use messages::names::{Name, ZoneName, is_at_or_above};
use messages::record::{ZoneData, ZoneRecord};
use names_rdata::rtype::Rtype;
use plain::Class;
use plain::zone_data::ZoneRecordData;

/// Whether the class is another than IN (RFC 1035, 3.2.4).
pub fn is_of_other_class(rr: &ZoneRecord) -> bool
    ensures { result ≡ not (rr.now.class == 1) }
{
    rr.class() != Class::IN
}

/// Whether the owner is not at or below an apex.
pub fn is_outside(rr: &ZoneRecord, apex: &Name<Vec<u8>>) -> bool
    ensures { result ≡ not (at_or_above apex.now rr.now.owner) }
{
    !is_at_or_above(apex, rr.owner())
}

/// Whether signing adds records of this type (RFC 4034; RFC 5155).
pub fn is_added_by_signing(rr: &ZoneRecord) -> bool
    ensures { result ≡ among (46 ∷ 47 ∷ 48 ∷ 50 ∷ 51 ∷ []) (zone_type rr.now.content) }
{
    matches!(
        rr.rtype(),
        Rtype::RRSIG | Rtype::NSEC | Rtype::DNSKEY | Rtype::NSEC3 | Rtype::NSEC3PARAM
    )
}

/// Whether the record is a CNAME or a DNAME.
pub fn is_alias(rr: &ZoneRecord) -> bool
    ensures { result ≡ among (5 ∷ 39 ∷ []) (zone_type rr.now.content) }
{
    rr.rtype() == Rtype::CNAME || rr.rtype() == Rtype::DNAME
}

/// Whether no zone holds the type (RFC 6895, 3.1), or data of an NS or SOA record are given as
/// unknown ones.
pub fn is_meta(rr: &ZoneRecord) -> bool
    ensures { result ≡ is_meta (handed_of rr.now) }
{
    let number = rr.rtype().to_int();
    let is_known = rr.rtype() == Rtype::NS || rr.rtype() == Rtype::SOA;
    number == 0
        || rr.rtype() == Rtype::OPT
        || (128 <= number && number <= 255)
        || (is_unknown(rr.data()) && is_known)
}

/// Whether data are of an unknown type.
fn is_unknown(rdata: &ZoneData) -> bool
    ensures { result ≡ is_unknown rdata.now }
{
    matches!(rdata, ZoneRecordData::Unknown(_))
}

/// Whether this is a name server of a wildcard name (RFC 4592, 4.2).
pub fn delegates_star(rr: &ZoneRecord) -> bool
    ensures { result ≡ ((zone_type rr.now.content == 2) && begins_with_star rr.now.owner) }
{
    rr.rtype() == Rtype::NS && rr.owner().is_wildcard()
}
