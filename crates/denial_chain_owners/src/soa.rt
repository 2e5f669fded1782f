//! The SOA record of a zone (RFC 2308, 3).

ghost use Rattle.std.specs.Prelude.{◌≡◌, filter};
ghost use Rattle.std.specs.List.{flat_map};
ghost use Rattle.denial_rrsets.specs.Groups.{is_at};
ghost use Rattle.plain.specs.ZoneData.{zone_type};
ghost use Rattle.denial_chain_owners.specs.Soa.{and_ttls, chain_ttl, seen_from, soa_ttls, ttls_of};

use denial_rrsets::groups::OwnerRrs;
use denial_rrsets::slices::SliceRefsOrOwnedIterator;
use names_rdata::rtype::Rtype;
use names_traits::to_name::ToName;
use names_wire::octets::Octets;
use plain::Ttl;
use plain::record::Record;
use plain::zone_data::ZoneRecordData;

/// The TTL of the SOA record, and the minimum of its data.
#[derive(Clone, Copy, Debug, PartialEq, Eq)]
pub struct SoaTtls {
    pub ttl: Ttl,
    pub minimum: Ttl,
}

impl SoaTtls {
    /// The TTL of a chain's records: the lesser of the SOA record's TTL and its minimum (RFC 9077,
    /// 3).
    pub fn chain_ttl(&self) -> Ttl
        ensures { result ≡ chain_ttl self.now }
    {
        self.ttl.min(self.minimum)
    }
}

/// What is known of the SOA records at the apex, one after another.
#[derive(Clone, Copy)]
enum Seen {
    Nothing,
    One(SoaTtls),
    /// More than one SOA record, or one whose fields aren't known.
    Unfit,
}

impl Seen {
    /// What is known after one more SOA record.
    fn and(self, ttls: Option<SoaTtls>) -> Seen
        ensures { result ≡ and_ttls self ttls }
    {
        match (self, ttls) {
            (Seen::Nothing, Some(ttls)) => Seen::One(ttls),
            _ => Seen::Unfit,
        }
    }
}

fn ttls_of<Octs: Octets, N>(rr: &Record<N, ZoneRecordData<Octs, N>>) -> Option<SoaTtls>
    ensures { result ≡ ttls_of rr.now }
{
    match rr.data() {
        ZoneRecordData::Soa(soa) => Some(SoaTtls {
            ttl: rr.ttl(),
            minimum: soa.minimum(),
        }),
        _ => None,
    }
}

/// What is known after records of one owner.
fn seen_among<Octs: Octets, N: ToName>(
    seen: Seen,
    apex: &N,
    records: SliceRefsOrOwnedIterator<Record<N, ZoneRecordData<Octs, N>>>,
) -> Seen
    ensures { let found = is_at N.name zone_type (N.name apex.now) 6 in
        result ≡ seen_from seen (filter found records.entry) }
{
    let (mut seen, mut records) = (seen, records);
    while let Some(rr) = records.next() {
        if rr.rtype() == Rtype::SOA && rr.owner().name_eq(apex) {
            seen = seen.and(ttls_of(rr));
        }
    }
    seen
}

/// The TTLs of the one SOA record at the apex among records by owner, if exactly one stands there
/// and its fields are known.
pub(crate) fn soa_ttls<'a, Octs: Octets, N: ToName>(
    apex: &N,
    owners: &[OwnerRrs<'a, N, ZoneRecordData<Octs, N>>],
) -> Option<SoaTtls>
    ensures { result ≡ soa_ttls N.name (N.name apex.now) (flat_map (λ g. g) owners.now) }
{
    let mut seen = Seen::Nothing;
    for owner in owners {
        seen = seen_among(seen, apex, owner.records());
    }
    match seen {
        Seen::One(ttls) => Some(ttls),
        _ => None,
    }
}
