//! The canonical order of the data of a zone's records (RFC 4034, 6.3): the order of their octets
//! in canonical form, which are not written out for it.

ghost use Rattle.std.specs.Prelude.{◌≡◌};
ghost use Rattle.std.specs.Ordering.{nat_cmp};
ghost use Rattle.std.specs.Cmp.Lexicographic.{slice_cmp};
ghost use Rattle.definitions.specs.Name.{low, wire};
ghost use Rattle.plain.specs.Strips.{Strips};
ghost use Rattle.plain.specs.Soa.{soa_canonical};
ghost use Rattle.plain.specs.Ns.{ns_canonical};
ghost use Rattle.plain.specs.ZoneData.{zone_canonical};

use crate::ns::Ns;
use crate::soa::Soa;
use crate::zone_data::ZoneRecordData;
use names_labels::order::lowercase_composed_cmp;
use names_labels::traits::{Absolute, Labels, ToLabelIter};
use names_rdata::canonical::CanonicalOrd;
use names_wire::octets::Octets;
use names_wire::owned::OwnedLabel;
use std::cmp::Ordering;

/// The octets behind a name in canonical form, where the octets begin with that name. Otherwise the
/// order of the name and the octets, whatever stands behind the name.
fn strip_canonical_name<'a, N: Absolute>(name: &N, octets: &'a [u8]) -> Result<&'a [u8], Ordering>
    ensures { Strips (wire (low (N.name name.now))) octets.now (λ rest. rest.now) result }
{
    let (mut rest, mut labels) = (octets, name.iter_labels());
    while let Some(label) = labels.next() {
        let mut label = OwnedLabel::from_label(label);
        label.make_canonical();
        let Some(behind) = rest.strip_prefix(label.as_wire_slice()) else {
            return Err(label.as_wire_slice().cmp(rest));
        };
        rest = behind;
    }
    Ok(rest)
}

fn soa_with_octets<N: Absolute>(soa: &Soa<N>, octets: &[u8]) -> Ordering
    ensures { result ≡ slice_cmp nat_cmp (soa_canonical N.name soa.now) octets.now }
{
    let rest = match strip_canonical_name(soa.mname(), octets) {
        Ok(rest) => rest,
        Err(order) => return order,
    };
    match strip_canonical_name(soa.rname(), rest) {
        Ok(rest) => soa.numbers().as_slice().cmp(rest),
        Err(order) => order,
    }
}

fn ns_with_octets<N: Absolute>(ns: &Ns<N>, octets: &[u8]) -> Ordering
    ensures { result ≡ slice_cmp nat_cmp (ns_canonical N.name ns.now) octets.now }
{
    match strip_canonical_name(ns.nsdname(), octets) {
        Ok(rest) => [].as_slice().cmp(rest),
        Err(order) => order,
    }
}

fn soa_with_ns<N: Absolute>(soa: &Soa<N>, ns: &Ns<N>) -> Ordering
    ensures { let name = N.name in
        result ≡ slice_cmp nat_cmp (soa_canonical name soa.now) (ns_canonical name ns.now) }
{
    let _counts = (soa.mname().label_count(), ns.nsdname().label_count());
    lowercase_composed_cmp(soa.mname(), ns.nsdname()).then(Ordering::Greater)
}

/// The order of the octets in canonical form.
impl<Octs: Octets, N: Absolute> CanonicalOrd for ZoneRecordData<Octs, N> {
    ghost canonical = { λ a b.
        slice_cmp nat_cmp (zone_canonical N.name a) (zone_canonical N.name b) };

    fn canonical_cmp(&self, other: &Self) -> Ordering {
        match (self, other) {
            (ZoneRecordData::Soa(a), ZoneRecordData::Soa(b)) => a.canonical_cmp(b),
            (ZoneRecordData::Ns(a), ZoneRecordData::Ns(b)) => a.canonical_cmp(b),
            (ZoneRecordData::Unknown(a), ZoneRecordData::Unknown(b)) => a.canonical_cmp(b),
            (ZoneRecordData::Soa(a), ZoneRecordData::Ns(b)) => soa_with_ns(a, b),
            (ZoneRecordData::Ns(a), ZoneRecordData::Soa(b)) => soa_with_ns(b, a).reverse(),
            (ZoneRecordData::Soa(a), ZoneRecordData::Unknown(b)) => soa_with_octets(
                a,
                b.as_slice(),
            ),
            (ZoneRecordData::Unknown(a), ZoneRecordData::Soa(b)) => {
                soa_with_octets(b, a.as_slice()).reverse()
            }
            (ZoneRecordData::Ns(a), ZoneRecordData::Unknown(b)) => ns_with_octets(a, b.as_slice()),
            (ZoneRecordData::Unknown(a), ZoneRecordData::Ns(b)) => {
                ns_with_octets(b, a.as_slice()).reverse()
            }
        }
    }
}
