//! RRsets whose records have different TTLs (RFC 2181, 5.2).

ghost use Rattle.std.specs.Prelude.{◌≡◌};
ghost use Rattle.std.specs.List.{list_any};
ghost use Rattle.denial_chain_owners.specs.Ttls.{unlike_ttls};
ghost use Rattle.denial_rrsets.specs.Groups.{neighbours};

use denial_rrsets::groups::OwnerRrs;
use denial_rrsets::slices::SliceRefsOrOwnedIterator;
use names_rdata::data::RecordData;
use names_rdata::rtype::Rtype;
use names_traits::to_name::ToName;
use plain::record::Record;

/// Whether two records are of one type and have different TTLs, RRSIG records aside.
fn are_unlike<N, D: RecordData>(a: &Record<N, D>, b: &Record<N, D>) -> bool
    ensures { result ≡ unlike_ttls D.type_of a.now b.now }
{
    a.rtype() == b.rtype() && a.ttl() != b.ttl() && a.rtype() != Rtype::RRSIG
}

/// Whether a record and the next are of one type and have different TTLs.
fn has_unlike_neighbours<N, D: RecordData>(records: SliceRefsOrOwnedIterator<Record<N, D>>) -> bool
    ensures { result ≡ neighbours (unlike_ttls D.type_of) records.entry }
{
    let mut records = records;
    let Some(mut last) = records.next() else {
        return false;
    };
    while let Some(rr) = records.next() {
        if are_unlike(last, rr) {
            return true;
        }
        last = rr;
    }
    false
}

/// Whether two neighbouring records of one owner and type have different TTLs.
pub(crate) fn have_unlike_ttls<'a, N: ToName, D: RecordData>(owners: &[OwnerRrs<'a, N, D>]) -> bool
    ensures { result ≡ list_any (neighbours (unlike_ttls D.type_of)) owners.now }
{
    owners
        .iter()
        .any(|owner| has_unlike_neighbours(owner.records()))
}
