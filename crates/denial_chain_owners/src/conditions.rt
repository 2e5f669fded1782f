//! Tests of what chain makers require of the records that they are given (RFC 4034, 6).

ghost use Rattle.std.specs.Prelude.{◌≡◌, ◌↔◌, IsTrue};
ghost use Rattle.std.specs.Cmp.{IsTotalOrder};
ghost use Rattle.denial_chain_owners.specs.Conditions.{IsCanonicalOrder, IsOneClass, climbs};
ghost use Rattle.plain.specs.Records.{record_canonical_cmp};

use names_rdata::canonical::CanonicalOrd;
use names_rdata::data::RecordData;
use names_traits::to_name::ToName;
use plain::record::Record;

/// Whether all records have one class. It is true of an empty slice.
pub fn is_one_class<N, D>(records: &[Record<N, D>]) -> bool
    ensures { IsTrue result ↔ IsOneClass records.now }
{
    let Some((first, rest)) = records.split_first() else {
        return true;
    };
    rest.iter().all(|rr| rr.class() == first.class())
}

/// Whether each record stands strictly before the next.
fn ascend<N: ToName, D: RecordData + CanonicalOrd>(records: &[Record<N, D>]) -> bool
    ensures { result ≡ climbs (record_canonical_cmp N.name D.type_of D.canonical) records.now }
{
    let Some((first, rest)) = records.split_first() else {
        return true;
    };
    let mut last = first;
    for rr in rest {
        if last.canonical_cmp(rr).is_ge() {
            return false;
        }
        last = rr;
    }
    true
}

/// Whether records stand in canonical order, no two of them equal. It is true of an empty slice.
pub fn is_canonical_order<N: ToName, D: RecordData + CanonicalOrd>(records: &[Record<N, D>]) -> bool
    requires { IsTotalOrder D.canonical }
    ensures { IsTrue result ↔ IsCanonicalOrder N.name D.type_of D.canonical records.now }
{
    ascend(records)
}
