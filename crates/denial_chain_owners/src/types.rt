//! The types at an owner, as bits of its record of a chain.

ghost use Rattle.std.specs.Prelude.{◌≡◌, ◌++◌, ℕ, List, map, OnOk};
ghost use Rattle.definitions.specs.Bitmap.{bitmap};
ghost use Rattle.denial_chain_owners.specs.Types.{last_is, own_types};

use crate::kept::{has_type, is_cut};
use denial_bitmap::builder::RtypeBitmapBuilder;
use denial_rrsets::groups::OwnerRrs;
use denial_rrsets::slices::SliceRefsOrOwnedIterator;
use names_rdata::data::RecordData;
use names_rdata::rtype::Rtype;
use names_traits::to_name::ToName;
use names_wire::builder::ShortBuf;
use plain::record::Record;

/// Whether a type is the last one that was added.
fn is_last(last: &Option<Rtype>, rtype: Rtype) -> bool
    ensures { result ≡ last_is last.now rtype }
{
    match last {
        Some(last) => *last == rtype,
        None => false,
    }
}

/// Adds the types of records.
fn add_all<N, D: RecordData>(
    types: &mut RtypeBitmapBuilder<Vec<u8>>,
    records: SliceRefsOrOwnedIterator<Record<N, D>>,
) -> Result<(), ShortBuf>
    ensures { let found = map (λ r. D.type_of r.content) records.entry in
        (ts : List ℕ) → types.old ≡ bitmap ts → OnOk result (types.new ≡ bitmap (found ++ ts)) }
{
    let (mut records, mut last) = (records, None);
    while let Some(rr) = records.next() {
        let rtype = rr.rtype();
        if !is_last(&last, rtype) {
            types.add(rtype)?;
            last = Some(rtype);
        }
    }
    Ok(())
}

/// Adds the types at an owner. At a delegation these are NS, and DS where there is one: other
/// records there, such as glue, are not of the zone (RFC 4035, 2.3). A refused call leaves the
/// types that were added before.
pub fn add_types<'a, N: ToName, D: RecordData>(
    types: &mut RtypeBitmapBuilder<Vec<u8>>,
    apex: &N,
    owner: &OwnerRrs<'a, N, D>,
) -> Result<(), ShortBuf>
    ensures { let found = own_types N.name D.type_of (N.name apex.now) owner.now in
        (ts : List ℕ) → types.old ≡ bitmap ts → OnOk result (types.new ≡ bitmap (found ++ ts)) }
{
    if !is_cut(apex, owner) {
        return add_all(types, owner.records());
    }
    if has_type(owner, Rtype::DS) {
        types.add(Rtype::DS)?;
    }
    types.add(Rtype::NS)
}
