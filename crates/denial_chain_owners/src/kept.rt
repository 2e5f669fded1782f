//! The owners that have records of a chain.

ghost use Rattle.std.specs.Prelude.{◌≡◌, ◌&&◌, not, IfOk};
ghost use Rattle.denial_rrsets.specs.Groups.{in_zone, zone_cut};
ghost use Rattle.denial_chain_owners.specs.Conditions.{IsCanonicalOrder, IsOneClass};
ghost use Rattle.denial_chain_owners.specs.Kept.{below_cut, kept_groups};
ghost use Rattle.denial_chain_owners.specs.Types.{has_type};

use denial_rrsets::groups::OwnerRrs;
use denial_rrsets::walks::RecordsIter;
use names_rdata::canonical::CanonicalOrd;
use names_rdata::data::RecordData;
use names_rdata::rtype::Rtype;
use names_traits::to_name::ToName;
use std::alloc::{AllocError, Global};

/// Whether an owner is at or below the apex, and not at or below the last delegation.
fn is_within<'a, N: ToName, D: RecordData>(
    apex: &N,
    cut: Option<&'a N>,
    owner: &OwnerRrs<'a, N, D>,
) -> bool
    ensures { result ≡ (in_zone N.name (N.name apex.now) owner.now
        && not (below_cut N.name cut.entry owner.now)) }
{
    if !owner.is_in_zone(apex) {
        return false;
    }
    match cut {
        Some(cut) => !owner.is_in_zone(cut),
        None => true,
    }
}

/// Whether a record of an owner is of a type.
pub fn has_type<'a, N: ToName, D: RecordData>(owner: &OwnerRrs<'a, N, D>, rtype: Rtype) -> bool
    ensures { result ≡ has_type D.type_of rtype owner.now }
{
    let mut records = owner.records();
    while let Some(rr) = records.next() {
        if rr.rtype() == rtype {
            return true;
        }
    }
    false
}

/// Whether an owner is a delegation. Its types are tested first, since most owners have no NS
/// record.
#[inline(always)]
pub fn is_cut<'a, N: ToName, D: RecordData>(apex: &N, owner: &OwnerRrs<'a, N, D>) -> bool
    ensures { result ≡ zone_cut N.name D.type_of (N.name apex.now) owner.now }
{
    has_type(owner, Rtype::NS) && !owner.owner().name_eq(apex)
}

/// Whether a delegation is left out: it has no DS record, and unsigned delegations are excluded.
fn is_left_out<'a, N: ToName, D: RecordData>(excluding: bool, owner: &OwnerRrs<'a, N, D>) -> bool
    ensures { result ≡ (excluding && not (has_type D.type_of 43 owner.now)) }
{
    excluding && !has_type(owner, Rtype::DS)
}

/// The records of the owners at or below the apex and not strictly below a delegation, in canonical
/// order. Where unsigned delegations are excluded, those without DS records are left out (RFC 5155,
/// 6).
pub fn kept_owners<'a, N: ToName, D: RecordData + CanonicalOrd>(
    alloc: Global,
    apex: &N,
    records: RecordsIter<'a, N, D>,
    excluding: bool,
) -> Result<Vec<OwnerRrs<'a, N, D>>, AllocError>
    requires class { IsOneClass records }
    requires order { IsCanonicalOrder N.name D.type_of D.canonical records }
    ensures { let apex_name = N.name apex.now in
        IfOk result (λ v. v.items
        ≡ kept_groups N.name D.type_of D.canonical_rdata apex_name excluding records.entry) }
{
    let (mut records, mut kept, mut cut) = (records, Vec::new(alloc), None);
    while let Some(owner) = records.next() {
        if !is_within(apex, cut, &owner) {
            continue;
        }
        if is_cut(apex, &owner) {
            cut = Some(owner.owner());
            if is_left_out(excluding, &owner) {
                continue;
            }
        }
        kept.push(owner)?;
    }
    Ok(kept)
}
