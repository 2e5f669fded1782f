//! The type bitmaps of NSEC3 records (RFC 5155, 7.1).

ghost use Rattle.std.specs.Prelude.{◌≡◌, ◌≤◌, ◌++◌, [], ℕ, List, length, IfOk, OnOk};
ghost use Rattle.definitions.specs.Bitmap.{bitmap};
ghost use Rattle.denial_nsec3_names.specs.Chained.{spot_of};
ghost use Rattle.denial_chain_owners.specs.Types.{has_type};
ghost use Rattle.denial_nsec3_chain.specs.Bits.{apex_types, cut_types, group_types, spot_types};

use denial_bitmap::bitmap::RtypeBitmap;
use denial_bitmap::builder::RtypeBitmapBuilder;
use denial_chain_owners::kept::{has_type, is_cut};
use denial_chain_owners::types::add_types;
use denial_nsec3_names::names::ChainName;
use denial_rrsets::groups::OwnerRrs;
use names_rdata::data::RecordData;
use names_rdata::rtype::Rtype;
use names_traits::to_name::ToName;
use names_wire::builder::ShortBuf;
use std::alloc::Global;

/// Adds the types that signing adds at the apex.
fn add_apex_types<N: ToName>(
    types: &mut RtypeBitmapBuilder<Vec<u8>>,
    apex: &N,
    dnskey: bool,
    owner: &N,
) -> Result<(), ShortBuf>
    requires { types.old ≡ bitmap [] }
    ensures { let more = apex_types (N.name apex.now) dnskey (N.name owner.now) in
        OnOk result (types.new ≡ bitmap more) }
{
    if owner.name_eq(apex) {
        types.add(Rtype::NSEC3PARAM)?;
        if dnskey {
            types.add(Rtype::DNSKEY)?;
        }
    }
    Ok(())
}

/// Adds the types at a delegation: NS, and where there is a DS record, DS and RRSIG, since only DS
/// is signed there (RFC 4035, 2.2).
fn add_cut_types<'a, N: ToName, D: RecordData>(
    types: &mut RtypeBitmapBuilder<Vec<u8>>,
    owner: &OwnerRrs<'a, N, D>,
) -> Result<(), ShortBuf>
    ensures { let signed = has_type D.type_of 43 owner.now in
        (ts : List ℕ) → types.old ≡ bitmap ts
        → OnOk result (types.new ≡ bitmap (cut_types signed ++ ts)) }
{
    if has_type(owner, Rtype::DS) {
        types.add(Rtype::RRSIG)?;
        types.add(Rtype::DS)?;
    }
    types.add(Rtype::NS)
}

/// Adds the types at an owner to an empty set.
fn add_group<'a, N: ToName, D: RecordData>(
    types: &mut RtypeBitmapBuilder<Vec<u8>>,
    apex: &N,
    dnskey: bool,
    owner: &OwnerRrs<'a, N, D>,
) -> Result<(), ShortBuf>
    requires { types.old ≡ bitmap [] }
    ensures { let found = group_types N.name D.type_of (N.name apex.now) dnskey owner.now in
        OnOk result (types.new ≡ bitmap found) }
{
    if is_cut(apex, owner) {
        return add_cut_types(types, owner);
    }
    add_apex_types(types, apex, dnskey, owner.owner())?;
    types.add(Rtype::RRSIG)?;
    add_types(types, apex, owner)
}

/// An empty set with room for the types of most owners: RRSIG is the highest of them.
fn none_with_room(alloc: Global) -> Result<RtypeBitmapBuilder<Vec<u8>>, ShortBuf>
    ensures { IfOk result (λ types. types ≡ bitmap []) }
{
    match Vec::with_capacity(alloc, 8) {
        Ok(octets) => Ok(RtypeBitmapBuilder::with_builder(octets)),
        Err(_) => Err(ShortBuf),
    }
}

/// The type bitmap of a name of the chain; an empty one where the name owns no records.
pub(crate) fn types_of<'g, 'a, N: ToName, D: RecordData>(
    alloc: Global,
    apex: &N,
    dnskey: bool,
    name: &ChainName<'g, 'a, N, D>,
) -> Result<RtypeBitmap<Vec<u8>>, ShortBuf>
    ensures types { let apex_name = N.name apex.now in
        let found = spot_types N.name D.type_of apex_name dnskey (spot_of name.now) in
        IfOk result (λ b. b ≡ bitmap found) }
    ensures short { IfOk result (λ b. length b ≤ 8704) }
{
    let mut types = RtypeBitmapBuilder::new(alloc);
    if let Some(owner) = name.records() {
        types = none_with_room(alloc)?;
        add_group(&mut types, apex, dnskey, owner)?;
    }
    Ok(types.finalize())
}
