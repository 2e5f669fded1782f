//! The NSEC record of an owner.

ghost use Rattle.std.specs.Prelude.{◌≡◌, ◌&&◌, ◌∷◌, ◌++◌, [], ℕ, List, IfErr, IfOk, OnOk, map};
ghost use Rattle.definitions.specs.Name.{same};
ghost use Rattle.definitions.specs.ZoneChain.{of_keys};
ghost use Rattle.definitions.specs.Bitmap.{bitmap};
ghost use Rattle.denial_nsec_chain.specs.Groups.{group_record, group_records, group_types, next_of};
ghost use Rattle.denial_nsec_chain.specs.Chain.{record_of};

use crate::config::GenerateNsecConfig;
use denial_bitmap::bitmap::RtypeBitmap;
use denial_bitmap::builder::RtypeBitmapBuilder;
use denial_chain_owners::error::SigningError;
use denial_chain_owners::types::add_types;
use denial_nsec_data::nsec::Nsec;
use denial_rrsets::groups::OwnerRrs;
use names_labels::traits::Labels;
use names_rdata::data::RecordData;
use names_rdata::rtype::Rtype;
use names_traits::to_name::ToName;
use names_wire::builder::ShortBuf;
use plain::Ttl;
use plain::record::Record;
use std::alloc::Global;

/// A record of the chain, which borrows its names.
pub(crate) type NsecRecord<'a, N> = Record<&'a N, Nsec<Vec<u8>, &'a N>>;

/// Whether the bitmap of an owner has DNSKEY in any case: the owner is the apex, and DNSKEY records
/// will be added later.
fn tells_of_keys<'a, N: ToName, D: RecordData>(
    apex: &N,
    owner: &OwnerRrs<'a, N, D>,
    dnskey: bool,
) -> bool
    ensures { let apex_name = N.name apex.now in
        result ≡ (dnskey && same (next_of N.name apex_name (owner.now ∷ [])) apex_name) }
{
    dnskey && owner.owner().name_eq(apex)
}

/// Adds DNSKEY, where the bitmap is to have it.
fn add_keys(types: &mut RtypeBitmapBuilder<Vec<u8>>, keys: bool) -> Result<(), ShortBuf>
    ensures { (ts : List ℕ) → types.old ≡ bitmap ts
        → OnOk result (types.new ≡ bitmap (of_keys keys ++ ts)) }
{
    if keys {
        types.add(Rtype::DNSKEY)?;
    }
    Ok(())
}

/// The types in the bitmap of an owner.
fn types_at<'a, N: ToName, D: RecordData>(
    alloc: Global,
    apex: &N,
    owner: &OwnerRrs<'a, N, D>,
    dnskey: bool,
) -> Result<RtypeBitmap<Vec<u8>>, ShortBuf>
    ensures { let apex_name = N.name apex.now in
        IfOk result (λ b. b ≡ bitmap (group_types N.name D.type_of apex_name dnskey owner.now)) }
{
    let keys = tells_of_keys(apex, owner, dnskey);
    let mut types = RtypeBitmapBuilder::new_vec(alloc);
    types.add(Rtype::NSEC)?;
    types.add(Rtype::RRSIG)?;
    add_keys(&mut types, keys)?;
    add_types(&mut types, apex, owner)?;
    Ok(types.finalize())
}

/// The record of an owner. It leads to the next owner.
fn nsec_of<'a, N: ToName, D: RecordData>(
    alloc: Global,
    apex: &N,
    owner: &OwnerRrs<'a, N, D>,
    next: &'a N,
    ttl: Ttl,
    config: GenerateNsecConfig,
) -> Result<NsecRecord<'a, N>, SigningError>
    ensures ok { let dnskey = config.assume_dnskeys_will_be_added in
        IfOk result (λ r. record_of N.name r ≡ group_record N.name D.type_of
        (N.name apex.now) ttl dnskey owner.now (N.name next.now)) }
    ensures err { IfErr result (λ e. e ≡ SigningError.Memory) }
{
    let types = types_at(alloc, apex, owner, config.assume_dnskeys_will_be_added)?;
    let _name = next.label_count();
    let Ok(nsec) = Nsec::new(next, types) else {
        unreachable!()
    };
    Ok(Record::new(owner.owner(), owner.class(), ttl, nsec))
}

/// The next owner; the apex behind the last one.
fn next_name<'a, N: ToName, D: RecordData>(apex: &'a N, behind: &[OwnerRrs<'a, N, D>]) -> &'a N
    ensures { N.name result.now ≡ next_of N.name (N.name apex.now) behind.now }
{
    match behind.first() {
        Some(owner) => owner.owner(),
        None => apex,
    }
}

/// The records of owners in order. The last one leads to the apex.
pub(crate) fn nsecs_of<'a, N: ToName, D: RecordData>(
    alloc: Global,
    apex: &'a N,
    owners: &[OwnerRrs<'a, N, D>],
    ttl: Ttl,
    config: GenerateNsecConfig,
) -> Result<Vec<NsecRecord<'a, N>>, SigningError>
    ensures ok { let dnskey = config.assume_dnskeys_will_be_added in
        IfOk result (λ v. map (record_of N.name) v.items
        ≡ group_records N.name D.type_of (N.name apex.now) ttl dnskey owners.now) }
    ensures err { IfErr result (λ e. e ≡ SigningError.Memory) }
{
    let mut nsecs = Vec::with_capacity(alloc, owners.len())?;
    for (place, owner) in owners.iter().enumerate() {
        let next = next_name(apex, &owners[place + 1..]);
        nsecs.push(nsec_of(alloc, apex, owner, next, ttl, config)?)?;
    }
    Ok(nsecs)
}
