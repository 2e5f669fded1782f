//! NSEC3 records made of names in order of hash (RFC 5155, 3 and 7.1).

ghost use Rattle.std.specs.Prelude.{◌≡◌, ◌≤◌, ◌++◌, ◌∷◌, [], length, map, IfErr, IfOk, OnOk};
ghost use Rattle.std.specs.List.{AllByRecursion};
ghost use Rattle.denial_nsec3_hash.specs.Hashing.{FitsName};
ghost use Rattle.denial_nsec_data.specs.Hashed.{nsec3_with};
ghost use Rattle.denial_nsec3_chain.specs.Linked.{IsLinkFault, linked, links_around};
ghost use Rattle.denial_nsec3_chain.specs.Made.{IsBegun, ended, making_of};

use crate::owner_name::owner_of_hash;
use crate::types::types_of;
use denial_bitmap::bitmap::RtypeBitmap;
use denial_chain_owners::error::SigningError;
use denial_fields::hash::OwnerHash;
use denial_fields::salt::Nsec3Salt;
use denial_nsec_data::nsec3::Nsec3;
use denial_nsec_data::nsec3param::Nsec3param;
use denial_nsec3_names::hashed::HashedName;
use denial_nsec3_names::names::ChainName;
use names_flat::name::Name;
use names_rdata::data::RecordData;
use names_traits::to_name::ToName;
use names_wire::octets::Octets;
use plain::record::Record;
use plain::{Class, Ttl};
use std::alloc::{AllocError, Global};

/// How the records of a chain are made.
#[derive(Drop)]
pub(crate) struct Settings<'c, S: Octets> {
    /// The parameters of the hash, and the flags of the records.
    pub(crate) params: &'c Nsec3param<S>,
    /// Whether the type bitmap of the apex has DNSKEY.
    pub(crate) dnskey: bool,
    pub(crate) ttl: Ttl,
}

/// What is known of a record before the next hash is known: its owner, and the name whose types it
/// has.
#[derive(Drop)]
struct Begun<'g, 'a, N: ToName, D> {
    owner: Name<Vec<u8>>,
    name: ChainName<'g, 'a, N, D>,
}

/// A record for each name. Each leads to the next one, the last to the first.
#[inline(never)]
pub(crate) fn nsec3s_of<'g, 'a, 'c, N: ToName, D: RecordData, S: Octets>(
    alloc: Global,
    apex: &N,
    settings: &Settings<'c, S>,
    hashed: Vec<HashedName<'g, 'a, N, D>>,
) -> Result<Vec<Record<Name<Vec<u8>>, Nsec3<Vec<u8>>>>, SigningError>
    ensures ok { let made = linked N.name D.type_of (N.name apex.now) (making_of settings.now) in
        IfOk result (λ v. v.items ≡ map made (links_around hashed.entry.items)) }
    ensures fit { let fits = FitsName (N.name apex.now) in
        OnOk result (AllByRecursion (λ h. fits h.hash.items) hashed.entry.items) }
    ensures refused { let hashes = map (λ h. h.hash.items) hashed.entry.items in
        IfErr result (IsLinkFault (N.name apex.now) hashes) }
{
    let mut records = Vec::with_capacity(alloc, hashed.len())?;
    let mut rest = hashed.into_iter();
    let Some(first) = rest.next() else {
        return Ok(records);
    };
    let mut last = match begin(alloc, apex, &first) {
        Ok(begun) => begun,
        Err(error) => return Err(error),
    };
    while let Some(next) = rest.next() {
        let behind = match begin(alloc, apex, &next) {
            Ok(begun) => begun,
            Err(error) => return Err(error),
        };
        push_link(alloc, &mut records, apex, settings, last, next.hash)?;
        last = behind;
    }
    push_link(alloc, &mut records, apex, settings, last, first.hash)?;
    Ok(records)
}

/// What is known of the record of a name.
#[inline(always)]
fn begin<'g, 'a, N: ToName, D: RecordData>(
    alloc: Global,
    apex: &N,
    hashed: &HashedName<'g, 'a, N, D>,
) -> Result<Begun<'g, 'a, N, D>, SigningError>
    ensures ok { IfOk result (λ b. IsBegun (N.name apex.now) hashed.now b) }
    ensures fits { OnOk result (FitsName (N.name apex.now) hashed.now.hash.items) }
    ensures refused { let hash = hashed.now.hash.items in
        IfErr result (IsLinkFault (N.name apex.now) (hash ∷ [])) }
{
    match owner_of_hash(alloc, &hashed.hash, apex) {
        Ok(owner) => Ok(Begun {
            owner,
            name: hashed.name,
        }),
        Err(error) => Err(error),
    }
}

/// Adds the record that was begun, which leads to a given hash.
#[inline(always)]
fn push_link<'g, 'a, 'c, N: ToName, D: RecordData, S: Octets>(
    alloc: Global,
    records: &mut Vec<Record<Name<Vec<u8>>, Nsec3<Vec<u8>>>>,
    apex: &N,
    settings: &Settings<'c, S>,
    begun: Begun<'g, 'a, N, D>,
    next: Vec<u8>,
) -> Result<(), SigningError>
    requires { length next.items ≤ 255 }
    ensures ok { let made = ended N.name D.type_of (N.name apex.now) (making_of settings.now) in
        OnOk result (records.new.items ≡ records.old.items ++ made begun.entry next.items ∷ []) }
    ensures refused { IfErr result (λ e. e ≡ SigningError.Memory) }
{
    let types = types_of(alloc, apex, settings.dnskey, &begun.name)?;
    let salt = copied_salt(alloc, settings.params.salt())?;
    let content = data_of(settings.params, salt, hash_of(next), types);
    let Begun { owner, name: _ } = begun;
    let record = Record::new(owner, Class::IN, settings.ttl, content);
    if let Err(error) = records.push(record) {
        return Err(AllocError::from(error).into());
    }
    Ok(())
}

/// The data of a record, whose type bitmap has at most 8,704 octets.
fn data_of<S: Octets>(
    params: &Nsec3param<S>,
    salt: Nsec3Salt<Vec<u8>>,
    next: OwnerHash<Vec<u8>>,
    types: RtypeBitmap<Vec<u8>>,
) -> Nsec3<Vec<u8>>
    requires { length types ≤ 8704 }
    ensures { let p = params.now in
        result ≡ nsec3_with p.algorithm p.flags p.iterations salt next types }
{
    let made = Nsec3::new(
        params.hash_algorithm(),
        params.flags(),
        params.iterations(),
        salt,
        next,
        types,
    );
    match made {
        Ok(content) => content,
        Err(_) => unreachable!(),
    }
}

/// A salt with octets of its own.
pub(crate) fn copied_salt<S: Octets>(
    alloc: Global,
    salt: &Nsec3Salt<S>,
) -> Result<Nsec3Salt<Vec<u8>>, AllocError>
    ensures { IfOk result (λ s. s ≡ salt.now) }
{
    if salt.as_slice().is_empty() {
        return Ok(Nsec3Salt::empty(alloc));
    }
    let octets = Vec::from_slice(alloc, salt.as_slice())?;
    match Nsec3Salt::from_octets(octets) {
        Ok(salt) => Ok(salt),
        Err(_) => unreachable!(),
    }
}

/// The hash of octets.
fn hash_of(octets: Vec<u8>) -> OwnerHash<Vec<u8>>
    requires { length octets.items ≤ 255 }
    ensures { result ≡ octets.items }
{
    match OwnerHash::from_octets(octets) {
        Ok(hash) => hash,
        Err(_) => unreachable!(),
    }
}
