//! A chain of hashes, made once: a record for each kept name and each empty non-terminal, in the
//! order of their hashes (RFC 5155, 7.1).
ghost use Rattle.std.specs.Prelude.{◌≡◌, ◌<◌, ◌≤◌, [], length, map, true, false, IfErr, IfOk};
ghost use Rattle.std.specs.Prelude.{IfSome, OnOk, if◌then◌else◌};
ghost use Rattle.std.specs.List.{AllByRecursion};
ghost use Rattle.std.specs.List.Sorted.{IsPartitionPoint};
ghost use Rattle.std.specs.Option.{option_to_list};
ghost use Rattle.denial_nsec_data.specs.Hashed.{nsec3param_with};
ghost use Rattle.denial_chain_owners.specs.Conditions.{IsOneClass};
ghost use Rattle.messages.specs.HandedRr.{handed_of};
ghost use Rattle.answer_terms.specs.GroupView.{Adds};
ghost use Rattle.answer_terms.specs.HashedLinks.{
  hashed_link_at_or_around,
  hashed_link_speaks,
  hashed_links_of,
  hashed_said_of,
};
ghost use Rattle.answer_terms.specs.Hashing.{hash_in};
ghost use Rattle.answer_zone_records.specs.ChainPlaces.{AreAt};
ghost use Rattle.answer_zone_records.specs.HashParameters.{mode_by};
ghost use Rattle.answer_zone_records.specs.MadeLinks.{
  HasOctets,
  IsMade,
  IsUnmade,
  hashed_around,
  hashed_link_of,
  last_next,
};
ghost use Rattle.answer_zone_records.specs.Round.{IsCircle, is_hash_up_to};

use crate::group::RrGroup;
use crate::octets::written_octets;
use crate::places::{KeptLink, push_places};
use denial_chain_owners::error::SigningError;
use denial_fields::salt::Nsec3Salt;
use denial_nsec_data::nsec3::Nsec3;
use denial_nsec_data::nsec3param::Nsec3param;
use denial_nsec3_chain::generate::generate_nsec3s;
use denial_nsec3_hash::config::GenerateNsec3Config;
use denial_nsec3_hash::hasher::Nsec3Hasher;
use denial_sorted::sorted::SortedRecords;
use messages::names::{Name, ZoneName, copy_name};
use messages::record::ZoneData;
use names_rdata::rtype::Rtype;
use plain::Ttl;
use plain::record::Record;
use std::alloc::{AllocError, Global};
use std::marker::Model;

/// A record of a chain of hashes as it is made.
type Nsec3Record = Record<Name<Vec<u8>>, Nsec3<Vec<u8>>>;

/// How names are hashed, and whether delegations without DS are left out (RFC 5155, 3.1 and 6).
#[derive(Drop)]
pub struct HashParameters<'m> {
    pub iterations: u16,
    pub salt: &'m Nsec3Salt<Vec<u8>>,
    pub opt_out: bool,
}

/// A record of the chain: its owner, the hash that this spells, the next hash, and the data as they
/// are written.
#[derive(Drop)]
pub struct HashedLink {
    owner: Name<Vec<u8>>,
    hash: Vec<u8>,
    next: Vec<u8>,
    octets: Vec<u8>,
}

impl Model for HashedLink {
    ghost use Rattle.answer_terms.specs.HashedLinks.{HashedLink};

    ghost Value = { HashedLink };

    ghost view = { λ l. record {
      owner = l.owner;
      hash = l.hash.items;
      next = l.next.items;
      octets = l.octets.items;
    } };
}

/// The chain of records in order.
pub fn hash_chain_of<H: Nsec3Hasher>(
    alloc: Global,
    apex: &Name<Vec<u8>>,
    records: &SortedRecords<Name<Vec<u8>>, ZoneData>,
    parameters: &HashParameters<'_>,
    hasher: &H,
) -> Result<Vec<HashedLink>, SigningError>
    requires class { IsOneClass records.now }
    ensures links { let mode = mode_by parameters.now in
        let hash = hash_in (H.hash_of hasher.now) mode in
        let rs = map handed_of records.now in
        IfOk result (λ v. v.items ≡ hashed_links_of hash mode apex.now rs) }
    ensures made { let hash = H.hash_of hasher.now in
        IfOk result (λ _. IsMade hash apex.now (mode_by parameters.now) records.now) }
    ensures refused { let hash = H.hash_of hasher.now in
        IfErr result (IsUnmade hash apex.now (mode_by parameters.now) records.now) }
{
    let _in_order = records.as_slice();
    let config = config_of(parameters);
    let made = match generate_nsec3s(alloc, apex, records.owner_rrs(), &config, hasher) {
        Ok(made) => made,
        Err(error) => return Err(error),
    };
    Ok(hashed_links(alloc, &made.nsec3s)?)
}

/// How the chain is made: DNSKEY records are to come, hashes are SHA-1 (RFC 5155, 11), and opt-out
/// excludes.
fn config_of<'m>(parameters: &HashParameters<'m>) -> GenerateNsec3Config<&'m [u8]>
    ensures params { let p = parameters.now in result.params
        ≡ nsec3param_with 1 (if p.opt_out then 1 else 0) p.iterations p.salt.now }
    ensures dnskeys { result.assume_dnskeys_will_be_added ≡ true }
    ensures excluding { result.opt_out_exclude_owner_names_of_unsigned_delegations ≡ true }
{
    let Ok(salt) = Nsec3Salt::from_slice(parameters.salt.as_slice()) else {
        unreachable!();
    };
    let config = GenerateNsec3Config::new(Nsec3param::new(1, 0, parameters.iterations, salt));
    if parameters.opt_out {
        config.with_opt_out()
    } else {
        config
    }
}

/// Links of NSEC3 records, each with the hash that its owner spells: it is the next hash of the
/// record before.
fn hashed_links(alloc: Global, nsec3s: &[Nsec3Record]) -> Result<Vec<HashedLink>, AllocError>
    ensures links { IfOk result (λ v. v.items ≡ hashed_around nsec3s.now) }
    ensures octets { IfOk result (λ v. AllByRecursion HasOctets v.items) }
{
    let mut links = Vec::with_capacity(alloc, nsec3s.len())?;
    let mut hash = next_of_last(nsec3s);
    for nsec3 in nsec3s {
        links.push(HashedLink::new(alloc, nsec3, hash)?)?;
        hash = nsec3.data().next_owner().as_slice();
    }
    Ok(links)
}

/// The next hash of the last record, which leads to the first.
fn next_of_last(nsec3s: &[Nsec3Record]) -> &[u8]
    ensures { result.now ≡ last_next [] nsec3s.now }
{
    match nsec3s.last() {
        Some(nsec3) => nsec3.data().next_owner().as_slice(),
        None => &[],
    }
}

impl HashedLink {
    fn new(alloc: Global, nsec3: &Nsec3Record, hash: &[u8]) -> Result<Self, AllocError>
        ensures link { IfOk result (λ l. l ≡ hashed_link_of hash.now nsec3.now) }
        ensures octets { IfOk result HasOctets }
    {
        Ok(HashedLink {
            owner: copy_name(alloc, nsec3.owner())?,
            hash: hash.to_vec(alloc)?,
            next: nsec3.data().next_owner().as_slice().to_vec(alloc)?,
            octets: written_octets(alloc, nsec3.data())?,
        })
    }

    /// The data as they are written.
    fn written(&self, alloc: Global) -> Result<Vec<u8>, AllocError>
        ensures { IfOk result (λ v. v.items ≡ self.now.octets) }
    {
        self.octets.to_vec(alloc)
    }
}

impl KeptLink for HashedLink {
    ghost use Rattle.answer_terms.specs.HashedLinks.{hashed_group_of};

    ghost group_of = { λ ttl l. hashed_group_of ttl l };

    fn group(&self, alloc: Global, ttl: Ttl) -> Result<RrGroup, AllocError> {
        let owner = copy_name(alloc, &self.owner)?;
        let count = owner.rrsig_label_count();
        let mut canonical = Vec::new(alloc);
        canonical.push(self.written(alloc)?)?;
        RrGroup::canonical_form(alloc, owner, count, Rtype::NSEC3, ttl, canonical)
    }
}

/// Adds the records of a chain that match or cover one of some hashes, each once, in the order of
/// the chain. Each is found by binary search.
pub fn push_hashed_links(
    alloc: Global,
    groups: &mut Vec<RrGroup>,
    chain: &[HashedLink],
    ttl: Ttl,
    hashes: &[Vec<u8>],
) -> Result<(), AllocError>
    requires { IsCircle chain.now }
    ensures { let hs = map (λ h. h.items) hashes.now in
        OnOk result (Adds groups.old.items groups.new.items (hashed_said_of ttl hs chain.now)) }
{
    let places = hash_places(alloc, chain, hashes)?;
    push_places(alloc, groups, chain, ttl, &places)
}

/// The places of the records that match or cover one of some hashes.
fn hash_places(
    alloc: Global,
    chain: &[HashedLink],
    hashes: &[Vec<u8>],
) -> Result<Vec<usize>, AllocError>
    requires { IsCircle chain.now }
    ensures within { IfOk result (λ v. AllByRecursion (λ k. k < length chain.now) v.items) }
    ensures places { let hs = map (λ h. h.items) hashes.now in
        IfOk result (λ v. AreAt (hashed_link_speaks hs) chain.now v.items) }
{
    let mut places = Vec::with_capacity(alloc, hashes.len())?;
    for hash in hashes {
        if let Some(place) = place_around(chain, hash) {
            places.push(place)?;
        }
    }
    Ok(places)
}

/// The place of the record that matches or covers a hash: the last one whose hash does not come
/// behind it, or the last of all where each does (RFC 5155, 3.1.7).
fn place_around(chain: &[HashedLink], hash: &[u8]) -> Option<usize>
    requires { IsCircle chain.now }
    ensures within { IfSome result (λ k. k < length chain.now) }
    ensures place { let found = option_to_list result in
        AreAt (λ l. hashed_link_at_or_around l hash.now) chain.now found }
{
    let count = count_up_to(chain, hash);
    let behind = if count > 0 { count } else { chain.len() };
    if behind > 0 { Some(behind - 1) } else { None }
}

/// How many records have a hash that does not come behind another.
fn count_up_to(chain: &[HashedLink], hash: &[u8]) -> usize
    requires { IsCircle chain.now }
    ensures cut { let is = is_hash_up_to hash.now in
        IsPartitionPoint (λ l. is l ≡ true) (λ l. is l ≡ false) chain.now result }
    ensures bound { result ≤ length chain.now }
{
    chain.partition_point(|link| link.hash.as_slice().cmp(hash).is_le())
}
