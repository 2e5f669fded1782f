//! The chain of a zone, made once: a record for each name that owns records, with the next such
//! name (RFC 4034, 4).
ghost use Rattle.std.specs.Prelude.{◌≡◌, ℕ, List, ◌<◌, ◌≤◌, true, false, length, map, IfErr, IfOk};
ghost use Rattle.std.specs.Prelude.{IfSome, IsSome, OnOk};
ghost use Rattle.std.specs.List.{AllByRecursion};
ghost use Rattle.std.specs.List.Sorted.{IsPartitionPoint};
ghost use Rattle.std.specs.Option.{option_to_list};
ghost use Rattle.definitions.specs.Name.{low};
ghost use Rattle.denial_nsec_chain.specs.Chain.{record_of};
ghost use Rattle.denial_chain_owners.specs.Conditions.{IsOneClass};
ghost use Rattle.denial_chain_owners.specs.Refused.{IsOwnersFault};
ghost use Rattle.denial_chain_owners.specs.Soa.{soa_ttls};
ghost use Rattle.denial_chain_owners.specs.Ttls.{has_unequal_ttls};
ghost use Rattle.plain.specs.ZoneData.{zone_canonical, zone_type};
ghost use Rattle.messages.specs.HandedRr.{handed_of};
ghost use Rattle.answer_terms.specs.GroupView.{Adds};
ghost use Rattle.answer_terms.specs.Links.{link_speaks, links_of, said_of};
ghost use Rattle.answer_zone_records.specs.ChainPlaces.{AreAt};
ghost use Rattle.answer_zone_records.specs.Round.{IsClimbing, IsRound, is_up_to, link_speaks_for};
ghost use Rattle.answer_zone_records.specs.MadeLinks.{link_of};

use crate::group::RrGroup;
use crate::octets::written_octets;
use crate::places::{KeptLink, push_places};
use denial_chain_owners::error::SigningError;
use denial_nsec_chain::config::GenerateNsecConfig;
use denial_nsec_chain::generate::generate_nsecs;
use denial_nsec_data::nsec::Nsec;
use denial_sorted::sorted::SortedRecords;
use messages::names::{Name, ToName, ZoneName, copy_name};
use messages::record::ZoneData;
use names_rdata::rtype::Rtype;
use plain::Ttl;
use plain::record::Record;
use std::alloc::{AllocError, Global};
use std::marker::Model;

/// A record of a chain as it is made, over names of a zone.
type NsecRecord<'a> = Record<&'a Name<Vec<u8>>, Nsec<Vec<u8>, &'a Name<Vec<u8>>>>;

/// A record of the chain: the owner and the next name as the zone spells them, and the data as they
/// are written.
#[derive(Drop)]
pub struct ChainLink {
    owner: Name<Vec<u8>>,
    next: Name<Vec<u8>>,
    octets: Vec<u8>,
}

impl Model for ChainLink {
    ghost use Rattle.answer_terms.specs.Links.{ChainLink};

    ghost Value = { ChainLink };

    ghost view = { λ l. record { owner = l.owner; next = l.next; octets = l.octets.items } };
}

/// The chain of records in order.
pub fn chain_of(
    alloc: Global,
    apex: &Name<Vec<u8>>,
    records: &SortedRecords<Name<Vec<u8>>, ZoneData>,
) -> Result<Vec<ChainLink>, SigningError>
    requires class { IsOneClass records.now }
    ensures links { IfOk result (λ v. v.items ≡ links_of apex.now (map handed_of records.now)) }
    ensures soa { IfOk result (λ _. IsSome (soa_ttls (λ n. n) apex.now records.now)) }
    ensures ttls { let canonical = zone_canonical (λ n. n) in
        IfOk result (λ _. has_unequal_ttls (λ n. n) zone_type canonical apex.now false records.now
        ≡ false) }
    ensures refused { IfErr result (λ e. IsOwnersFault (λ n. n) apex.now false records.now e) }
{
    let _in_order = records.as_slice();
    let nsecs = generate_nsecs(alloc, apex, records.owner_rrs(), GenerateNsecConfig::new())?;
    Ok(owned(alloc, &nsecs)?)
}

/// Links of NSEC records, with names of their own.
fn owned(alloc: Global, nsecs: &[NsecRecord<'_>]) -> Result<Vec<ChainLink>, AllocError>
    ensures { IfOk result (λ v. v.items ≡ map (λ r. link_of (record_of (λ n. n) r)) nsecs.now) }
{
    let mut links = Vec::with_capacity(alloc, nsecs.len())?;
    for nsec in nsecs {
        links.push(ChainLink::new(alloc, nsec)?)?;
    }
    Ok(links)
}

impl ChainLink {
    fn new(alloc: Global, nsec: &NsecRecord<'_>) -> Result<Self, AllocError>
        ensures { IfOk result (λ l. l ≡ link_of (record_of (λ n. n) nsec.now)) }
    {
        Ok(ChainLink {
            owner: copy_name(alloc, nsec.owner())?,
            next: copy_name(alloc, nsec.data().next_name())?,
            octets: written_octets(alloc, nsec.data())?,
        })
    }

    /// The data as they are written.
    fn written(&self, alloc: Global) -> Result<Vec<u8>, AllocError>
        ensures { IfOk result (λ v. v.items ≡ self.now.octets) }
    {
        self.octets.to_vec(alloc)
    }
}

impl KeptLink for ChainLink {
    ghost use Rattle.answer_terms.specs.Links.{group_of};

    ghost group_of = { λ ttl l. group_of ttl l };

    fn group(&self, alloc: Global, ttl: Ttl) -> Result<RrGroup, AllocError> {
        let owner = copy_name(alloc, &self.owner)?;
        let count = owner.rrsig_label_count();
        let mut canonical = Vec::new(alloc);
        canonical.push(self.written(alloc)?)?;
        RrGroup::canonical_form(alloc, owner, count, Rtype::NSEC, ttl, canonical)
    }
}

/// Adds the records of a chain that match or cover one of some names, each once, in the order of
/// the chain. Each is found by binary search.
pub fn push_links(
    alloc: Global,
    groups: &mut Vec<RrGroup>,
    chain: &[ChainLink],
    apex: &Name<Vec<u8>>,
    ttl: Ttl,
    names: &[&Name<Vec<u8>>],
) -> Result<(), AllocError>
    requires { IsRound apex.now chain.now }
    ensures { let qs = map (λ n. low n.now) names.now in
        OnOk result (Adds groups.old.items groups.new.items (said_of apex.now ttl qs chain.now)) }
{
    let places = link_places(alloc, chain, names)?;
    push_places(alloc, groups, chain, ttl, &places)
}

/// The places of the records that match or cover one of some names.
fn link_places(
    alloc: Global,
    chain: &[ChainLink],
    names: &[&Name<Vec<u8>>],
) -> Result<Vec<usize>, AllocError>
    requires { IsClimbing chain.now }
    ensures within { IfOk result (λ v. AllByRecursion (λ k. k < length chain.now) v.items) }
    ensures places { let qs = map (λ n. low n.now) names.now in
        IfOk result (λ v. (apex : List (List ℕ)) → IsRound apex chain.now
        → AreAt (λ l. link_speaks apex qs (low l.owner) (low l.next)) chain.now v.items) }
{
    let mut places = Vec::with_capacity(alloc, names.len())?;
    for name in names {
        if let Some(place) = place_at(chain, name) {
            places.push(place)?;
        }
    }
    Ok(places)
}

/// The place of the record that matches or covers a name: the last one whose owner does not come
/// behind the name.
fn place_at(chain: &[ChainLink], name: &Name<Vec<u8>>) -> Option<usize>
    requires { IsClimbing chain.now }
    ensures within { IfSome result (λ k. k < length chain.now) }
    ensures place { (apex : List (List ℕ)) → IsRound apex chain.now
        → AreAt (link_speaks_for apex name.now) chain.now (option_to_list result) }
{
    let count = count_up_to(chain, name);
    if count > 0 { Some(count - 1) } else { None }
}

/// How many records have an owner that does not come behind a name.
fn count_up_to(chain: &[ChainLink], name: &Name<Vec<u8>>) -> usize
    requires { IsClimbing chain.now }
    ensures cut { let is = is_up_to name.now in
        IsPartitionPoint (λ l. is l ≡ true) (λ l. is l ≡ false) chain.now result }
    ensures bound { result ≤ length chain.now }
{
    chain.partition_point(|link| link.owner.name_cmp(name).is_le())
}
