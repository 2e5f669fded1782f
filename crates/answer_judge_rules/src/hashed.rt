//! What links of a chain of hashes prove of a name and a type (RFC 5155, 8; RFC 6840, 4.1 and 4.3).
ghost use Rattle.std.specs.Prelude.{◌≡◌, ◌+◌, ◌<◌, ◌^◌, ◌∷◌, [], ℕ, List, IfOk, length};
ghost use Rattle.std.specs.Option.{option_map};
ghost use Rattle.definitions.specs.Name.{low};
ghost use Rattle.definitions.specs.Zone.{star_under};
ghost use Rattle.denial_laws.specs.NsecRules.{first_some};
ghost use Rattle.denial_laws.specs.Nsec3Rules.{star_at, beyond, enclosed, by_closest_encloser};
ghost use Rattle.denial_laws.specs.Nsec3Rules.{hash_denied, hash_expanded_by, hash_expanded};
ghost use Rattle.denial_laws.specs.Nsec3Rules.{last_labels, hashed_enclosed, hashed_climbing};
ghost use Rattle.denial_laws.specs.Nsec3Rules.{hashed_denied};
ghost use Rattle.answer_judge_rules.specs.Hashing.{fails_as, hash_as, hashed_beyond, HashesInTurn};
ghost use Rattle.answer_judge_rules.specs.Rules.{verdict_of};
ghost use Rattle.answer_scheme.specs.Answers.{NoneVerified};

use crate::facts::{HashLink, Rrset};
use crate::hash_links::{
    first_at_hash, first_cut_above, first_star_at, is_denied, is_enclosed, is_matched, left_open,
};
use crate::hashing::{NameWithHash, hash_behind, hash_name, hash_wildcard};
use crate::verdict::Verdict;
use answer_scheme::checks::Checks;
use denial_nsec3_hash::hasher::HashError;
use messages::names::{Name, ToName, ZoneName};
use names_rdata::rtype::Rtype;
use std::alloc::Global;

/// The links of a zone's chain of hashes, of which the first says how names are hashed, and the
/// type that is asked for.
#[derive(Drop)]
pub(crate) struct HashChain<'a> {
    pub(crate) alloc: Global,
    pub(crate) apex: &'a Name<Vec<u8>>,
    pub(crate) first: &'a HashLink<'a>,
    pub(crate) links: &'a [HashLink<'a>],
    pub(crate) rtype: Rtype,
}

/// What links say of the wildcard under a closest encloser, which is hashed for it.
///
/// Without a look at the wildcard a name that it stands for would pass for one that does not exist
/// (RFC 5155, 8.4 and 8.7).
fn at_wildcard<C: Checks>(
    chain: &HashChain,
    checks: &mut C,
    count: &mut u32,
    octets: &mut Vec<u8>,
    encloser: &Name<&[u8]>,
) -> Result<Option<Verdict>, HashError>
    requires room { count.old + 1 < 2 ^ 32 }
    ensures verdict { let hash = hash_as (C.answers checks.old).hash chain.now.first.now in
        let star = hash (low (star_under encloser.now)) in
        IfOk result (λ v. option_map verdict_of v
        ≡ first_some (star_at star chain.now.rtype) chain.now.links.now) }
    ensures hashes { let fails = fails_as (C.answers checks.old).hash chain.now.first.now in
        let names = star_under encloser.now ∷ [] in
        HashesInTurn fails names (C.hashed checks.old) (C.hashed checks.new) result }
    ensures alike { C.hashed checks.new + count.old ≡ C.hashed checks.old + count.new }
    ensures others { C.verified checks.new ≡ C.verified checks.old }
    ensures none { NoneVerified C.agrees C.asked_only checks.old checks.new }
    ensures same { C.answers checks.new ≡ C.answers checks.old }
{
    let star = hash_wildcard(chain, checks, count, octets, encloser)?;
    Ok(first_star_at(chain.links, &star, chain.rtype))
}

/// What links that cover the next closer name prove of a name, from its closest encloser.
///
/// Without a look at the next closer name an ancestor would pass for the closest encloser, and
/// names below it for none (RFC 5155, 8.3).
fn by_next_closer<C: Checks>(
    chain: &HashChain,
    checks: &mut C,
    count: &mut u32,
    octets: &mut Vec<u8>,
    closer: &NameWithHash,
    encloser: &Name<&[u8]>,
) -> Result<Option<Verdict>, HashError>
    requires room { count.old + 1 < 2 ^ 32 }
    requires hash { let hash = hash_as (C.answers checks.old).hash chain.now.first.now in
        closer.now.hash.items ≡ hash (low closer.now.name) }
    ensures verdict { let hash = hash_as (C.answers checks.old).hash chain.now.first.now in
        let links = chain.now.links.now in
        IfOk result (λ v. option_map verdict_of v ≡ first_some
        (beyond hash encloser.now chain.now.rtype links closer.now.hash.items) links) }
    ensures hashes { let fails = fails_as (C.answers checks.old).hash chain.now.first.now in
        let links = chain.now.links.now in
        let names = hashed_beyond closer.now.hash.items encloser.now links in
        HashesInTurn fails names (C.hashed checks.old) (C.hashed checks.new) result }
    ensures alike { C.hashed checks.new + count.old ≡ C.hashed checks.old + count.new }
    ensures others { C.verified checks.new ≡ C.verified checks.old }
    ensures none { NoneVerified C.agrees C.asked_only checks.old checks.new }
    ensures same { C.answers checks.new ≡ C.answers checks.old }
{
    if !is_denied(chain.links, &closer.hash) {
        return Ok(left_open(chain.links, &closer.hash));
    }
    match at_wildcard(chain, checks, count, octets, encloser)? {
        None => Ok(left_open(chain.links, &closer.hash)),
        found => Ok(found),
    }
}

/// What links prove of a name from its closest encloser, which one of them matches, and the next
/// closer name below it.
fn from_encloser<C: Checks>(
    chain: &HashChain,
    checks: &mut C,
    count: &mut u32,
    octets: &mut Vec<u8>,
    closer: &NameWithHash,
    encloser: &NameWithHash,
) -> Result<Option<Verdict>, HashError>
    requires room { count.old + 1 < 2 ^ 32 }
    requires closer { let hash = hash_as (C.answers checks.old).hash chain.now.first.now in
        closer.now.hash.items ≡ hash (low closer.now.name) }
    requires encloser { let hash = hash_as (C.answers checks.old).hash chain.now.first.now in
        encloser.now.hash.items ≡ hash (low encloser.now.name) }
    ensures verdict { let hash = hash_as (C.answers checks.old).hash chain.now.first.now in
        let apex = chain.now.apex.now in let t = chain.now.rtype in
        let links = chain.now.links.now in
        IfOk result (λ v. option_map verdict_of v
        ≡ enclosed apex hash closer.now.name encloser.now.name t links) }
    ensures hashes { let answers = (C.answers checks.old).hash in
        let hash = hash_as answers chain.now.first.now in
        let fails = fails_as answers chain.now.first.now in
        let apex = chain.now.apex.now in let links = chain.now.links.now in
        let names = hashed_enclosed apex hash closer.now.name encloser.now.name links in
        HashesInTurn fails names (C.hashed checks.old) (C.hashed checks.new) result }
    ensures alike { C.hashed checks.new + count.old ≡ C.hashed checks.old + count.new }
    ensures others { C.verified checks.new ≡ C.verified checks.old }
    ensures none { NoneVerified C.agrees C.asked_only checks.old checks.new }
    ensures same { C.answers checks.new ≡ C.answers checks.old }
{
    let cut = first_cut_above(chain.apex, chain.links, &encloser.name, &encloser.hash);
    if let Some(verdict) = cut {
        return Ok(Some(verdict));
    }
    if !is_enclosed(chain.links, &encloser.hash) {
        return Ok(None);
    }
    by_next_closer(chain, checks, count, octets, closer, &encloser.name)
}

/// What links prove of a name that none of them matches, by its parents: each is hashed, up to the
/// apex, until one is matched.
///
/// An ancestor further up would let another wildcard than the name's speak for it (RFC 5155, 8.3).
fn by_closest_encloser<C: Checks>(
    chain: &HashChain,
    checks: &mut C,
    count: &mut u32,
    octets: &mut Vec<u8>,
    below: &NameWithHash,
) -> Result<Option<Verdict>, HashError>
    requires room { count.old + length below.now.name + 1 < 2 ^ 32 }
    requires hash { let hash = hash_as (C.answers checks.old).hash chain.now.first.now in
        below.now.hash.items ≡ hash (low below.now.name) }
    ensures verdict { let hash = hash_as (C.answers checks.old).hash chain.now.first.now in
        let apex = chain.now.apex.now in let t = chain.now.rtype in
        let links = chain.now.links.now in
        IfOk result (λ v. option_map verdict_of v ≡ by_closest_encloser apex hash below.now.name t links) }
    ensures hashes { let answers = (C.answers checks.old).hash in
        let hash = hash_as answers chain.now.first.now in
        let fails = fails_as answers chain.now.first.now in
        let apex = chain.now.apex.now in let links = chain.now.links.now in
        let names = hashed_climbing apex hash below.now.name links in
        HashesInTurn fails names (C.hashed checks.old) (C.hashed checks.new) result }
    ensures alike { C.hashed checks.new + count.old ≡ C.hashed checks.old + count.new }
    ensures others { C.verified checks.new ≡ C.verified checks.old }
    ensures none { NoneVerified C.agrees C.asked_only checks.old checks.new }
    ensures same { C.answers checks.new ≡ C.answers checks.old }
{
    if below.name.name_eq(chain.apex) {
        return Ok(None);
    }
    let Some(parent) = below.name.parent() else {
        return Ok(None);
    };
    let parent = hash_name(chain, checks, count, octets, parent)?;
    if is_matched(chain.links, &parent.hash) {
        return from_encloser(chain, checks, count, octets, below, &parent);
    }
    by_closest_encloser(chain, checks, count, octets, &parent)
}

/// What links prove of a name: one that matches it tells, or else those that match and cover its
/// ancestors.
pub(crate) fn hash_denied<C: Checks>(
    chain: &HashChain,
    checks: &mut C,
    count: &mut u32,
    octets: &mut Vec<u8>,
    name: &Name<Vec<u8>>,
) -> Result<Option<Verdict>, HashError>
    requires room { count.old + length name.now + 2 < 2 ^ 32 }
    ensures verdict { let hash = hash_as (C.answers checks.old).hash chain.now.first.now in
        let apex = chain.now.apex.now in let t = chain.now.rtype in
        let links = chain.now.links.now in
        IfOk result (λ v. option_map verdict_of v ≡ hash_denied apex hash name.now t links) }
    ensures hashes { let answers = (C.answers checks.old).hash in
        let hash = hash_as answers chain.now.first.now in
        let fails = fails_as answers chain.now.first.now in
        let apex = chain.now.apex.now in let links = chain.now.links.now in
        let names = hashed_denied apex hash name.now links in
        HashesInTurn fails names (C.hashed checks.old) (C.hashed checks.new) result }
    ensures alike { C.hashed checks.new + count.old ≡ C.hashed checks.old + count.new }
    ensures others { C.verified checks.new ≡ C.verified checks.old }
    ensures none { NoneVerified C.agrees C.asked_only checks.old checks.new }
    ensures same { C.answers checks.new ≡ C.answers checks.old }
{
    let name = hash_name(chain, checks, count, octets, name.for_ref())?;
    if is_matched(chain.links, &name.hash) {
        let verdict = first_at_hash(chain.apex, chain.links, &name.name, &name.hash, chain.rtype);
        return Ok(verdict);
    }
    by_closest_encloser(chain, checks, count, octets, &name)
}

/// What a wildcard's RRset proves of a name whose next closer name has a hash.
///
/// Without a gap at the next closer name it would answer for a name that exists (RFC 5155, 8.8).
fn expanded_at(links: &[HashLink], rrset: Rrset, hash: &[u8]) -> Option<Verdict>
    ensures { option_map verdict_of result
        ≡ first_some (hash_expanded_by hash.now rrset) links.now }
{
    if is_denied(links, hash) {
        Some(Verdict::StarRecords(rrset.items))
    } else {
        left_open(links, hash)
    }
}

/// What a wildcard's RRset proves of a name: the next closer name, one label longer than the
/// wildcard's parent, must not exist.
pub(crate) fn hash_expanded<C: Checks>(
    chain: &HashChain,
    checks: &mut C,
    count: &mut u32,
    octets: &mut Vec<u8>,
    rrset: Rrset,
    name: &Name<Vec<u8>>,
) -> Result<Option<Verdict>, HashError>
    requires room { count.old + 1 < 2 ^ 32 }
    ensures verdict { let hash = hash_as (C.answers checks.old).hash chain.now.first.now in
        IfOk result (λ v. option_map verdict_of v
        ≡ hash_expanded hash name.now rrset chain.now.links.now) }
    ensures hashes { let fails = fails_as (C.answers checks.old).hash chain.now.first.now in
        let names = last_labels (rrset.labels + 1) name.now ∷ [] in
        HashesInTurn fails names (C.hashed checks.old) (C.hashed checks.new) result }
    ensures alike { C.hashed checks.new + count.old ≡ C.hashed checks.old + count.new }
    ensures others { C.verified checks.new ≡ C.verified checks.old }
    ensures none { NoneVerified C.agrees C.asked_only checks.old checks.new }
    ensures same { C.answers checks.new ≡ C.answers checks.old }
{
    let skipped = name.depth().saturating_sub(usize::from(rrset.labels) + 1);
    let hash = hash_behind(chain, checks, count, octets, name, skipped)?;
    Ok(expanded_at(chain.links, rrset, &hash))
}
