//! What follows from verified facts (RFC 4035, 5; RFC 4592; RFC 5155, 8).
ghost use Rattle.std.specs.Prelude.{◌≡◌, ◌⊎◌, ◌+◌, ◌<◌, ◌≤◌, ◌^◌, length, true, false, IfOk, OnOk};
ghost use Rattle.std.specs.Prelude.{IsErrOf};
ghost use Rattle.std.specs.List.{list_any};
ghost use Rattle.std.specs.Option.{option_map};
ghost use Rattle.denial_laws.specs.Deciding.{decided, hashed};
ghost use Rattle.answer_judge_rules.specs.Hashes.{fails_among, hash_among, hashed_for};
ghost use Rattle.answer_judge_rules.specs.Hashing.{by_hashes, by_names, fails_as, hash_as};
ghost use Rattle.answer_judge_rules.specs.Hashing.{hashed_by, HashesInTurn};
ghost use Rattle.answer_judge_rules.specs.Rules.{verdict_of};
ghost use Rattle.answer_scheme.specs.Answers.{NoneVerified};

use crate::asked::Asked;
use crate::expanded::expanded;
pub use crate::facts::{Facts, HashLink, NsecLink, Rrset};
use crate::hashed::{HashChain, hash_denied, hash_expanded};
use crate::links::denied;
use crate::verdict::Verdict;
use answer_scheme::checks::Checks;
use denial_nsec3_hash::hasher::HashError;
use messages::names::{Name, ZoneName, is_at_or_above};
use std::alloc::{AllocError, Global};

/// The verdict on a name and a type that verified facts prove; None where they prove none.
///
/// Facts prove no verdict on names outside the zone: beside an apex that is a wildcard name the
/// last record would cover them. A verified RRset answers at once, or, expanded, beside a link
/// alone: no other rule is tried then (RFC 4035, 5.3.4). Names are hashed beside links of a chain
/// of hashes alone, in order, until one fails; such a link is in use wherever there is one.
/// `hashes` becomes how many were hashed, whatever comes of it.
pub fn decide<C: Checks>(
    alloc: Global,
    asked: &Asked,
    facts: Facts,
    checks: &mut C,
    hashes: &mut u32,
) -> Result<Option<Verdict>, HashError>
    ensures verdict { let hash = (C.answers checks.old).hash in let f = facts.entry in
        let q = asked.now in let hashes = hash_among hash f.hash_links in IfOk result
        (λ v. option_map verdict_of v ≡ decided q.apex.now hashes f q.name.now q.rtype) }
    ensures hashed { let hash = (C.answers checks.old).hash in let f = facts.entry in
        let names = hashed_for hash asked.now.apex.now f asked.now.name.now in
        OnOk result (list_any (fails_among hash f.hash_links) names ≡ false) }
    ensures failed { let hash = (C.answers checks.old).hash in let f = facts.entry in
        let names = hashed_for hash asked.now.apex.now f asked.now.name.now in
        IsErrOf result HashError.Failed
        → list_any (fails_among hash f.hash_links) names ≡ true }
    ensures counted { let hash = (C.answers checks.old).hash in
        let names = hashed_for hash asked.now.apex.now facts.entry asked.now.name.now in
        IsErrOf result HashError.Memory
        ⊎ (C.hashed checks.new ≡ C.hashed checks.old + length names) }
    ensures most { let hash = (C.answers checks.old).hash in
        let names = hashed_for hash asked.now.apex.now facts.entry asked.now.name.now in
        C.hashed checks.new ≤ C.hashed checks.old + length names }
    ensures least { C.hashed checks.old ≤ C.hashed checks.new }
    ensures few { C.hashed checks.new ≤ C.hashed checks.old + length asked.now.name.now + 2 }
    ensures told { C.hashed checks.new ≡ C.hashed checks.old + hashes.new }
    ensures others { C.verified checks.new ≡ C.verified checks.old }
    ensures none { NoneVerified C.agrees C.asked_only checks.old checks.new }
    ensures same { C.answers checks.new ≡ C.answers checks.old }
{
    asked.name.keeps();
    *hashes = 0;
    by_rules(alloc, asked, facts, checks, hashes)
}

/// The verdict by the rules alone, which say nothing of names outside the zone.
fn by_rules<C: Checks>(
    alloc: Global,
    asked: &Asked,
    facts: Facts,
    checks: &mut C,
    count: &mut u32,
) -> Result<Option<Verdict>, HashError>
    requires room { count.old + length asked.now.name.now + 2 < 2 ^ 32 }
    ensures verdict { let f = facts.entry in let q = asked.now in
        let hash = hash_among (C.answers checks.old).hash f.hash_links in IfOk result
        (λ v. option_map verdict_of v ≡ decided q.apex.now hash f q.name.now q.rtype) }
    ensures hashes { let f = facts.entry in let answers = (C.answers checks.old).hash in
        let q = asked.now in let hash = hash_among answers f.hash_links in
        let names = hashed q.apex.now hash f q.name.now in
        let fails = fails_among answers f.hash_links in
        HashesInTurn fails names (C.hashed checks.old) (C.hashed checks.new) result }
    ensures alike { C.hashed checks.new + count.old ≡ C.hashed checks.old + count.new }
    ensures others { C.verified checks.new ≡ C.verified checks.old }
    ensures none { NoneVerified C.agrees C.asked_only checks.old checks.new }
    ensures same { C.answers checks.new ≡ C.answers checks.old }
{
    if !is_at_or_above(asked.apex, asked.name) {
        return Ok(None);
    }
    let Facts {
        rrset,
        links,
        hash_links,
    } = facts;
    let Some((first, _)) = hash_links.split_first() else {
        return Ok(by_links(alloc, asked, rrset, &links)?);
    };
    let chain = HashChain {
        alloc,
        apex: asked.apex,
        first,
        links: &hash_links,
        rtype: asked.rtype,
    };
    by_hash_links(&chain, checks, count, rrset, asked.name)
}

/// The verdict by links of names alone.
fn by_links(
    alloc: Global,
    asked: &Asked,
    rrset: Option<Rrset>,
    links: &[NsecLink],
) -> Result<Option<Verdict>, AllocError>
    ensures { let q = asked.now in IfOk result (λ v. option_map verdict_of v
        ≡ by_names q.apex.now rrset links.now q.name.now q.rtype) }
{
    match rrset {
        None => denied(alloc, asked, links),
        Some(rrset) => {
            if rrset.is_expanded(asked.name) {
                Ok(expanded(asked.apex, links, rrset, asked.name))
            } else {
                Ok(Some(Verdict::Records(rrset.items)))
            }
        }
    }
}

/// The verdict by links of hashes, of which there is at least one.
fn by_hash_links<C: Checks>(
    chain: &HashChain,
    checks: &mut C,
    count: &mut u32,
    rrset: Option<Rrset>,
    name: &Name<Vec<u8>>,
) -> Result<Option<Verdict>, HashError>
    requires room { count.old + length name.now + 2 < 2 ^ 32 }
    ensures verdict { let hash = hash_as (C.answers checks.old).hash chain.now.first.now in
        let apex = chain.now.apex.now in let links = chain.now.links.now in
        IfOk result (λ v. option_map verdict_of v
        ≡ by_hashes apex hash rrset links name.now chain.now.rtype) }
    ensures hashes { let answers = (C.answers checks.old).hash in
        let hash = hash_as answers chain.now.first.now in
        let fails = fails_as answers chain.now.first.now in
        let names = hashed_by chain.now.apex.now hash rrset chain.now.links.now name.now in
        HashesInTurn fails names (C.hashed checks.old) (C.hashed checks.new) result }
    ensures alike { C.hashed checks.new + count.old ≡ C.hashed checks.old + count.new }
    ensures others { C.verified checks.new ≡ C.verified checks.old }
    ensures none { NoneVerified C.agrees C.asked_only checks.old checks.new }
    ensures same { C.answers checks.new ≡ C.answers checks.old }
{
    let mut octets = Vec::with_capacity(chain.alloc, 255)?;
    match rrset {
        None => hash_denied(chain, checks, count, &mut octets, name),
        Some(rrset) => {
            if rrset.is_expanded(name) {
                hash_expanded(chain, checks, count, &mut octets, rrset, name)
            } else {
                Ok(Some(Verdict::Records(rrset.items)))
            }
        }
    }
}
