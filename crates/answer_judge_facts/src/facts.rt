//! From bytes to verified facts (RFC 4035, 5.3).
ghost use Rattle.std.specs.Prelude.{◌≡◌, ◌&&◌, ◌==◌, ◌+◌, ◌++◌, ◌<◌, ◌≤◌, ◌^◌, [], ◌∷◌, None, true};
ghost use Rattle.std.specs.Prelude.{false, IfOk, List, MatchOption, length, map, filter};
ghost use Rattle.std.specs.Cow.{cow_slice_items};
ghost use Rattle.definitions.specs.Limits.{pointer_limit};
ghost use Rattle.std.specs.List.{list_any, filter_map, AllByRecursion};
ghost use Rattle.messages.specs.Record.{spelled};
ghost use Rattle.answer_judge_keys.specs.Trusted.{is_signature};
ghost use Rattle.answer_judge_facts.specs.Asked.{Implies, is_tried_among};
ghost use Rattle.answer_judge_facts.specs.Validity.{answer_validity};
ghost use Rattle.answer_judge_facts.specs.VerifiedProof.{IsVerifiedProof};
ghost use Rattle.answer_scheme.specs.Answers.{EachAgreeing, SignatureTest};
ghost use Rattle.answer_judge_facts.specs.Sought.{answer_sought};
ghost use Rattle.answer_judge_facts.specs.Verified.{is_known_datum};
ghost use Rattle.std.specs.List.Sorted.{IsPermutation, IsSortedBy};
ghost use Rattle.std.specs.Ordering.{is_lt};
ghost use Rattle.answer_judge_facts.specs.Marked.{held_by, data_in, facts_by, is_proved};
ghost use Rattle.answer_judge_facts.specs.Marked.{is_chain_type, is_chain, is_record_of, has_place};
ghost use Rattle.answer_judge_facts.specs.Marked.{holds_one, AreShort, AreGathered, link_by};
ghost use Rattle.answer_judge_facts.specs.Marked.{hash_link_by, hash_link_of, rrset_verified};
ghost use Rattle.answer_judge_facts.specs.declared.groups.SignedRrset.{SignedRrset};
ghost use Rattle.answer_judge_facts.specs.Ranked.{AreRanked, AskedLast, IsRun, alike_len};
ghost use Rattle.answer_judge_facts.specs.Ranked.{are_alike, chain_cmp, run_data};

use crate::groups::{SignedRrset, is_chain_type, place_of, read_group, verify_groups};
use crate::times::are_unlike;
use crate::validity::{Validity, validity_of_groups};
use answer_judge_keys::check_run::CheckRun;
use answer_judge_keys::owner::{hash_spelled, spells_hash};
use answer_judge_keys::trust::Trust;
use answer_judge_rules::asked::Asked;
use answer_judge_rules::decide::{Facts, HashLink, NsecLink, Rrset};
use answer_judge_rules::verdict::DataList;
use answer_scheme::checks::Checks;
use messages::names::{Name, ToName, cow_name, is_at_or_above};
use messages::rdata::read_hashed_link;
use messages::{Owner, ViewRecord};
use names_rdata::rtype::Rtype;
use numbers::class::Class;
use std::alloc::{AllocError, Global};
use std::borrow::CowSlice;
use std::cmp::Ordering;

/// What signatures of an answer verify: facts, whether these signatures are not all of one
/// inception and one expiration, and how long what they verify lasts.
#[derive(Drop)]
pub struct Proof<'a> {
    pub facts: Facts<'a>,
    pub has_unlike_times: bool,
    pub validity: Validity,
}

/// What signatures of an answer verify: the RRset that was asked for, and records of chains, NSEC
/// and NSEC3.
pub fn read_facts<'a, C: Checks>(
    message: &'a [u8],
    records: &[ViewRecord<'a>],
    trust: &Trust,
    name: &Name<Vec<u8>>,
    rtype: Rtype,
    check_run: &mut CheckRun<C>,
) -> Result<Proof<'a>, AllocError>
    requires room { check_run.old.count + length records.now < 2 ^ 32 }
    requires other { is_chain_type rtype ≡ false }
    ensures proves { EachAgreeing (C.answers check_run.old.checks.now)
        (C.agrees check_run.new.checks.now) (λ a. let w = held_by a trust.now in
        let m = message.now in let rs = map spelled records.now in
        IfOk result (λ p. IsVerifiedProof w pointer_limit m rs name.now rtype p
        check_run.old.count check_run.new.count)) }
    ensures lasts { EachAgreeing (C.answers check_run.old.checks.now)
        (C.agrees check_run.new.checks.now) (λ a. let w = held_by a trust.now in
        let m = message.now in let rs = map spelled records.now in
        IfOk result (λ p. p.validity ≡ answer_validity w pointer_limit m rs name.now rtype)) }
    ensures agrees { (test : SignatureTest) → C.agrees check_run.new.checks.now test
        → C.agrees check_run.old.checks.now test }
    ensures asked { (test : SignatureTest) → let a = C.answers check_run.old.checks.now in
        let w = held_by a trust.now in let m = message.now in let rs = map spelled records.now in
        let sought = answer_sought pointer_limit m w.apex rs name.now rtype in
        Implies (is_tried_among w pointer_limit m sought [] rs) test
        → C.asked_only check_run.old.checks.now test → C.asked_only check_run.new.checks.now test }
    ensures counted { C.verified check_run.new.checks.now + check_run.old.count
        ≡ C.verified check_run.old.checks.now + check_run.new.count }
    ensures bound { let rs = map spelled records.now in
        check_run.new.count ≤ check_run.old.count + length (filter is_signature rs) }
    ensures hashed { C.hashed check_run.new.checks.now ≡ C.hashed check_run.old.checks.now }
    ensures same { C.answers check_run.new.checks.now ≡ C.answers check_run.old.checks.now }
    ensures same_checks { check_run.new.checks.ghost_name ≡ check_run.old.checks.ghost_name }
{
    let alloc = check_run.alloc;
    let chained = sorted_chain(alloc, records)?;
    let asked = Asked {
        apex: trust.apex,
        name,
        rtype,
    };
    let mut groups = sought_groups(alloc, &asked, message, records, &chained)?;
    verify_groups(message, records, trust, &mut groups, check_run)?;
    let has_unlike_times = are_unlike(&groups);
    let validity = validity_of_groups(message, records, &groups, trust.moment);
    let facts = facts_of_groups(alloc, trust.apex, message, records, groups)?;
    Ok(Proof {
        facts,
        has_unlike_times,
        validity,
    })
}

/// The RRsets that a judge seeks: those of chains' records in their order, behind them the one that
/// was asked for.
pub fn sought_groups<'r>(
    alloc: Global,
    asked: &Asked<'r>,
    message: &'r [u8],
    records: &[ViewRecord],
    chained: &'r [ViewRecord],
) -> Result<Vec<SignedRrset<'r>>, AllocError>
    requires moved { let rs = filter is_chain (map spelled records.now) in
        IsPermutation rs (map spelled chained.now) }
    requires sorted { IsSortedBy (λ a b. is_lt (chain_cmp a b)) (map spelled chained.now) }
    requires other { is_chain_type asked.now.rtype ≡ false }
    ensures { let rs = map spelled records.now in let q = asked.now in
        IfOk result (λ gs. AskedLast message.now q.apex.now rs q.name.now q.rtype gs.items) }
{
    let mut groups = read_chain_groups(alloc, asked.apex, message, chained)?;
    let owner = cow_name(alloc, asked.name)?;
    groups.push(read_group(alloc, message, records, owner, asked.rtype)?)?;
    Ok(groups)
}

/// What groups say that signatures were tried on: the last is the RRset that was asked for.
fn facts_of_groups<'a>(
    alloc: Global,
    apex: &Name<Vec<u8>>,
    message: &'a [u8],
    records: &[ViewRecord<'a>],
    groups: Vec<SignedRrset>,
) -> Result<Facts<'a>, AllocError>
    requires { AreRanked groups.items }
    ensures { let rs = map spelled records.now in
        (chains : List SignedRrset) (asked : SignedRrset) → groups.entry.items ≡ chains ++ asked ∷ []
        → IfOk result (λ f. f ≡ facts_by apex.now message.now rs chains asked) }
{
    let mut chains = groups;
    let rrset = rrset_of(alloc, chains.pop())?;
    let links = read_links(alloc, message, records, &chains)?;
    let hash_links = read_hash_links(alloc, apex, message, records, &chains)?;
    Ok(Facts::new(rrset, links, hash_links))
}

/// The data of a group and the label count of its signature, if one verified it.
///
/// The owner's count in its place would let a wildcard's RRset pass for one of the name, with no
/// proof that the name does not exist (RFC 4035, 5.3.4).
fn rrset_of(alloc: Global, group: Option<SignedRrset>) -> Result<Option<Rrset>, AllocError>
    ensures { IfOk result (λ found. found ≡ rrset_verified group.entry) }
{
    let Some(group) = group else {
        return Ok(None);
    };
    let SignedRrset {
        items,
        verified,
        ..
    } = group;
    let Some(signed) = verified else {
        return Ok(None);
    };
    let datas = DataList::new(owned_data(alloc, items)?);
    Ok(Some(Rrset::new(datas, signed.labels)))
}

/// Data with octets of their own.
fn owned_data(alloc: Global, items: Vec<CowSlice<u8>>) -> Result<Vec<Vec<u8>>, AllocError>
    ensures { IfOk result (λ v. map (λ d. d.items) v.items
        ≡ map cow_slice_items items.entry.items) }
{
    let mut owned = Vec::with_capacity(alloc, items.len())?;
    for item in items {
        owned.push(item.into_owned(alloc)?)?;
    }
    Ok(owned)
}

/// The records of chains, NSEC and NSEC3, by type and by owner in canonical order.
pub fn sorted_chain<'a>(
    alloc: Global,
    records: &[ViewRecord<'a>],
) -> Result<Vec<ViewRecord<'a>>, AllocError>
    ensures moved { let rs = filter is_chain (map spelled records.now) in
        IfOk result (λ v. IsPermutation rs (map spelled v.items)) }
    ensures sorted { IfOk result
        (λ v. IsSortedBy (λ a b. is_lt (chain_cmp a b)) (map spelled v.items)) }
{
    let mut chained = chain_records(alloc, records)?;
    chained.sort_by(|a, b| chain_cmp(a, b))?;
    Ok(chained)
}

/// The records of chains, in the order of the message.
fn chain_records<'a>(
    alloc: Global,
    records: &[ViewRecord<'a>],
) -> Result<Vec<ViewRecord<'a>>, AllocError>
    ensures { IfOk result
        (λ v. map spelled v.items ≡ filter is_chain (map spelled records.now)) }
{
    let mut chained = Vec::new(alloc);
    for record in records {
        if is_chain(record) {
            chained.push(record.copied())?;
        }
    }
    Ok(chained)
}

/// The order of chains' records: by type, and by owner in canonical order.
fn chain_cmp(a: &ViewRecord, b: &ViewRecord) -> Ordering
    ensures { result ≡ chain_cmp (spelled a.now) (spelled b.now) }
{
    let order = a.rtype.to_int().cmp(&b.rtype.to_int());
    if order.is_ne() {
        return order;
    }
    a.owner.name().name_cmp(b.owner.name())
}

/// The RRsets of one record of a chain, each where its chain's records stand, of records that are
/// in order.
pub fn read_chain_groups<'r>(
    alloc: Global,
    apex: &Name<Vec<u8>>,
    message: &'r [u8],
    chained: &'r [ViewRecord],
) -> Result<Vec<SignedRrset<'r>>, AllocError>
    requires chain { AllByRecursion (λ r. is_chain r ≡ true) (map spelled chained.now) }
    requires sorted { IsSortedBy (λ a b. is_lt (chain_cmp a b)) (map spelled chained.now) }
    ensures gathered { let rs = map spelled chained.now in
        IfOk result (λ gs. AreGathered message.now apex.now rs rs gs.items) }
    ensures ranked { IfOk result (λ gs. AreRanked gs.items) }
{
    let mut groups: Vec<SignedRrset<'r>> = Vec::new(alloc);
    let mut start = 0;
    while start < chained.len() {
        let first = &chained[start];
        let end = start + 1 + alike_len(first, &chained[start + 1..]);
        let found = read_chain_group(alloc, apex, message, first, &chained[start..end])?;
        if let Some(group) = found {
            groups.push(group)?;
        }
        start = end;
    }
    Ok(groups)
}

/// How many records from the front on have the owner, up to case, and the type of one.
fn alike_len(first: &ViewRecord, others: &[ViewRecord]) -> usize
    ensures value { result ≡ alike_len (spelled first.now) (map spelled others.now) }
    ensures bound { result ≤ length others.now }
{
    for (i, other) in others.iter().enumerate() {
        if !are_alike(first, other) {
            return i;
        }
    }
    others.len()
}

/// Whether two records have one type and one owner, up to case.
fn are_alike(a: &ViewRecord, b: &ViewRecord) -> bool
    ensures { result ≡ are_alike (spelled a.now) (spelled b.now) }
{
    a.rtype == b.rtype && a.owner.name().name_eq(b.owner.name())
}

/// The RRset of a chain's records of one owner, if it is one record and stands where the chain's
/// records do.
fn read_chain_group<'r>(
    alloc: Global,
    apex: &Name<Vec<u8>>,
    message: &'r [u8],
    first: &'r ViewRecord,
    run: &[ViewRecord],
) -> Result<Option<SignedRrset<'r>>, AllocError>
    requires chain { is_chain_type first.now.rtype ≡ true }
    requires alike { AllByRecursion (λ r. r.rtype ≡ first.now.rtype) run.now }
    ensures { let r = spelled first.now in
        let ds = run_data message.now (map spelled run.now) in
        let stands = has_place r.rtype apex.now r.owner && holds_one r.rtype ds in
        IfOk result (λ o. MatchOption o (stands ≡ false) (IsRun message.now apex.now r ds)) }
{
    if !has_place(apex, &first.owner, first.rtype) {
        return Ok(None);
    }
    let group = read_run(alloc, message, first, run)?;
    if holds_one(&group) {
        return Ok(Some(group));
    }
    Ok(None)
}

/// The RRset of records of one owner and type.
fn read_run<'r>(
    alloc: Global,
    message: &'r [u8],
    first: &'r ViewRecord,
    run: &[ViewRecord],
) -> Result<SignedRrset<'r>, AllocError>
    ensures owner { IfOk result (λ g. g.owner ≡ first.now.owner) }
    ensures rtype { IfOk result (λ g. g.rtype ≡ first.now.rtype) }
    ensures items { IfOk result (λ g. data_in g ≡ run_data message.now (map spelled run.now)) }
    ensures unverified { IfOk result (λ g. g.verified ≡ None) }
{
    let owner = cow_name(alloc, first.owner.name())?;
    let mut items = Vec::new(alloc);
    for record in run {
        if let Some(item) = record.canonical_cow(alloc, message)? {
            items.push(item)?;
        }
    }
    Ok(SignedRrset::unverified(owner, first.rtype, items))
}

/// Whether records of a chain's type may have an owner: NSEC at or below the apex, NSEC3 at a hash
/// under it.
///
/// A record of another zone, replayed, would speak for names that are not its own (RFC 4034, 4;
/// RFC 5155, 3).
fn has_place(apex: &Name<Vec<u8>>, owner: &Owner, rtype: Rtype) -> bool
    ensures { result ≡ has_place rtype apex.now owner.now }
{
    if rtype == Rtype::NSEC3 {
        return spells_hash(apex, owner);
    }
    is_at_or_above(apex, owner.name())
}

/// Whether a group of a chain's type is one record, for NSEC3 one that is known.
///
/// Two records at one owner are not of one chain: each would deny names that stand by the other.
fn holds_one(group: &SignedRrset) -> bool
    requires { AreShort group.now }
    ensures { result ≡ holds_one group.now.rtype (data_in group.now) }
{
    if group.rtype != Rtype::NSEC3 {
        return group.items.len() == 1;
    }
    match group.items.as_slice() {
        [item] => is_known(item),
        _ => false,
    }
}

/// Whether octets are data of an NSEC3 record whose algorithm is SHA-1 and whose flags are none but
/// opt-out.
///
/// A judge doesn't know what a record of another algorithm or flag says: taken as known, the record
/// would deny names by a meaning that the zone did not sign (RFC 5155, 8.1 and 8.2).
fn is_known(octets: &[u8]) -> bool
    requires { length octets.now ≤ 65535 }
    ensures { result ≡ is_known_datum octets.now }
{
    match read_hashed_link(octets) {
        None => false,
        Some(link) => link.hash_algorithm() == 1 && link.flags() < 2,
    }
}

/// Whether a record is one of a chain, NSEC or NSEC3, of class IN.
fn is_chain(view: &ViewRecord) -> bool
    ensures { result ≡ is_chain (spelled view.now) }
{
    is_chain_type(view.rtype) && view.class == Class::IN
}

/// Whether a record is of a type and of class IN.
fn is_record_of(view: &ViewRecord, rtype: Rtype) -> bool
    ensures { result ≡ is_record_of rtype (spelled view.now) }
{
    view.rtype == rtype && view.class == Class::IN
}

/// Whether an owner has one of the groups of a type, and that is verified.
pub fn is_verified(groups: &[SignedRrset], owner: &Owner, rtype: Rtype) -> bool
    requires ranked { AreRanked groups.now }
    ensures { result ≡ list_any (is_proved owner.now rtype) groups.now }
{
    match place_of(groups, owner, rtype) {
        None => false,
        Some(place) => groups[place].verified.is_some(),
    }
}

/// The NSEC records of verified groups.
fn read_links<'a>(
    alloc: Global,
    message: &'a [u8],
    records: &[ViewRecord<'a>],
    groups: &[SignedRrset],
) -> Result<Vec<NsecLink<'a>>, AllocError>
    requires { AreRanked groups.now }
    ensures { IfOk result
        (λ ls. ls.items ≡ filter_map (link_by message.now groups.now) (map spelled records.now)) }
{
    let mut links = Vec::new(alloc);
    for record in records {
        if is_record_of(record, Rtype::NSEC) && is_verified(groups, &record.owner, Rtype::NSEC) {
            if let Some(data) = record.link(message) {
                links.push(NsecLink::new(*record.owner.name(), data))?;
            }
        }
    }
    Ok(links)
}

/// The NSEC3 records of verified groups.
fn read_hash_links<'a>(
    alloc: Global,
    apex: &Name<Vec<u8>>,
    message: &'a [u8],
    records: &[ViewRecord<'a>],
    groups: &[SignedRrset],
) -> Result<Vec<HashLink<'a>>, AllocError>
    requires { AreRanked groups.now }
    ensures { let link = hash_link_by apex.now message.now groups.now in
        IfOk result (λ ls. ls.items ≡ filter_map link (map spelled records.now)) }
{
    let mut links = Vec::new(alloc);
    for record in records {
        if is_record_of(record, Rtype::NSEC3) && is_verified(groups, &record.owner, Rtype::NSEC3) {
            if let Some(link) = read_hash_link(alloc, apex, message, record)? {
                links.push(link)?;
            }
        }
    }
    Ok(links)
}

/// The link of an NSEC3 record: the hash that its owner spells, and its data.
fn read_hash_link<'a>(
    alloc: Global,
    apex: &Name<Vec<u8>>,
    message: &'a [u8],
    view: &ViewRecord<'a>,
) -> Result<Option<HashLink<'a>>, AllocError>
    ensures { IfOk result (λ o. o ≡ hash_link_of apex.now message.now (spelled view.now)) }
{
    let Some(hash) = hash_spelled(alloc, apex, &view.owner)? else {
        return Ok(None);
    };
    match view.hashed_link(message) {
        None => Ok(None),
        Some(data) => Ok(Some(HashLink::new(hash, data))),
    }
}
