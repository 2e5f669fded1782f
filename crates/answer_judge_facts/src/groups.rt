//! RRsets of a message and the signatures that verify them (RFC 4035, 5.3).
ghost use Rattle.std.specs.Prelude.{◌≡◌, ◌==◌, ◌&&◌, ◌+◌, ◌<◌, ◌≤◌, ◌^◌, [], ◌∷◌, true, false};
ghost use Rattle.std.specs.Prelude.{None, IfOk, IfSome, OnOk, MatchOption, length, map, filter};
ghost use Rattle.std.specs.Prelude.{get_or};
ghost use Rattle.std.specs.Cow.{cow_slice_items};
ghost use Rattle.definitions.specs.Limits.{pointer_limit};
ghost use Rattle.messages.specs.Record.{fields_read, spelled};
ghost use Rattle.answer_judge_keys.specs.Trusted.{is_signature};
ghost use Rattle.answer_judge_facts.specs.Verified.{datum_of, rrset_in};
ghost use Rattle.answer_judge_facts.specs.declared.groups.SignedRrset.{SignedRrset};
ghost use Rattle.answer_judge_facts.specs.Marked.{held_by, is_of, data_in, marked, signed_of};
ghost use Rattle.answer_judge_facts.specs.Marked.{signs_group, is_chain_type, is_tried_in};
ghost use Rattle.answer_judge_facts.specs.Marked.{tries_in};
ghost use Rattle.answer_judge_facts.specs.Ranked.{AreRanked, place_of, sought_cmp, type_rank};
ghost use Rattle.messages.specs.Message.{if_true};
ghost use Rattle.answer_judge_facts.specs.Counted.{can_try, one_if};
ghost use Rattle.answer_judge_facts.specs.Asked.{PassesGroups, PassesOver, PassesRecord};
ghost use Rattle.answer_scheme.specs.Answers.{EachAgreeing, SignatureTest};
ghost use Rattle.std.specs.Option.{option_map};
ghost use Rattle.std.specs.List.{list_any};
ghost use Rattle.definitions.specs.Name.{same};
ghost use Rattle.definitions.specs.Zone.{sorted_data};
ghost use Rattle.definitions.specs.Signing.{signed_octets};

use answer_judge_keys::check_run::CheckRun;
use answer_judge_keys::key_index::LINEAR_SEARCH_LIMIT;
use answer_judge_keys::order::sort_data;
use answer_judge_keys::trust::{GroupOwner, Signature, Trust};
use answer_scheme::checks::Checks;
use messages::names::ToName;
use messages::signed::compose_signed_octets;
use messages::{Owner, ViewRecord};
use names_rdata::rtype::Rtype;
use numbers::algorithm::SecurityAlgorithm;
use numbers::class::Class;
use numbers::ttl::Ttl;
use std::alloc::{AllocError, Global};
use std::borrow::CowSlice;
use std::cmp::Ordering;

/// What a signature says beside the RRset that it covers and the name that signs it (RFC 4034,
/// 3.1).
#[derive(Clone, Copy, Debug)]
pub struct Signed {
    pub algorithm: SecurityAlgorithm,
    pub labels: u8,
    pub ttl: Ttl,
    pub expiration: u32,
    pub inception: u32,
    pub tag: u16,
}

/// An RRset of a message: its canonical data ascending, each once, and what the first signature
/// says that verified it.
#[derive(Debug, Drop)]
pub struct SignedRrset<'a> {
    pub owner: GroupOwner<'a>,
    pub rtype: Rtype,
    pub items: Vec<CowSlice<'a, u8>>,
    pub verified: Option<Signed>,
}

impl<'a> SignedRrset<'a> {
    /// An RRset of some canonical data, which nothing verified yet: they are put in order, each
    /// once.
    pub(crate) fn unverified(
        owner: GroupOwner<'a>,
        rtype: Rtype,
        items: Vec<CowSlice<'a, u8>>,
    ) -> Self
        ensures owner { result.owner ≡ owner.entry }
        ensures rtype { result.rtype ≡ rtype }
        ensures items { data_in result ≡ sorted_data (map cow_slice_items items.entry.items) }
        ensures unverified { result.verified ≡ None }
    {
        let mut items = items;
        sort_data(&mut items);
        SignedRrset {
            owner,
            rtype,
            items,
            verified: None,
        }
    }

    /// Whether the group has a type and an owner, up to case.
    pub fn is_of(&self, owner: &Owner, rtype: Rtype) -> bool
        ensures { result ≡ ((self.now.rtype == rtype) && same owner.now self.now.owner) }
    {
        self.rtype == rtype && owner.name().name_eq(&self.owner)
    }

    /// How the group stands to an owner and a type in the order of groups: by type, records of
    /// chains first, then by owner in canonical order.
    fn sought_cmp(&self, owner: &Owner, rtype: Rtype) -> Ordering
        ensures { result ≡ sought_cmp (place_of self.now) (rtype, owner.now) }
    {
        let order = type_rank(self.rtype).cmp(&type_rank(rtype));
        if order.is_ne() {
            return order;
        }
        self.owner.name_cmp(owner.name())
    }
}

/// The rank of a type: records of chains come first.
fn type_rank(rtype: Rtype) -> u32
    ensures { result ≡ type_rank rtype }
{
    let number = u32::from(rtype.to_int());
    if is_chain_type(rtype) {
        return number;
    }
    number + 65536
}

/// Whether records of a type are those of a chain, NSEC or NSEC3.
pub fn is_chain_type(rtype: Rtype) -> bool
    ensures { result ≡ is_chain_type rtype }
{
    rtype == Rtype::NSEC || rtype == Rtype::NSEC3
}

/// The RRset of an owner and a type: what reads of the records of class IN.
pub fn read_group<'a>(
    alloc: Global,
    message: &'a [u8],
    records: &[ViewRecord],
    owner: GroupOwner<'a>,
    rtype: Rtype,
) -> Result<SignedRrset<'a>, AllocError>
    ensures owner { IfOk result (λ g. g.owner ≡ owner.entry) }
    ensures rtype { IfOk result (λ g. g.rtype ≡ rtype) }
    ensures items { let rs = map spelled records.now in
        IfOk result (λ g. data_in g ≡ rrset_in pointer_limit message.now rs owner.entry rtype) }
    ensures unverified { IfOk result (λ g. g.verified ≡ None) }
{
    let mut items = Vec::new(alloc);
    for record in records {
        if let Some(item) = datum_of(alloc, message, record, &owner, rtype)? {
            items.push(item)?;
        }
    }
    Ok(SignedRrset::unverified(owner, rtype, items))
}

/// The canonical data of a record of an owner, up to case, and a type, class IN; None where they do
/// not read.
fn datum_of<'m>(
    alloc: Global,
    message: &'m [u8],
    view: &ViewRecord,
    owner: &GroupOwner,
    rtype: Rtype,
) -> Result<Option<CowSlice<'m, u8>>, AllocError>
    ensures { IfOk result (λ o. option_map cow_slice_items o
        ≡ datum_of pointer_limit message.now owner.now rtype (spelled view.now)) }
{
    if view.class == Class::IN && view.rtype == rtype && view.owner.name().name_eq(owner) {
        return view.canonical_cow(alloc, message);
    }
    Ok(None)
}

/// Tries the signatures of a message in order, each on its group until one verifies it.
pub fn verify_groups<C: Checks>(
    message: &[u8],
    records: &[ViewRecord],
    trust: &Trust,
    groups: &mut [SignedRrset],
    check_run: &mut CheckRun<C>,
) -> Result<(), AllocError>
    requires room { check_run.old.count + length records.now < 2 ^ 32 }
    requires ranked { AreRanked groups.old }
    ensures marked { EachAgreeing (C.answers check_run.old.checks.now)
        (C.agrees check_run.new.checks.now) (λ a. let w = held_by a trust.now in
        let rs = map spelled records.now in
        IfOk result (λ _. groups.new ≡ map (marked w message.now rs) groups.old)) }
    ensures tried { EachAgreeing (C.answers check_run.old.checks.now)
        (C.agrees check_run.new.checks.now) (λ a. let w = held_by a trust.now in
        let tried = tries_in w message.now groups.old (map spelled records.now) in
        IfOk result (λ _. check_run.new.count ≡ check_run.old.count + tried)) }
    ensures agrees { (test : SignatureTest) → C.agrees check_run.new.checks.now test
        → C.agrees check_run.old.checks.now test }
    ensures asked { (test : SignatureTest) → let a = C.answers check_run.old.checks.now in
        let m = message.now in let rs = map spelled records.now in
        PassesGroups test (held_by a trust.now) m groups.old rs
        → C.asked_only check_run.old.checks.now test → C.asked_only check_run.new.checks.now test }
    ensures counted { C.verified check_run.new.checks.now + check_run.old.count
        ≡ C.verified check_run.old.checks.now + check_run.new.count }
    ensures bound { let rs = map spelled records.now in
        check_run.new.count ≤ check_run.old.count + length (filter is_signature rs) }
    ensures few { check_run.new.count ≤ check_run.old.count + length records.now }
    ensures hashed { C.hashed check_run.new.checks.now ≡ C.hashed check_run.old.checks.now }
    ensures same { C.answers check_run.new.checks.now ≡ C.answers check_run.old.checks.now }
    ensures same_checks { check_run.new.checks.ghost_name ≡ check_run.old.checks.ghost_name }
{
    for record in records {
        if record.rtype == Rtype::RRSIG {
            verify_record(message, record, trust, groups, check_run)?;
        }
    }
    Ok(())
}

/// Tries a signature on its group, unless one verified that before. Where no group is sought that
/// it may verify, no more than the covered type is read of it.
fn verify_record<C: Checks>(
    message: &[u8],
    view: &ViewRecord,
    trust: &Trust,
    groups: &mut [SignedRrset],
    check_run: &mut CheckRun<C>,
) -> Result<(), AllocError>
    requires room { check_run.old.count + 1 < 2 ^ 32 }
    requires signature { is_signature (spelled view.now) ≡ true }
    requires ranked { AreRanked groups.old }
    ensures marked { EachAgreeing (C.answers check_run.old.checks.now)
        (C.agrees check_run.new.checks.now) (λ a. let w = held_by a trust.now in
        let r = spelled view.now in
        IfOk result (λ _. groups.new ≡ map (marked w message.now (r ∷ [])) groups.old)) }
    ensures tried { EachAgreeing (C.answers check_run.old.checks.now)
        (C.agrees check_run.new.checks.now) (λ a. let w = held_by a trust.now in
        let is_tried = is_tried_in w message.now groups.old (spelled view.now) in
        IfOk result (λ _. check_run.new.count ≡ check_run.old.count + one_if is_tried)) }
    ensures agrees { (test : SignatureTest) → C.agrees check_run.new.checks.now test
        → C.agrees check_run.old.checks.now test }
    ensures asked { (test : SignatureTest) → let a = C.answers check_run.old.checks.now in
        PassesRecord test (held_by a trust.now) message.now groups.old (spelled view.now)
        → C.asked_only check_run.old.checks.now test → C.asked_only check_run.new.checks.now test }
    ensures counted { C.verified check_run.new.checks.now + check_run.old.count
        ≡ C.verified check_run.old.checks.now + check_run.new.count }
    ensures bound { check_run.new.count ≤ check_run.old.count + 1 }
    ensures hashed { C.hashed check_run.new.checks.now ≡ C.hashed check_run.old.checks.now }
    ensures same { C.answers check_run.new.checks.now ≡ C.answers check_run.old.checks.now }
    ensures same_checks { check_run.new.checks.ghost_name ≡ check_run.old.checks.ghost_name }
{
    if view.class != Class::IN {
        return Ok(());
    }
    let Some(covered) = view.covered_type(message) else {
        return Ok(());
    };
    let Some(place) = place_of(groups, &view.owner, covered) else {
        return Ok(());
    };
    if groups[place].verified.is_some() {
        return Ok(());
    }
    let Some(signature) = view.signature(message) else {
        return Ok(());
    };
    let group = &mut groups[place];
    group.verified = verifies(&signature, trust, group, check_run)?;
    Ok(())
}

/// The place of a group of an owner and a type, among groups in their order.
pub fn place_of(groups: &[SignedRrset], owner: &Owner, rtype: Rtype) -> Option<usize>
    requires { AreRanked groups.now }
    ensures within { IfSome result (λ i. i < length groups.now) }
    ensures found { let is = is_of owner.now rtype in
        MatchOption result (list_any is groups.now ≡ false)
        (λ i. (g : SignedRrset) → g ≡ get_or groups.now i g → is g ≡ true) }
{
    if groups.len() <= LINEAR_SEARCH_LIMIT {
        return first_place(groups, owner, rtype);
    }
    groups
        .binary_search_by(|group| group.sought_cmp(owner, rtype))
        .ok()
}

/// The place of the first group of an owner and type, found by looking through all.
fn first_place(groups: &[SignedRrset], owner: &Owner, rtype: Rtype) -> Option<usize>
    ensures within { IfSome result (λ i. i < length groups.now) }
    ensures found { let is = is_of owner.now rtype in
        MatchOption result (list_any is groups.now ≡ false)
        (λ i. (g : SignedRrset) → g ≡ get_or groups.now i g → is g ≡ true) }
{
    for (i, group) in groups.iter().enumerate() {
        if group.is_of(owner, rtype) {
            return Some(i);
        }
    }
    None
}

/// What a signature says, if it verifies its group (RFC 4035, 5.3.1 and 5.3.3).
fn verifies<C: Checks>(
    signature: &Signature,
    trust: &Trust,
    group: &SignedRrset,
    check_run: &mut CheckRun<C>,
) -> Result<Option<Signed>, AllocError>
    requires room { check_run.old.count + 1 < 2 ^ 32 }
    ensures signs { EachAgreeing (C.answers check_run.old.checks.now)
        (C.agrees check_run.new.checks.now) (λ a. let w = held_by a trust.now in
        let f = fields_read signature.now in
        let is_signed = signs_group w group.now f signature.now.signature in
        IfOk result (λ o. o ≡ if_true is_signed (signed_of f))) }
    ensures tried { EachAgreeing (C.answers check_run.old.checks.now)
        (C.agrees check_run.new.checks.now) (λ a. let w = held_by a trust.now in
        let f = fields_read signature.now in
        let is_tried = can_try w group.now.owner (data_in group.now) f in
        IfOk result (λ _. check_run.new.count ≡ check_run.old.count + one_if is_tried)) }
    ensures agrees { (test : SignatureTest) → C.agrees check_run.new.checks.now test
        → C.agrees check_run.old.checks.now test }
    ensures asked { (test : SignatureTest) → let a = C.answers check_run.old.checks.now in
        let w = held_by a trust.now in let f = fields_read signature.now in let g = group.now in
        (can_try w g.owner (data_in g) f ≡ true
        → PassesOver test w.keys f signature.now.signature g.owner (data_in g))
        → C.asked_only check_run.old.checks.now test → C.asked_only check_run.new.checks.now test }
    ensures counted { C.verified check_run.new.checks.now + check_run.old.count
        ≡ C.verified check_run.old.checks.now + check_run.new.count }
    ensures bound { check_run.new.count ≤ check_run.old.count + 1 }
    ensures hashed { C.hashed check_run.new.checks.now ≡ C.hashed check_run.old.checks.now }
    ensures same { C.answers check_run.new.checks.now ≡ C.answers check_run.old.checks.now }
    ensures same_checks { check_run.new.checks.ghost_name ≡ check_run.old.checks.ghost_name }
{
    if group.items.is_empty() || !trust.is_due(signature, &group.owner) {
        return Ok(None);
    }
    let Some(key) = trust.key(signature) else {
        return Ok(None);
    };
    write_signed(check_run.alloc, signature, group, check_run.octets)?;
    check_run.count += 1;
    if check_run
        .checks
        .verify(key.dnskey(), check_run.octets, *signature.signature())
    {
        return Ok(Some(signed_of(signature)));
    }
    Ok(None)
}

/// What a signature says beside the RRset and the name.
fn signed_of(signature: &Signature) -> Signed
    ensures { result ≡ signed_of (fields_read signature.now) }
{
    Signed {
        algorithm: signature.algorithm(),
        labels: signature.labels(),
        ttl: signature.original_ttl(),
        expiration: signature.expiration().into_int(),
        inception: signature.inception().into_int(),
        tag: signature.key_tag(),
    }
}

/// Writes what a signature of a group is made over (RFC 4034, 3.1.8.1), in the place of what was
/// there.
fn write_signed(
    alloc: Global,
    signature: &Signature,
    group: &SignedRrset,
    octets: &mut Vec<u8>,
) -> Result<(), AllocError>
    ensures { let f = fields_read signature.now in
        let signed = signed_octets f group.now.owner 1 (data_in group.now) in
        OnOk result (octets.new.items ≡ signed) }
{
    octets.clear();
    compose_signed_octets(
        alloc,
        signature.proto(),
        &group.owner,
        Class::IN,
        &group.items,
        octets,
    )
}
