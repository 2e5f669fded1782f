//! Whether a trusted key signs the keys of a DNSKEY answer (RFC 4035, 5.2).
ghost use Rattle.std.specs.Prelude.{◌≡◌, ◌+◌, ◌<◌, ◌≤◌, ◌^◌, [], IfOk, MatchOption, None, is_some};
ghost use Rattle.std.specs.Prelude.{length, map, filter, false};
ghost use Rattle.std.specs.Cow.{cow_slice_items};
ghost use Rattle.definitions.specs.Limits.{pointer_limit};
ghost use Rattle.definitions.specs.Dnskey.{dnskey_data};
ghost use Rattle.definitions.specs.Zone.{sorted_data};
ghost use Rattle.messages.specs.Record.{spelled};
ghost use Rattle.answer_judge_facts.specs.Asked.{Implies, is_tried_among};
ghost use Rattle.answer_judge_facts.specs.Counted.{tries};
ghost use Rattle.answer_scheme.specs.Answers.{EachAgreeing, SignatureTest};
ghost use Rattle.answer_judge_keys.specs.Trusted.{is_signature};
ghost use Rattle.answer_judge_facts.specs.Validity.{key_seconds, least_or_max};
ghost use Rattle.answer_judge_facts.specs.Marked.{held_by};
ghost use Rattle.answer_judge_facts.specs.Sought.{keys_sought};
ghost use Rattle.answer_judge_facts.specs.Verified.{is_verified};

use crate::groups::{SignedRrset, verify_groups};
use crate::validity::seconds_of;
use answer_judge_keys::check_run::CheckRun;
use answer_judge_keys::keys::TaggedKey;
use answer_judge_keys::trust::Trust;
use answer_scheme::checks::Checks;
use messages::ViewRecord;
use messages::names::{Name, cow_name};
use names_rdata::rtype::Rtype;
use std::alloc::{AllocError, Global};
use std::borrow::CowSlice;

/// Whether a trusted key signs the keys, and for how many seconds more that stays as it is.
pub fn are_verified<C: Checks>(
    message: &[u8],
    records: &[ViewRecord],
    keys: &[TaggedKey],
    trust: &Trust,
    check_run: &mut CheckRun<C>,
    seconds: &mut u32,
) -> Result<bool, AllocError>
    requires room { check_run.old.count + length records.now < 2 ^ 32 }
    ensures exact { EachAgreeing (C.answers check_run.old.checks.now)
        (C.agrees check_run.new.checks.now) (λ a. let w = held_by a trust.now in
        let items = sorted_data (map dnskey_data keys.now) in let rs = map spelled records.now in
        IfOk result (λ b. b ≡ is_verified w pointer_limit message.now rs w.apex 48 items)) }
    ensures tried { EachAgreeing (C.answers check_run.old.checks.now)
        (C.agrees check_run.new.checks.now) (λ a. let w = held_by a trust.now in
        let sought = keys_sought w.apex keys.now in let rs = map spelled records.now in
        let count = check_run.old.count + tries w pointer_limit message.now sought [] rs in
        IfOk result (λ _. check_run.new.count ≡ count)) }
    ensures lasts { EachAgreeing (C.answers check_run.old.checks.now)
        (C.agrees check_run.new.checks.now) (λ a. let w = held_by a trust.now in
        let m = message.now in let rs = map spelled records.now in
        let all = key_seconds w pointer_limit m rs keys.now in
        IfOk result (λ _. seconds.new ≡ least_or_max all)) }
    ensures agrees { (test : SignatureTest) → C.agrees check_run.new.checks.now test
        → C.agrees check_run.old.checks.now test }
    ensures asked { (test : SignatureTest) → let a = C.answers check_run.old.checks.now in
        let w = held_by a trust.now in let rs = map spelled records.now in
        let sought = keys_sought w.apex keys.now in
        Implies (is_tried_among w pointer_limit message.now sought [] rs) test
        → C.asked_only check_run.old.checks.now test → C.asked_only check_run.new.checks.now test }
    ensures counted { C.verified check_run.new.checks.now + check_run.old.count
        ≡ C.verified check_run.old.checks.now + check_run.new.count }
    ensures bound { let rs = map spelled records.now in
        check_run.new.count ≤ check_run.old.count + length (filter is_signature rs) }
    ensures few { check_run.new.count ≤ check_run.old.count + length records.now }
    ensures hashed { C.hashed check_run.new.checks.now ≡ C.hashed check_run.old.checks.now }
    ensures same { C.answers check_run.new.checks.now ≡ C.answers check_run.old.checks.now }
    ensures same_checks { check_run.new.checks.ghost_name ≡ check_run.old.checks.ghost_name }
{
    let alloc = check_run.alloc;
    let mut groups = Vec::with_capacity(alloc, 1)?;
    groups.push(key_group(alloc, trust.apex, keys)?)?;
    verify_groups(message, records, trust, &mut groups, check_run)?;
    *seconds = seconds_of(message, records, &groups, trust.moment);
    Ok(was_verified(groups.pop()))
}

/// The RRset of the keys at the apex.
fn key_group<'a>(
    alloc: Global,
    apex: &'a Name<Vec<u8>>,
    keys: &[TaggedKey<'a>],
) -> Result<SignedRrset<'a>, AllocError>
    ensures owner { IfOk result (λ g. g.owner ≡ apex.now) }
    ensures rtype { IfOk result (λ g. g.rtype ≡ 48) }
    ensures items { IfOk result
        (λ g. map cow_slice_items g.items.items ≡ sorted_data (map dnskey_data keys.now)) }
    ensures unverified { IfOk result (λ g. g.verified ≡ None) }
{
    let mut items = Vec::with_capacity(alloc, keys.len())?;
    for key in keys {
        items.push(CowSlice::Borrowed(key.data()))?;
    }
    let owner = cow_name(alloc, apex)?;
    Ok(SignedRrset::unverified(owner, Rtype::DNSKEY, items))
}

/// Whether there is an RRset, and a signature verified it.
fn was_verified(group: Option<SignedRrset>) -> bool
    ensures { MatchOption group.entry (result ≡ false) (λ g. result ≡ is_some g.verified) }
{
    match group {
        None => false,
        Some(group) => group.verified.is_some(),
    }
}
