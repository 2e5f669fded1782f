//! The keys of a DNSKEY answer that may sign the zone, and what they verify of an answer (RFC 4035,
//! 5.2 and 5.3).
ghost use Rattle.std.specs.Prelude.{◌≡◌, ◌==◌, ◌⊎◌, ◌+◌, ◌<◌, ◌≤◌, ◌^◌, [], IfOk, IfErr, filter};
ghost use Rattle.std.specs.Prelude.{length, map, true, false};
ghost use Rattle.definitions.specs.Limits.{pointer_limit};
ghost use Rattle.messages.specs.Record.{spelled};
ghost use Rattle.answer_judge.specs.Stages.{FindsSigned, FindsUnsigned, trusting_named};
ghost use Rattle.answer_judge_facts.specs.Asked.{Implies, is_tried_among};
ghost use Rattle.answer_judge_facts.specs.Trusted.{is_signature, is_usable};
ghost use Rattle.answer_judge.specs.Judged.{trusting};
ghost use Rattle.answer_judge_facts.specs.Validity.{answer_validity, key_seconds, least_or_max};
ghost use Rattle.answer_judge_facts.specs.DnskeyAnswer.{keys_in};
ghost use Rattle.answer_judge_facts.specs.Sought.{answer_sought, keys_sought};
ghost use Rattle.answer_judge_facts.specs.VerifiedProof.{IsVerifiedProof};
ghost use Rattle.answer_scheme.specs.Answers.{EachAgreeing, SignatureTest};
ghost use Rattle.answer_terms.specs.EqualTags.{has_equal_tags};

use crate::case::Case;
use crate::verdict::Refusal;
use answer_judge_facts::facts::{Proof, read_facts};
use answer_judge_facts::key_rrset::are_verified;
use answer_judge_facts::keys::check_run::CheckRun;
use answer_judge_facts::keys::key_index::KeyIndex;
use answer_judge_facts::keys::keys::{TaggedKey, read_keys, trusted_keys, usable_keys};
use answer_judge_facts::keys::trust::Trust;
use answer_scheme::checks::Checks;
use messages::ViewRecord;
use messages::names::ZoneName;
use std::alloc::{AllocError, Global};

/// The keys of the DNSKEY answer, no two unlike ones of one tag.
///
/// Keys of one tag would each be tried on a signature: an answer full of them would wear a judge
/// out.
pub(crate) fn read_unlike_keys<'a>(
    alloc: Global,
    case: &Case<'a>,
    records: &[ViewRecord],
) -> Result<Vec<TaggedKey<'a>>, Refusal>
    ensures keys { let h = case.now in let rs = map spelled records.now in
        IfOk result (λ ks. ks.items ≡ keys_in h.dnskey_bytes h.apex rs) }
    ensures unlike { IfOk result (λ ks. has_equal_tags ks.items ≡ false) }
    ensures equal { let h = case.now in let rs = map spelled records.now in
        let are_equal = has_equal_tags (keys_in h.dnskey_bytes h.apex rs) in
        IfErr result (λ e. (e ≡ Refusal.Memory) ⊎ ((e ≡ Refusal.EqualTags) × (are_equal ≡ true))) }
{
    let keys = read_keys(alloc, case.apex, case.dnskey, records)?;
    let index = KeyIndex::new(alloc, &keys)?;
    let are_equal = index.has_equal_tags();
    drop(index);
    if are_equal {
        return Err(Refusal::EqualTags);
    }
    Ok(keys)
}

/// The keys that may sign the zone, if one that a DS record names signs all keys, and for how many
/// seconds more it does.
///
/// Keys that nothing at the parent vouches for are those of whoever sent the answer (RFC 4035,
/// 5.2).
pub(crate) fn keys_that_may_sign<'a, C: Checks>(
    case: &Case,
    records: &[ViewRecord],
    keys: Vec<TaggedKey<'a>>,
    check_run: &mut CheckRun<C>,
    seconds: &mut u32,
) -> Result<Vec<TaggedKey<'a>>, Refusal>
    requires none_yet { check_run.old.count ≡ 0 }
    requires room { length records.now < 2 ^ 32 }
    ensures usable { IfOk result (λ ks. ks.items ≡ filter is_usable keys.entry.items) }
    ensures signed { EachAgreeing (C.answers check_run.old.checks.now)
        (C.agrees check_run.new.checks.now) (λ a. let rs = map spelled records.now in
        let count = check_run.new.count in
        IfOk result (λ _. FindsSigned a pointer_limit case.now rs keys.entry.items count)) }
    ensures unsigned { EachAgreeing (C.answers check_run.old.checks.now)
        (C.agrees check_run.new.checks.now) (λ a. let rs = map spelled records.now in
        let count = check_run.new.count in
        IfErr result (λ e. FindsUnsigned a pointer_limit case.now rs keys.entry.items count e)) }
    ensures lasts { EachAgreeing (C.answers check_run.old.checks.now)
        (C.agrees check_run.new.checks.now) (λ a. let h = case.now in
        let ks = keys.entry.items in let w = trusting_named a h ks in
        let all = key_seconds w pointer_limit h.dnskey_bytes (map spelled records.now) ks in
        IfOk result (λ _. seconds.new ≡ least_or_max all)) }
    ensures agrees { (test : SignatureTest) → C.agrees check_run.new.checks.now test
        → C.agrees check_run.old.checks.now test }
    ensures asked { (test : SignatureTest) → let a = C.answers check_run.old.checks.now in
        let h = case.now in let ks = keys.entry.items in let rs = map spelled records.now in
        let w = trusting_named a h ks in let sought = keys_sought h.apex ks in
        Implies (is_tried_among w pointer_limit h.dnskey_bytes sought [] rs) test
        → C.asked_only check_run.old.checks.now test → C.asked_only check_run.new.checks.now test }
    ensures counted { C.verified check_run.new.checks.now
        ≡ C.verified check_run.old.checks.now + check_run.new.count }
    ensures bound { let rs = map spelled records.now in
        check_run.new.count ≤ length (filter is_signature rs) }
    ensures few { check_run.new.count ≤ length records.now }
    ensures hashed { C.hashed check_run.new.checks.now ≡ C.hashed check_run.old.checks.now }
    ensures same { C.answers check_run.new.checks.now ≡ C.answers check_run.old.checks.now }
    ensures same_checks { check_run.new.checks.ghost_name ≡ check_run.old.checks.ghost_name }
{
    check_run.octets.reserve(512)?;
    let trusted = trusted_keys(case.apex, case.ds, &keys, check_run)?;
    let index = KeyIndex::new(check_run.alloc, &trusted)?;
    let trust = Trust {
        apex: case.apex,
        depth: case.apex.depth(),
        keys: &index,
        moment: case.moment.timestamp(),
    };
    if !are_verified(case.dnskey, records, &keys, &trust, check_run, seconds)? {
        return Err(Refusal::NoTrustedKey);
    }
    Ok(usable_keys(keys))
}

/// What some keys verify of the answer.
pub(crate) fn read_proof<'a, C: Checks>(
    case: &Case<'a>,
    records: &[ViewRecord<'a>],
    keys: &'a [TaggedKey<'a>],
    check_run: &mut CheckRun<C>,
) -> Result<Proof<'a>, AllocError>
    requires room { check_run.old.count + length records.now < 2 ^ 32 }
    requires other { (case.now.asked.rtype == 47) ≡ false }
    requires other_too { (case.now.asked.rtype == 50) ≡ false }
    ensures proves { EachAgreeing (C.answers check_run.old.checks.now)
        (C.agrees check_run.new.checks.now) (λ a. let h = case.now in
        let w = trusting a h keys.now in let rs = map spelled records.now in
        let m = h.answer_bytes in let q = h.asked.name in let t = h.asked.rtype in
        IfOk result (λ p. IsVerifiedProof w pointer_limit m rs q t p
        check_run.old.count check_run.new.count)) }
    ensures lasts { EachAgreeing (C.answers check_run.old.checks.now)
        (C.agrees check_run.new.checks.now) (λ a. let h = case.now in
        let w = trusting a h keys.now in let rs = map spelled records.now in
        let m = h.answer_bytes in let q = h.asked.name in let t = h.asked.rtype in
        IfOk result (λ p. p.validity ≡ answer_validity w pointer_limit m rs q t)) }
    ensures agrees { (test : SignatureTest) → C.agrees check_run.new.checks.now test
        → C.agrees check_run.old.checks.now test }
    ensures asked { (test : SignatureTest) → let a = C.answers check_run.old.checks.now in
        let h = case.now in let m = h.answer_bytes in let rs = map spelled records.now in
        let sought = answer_sought pointer_limit m h.apex rs h.asked.name h.asked.rtype in
        Implies (is_tried_among (trusting a h keys.now) pointer_limit m sought [] rs) test
        → C.asked_only check_run.old.checks.now test → C.asked_only check_run.new.checks.now test }
    ensures counted { C.verified check_run.new.checks.now + check_run.old.count
        ≡ C.verified check_run.old.checks.now + check_run.new.count }
    ensures bound { let rs = map spelled records.now in
        check_run.new.count ≤ check_run.old.count + length (filter is_signature rs) }
    ensures hashed { C.hashed check_run.new.checks.now ≡ C.hashed check_run.old.checks.now }
    ensures same { C.answers check_run.new.checks.now ≡ C.answers check_run.old.checks.now }
    ensures same_checks { check_run.new.checks.ghost_name ≡ check_run.old.checks.ghost_name }
{
    let index = KeyIndex::new(check_run.alloc, keys)?;
    let trust = Trust {
        apex: case.apex,
        depth: case.apex.depth(),
        keys: &index,
        moment: case.moment.timestamp(),
    };
    let question = case.question;
    read_facts(
        case.answer,
        records,
        &trust,
        &question.name,
        question.rtype,
        check_run,
    )
}
