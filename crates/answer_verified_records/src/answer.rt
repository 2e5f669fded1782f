//! The records of an answer that some keys verify.
ghost use Rattle.std.specs.Prelude.{◌≡◌, ◌+◌, ◌<◌, ◌≤◌, ◌^◌, false, IfOk, filter, length, map};
ghost use Rattle.definitions.specs.Limits.{pointer_limit};
ghost use Rattle.messages.specs.Record.{spelled};
ghost use Rattle.answer_scheme.specs.Answers.{EachAgreeing, SignatureTest};
ghost use Rattle.answer_judge_keys.specs.Trusted.{is_signature};
ghost use Rattle.answer_judge.specs.Judged.{trusting};
ghost use Rattle.answer_judge_facts.specs.Marked.{held_by, is_chain_type};
ghost use Rattle.answer_judge_facts.specs.Ranked.{AreRanked};
ghost use Rattle.answer_verified_records.specs.Groups.{is_of_verified};
ghost use Rattle.answer_verified_records.specs.Records.{numbers_from, verified_in_answer};

use crate::number::RecordNumber;
use answer_judge::Case;
use answer_judge_facts::facts::{is_verified, sorted_chain, sought_groups};
use answer_judge_facts::groups::{SignedRrset, verify_groups};
use answer_judge_keys::check_run::CheckRun;
use answer_judge_keys::key_index::KeyIndex;
use answer_judge_keys::keys::TaggedKey;
use answer_judge_keys::trust::Trust;
use answer_judge_rules::asked::Asked;
use answer_scheme::checks::Checks;
use messages::ViewRecord;
use messages::names::{Name, ZoneName};
use names_rdata::rtype::Rtype;
use numbers::class::Class;
use std::alloc::{AllocError, Global};

/// The numbers of the records of a case's answer that some keys verify.
pub(crate) fn verified_under<'a, C: Checks>(
    case: &Case<'a>,
    records: &[ViewRecord],
    keys: &'a [TaggedKey<'a>],
    check_run: &mut CheckRun<C>,
) -> Result<Vec<RecordNumber>, AllocError>
    requires room { check_run.old.count + length records.now < 2 ^ 32 }
    requires other { is_chain_type case.now.asked.rtype ≡ false }
    ensures exact { EachAgreeing (C.answers check_run.old.checks.now)
        (C.agrees check_run.new.checks.now) (λ a. let h = case.now in
        let w = trusting a h keys.now in let rs = map spelled records.now in
        let m = h.answer_bytes in let q = h.asked.name in let t = h.asked.rtype in
        IfOk result (λ v. v.items ≡ verified_in_answer w pointer_limit m rs q t)) }
    ensures agrees { (test : SignatureTest) → C.agrees check_run.new.checks.now test
        → C.agrees check_run.old.checks.now test }
    ensures counted { C.verified check_run.new.checks.now + check_run.old.count
        ≡ C.verified check_run.old.checks.now + check_run.new.count }
    ensures bound { let rs = map spelled records.now in
        check_run.new.count ≤ check_run.old.count + length (filter is_signature rs) }
    ensures hashed { C.hashed check_run.new.checks.now ≡ C.hashed check_run.old.checks.now }
    ensures same { C.answers check_run.new.checks.now ≡ C.answers check_run.old.checks.now }
    ensures same_checks { check_run.new.checks.ghost_name ≡ check_run.old.checks.ghost_name }
{
    let index = KeyIndex::new(check_run.alloc, keys)?;
    let trust = Trust {
        apex: case.apex,
        depth: case.apex.depth(),
        keys: &index,
        moment: case.moment.timestamp(),
    };
    let question = case.question;
    verified_in_answer(
        case.answer,
        records,
        &trust,
        &question.name,
        question.rtype,
        check_run,
    )
}

/// The numbers of the records that signatures verify: of the RRset that was asked for, and of
/// records of chains, NSEC and NSEC3.
fn verified_in_answer<C: Checks>(
    message: &[u8],
    records: &[ViewRecord],
    trust: &Trust,
    name: &Name<Vec<u8>>,
    rtype: Rtype,
    check_run: &mut CheckRun<C>,
) -> Result<Vec<RecordNumber>, AllocError>
    requires room { check_run.old.count + length records.now < 2 ^ 32 }
    requires other { is_chain_type rtype ≡ false }
    ensures exact { EachAgreeing (C.answers check_run.old.checks.now)
        (C.agrees check_run.new.checks.now) (λ a. let w = held_by a trust.now in
        let m = message.now in let rs = map spelled records.now in
        IfOk result (λ v. v.items ≡ verified_in_answer w pointer_limit m rs name.now rtype)) }
    ensures agrees { (test : SignatureTest) → C.agrees check_run.new.checks.now test
        → C.agrees check_run.old.checks.now test }
    ensures counted { C.verified check_run.new.checks.now + check_run.old.count
        ≡ C.verified check_run.old.checks.now + check_run.new.count }
    ensures bound { let rs = map spelled records.now in
        check_run.new.count ≤ check_run.old.count + length (filter is_signature rs) }
    ensures hashed { C.hashed check_run.new.checks.now ≡ C.hashed check_run.old.checks.now }
    ensures same { C.answers check_run.new.checks.now ≡ C.answers check_run.old.checks.now }
    ensures same_checks { check_run.new.checks.ghost_name ≡ check_run.old.checks.ghost_name }
{
    let alloc = check_run.alloc;
    let chained = sorted_chain(alloc, records)?;
    let asked = Asked {
        apex: trust.apex,
        name,
        rtype,
    };
    let mut groups = sought_groups(alloc, &asked, message, records, &chained)?;
    verify_groups(message, records, trust, &mut groups, check_run)?;
    numbers_of_verified(alloc, message, records, &groups)
}

/// The numbers of the records of verified RRsets.
fn numbers_of_verified(
    alloc: Global,
    message: &[u8],
    records: &[ViewRecord],
    groups: &[SignedRrset],
) -> Result<Vec<RecordNumber>, AllocError>
    requires ranked { AreRanked groups.now }
    requires room { length records.now < 2 ^ 32 }
    ensures { let rs = map spelled records.now in
        IfOk result (λ v. v.items ≡ numbers_from (is_of_verified message.now groups.now) 0 rs) }
{
    let mut numbers = Vec::new(alloc);
    for (number, record) in records.iter().enumerate() {
        if is_of_verified(alloc, message, record, groups)? {
            numbers.push(RecordNumber::new(number as u32))?;
        }
    }
    Ok(numbers)
}

/// Whether a record, of class IN, is of one of the RRsets that are verified. One whose data do not
/// read is of none, since no signature covers it.
fn is_of_verified(
    alloc: Global,
    message: &[u8],
    view: &ViewRecord,
    groups: &[SignedRrset],
) -> Result<bool, AllocError>
    requires { AreRanked groups.now }
    ensures { IfOk result
        (λ b. b ≡ is_of_verified message.now groups.now (spelled view.now)) }
{
    if view.class != Class::IN || !is_verified(groups, &view.owner, view.rtype) {
        return Ok(false);
    }
    Ok(view.canonical_cow(alloc, message)?.is_some())
}
