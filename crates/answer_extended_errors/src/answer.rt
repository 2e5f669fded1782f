//! Why an answer proves nothing (RFC 4035, 5.3 and 5.4).
ghost use Rattle.std.specs.Prelude.{◌≡◌, ◌+◌, ◌<◌, ◌≤◌, ◌^◌, IfOk, filter, is_some, length, map};
ghost use Rattle.std.specs.List.{list_any};
ghost use Rattle.definitions.specs.Limits.{pointer_limit};
ghost use Rattle.messages.specs.Questions.{asked_of};
ghost use Rattle.messages.specs.Record.{spelled};
ghost use Rattle.answer_scheme.specs.Answers.{EachAgreeing, SignatureTest};
ghost use Rattle.answer_judge_keys.specs.Trusted.{is_signature};
ghost use Rattle.answer_judge_facts.specs.Marked.{held_by};
ghost use Rattle.answer_judge_facts.specs.Ranked.{AreRanked};
ghost use Rattle.answer_extended_errors.specs.Extended.{unproven_under};
ghost use Rattle.answer_extended_errors.specs.Groups.{groups_error};

use crate::error::ExtendedError;
use crate::times::{signatures_over, untimely};
use answer_judge_facts::facts::{read_chain_groups, sorted_chain};
use answer_judge_facts::groups::{SignedRrset, read_group, verify_groups};
use answer_judge_keys::check_run::CheckRun;
use answer_judge_keys::trust::Trust;
use answer_scheme::checks::Checks;
use messages::ViewRecord;
use messages::names::cow_name;
use messages::question::Question;
use std::alloc::AllocError;

/// The error where what verifies of an answer's records proves no verdict.
pub(crate) fn unproven_under<C: Checks>(
    message: &[u8],
    records: &[ViewRecord],
    question: &Question,
    trust: &Trust,
    check_run: &mut CheckRun<C>,
) -> Result<ExtendedError, AllocError>
    requires room { check_run.old.count + length records.now < 2 ^ 32 }
    ensures exact { EachAgreeing (C.answers check_run.old.checks.now)
        (C.agrees check_run.new.checks.now) (λ a. let w = held_by a trust.now in
        let rs = map spelled records.now in
        let error = unproven_under w pointer_limit message.now rs (asked_of question.now) in
        IfOk result (λ e. e ≡ error)) }
    ensures agrees { (test : SignatureTest) → C.agrees check_run.new.checks.now test
        → C.agrees check_run.old.checks.now test }
    ensures counted { C.verified check_run.new.checks.now + check_run.old.count
        ≡ C.verified check_run.old.checks.now + check_run.new.count }
    ensures bound { let rs = map spelled records.now in
        check_run.new.count ≤ check_run.old.count + length (filter is_signature rs) }
    ensures hashed { C.hashed check_run.new.checks.now ≡ C.hashed check_run.old.checks.now }
    ensures same { C.answers check_run.new.checks.now ≡ C.answers check_run.old.checks.now }
    ensures same_checks { check_run.new.checks.ghost_name ≡ check_run.old.checks.ghost_name }
{
    let alloc = check_run.alloc;
    let owner = cow_name(alloc, &question.name)?;
    let group = read_group(alloc, message, records, owner, question.rtype)?;
    if group.items.is_empty() {
        let chained = sorted_chain(alloc, records)?;
        let mut chain = read_chain_groups(alloc, trust.apex, message, &chained)?;
        return error_of_groups(message, records, trust, &mut chain, check_run);
    }
    let mut asked = Vec::with_capacity(alloc, 1)?;
    asked.push(group)?;
    error_of_groups(message, records, trust, &mut asked, check_run)
}

/// The error where some RRsets, on which an answer rests, prove no verdict.
fn error_of_groups<C: Checks>(
    message: &[u8],
    records: &[ViewRecord],
    trust: &Trust,
    groups: &mut [SignedRrset],
    check_run: &mut CheckRun<C>,
) -> Result<ExtendedError, AllocError>
    requires room { check_run.old.count + length records.now < 2 ^ 32 }
    requires ranked { AreRanked groups.old }
    ensures exact { EachAgreeing (C.answers check_run.old.checks.now)
        (C.agrees check_run.new.checks.now) (λ a. let w = held_by a trust.now in
        let error = groups_error w message.now groups.old (map spelled records.now) in
        IfOk result (λ e. e ≡ error)) }
    ensures agrees { (test : SignatureTest) → C.agrees check_run.new.checks.now test
        → C.agrees check_run.old.checks.now test }
    ensures counted { C.verified check_run.new.checks.now + check_run.old.count
        ≡ C.verified check_run.old.checks.now + check_run.new.count }
    ensures bound { let rs = map spelled records.now in
        check_run.new.count ≤ check_run.old.count + length (filter is_signature rs) }
    ensures hashed { C.hashed check_run.new.checks.now ≡ C.hashed check_run.old.checks.now }
    ensures same { C.answers check_run.new.checks.now ≡ C.answers check_run.old.checks.now }
    ensures same_checks { check_run.new.checks.ghost_name ≡ check_run.old.checks.ghost_name }
{
    if groups.is_empty() {
        return Ok(ExtendedError::NsecMissing);
    }
    let signatures = signatures_over(check_run.alloc, trust.apex, message, records, groups)?;
    if let Some(error) = untimely(&signatures, trust.moment) {
        return Ok(error);
    }
    verify_groups(message, records, trust, groups, check_run)?;
    if is_one_verified(groups) {
        return Ok(ExtendedError::IncompleteDenial);
    }
    Ok(ExtendedError::DnssecBogus)
}

/// Whether one of some RRsets is verified.
fn is_one_verified(groups: &[SignedRrset]) -> bool
    ensures { result ≡ list_any (λ g. is_some g.verified) groups.now }
{
    groups.iter().any(|group| group.verified.is_some())
}
