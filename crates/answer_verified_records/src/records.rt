//! The verified records of a case's answer.
ghost use Rattle.std.specs.Prelude.{◌≡◌, ◌+◌, ◌≤◌, IfOk, true};
ghost use Rattle.definitions.specs.Limits.{pointer_limit};
ghost use Rattle.answer_scheme.specs.Answers.{EachAgreeing, SignatureTest};
ghost use Rattle.answer_judge.specs.Stages.{are_signed};
ghost use Rattle.answer_judge.specs.Judging.{signatures_in, verification_bound};
ghost use Rattle.answer_verified_records.specs.Read.{IsReadOf};
ghost use Rattle.answer_verified_records.specs.Records.{SaysVerdict, verified_in_messages};
ghost use Rattle.answer_verified_records.specs.Records.{verified_records};

use crate::answer::verified_under;
use crate::keys::signing_keys;
use crate::listed::{Messages, read_case};
use crate::number::RecordNumber;
use answer_judge::Case;
use answer_judge_keys::check_run::CheckRun;
use answer_judge_keys::keys::usable_keys;
use answer_scheme::checks::Checks;
use std::alloc::{AllocError, Global};

/// Room for what a signature of a small RRset is made over; longer ones get more.
const ROOM_FOR_SIGNED: usize = 512;

/// The numbers of the records of a case's answer that a signature verifies under the keys that the
/// DS set trusts, in the order of the message.
///
/// They are of the RRsets on which a verdict may rest: the one that was asked for, and the NSEC and
/// NSEC3 RRsets of one record at or below the apex. Beside a verdict these records are what a
/// resolver may pass on (RFC 4035, 3.2.3), with the RRSIG records that cover their RRsets; RRSIG
/// records have no number here, since nothing signs them. Nor have others that were signed, as SOA,
/// NS or addresses: a judge looks at none of their signatures.
///
/// There are none where a judge refuses the case before it looks at the answer's signatures, as it
/// does where no key is trusted, nor beside an empty DS set, where nothing is signed. An error says
/// that memory was refused. Signatures are verified once more, those of both messages.
pub fn verified_records<C: Checks>(
    alloc: Global,
    case: &Case,
    checks: &mut C,
) -> Result<Vec<RecordNumber>, AllocError>
    ensures exact { EachAgreeing (C.answers checks.old) (C.agrees checks.new)
        (λ a. IfOk result (λ v. v.items ≡ verified_records a pointer_limit case.now)) }
    ensures agrees { (test : SignatureTest) → C.agrees checks.new test → C.agrees checks.old test }
    ensures bound { C.verified checks.new
        ≤ C.verified checks.old + verification_bound pointer_limit case.now }
    ensures hashed { C.hashed checks.new ≡ C.hashed checks.old }
    ensures same { C.answers checks.new ≡ C.answers checks.old }
{
    let Some(messages) = read_case(alloc, case)? else {
        return Ok(Vec::new(alloc));
    };
    let mut octets = Vec::new(alloc);
    let mut check_run = CheckRun::new(alloc, checks, &mut octets);
    verified_in_messages(case, messages, &mut check_run)
}

/// The numbers of the answer's records that the keys of the other message verify.
fn verified_in_messages<C: Checks>(
    case: &Case,
    messages: Messages,
    check_run: &mut CheckRun<C>,
) -> Result<Vec<RecordNumber>, AllocError>
    requires none_yet { check_run.old.count ≡ 0 }
    requires read { IsReadOf case.now messages }
    ensures exact { EachAgreeing (C.answers check_run.old.checks.now)
        (C.agrees check_run.new.checks.now) (λ a. let h = case.now in
        let keys = messages.entry.keys.view in let answer = messages.entry.answer.view in
        IfOk result (λ v. v.items ≡ verified_in_messages a pointer_limit h keys answer)) }
    ensures agrees { (test : SignatureTest) → C.agrees check_run.new.checks.now test
        → C.agrees check_run.old.checks.now test }
    ensures bound { C.verified check_run.new.checks.now ≤ C.verified check_run.old.checks.now
        + verification_bound pointer_limit case.now }
    ensures hashed { C.hashed check_run.new.checks.now ≡ C.hashed check_run.old.checks.now }
    ensures same { C.answers check_run.new.checks.now ≡ C.answers check_run.old.checks.now }
    ensures same_checks { check_run.new.checks.ghost_name ≡ check_run.old.checks.ghost_name }
{
    let Messages {
        keys,
        answer,
        tagged,
    } = messages;
    let Some(usable) = signing_keys(case, &keys.records, tagged, check_run)? else {
        return Ok(Vec::new(check_run.alloc));
    };
    verified_under(&*case, &answer.records, &usable, check_run)
}

/// The numbers that [`verified_records`] gives, where a judge says a verdict of the case by these
/// checks: then a key that the DS set trusts signs the zone's keys, and that is not found out once
/// more. The signatures of the answer alone are verified.
pub fn records_beside_verdict<C: Checks>(
    alloc: Global,
    case: &Case,
    checks: &mut C,
) -> Result<Vec<RecordNumber>, AllocError>
    requires says { EachAgreeing (C.answers checks.old) (C.agrees checks.old)
        (λ a. SaysVerdict a pointer_limit case.now) }
    ensures exact { EachAgreeing (C.answers checks.old) (C.agrees checks.new)
        (λ a. IfOk result (λ v. v.items ≡ verified_records a pointer_limit case.now)) }
    ensures agrees { (test : SignatureTest) → C.agrees checks.new test → C.agrees checks.old test }
    ensures bound { C.verified checks.new
        ≤ C.verified checks.old + signatures_in pointer_limit case.now.answer_bytes }
    ensures hashed { C.hashed checks.new ≡ C.hashed checks.old }
    ensures same { C.answers checks.new ≡ C.answers checks.old }
{
    let Some(messages) = read_case(alloc, case)? else {
        return Ok(Vec::new(alloc));
    };
    let mut octets = Vec::with_capacity(alloc, ROOM_FOR_SIGNED)?;
    let mut check_run = CheckRun::new(alloc, checks, &mut octets);
    usable_in_messages(case, messages, &mut check_run)
}

/// The numbers of the answer's records that the usable keys of the other message verify, where one
/// that a DS record names signs all of them.
fn usable_in_messages<C: Checks>(
    case: &Case,
    messages: Messages,
    check_run: &mut CheckRun<C>,
) -> Result<Vec<RecordNumber>, AllocError>
    requires none_yet { check_run.old.count ≡ 0 }
    requires read { IsReadOf case.now messages }
    requires signed { EachAgreeing (C.answers check_run.old.checks.now)
        (C.agrees check_run.old.checks.now) (λ a. let keys = messages.keys.view.records in
        are_signed a pointer_limit case.now keys messages.tagged.items ≡ true) }
    ensures exact { EachAgreeing (C.answers check_run.old.checks.now)
        (C.agrees check_run.new.checks.now) (λ a. let h = case.now in
        let keys = messages.entry.keys.view in let answer = messages.entry.answer.view in
        IfOk result (λ v. v.items ≡ verified_in_messages a pointer_limit h keys answer)) }
    ensures agrees { (test : SignatureTest) → C.agrees check_run.new.checks.now test
        → C.agrees check_run.old.checks.now test }
    ensures bound { C.verified check_run.new.checks.now ≤ C.verified check_run.old.checks.now
        + signatures_in pointer_limit case.now.answer_bytes }
    ensures hashed { C.hashed check_run.new.checks.now ≡ C.hashed check_run.old.checks.now }
    ensures same { C.answers check_run.new.checks.now ≡ C.answers check_run.old.checks.now }
    ensures same_checks { check_run.new.checks.ghost_name ≡ check_run.old.checks.ghost_name }
{
    let Messages { answer, tagged, .. } = messages;
    let usable = usable_keys(tagged);
    verified_under(&*case, &answer.records, &usable, check_run)
}
