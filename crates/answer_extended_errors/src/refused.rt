//! The extended error of a refusal.
ghost use Rattle.std.specs.Prelude.{◌≡◌, ◌+◌, ◌≤◌, IfOk, IfSome, length, map};
ghost use Rattle.std.specs.Option.{option_map};
ghost use Rattle.definitions.specs.Limits.{pointer_limit};
ghost use Rattle.messages.specs.Record.{spelled};
ghost use Rattle.answer_scheme.specs.Answers.{EachAgreeing, SignatureTest};
ghost use Rattle.answer_judge.specs.Judging.{signatures_in};
ghost use Rattle.answer_extended_errors.specs.Extended.{extended_error_of, plain_error, records_in};
ghost use Rattle.answer_extended_errors.specs.Extended.{unproven, untrusted};

use crate::answer::unproven_under;
use crate::delegation::untrusted_keys;
use crate::error::ExtendedError;
use answer_judge::{Case, Refusal};
use answer_judge_keys::check_run::CheckRun;
use answer_judge_keys::key_index::KeyIndex;
use answer_judge_keys::keys::{read_keys, usable_keys};
use answer_judge_keys::trust::Trust;
use answer_scheme::checks::Checks;
use messages::names::ZoneName;
use messages::{ViewRecord, read_message_into};
use std::alloc::{AllocError, Global};

/// The extended error that says why a judge refused a case. It is for refusals alone: where the
/// messages prove nothing, the signatures of the answer are verified once more.
///
/// An error says that memory was refused; then a caller has no more to say than
/// [`ExtendedError::Other`].
pub fn extended_error<C: Checks>(
    alloc: Global,
    case: &Case,
    refusal: Refusal,
    checks: &mut C,
) -> Result<ExtendedError, AllocError>
    ensures exact { EachAgreeing (C.answers checks.old) (C.agrees checks.new)
        (λ a. IfOk result (λ e. e ≡ extended_error_of a pointer_limit case.now refusal)) }
    ensures agrees { (test : SignatureTest) → C.agrees checks.new test → C.agrees checks.old test }
    ensures bound { C.verified checks.new
        ≤ C.verified checks.old + signatures_in pointer_limit case.now.answer_bytes }
    ensures hashed { C.hashed checks.new ≡ C.hashed checks.old }
    ensures same { C.answers checks.new ≡ C.answers checks.old }
{
    let mut octets = Vec::new(alloc);
    let mut check_run = CheckRun::new(alloc, checks, &mut octets);
    match refusal {
        Refusal::NoTrustedKey => untrusted(case, &mut check_run),
        Refusal::NotProven => unproven(case, &mut check_run),
        plain => Ok(plain_error(plain)),
    }
}

/// The error where no key that a DS record names signs the keys of the DNSKEY answer.
fn untrusted<C: Checks>(
    case: &Case,
    check_run: &mut CheckRun<C>,
) -> Result<ExtendedError, AllocError>
    ensures exact { let a = C.answers check_run.old.checks.now in
        IfOk result (λ e. e ≡ untrusted a pointer_limit case.now) }
    ensures rest { check_run.new ≡ record check_run.old { octets = check_run.new.octets } }
{
    let Some(records) = records_of(check_run.alloc, case.dnskey)? else {
        return Ok(ExtendedError::DnssecBogus);
    };
    let moment = case.moment.timestamp();
    untrusted_keys(case.apex, case.ds, case.dnskey, &records, moment, check_run)
}

/// The error where what verifies of the answer proves no verdict.
fn unproven<C: Checks>(
    case: &Case,
    check_run: &mut CheckRun<C>,
) -> Result<ExtendedError, AllocError>
    requires { check_run.old.count ≡ 0 }
    ensures exact { EachAgreeing (C.answers check_run.old.checks.now)
        (C.agrees check_run.new.checks.now)
        (λ a. IfOk result (λ e. e ≡ unproven a pointer_limit case.now)) }
    ensures agrees { (test : SignatureTest) → C.agrees check_run.new.checks.now test
        → C.agrees check_run.old.checks.now test }
    ensures bound { C.verified check_run.new.checks.now ≤ C.verified check_run.old.checks.now
        + signatures_in pointer_limit case.now.answer_bytes }
    ensures hashed { C.hashed check_run.new.checks.now ≡ C.hashed check_run.old.checks.now }
    ensures same { C.answers check_run.new.checks.now ≡ C.answers check_run.old.checks.now }
    ensures same_checks { check_run.new.checks.ghost_name ≡ check_run.old.checks.ghost_name }
{
    let alloc = check_run.alloc;
    let Some(key_records) = records_of(alloc, case.dnskey)? else {
        return Ok(ExtendedError::DnssecBogus);
    };
    let Some(records) = records_of(alloc, case.answer)? else {
        return Ok(ExtendedError::DnssecBogus);
    };
    let keys = usable_keys(read_keys(alloc, case.apex, case.dnskey, &key_records)?);
    let index = KeyIndex::new(alloc, &keys)?;
    let trust = Trust {
        apex: case.apex,
        depth: case.apex.depth(),
        keys: &index,
        moment: case.moment.timestamp(),
    };
    unproven_under(case.answer, &records, case.question, &trust, check_run)
}

/// The error of a refusal that says all itself.
fn plain_error(refusal: Refusal) -> ExtendedError
    ensures { result ≡ plain_error refusal }
{
    match refusal {
        Refusal::IterationsOverLimit => ExtendedError::UnsupportedNsec3Iterations,
        Refusal::BadDnskeyMessage | Refusal::BadAnswerMessage => ExtendedError::DnssecBogus,
        Refusal::MixedNsec3Parameters | Refusal::MixedVersions => ExtendedError::DnssecBogus,
        Refusal::NoTrustedKey | Refusal::NotProven => ExtendedError::DnssecBogus,
        Refusal::QuestionNotAllowed | Refusal::QuestionMismatch => ExtendedError::Other,
        Refusal::EqualTags | Refusal::HashFailed | Refusal::Memory => ExtendedError::Other,
    }
}

/// The records of a message; none where octets are not one.
pub(crate) fn records_of<'a>(
    alloc: Global,
    bytes: &'a [u8],
) -> Result<Option<Vec<ViewRecord<'a>>>, AllocError>
    ensures exact { IfOk result
        (λ o. option_map (λ v. map spelled v.items) o ≡ records_in pointer_limit bytes.now) }
    ensures few { IfOk result (λ o. IfSome o (λ v. length v.items ≤ 196605)) }
{
    let mut records = Vec::new(alloc);
    let Ok((_view, in_memory)) = read_message_into(bytes, &mut records) else {
        return Ok(None);
    };
    in_memory?;
    Ok(Some(records))
}
