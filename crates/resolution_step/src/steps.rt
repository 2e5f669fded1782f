//! What a message tells of a question.
ghost use Rattle.std.specs.Prelude.{◌≡◌, ◌+◌, ◌*◌, ◌≤◌, IfOk};
ghost use Rattle.messages.specs.Questions.{asked_of};
ghost use Rattle.answer_judge.specs.Judging.{hash_bound};
ghost use Rattle.answer_judge_rules.specs.Rules.{verdict_of};
ghost use Rattle.answer_findings.specs.Found.{hashes_found};
ghost use Rattle.answer_findings.specs.Judgements.{asking, aside};
ghost use Rattle.answer_findings.specs.Seen.{seen};
ghost use Rattle.resolution_step.specs.Counted.{CountsHashes};
ghost use Rattle.resolution_step.specs.Hashed.{cut_in, cut_seen, hash_bound_below};
ghost use Rattle.resolution_step.specs.Told.{IsJudgedCut, IsStepOfOutcome, IsStepOfMeaning};
ghost use Rattle.resolution_step.specs.Told.{IsJudgedStep, IsStepAtCut, at_cut, referral_told};
ghost use Rattle.resolution_step.specs.Told.{told};
ghost use Rattle.resolution_step.specs.Told.{verdict_told};
ghost use Rattle.resolution_step.specs.Truth.{TellsTruly};

use crate::cuts::cut_step;
use crate::judged_step::{Counts, JudgedStep, Step, lasts, least_of};
use crate::known::bound;
use crate::work::work_of;
use answer_findings::{
    AnswerOutcome, Case, CheckedSignature, DataList, Lead, Meaning, Validity, Verdict, judge_answer,
};
use answer_hasher::NameHasher;
use messages::names::{Name, ToName};
use messages::question::Question;
use names_rdata::rtype::Rtype;
use std::alloc::{AllocError, Global};

/// The signatures that were checked, and of which algorithms: none stands for all.
#[derive(Drop)]
struct SignatureChecks<'a> {
    table: &'a [CheckedSignature<'a>],
    algorithms: &'a [u8],
}

/// Says what a message of a zone tells of a question: the zone's verdict, where the name leads as
/// an alias, the way down to the zone below, or from where on nothing is signed. With it comes how
/// long that lasts, and how often was verified and hashed for it, by the hasher that is lent.
///
/// A referral is proved by its DS records, or by a denial that the delegation has any; the message
/// of a name that is delegated is judged for these too. So there are at most eight judgements a
/// call. `algorithms` names those that signatures are checked of; none stands for all.
///
/// Where nothing in the messages is forged this is so of the zone, if it is in order, has DS
/// records at delegations alone and does not change: its verdict on a name that it has, its alias,
/// its topmost delegation at or above the name.
pub fn step<H: NameHasher>(
    alloc: Global,
    case: &Case,
    table: &[CheckedSignature],
    algorithms: &[u8],
    hasher: &mut H,
) -> Result<JudgedStep, AllocError>
    ensures told { IfOk result (IsJudgedStep algorithms.now table.now case.now) }
    ensures honest { let h = case.now in
        IfOk result (λ t. TellsTruly algorithms.now table.now h (told t.step)) }
    ensures hashed { let hashes = CountsHashes (H.hashed hasher.old) (H.hashed hasher.new) in
        IfOk result (λ t. hashes 0 t.counts.hashes) }
    ensures bound { H.hashed hasher.new ≤ H.hashed hasher.old + 8 * hash_bound case.now }
{
    let found = judge_answer(alloc, case, table, hasher)?;
    let checks = SignatureChecks { table, algorithms };
    step_of_outcome(alloc, case, &checks, found, hasher)
}

/// What a search comes to tells this of its question.
fn step_of_outcome<H: NameHasher>(
    alloc: Global,
    case: &Case,
    checks: &SignatureChecks,
    found: AnswerOutcome,
    hasher: &mut H,
) -> Result<JudgedStep, AllocError>
    ensures told { let k = checks.now in
        IfOk result (IsStepOfOutcome k.algorithms.now k.table.now case.now found) }
    ensures hashed { let hashes = CountsHashes (H.hashed hasher.old) (H.hashed hasher.new) in
        IfOk result (λ t. hashes (hashes_found found) t.counts.hashes) }
    ensures bound { let most = hash_bound_below case.now (cut_in found) in
        H.hashed hasher.new ≤ H.hashed hasher.old + most }
{
    let work = work_of(case);
    match found {
        AnswerOutcome::Means {
            meaning,
            validity,
            verifications,
            hashes,
        } => {
            let counts = Counts {
                verifications,
                hashes,
                work,
            };
            step_of_meaning(alloc, case, checks, meaning, validity, counts, hasher)
        }
        AnswerOutcome::Refused {
            refusal,
            verifications,
            hashes,
        } => {
            let counts = Counts {
                verifications,
                hashes,
                work,
            };
            Ok(lasts(Step::Untold(Some(refusal)), None, counts))
        }
        AnswerOutcome::Asks {
            asks,
            verifications,
            hashes,
        } => {
            let counts = Counts {
                verifications,
                hashes,
                work,
            };
            Ok(lasts(Step::Asks(asks), None, counts))
        }
    }
}

/// What is found tells this of the question; at a delegation that is proved, what the message tells
/// of its DS records.
fn step_of_meaning<H: NameHasher>(
    alloc: Global,
    case: &Case,
    checks: &SignatureChecks,
    meaning: Meaning,
    validity: Option<Validity>,
    counts: Counts,
    hasher: &mut H,
) -> Result<JudgedStep, AllocError>
    ensures told { let k = checks.now in let x = seen meaning in
        IfOk result (IsStepOfMeaning k.algorithms.now k.table.now case.now x validity counts) }
    ensures hashed { let hashes = CountsHashes (H.hashed hasher.old) (H.hashed hasher.new) in
        IfOk result (λ t. hashes counts.hashes t.counts.hashes) }
    ensures bound { let most = hash_bound_below case.now (cut_seen (seen meaning)) in
        H.hashed hasher.new ≤ H.hashed hasher.old + most }
{
    match meaning {
        Meaning::Delegated(Some(cut)) => {
            delegated_step(alloc, case, checks, cut, validity, counts, hasher)
        }
        Meaning::Delegated(None) => Ok(lasts(Step::Untold(None), validity, counts)),
        Meaning::Verdict(verdict) => Ok(lasts(verdict_step(verdict), validity, counts)),
        Meaning::NoDs(_) => Ok(lasts(Step::Answer(Verdict::NoType), validity, counts)),
        Meaning::Alias(target) => Ok(lasts(Step::Leads(Lead::To(target)), validity, counts)),
        Meaning::WildcardAlias(target) => Ok(lasts(
            Step::Leads(Lead::To(target)),
            validity,
            counts,
        )),
        Meaning::LeftOpen => Ok(lasts(Step::LeftOpen, validity, counts)),
        Meaning::Dname { leads, .. } => Ok(lasts(Step::Leads(leads), validity, counts)),
        Meaning::Referral { cut, ds } => {
            let step = referral_step(alloc, case.question, checks.algorithms, &cut, ds)?;
            Ok(lasts(step, validity, counts))
        }
    }
}

/// What the message tells of DS at a delegation that is proved. It lasts as long as both do.
fn delegated_step<H: NameHasher>(
    alloc: Global,
    case: &Case,
    checks: &SignatureChecks,
    cut: Name<Vec<u8>>,
    validity: Option<Validity>,
    counts: Counts,
    hasher: &mut H,
) -> Result<JudgedStep, AllocError>
    ensures told { let k = checks.now in
        IfOk result (IsStepAtCut k.algorithms.now k.table.now case.now cut validity counts) }
    ensures hashed { let hashes = CountsHashes (H.hashed hasher.old) (H.hashed hasher.new) in
        IfOk result (λ t. hashes counts.hashes t.counts.hashes) }
    ensures bound { let h = aside case.now (asking case.now cut 43) in
        H.hashed hasher.new ≤ H.hashed hasher.old + 4 * hash_bound h }
{
    let below = ds_step(alloc, case, checks, cut, hasher)?;
    let both = least_of(validity, below.validity);
    let sums = counts.plus(below.counts);
    Ok(lasts(at_cut(below.step), both, sums))
}

/// What the case's messages tell of a delegation at another name.
fn ds_step<H: NameHasher>(
    alloc: Global,
    case: &Case,
    checks: &SignatureChecks,
    name: Name<Vec<u8>>,
    hasher: &mut H,
) -> Result<JudgedStep, AllocError>
    ensures told { let h = aside case.now (asking case.now name 43) in let k = checks.now in
        IfOk result (IsJudgedCut k.algorithms.now k.table.now h) }
    ensures hashed { IfOk result
        (λ t. H.hashed hasher.new ≡ H.hashed hasher.old + t.counts.hashes) }
    ensures bound { let h = aside case.now (asking case.now name 43) in
        H.hashed hasher.new ≤ H.hashed hasher.old + 4 * hash_bound h }
{
    let question = Question {
        name,
        rtype: Rtype::DS,
        class: case.question.class,
    };
    let beside = Case {
        apex: case.apex,
        ds: case.ds,
        dnskey: case.dnskey,
        answer: case.answer,
        question: &question,
        moment: case.moment,
        limit: case.limit,
        one_moment: case.one_moment,
        other_question: true,
    };
    cut_step(alloc, &beside, checks.table, checks.algorithms, hasher)
}

/// At a delegation that is proved, a message that says there is none tells nothing.
fn at_cut(step: Step) -> Step
    ensures { told result ≡ at_cut (told step) }
{
    match step {
        Step::Answer(_) | Step::Leads(_) => Step::Untold(None),
        Step::NoCut | Step::NoneBelow => Step::Untold(None),
        step => step,
    }
}

/// A referral tells the way down, but not of DS at the delegation itself: the zone answers that.
fn referral_step(
    alloc: Global,
    question: &Question,
    algorithms: &[u8],
    cut: &Name<Vec<u8>>,
    ds: DataList,
) -> Result<Step, AllocError>
    ensures { let told_is = referral_told algorithms.now (asked_of question.now) cut.now ds in
        IfOk result (λ s. told s ≡ told_is) }
{
    if cut.name_eq(&question.name) && question.rtype == Rtype::DS {
        return Ok(Step::Untold(None));
    }
    bound(alloc, algorithms, cut, ds)
}

/// A verdict that is none of a delegation is the zone's own.
fn verdict_step(verdict: Verdict) -> Step
    ensures { told result ≡ verdict_told (verdict_of verdict) }
{
    match verdict {
        Verdict::Delegated | Verdict::Unsigned => Step::Untold(None),
        Verdict::Open => Step::LeftOpen,
        verdict => Step::Answer(verdict),
    }
}
