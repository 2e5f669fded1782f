//! What a message tells of a delegation at a name.
ghost use Rattle.std.specs.Prelude.{◌≡◌, ◌+◌, ◌*◌, ◌≤◌, [], IfOk};
ghost use Rattle.definitions.specs.Name.{low};
ghost use Rattle.answer_judge.specs.Judging.{hash_bound};
ghost use Rattle.answer_judge_rules.specs.Rules.{verdict_of};
ghost use Rattle.answer_findings.specs.Seen.{seen};
ghost use Rattle.resolution_step.specs.Told.{IsCutFound, IsJudgedCut, TellsUnsigned};
ghost use Rattle.resolution_step.specs.Told.{cut_said, cut_told, told};
ghost use Rattle.resolution_step.specs.Truth.{TellsCutTruly};

use crate::canonical::canonical_name;
use crate::judged_step::{Counts, JudgedStep, Step, lasts};
use crate::known::bound;
use crate::work::work_of;
use answer_findings::{
    AnswerOutcome, Case, CheckedSignature, DataList, Meaning, Verdict, judge_answer,
};
use answer_hasher::NameHasher;
use messages::names::Name;
use std::alloc::{AllocError, Global};

/// Says what a message tells of a delegation at a name, which a case asks DS for. It is the way
/// down, or unsigned, or there is none at the name or above it. With it comes how long that lasts,
/// and how often was verified and hashed for it, by the hasher that is lent.
///
/// A name without DS is a delegation only where NS records show it: an empty set alone is not
/// insecure. An alias at the name means that no delegation is there (RFC 4035, 3.1.4.1). Where the
/// name does not exist, also where a wildcard stands for it, or is below a DNAME, there is none
/// below it either. `algorithms` names those that signatures are checked of; none stands for all.
///
/// Where nothing in the messages is forged this is so of the zone, if it is in order, has DS
/// records at delegations alone and does not change.
pub fn cut_step<H: NameHasher>(
    alloc: Global,
    case: &Case,
    table: &[CheckedSignature],
    algorithms: &[u8],
    hasher: &mut H,
) -> Result<JudgedStep, AllocError>
    ensures told { IfOk result (IsJudgedCut algorithms.now table.now case.now) }
    ensures honest { let h = case.now in
        IfOk result (λ t. TellsCutTruly algorithms.now table.now h (told t.step)) }
    ensures hashed { IfOk result
        (λ t. H.hashed hasher.new ≡ H.hashed hasher.old + t.counts.hashes) }
    ensures bound { H.hashed hasher.new ≤ H.hashed hasher.old + 4 * hash_bound case.now }
{
    let found = judge_answer(alloc, case, table, hasher)?;
    let work = work_of(case);
    cut_of_outcome(alloc, algorithms, &case.question.name, work, found)
}

/// What a search for DS at a name, of messages of so much work, comes to tells this of a delegation
/// there.
fn cut_of_outcome(
    alloc: Global,
    algorithms: &[u8],
    name: &Name<Vec<u8>>,
    work: u64,
    found: AnswerOutcome,
) -> Result<JudgedStep, AllocError>
    ensures { IfOk result (IsCutFound algorithms.now name.now work found) }
{
    match found {
        AnswerOutcome::Means {
            meaning,
            validity,
            verifications,
            hashes,
        } => {
            let step = cut_found(alloc, algorithms, name, meaning)?;
            let counts = Counts {
                verifications,
                hashes,
                work,
            };
            Ok(lasts(step, validity, counts))
        }
        AnswerOutcome::Refused {
            refusal,
            verifications,
            hashes,
        } => {
            let counts = Counts {
                verifications,
                hashes,
                work,
            };
            Ok(lasts(Step::Untold(Some(refusal)), None, counts))
        }
        AnswerOutcome::Asks {
            asks,
            verifications,
            hashes,
        } => {
            let counts = Counts {
                verifications,
                hashes,
                work,
            };
            Ok(lasts(Step::Asks(asks), None, counts))
        }
    }
}

/// What is found of DS at a name tells this of a delegation there.
fn cut_found(
    alloc: Global,
    algorithms: &[u8],
    name: &Name<Vec<u8>>,
    meaning: Meaning,
) -> Result<Step, AllocError>
    ensures { IfOk result (λ s. told s ≡ cut_told algorithms.now name.now (seen meaning)) }
{
    match meaning {
        Meaning::Verdict(verdict) => cut_said(alloc, algorithms, name, verdict),
        Meaning::NoDs(true) => without_ds(alloc, name),
        Meaning::NoDs(false) | Meaning::Alias(_) => Ok(Step::NoCut),
        Meaning::LeftOpen => Ok(Step::LeftOpen),
        Meaning::WildcardAlias(_) | Meaning::Dname { .. } => Ok(Step::NoneBelow),
        Meaning::Delegated(_) | Meaning::Referral { .. } => Ok(Step::Untold(None)),
    }
}

/// A delegation that has no DS record.
fn without_ds(alloc: Global, name: &Name<Vec<u8>>) -> Result<Step, AllocError>
    ensures { IfOk result (λ s. told s ≡ TellsUnsigned (low name.now) []) }
{
    Ok(Step::Unsigned {
        cut: canonical_name(alloc, name)?,
        ds: DataList::new(Vec::new(alloc)),
    })
}

/// A verdict on DS at a name tells this of a delegation there.
fn cut_said(
    alloc: Global,
    algorithms: &[u8],
    name: &Name<Vec<u8>>,
    verdict: Verdict,
) -> Result<Step, AllocError>
    ensures { IfOk result (λ s. told s ≡ cut_said algorithms.now name.now (verdict_of verdict)) }
{
    match verdict {
        Verdict::Records(datas) => bound(alloc, algorithms, name, datas),
        Verdict::NoName | Verdict::StarRecords(_) | Verdict::StarNoType => Ok(Step::NoneBelow),
        Verdict::Open => Ok(Step::LeftOpen),
        Verdict::NoType | Verdict::Delegated | Verdict::Unsigned => Ok(Step::Untold(None)),
    }
}
