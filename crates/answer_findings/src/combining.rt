//! What judgements come to.
ghost use Rattle.std.specs.Prelude.{◌≡◌, IfOk, MatchResult};
ghost use Rattle.std.specs.Option.{option_map};
ghost use Rattle.answer_judge.specs.Judging.{answer_of, hashes_of, verifications_of};
ghost use Rattle.answer_judge_rules.specs.Rules.{verdict_of};
ghost use Rattle.answer_findings.specs.Found.{AsksBehind, ComesTo};
ghost use Rattle.answer_findings.specs.Seen.{answers_ds, cut_found, delegates_found};
ghost use Rattle.answer_findings.specs.Seen.{delegates_said, found_by, hashed_by, hashed_in};
ghost use Rattle.answer_findings.specs.Seen.{lead_found, no_ds_found, referral_found};
ghost use Rattle.answer_findings.specs.Seen.{refusal_found, seen, verdict_found, verified_by};
ghost use Rattle.answer_findings.specs.Seen.{verified_in};

use crate::asked::{is_delegated, is_no_type, says_delegated};
use crate::meaning::{AnswerOutcome, Meaning};
use crate::side_judgements::{Judgements, SideJudgement};
use crate::validity::Validities;
use answer_judge_table::{Ask, Case, Judgement, Refusal, Refused, Verdict};
use messages::names::{Name, ToName, copy_name};
use names_rdata::rtype::Rtype;
use std::alloc::{AllocError, Global};

/// What judgements come to, with the counts of all of them. The lead is where the alias leads that
/// they prove, if they prove one.
pub(crate) fn combine(
    alloc: Global,
    case: &Case,
    judgements: Judgements,
    lead: Option<Meaning>,
) -> Result<AnswerOutcome, AllocError>
    requires lead { option_map seen lead ≡ lead_found case.now judgements.alias }
    ensures { IfOk result (λ f. ComesTo case.now judgements f) }
{
    let verifications = verified_by(&judgements);
    let hashes = hashed_by(&judgements);
    let validities = Validities::of_judgements(&judgements);
    match answer_found(alloc, case, judgements, lead)? {
        Ok(meaning) => Ok(AnswerOutcome::Means {
            validity: validities.of_meaning(&meaning),
            meaning,
            verifications,
            hashes,
        }),
        Err(refusal) => Ok(AnswerOutcome::Refused {
            refusal,
            verifications,
            hashes,
        }),
    }
}

/// Signatures that are asked for behind judgements, with the counts of these.
pub(crate) fn asks_behind(asks: Vec<Ask>, before: Judgements) -> AnswerOutcome
    ensures { AsksBehind asks.items before result }
{
    AnswerOutcome::Asks {
        asks,
        verifications: verified_by(&before),
        hashes: hashed_by(&before),
    }
}

/// What judgements come to, or the judge's refusal.
fn answer_found(
    alloc: Global,
    case: &Case,
    judgements: Judgements,
    lead: Option<Meaning>,
) -> Result<Result<Meaning, Refusal>, AllocError>
    requires lead { option_map seen lead ≡ lead_found case.now judgements.alias }
    ensures { let found = found_by case.now judgements in
        IfOk result (λ r. MatchResult r (λ f. found ≡ Ok (seen f)) (λ e. found ≡ Err e)) }
{
    let Judgements { own, ns, ds, .. } = judgements;
    match own {
        Ok(judgement) => {
            let meaning = verdict_found(alloc, case, judgement.verdict, &ns, &ds)?;
            Ok(Ok(meaning))
        }
        Err(refused) => Ok(refusal_found(refused.refusal, lead, ds)),
    }
}

/// What a verdict tells, with the judgements of NS and DS beside it.
fn verdict_found(
    alloc: Global,
    case: &Case,
    verdict: Verdict,
    ns: &Option<SideJudgement>,
    ds: &Option<SideJudgement>,
) -> Result<Meaning, AllocError>
    ensures { IfOk result (λ f. seen f
        ≡ verdict_found case.now ns.now ds.now (verdict_of verdict)) }
{
    if is_delegated(&verdict) {
        return Ok(Meaning::Delegated(cut_found(alloc, ns, ds)?));
    }
    if is_no_type(&verdict) && case.question.rtype == Rtype::DS {
        return Ok(match delegates_found(case, ns) {
            Some(delegates) => Meaning::NoDs(delegates),
            None => Meaning::Verdict(verdict),
        });
    }
    Ok(Meaning::Verdict(verdict))
}

/// What is found where the case itself is refused, or that refusal.
fn refusal_found(
    refusal: Refusal,
    lead: Option<Meaning>,
    ds: Option<SideJudgement>,
) -> Result<Meaning, Refusal>
    ensures { let said = refusal_found (option_map seen lead) ds refusal in
        MatchResult result (λ f. said ≡ Ok (seen f)) (λ e. said ≡ Err e) }
{
    if refusal != Refusal::NotProven {
        return Err(refusal);
    }
    if let Some(lead) = lead {
        return Ok(lead);
    }
    match referral_found(ds) {
        Some(referral) => Ok(referral),
        None => Err(refusal),
    }
}

/// The DS records at a cut, where they are proven.
fn referral_found(ds: Option<SideJudgement>) -> Option<Meaning>
    ensures { option_map seen result ≡ referral_found ds }
{
    let SideJudgement { question, said } = ds?;
    let judgement = said.ok()?;
    match judgement.verdict {
        Verdict::Records(ds) => Some(Meaning::Referral {
            cut: question.name,
            ds,
        }),
        _ => None,
    }
}

/// The cut, where the zone delegates it and answers for its DS.
fn cut_found(
    alloc: Global,
    ns: &Option<SideJudgement>,
    ds: &Option<SideJudgement>,
) -> Result<Option<Name<Vec<u8>>>, AllocError>
    ensures { IfOk result (λ c. c ≡ cut_found ns.now ds.now) }
{
    let Some(ns) = ns else {
        return Ok(None);
    };
    let Some(ds) = ds else {
        return Ok(None);
    };
    if says_delegated(&ns.said) && answers_ds(&ds.said) {
        return Ok(Some(copy_name(alloc, &ns.question.name)?));
    }
    Ok(None)
}

/// Whether a judgement for DS says that there is none, or which.
fn answers_ds(said: &Result<Judgement, Refused>) -> bool
    ensures { result ≡ answers_ds (answer_of said.now) }
{
    match said {
        Ok(judgement) => matches!(judgement.verdict, Verdict::Records(_) | Verdict::NoType),
        Err(_) => false,
    }
}

/// Whether a name that has no DS record is delegated, where that is proven.
fn delegates_found(case: &Case, ns: &Option<SideJudgement>) -> Option<bool>
    ensures { result ≡ delegates_found case.now ns.now }
{
    if case.question.name.name_eq(case.apex) {
        return Some(false);
    }
    let Some(ns) = ns else {
        return None;
    };
    match &ns.said {
        Ok(judgement) => Some(is_delegated(&judgement.verdict)),
        Err(_) => None,
    }
}

/// How often was verified for all judgements.
fn verified_by(judgements: &Judgements) -> u64
    ensures { result ≡ verified_by judgements.now }
{
    u64::from(verified(&judgements.own))
        + u64::from(verified_in(&judgements.alias))
        + u64::from(verified_in(&judgements.ns))
        + u64::from(verified_in(&judgements.ds))
}

/// How often was hashed for all judgements.
fn hashed_by(judgements: &Judgements) -> u64
    ensures { result ≡ hashed_by judgements.now }
{
    u64::from(hashed(&judgements.own))
        + u64::from(hashed_in(&judgements.alias))
        + u64::from(hashed_in(&judgements.ns))
        + u64::from(hashed_in(&judgements.ds))
}

fn verified_in(made: &Option<SideJudgement>) -> u32
    ensures { result ≡ verified_in made.now }
{
    match made {
        Some(made) => verified(&made.said),
        None => 0,
    }
}

fn hashed_in(made: &Option<SideJudgement>) -> u32
    ensures { result ≡ hashed_in made.now }
{
    match made {
        Some(made) => hashed(&made.said),
        None => 0,
    }
}

fn verified(said: &Result<Judgement, Refused>) -> u32
    ensures { result ≡ verifications_of said.now }
{
    match said {
        Ok(judgement) => judgement.verifications,
        Err(refused) => refused.verifications,
    }
}

fn hashed(said: &Result<Judgement, Refused>) -> u32
    ensures { result ≡ hashes_of said.now }
{
    match said {
        Ok(judgement) => judgement.hashes,
        Err(refused) => refused.hashes,
    }
}
