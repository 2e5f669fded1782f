//! Where the messages of a zone lead.
ghost use Rattle.std.specs.Prelude.{◌≡◌, IfErr, IfOk, MatchResult};
ghost use Rattle.evidence_laws.specs.Counted.{CountsHashes, plus};
ghost use Rattle.evidence_laws.specs.Given.{IsOf};
ghost use Rattle.evidence_laws.specs.Told.{told};
ghost use Rattle.resolution_walk.specs.Between.{IsAnswerUntold, IsNothing};
ghost use Rattle.resolution_walk.specs.Between.{are_keys_refused, is_of_keys};
ghost use Rattle.resolution_walk.specs.Judged.{IsCountedBehind, IsLast, IsToldWay, counts_in};
ghost use Rattle.resolution_walk.specs.Stopping.{IsCounted, IsStop, IsHopUntold};

use crate::ending::{JudgedHop, Uncut};
use crate::evidence::Evidence;
use crate::names_between::search_down_to;
use crate::place::{case_of, judged_hop, own_step, untold, wanting};
use crate::query::ZoneQuery;
use answer_hasher::NameHasher;
use evidence_laws::{Case, Counts, JudgedStep, Refusal, Step};
use std::alloc::{AllocError, Global};

/// An answer to the question that tells nothing of the way.
#[derive(Clone, Copy, Debug, PartialEq, Eq)]
struct Unanswered {
    /// Why it was refused, if it was.
    refusal: Option<Refusal>,
    /// How often was verified and hashed for it.
    counts: Counts,
}

/// Where the messages of a zone lead with a question: by the answer to it, and where that tells
/// nothing of the way, by answers for DS at the names between. What is counted so far comes with
/// it.
pub(crate) fn in_zone<H: NameHasher>(
    alloc: Global,
    evidence: &Evidence,
    query: &ZoneQuery,
    counts: Counts,
    hasher: &mut H,
) -> Result<JudgedHop, AllocError>
    ensures stops { IfOk result (IsStop evidence.now query.now) }
    ensures counted { IfOk result (IsCounted evidence.now query.now counts) }
    ensures hashed { let hashes = CountsHashes (H.hashed hasher.old) (H.hashed hasher.new) in
        IfOk result (λ t. hashes counts.hashes t.counts.hashes) }
{
    match case_of(evidence, query.zone, query.ds, query.question) {
        Some(case) => by_answer(alloc, evidence, query, &case, counts, hasher),
        None => wanting(alloc, evidence, query.zone, query.question, counts),
    }
}

/// Where the answer to the question leads, or answers for DS where that tells nothing of the way.
fn by_answer<H: NameHasher>(
    alloc: Global,
    evidence: &Evidence,
    query: &ZoneQuery,
    case: &Case,
    counts: Counts,
    hasher: &mut H,
) -> Result<JudgedHop, AllocError>
    requires { let q = query.now in IsOf evidence.now q.zone q.ds q.asked case.now }
    ensures stops { IfOk result (IsStop evidence.now query.now) }
    ensures counted { IfOk result (IsCounted evidence.now query.now counts) }
    ensures hashed { let hashes = CountsHashes (H.hashed hasher.old) (H.hashed hasher.new) in
        IfOk result (λ t. hashes counts.hashes t.counts.hashes) }
{
    let judged_step = own_step(alloc, evidence, case, hasher)?;
    let (validity, own) = (judged_step.validity, judged_step.counts);
    let sums = counts.plus(own);
    match told_way(judged_step.step) {
        Ok(step) => {
            let so_far = JudgedStep {
                step,
                validity,
                counts: sums,
            };
            judged_hop(alloc, query, so_far)
        }
        Err(refusal) => {
            let untold = Unanswered {
                refusal,
                counts: own,
            };
            search_between(alloc, evidence, query, untold, counts, hasher)
        }
    }
}

/// What is told of the way, or why nothing is.
fn told_way(step: Step) -> Result<Step, Option<Refusal>>
    ensures { let said = told step in
        MatchResult result (λ s. IsToldWay said (told s)) (IsNothing said) }
{
    match step {
        Step::Untold(refusal) => Err(refusal),
        Step::NoCut | Step::NoneBelow => Err(None),
        step => Ok(step),
    }
}

/// Where answers for DS lead at the names between; or nowhere, if no delegation is there. The
/// answer to the question tells nothing.
fn search_between<H: NameHasher>(
    alloc: Global,
    evidence: &Evidence,
    query: &ZoneQuery,
    untold: Unanswered,
    counts: Counts,
    hasher: &mut H,
) -> Result<JudgedHop, AllocError>
    requires { let q = query.now in
        IsAnswerUntold evidence.now q.asked q.zone q.ds untold.refusal untold.counts }
    ensures stops { IfOk result (IsStop evidence.now query.now) }
    ensures counted { IfOk result (IsCounted evidence.now query.now counts) }
    ensures hashed { let hashes = CountsHashes (H.hashed hasher.old) (H.hashed hasher.new) in
        IfOk result (λ t. hashes (plus counts untold.counts).hashes t.counts.hashes) }
{
    let sums = counts.plus(untold.counts);
    let way = down_between(alloc, evidence, query, untold, sums, hasher)?;
    match way {
        Ok(judged_hop) => Ok(judged_hop),
        Err(uncut) => {
            let all = uncut.counts();
            untold_there(alloc, query, untold.refusal, all)
        }
    }
}

/// The end where the answer to a question tells nothing, with what is counted so far.
fn untold_there(
    alloc: Global,
    query: &ZoneQuery,
    refusal: Option<Refusal>,
    counts: Counts,
) -> Result<JudgedHop, AllocError>
    ensures hops { IfOk result (λ t. IsHopUntold query.now refusal t.hop) }
    ensures counted { IfOk result (λ t. t.counts ≡ counts) }
{
    let hop = untold(alloc, query, refusal)?;
    Ok(JudgedHop {
        hop,
        validity: None,
        counts,
    })
}

/// Where answers for DS lead at the names between. None is looked at if the zone's keys are
/// refused, since no answer of the zone tells anything then.
fn down_between<H: NameHasher>(
    alloc: Global,
    evidence: &Evidence,
    query: &ZoneQuery,
    untold: Unanswered,
    counts: Counts,
    hasher: &mut H,
) -> Result<Result<JudgedHop, Uncut>, AllocError>
    requires { let q = query.now in
        IsAnswerUntold evidence.now q.asked q.zone q.ds untold.refusal untold.counts }
    ensures stops { IfOk result (λ r. IfOk r (IsStop evidence.now query.now)) }
    ensures counted { let refusal = untold.refusal in
        IfOk result (IsCountedBehind evidence.now query.now refusal counts) }
    ensures last { let q = query.now in let last = IsLast evidence.now q.asked q.zone q.ds in
        IfOk result (λ r. IfErr r (λ u. last untold.refusal)) }
    ensures hashed { let hashes = CountsHashes (H.hashed hasher.old) (H.hashed hasher.new) in
        IfOk result (λ r. hashes counts.hashes (counts_in r).hashes) }
{
    if are_keys_refused(&untold.refusal) {
        Ok(Err(Uncut::SoFar(counts)))
    } else {
        search_down_to(alloc, evidence, query, &query.question.name, counts, hasher)
    }
}

/// Whether a message was refused for the zone's keys, which each of the zone's messages is judged
/// by.
fn are_keys_refused(refusal: &Option<Refusal>) -> bool
    ensures { result ≡ are_keys_refused refusal.now }
{
    match refusal {
        Some(refusal) => is_of_keys(*refusal),
        None => false,
    }
}

fn is_of_keys(refusal: Refusal) -> bool
    ensures { result ≡ is_of_keys refusal }
{
    match refusal {
        Refusal::BadDnskeyMessage | Refusal::EqualTags | Refusal::NoTrustedKey => true,
        _ => false,
    }
}
