//! DS at the names between a zone and a question's name, one by one.
ghost use Rattle.std.specs.Prelude.{◌≡◌, [], IfErr, IfOk, MatchOption, MatchResult, false, true};
ghost use Rattle.definitions.specs.Name.{at_or_above};
ghost use Rattle.messages.specs.Questions.{asked_of};
ghost use Rattle.evidence_laws.specs.Counted.{CountsHashes};
ghost use Rattle.evidence_laws.specs.Told.{told};
ghost use Rattle.evidence_laws.specs.Given.{IsOf};
ghost use Rattle.evidence_laws.specs.Walking.{ds_at};
ghost use Rattle.resolution_walk.specs.Between.{IsBetween, IsReached, IsUnanswered, is_itself};
ghost use Rattle.resolution_walk.specs.Judged.{IsCountedBetween, IsJudgedAt, IsJudgedFor};
ghost use Rattle.resolution_walk.specs.Judged.{IsToldCut, IsUncut, IsUncutTold, counts_in};
ghost use Rattle.resolution_walk.specs.Stopping.{IsStop, IsHopTo, WantsLacking};
ghost use Rattle.resolution_walk.specs.Wanted.{IsParent};

use crate::ending::{JudgedHop, Uncut};
use crate::evidence::Evidence;
use crate::place::{case_of, judged_hop, name_step, wanting};
use crate::query::ZoneQuery;
use answer_hasher::NameHasher;
use evidence_laws::{Case, Counts, JudgedStep, Step};
use messages::names::{Name, ToName, copy_name, is_above};
use messages::question::Question;
use names_rdata::rtype::Rtype;
use std::alloc::{AllocError, Global};

/// Where answers for DS lead, at the names below the zone down to a name, the topmost first; the
/// counts so far alone where no delegation is at any of them. The search ends at a name that does
/// not exist, since no delegation is below it.
///
/// A server that holds parent and child answers from the child and sends no referral: so these
/// questions alone show a delegation, and that an unsigned child is insecure.
pub(crate) fn search_down_to<H: NameHasher>(
    alloc: Global,
    evidence: &Evidence,
    query: &ZoneQuery,
    name: &Name<Vec<u8>>,
    counts: Counts,
    hasher: &mut H,
) -> Result<Result<JudgedHop, Uncut>, AllocError>
    requires above { at_or_above name.now query.now.asked.name ≡ true }
    requires untold { let q = query.now in IsUnanswered evidence.now q.asked q.zone q.ds }
    ensures stops { IfOk result (λ r. IfOk r (IsStop evidence.now query.now)) }
    ensures counted { let counted = IsCountedBetween evidence.now query.now counts in
        IfOk result (λ r. IfOk r counted) }
    ensures uncut { let uncut = IsUncut evidence.now query.now counts name.now in
        IfOk result (λ r. IfErr r uncut) }
    ensures hashed { let hashes = CountsHashes (H.hashed hasher.old) (H.hashed hasher.new) in
        IfOk result (λ r. hashes counts.hashes (counts_in r).hashes) }
{
    if !is_above(query.zone, name) {
        return Ok(Err(Uncut::SoFar(counts)));
    }
    let above = parent_of(alloc, name)?;
    let parent = match above {
        Some(parent) => parent,
        None => return Ok(Err(Uncut::SoFar(counts))),
    };
    let way = search_down_to(alloc, evidence, query, &parent, counts, hasher)?;
    let uncut = match way {
        Ok(judged_hop) => return Ok(Ok(judged_hop)),
        Err(uncut) => uncut,
    };
    match uncut {
        Uncut::Throughout(sums) => Ok(Err(Uncut::Throughout(sums))),
        Uncut::SoFar(sums) => at_name(alloc, evidence, query, name, sums, hasher),
    }
}

/// The name without its first label; none for the root.
fn parent_of(alloc: Global, name: &Name<Vec<u8>>) -> Result<Option<Name<Vec<u8>>>, AllocError>
    ensures { IfOk result (λ o. MatchOption o (name.now ≡ []) (IsParent name.now)) }
{
    match name.parent() {
        Some(parent) => some_copy(alloc, &parent),
        None => Ok(None),
    }
}

/// A copy of a name.
fn some_copy(alloc: Global, name: &Name<&[u8]>) -> Result<Option<Name<Vec<u8>>>, AllocError>
    ensures { IfOk result (λ o. MatchOption o ⊥ (λ n. n ≡ name.now)) }
{
    let copy = copy_name(alloc, name)?;
    Ok(Some(copy))
}

/// Where the answer for DS at a name leads; the counts so far alone where no delegation is there.
fn at_name<H: NameHasher>(
    alloc: Global,
    evidence: &Evidence,
    query: &ZoneQuery,
    name: &Name<Vec<u8>>,
    counts: Counts,
    hasher: &mut H,
) -> Result<Result<JudgedHop, Uncut>, AllocError>
    requires { let q = query.now in IsReached evidence.now q.asked q.zone q.ds name.now }
    ensures stops { IfOk result (λ r. IfOk r (IsStop evidence.now query.now)) }
    ensures judged { IfOk result (IsJudgedAt evidence.now query.now name.now counts) }
    ensures hashed { let hashes = CountsHashes (H.hashed hasher.old) (H.hashed hasher.new) in
        IfOk result (λ r. hashes counts.hashes (counts_in r).hashes) }
{
    if is_itself(query.question, name) {
        Ok(Err(Uncut::SoFar(counts)))
    } else {
        at_other(alloc, evidence, query, name, counts, hasher)
    }
}

/// Whether a question is one for DS at a name.
fn is_itself(question: &Question, name: &Name<Vec<u8>>) -> bool
    ensures { result ≡ is_itself (asked_of question.now) name.now }
{
    name.name_eq(&question.name) && question.rtype == Rtype::DS
}

/// Where the answer for DS at a name leads, if the question is another one.
fn at_other<H: NameHasher>(
    alloc: Global,
    evidence: &Evidence,
    query: &ZoneQuery,
    name: &Name<Vec<u8>>,
    counts: Counts,
    hasher: &mut H,
) -> Result<Result<JudgedHop, Uncut>, AllocError>
    requires reached { let q = query.now in IsReached evidence.now q.asked q.zone q.ds name.now }
    requires other { is_itself query.now.asked name.now ≡ false }
    ensures stops { IfOk result (λ r. IfOk r (IsStop evidence.now query.now)) }
    ensures judged { let sought = ds_at query.now.asked name.now in
        IfOk result (IsJudgedFor evidence.now query.now sought counts) }
    ensures hashed { let hashes = CountsHashes (H.hashed hasher.old) (H.hashed hasher.new) in
        IfOk result (λ r. hashes counts.hashes (counts_in r).hashes) }
{
    let asked = ds_question(alloc, query.question, name)?;
    at_asked(alloc, evidence, query, &asked, counts, hasher)
}

/// The question for DS at a name.
fn ds_question(
    alloc: Global,
    question: &Question,
    name: &Name<Vec<u8>>,
) -> Result<Question, AllocError>
    ensures { let asked = asked_of question.now in
        IfOk result (λ q. asked_of q ≡ ds_at asked name.now) }
{
    let name = copy_name(alloc, name)?;
    Ok(Question {
        name,
        rtype: Rtype::DS,
        class: question.class,
    })
}

/// Where the answer to a question for DS leads.
fn at_asked<H: NameHasher>(
    alloc: Global,
    evidence: &Evidence,
    query: &ZoneQuery,
    asked: &Question,
    counts: Counts,
    hasher: &mut H,
) -> Result<Result<JudgedHop, Uncut>, AllocError>
    requires { let q = query.now in let sought = asked_of asked.now in
        IsBetween evidence.now q.asked q.zone q.ds sought }
    ensures stops { IfOk result (λ r. IfOk r (IsStop evidence.now query.now)) }
    ensures judged { let sought = asked_of asked.now in
        IfOk result (IsJudgedFor evidence.now query.now sought counts) }
    ensures hashed { let hashes = CountsHashes (H.hashed hasher.old) (H.hashed hasher.new) in
        IfOk result (λ r. hashes counts.hashes (counts_in r).hashes) }
{
    match case_of(evidence, query.zone, query.ds, asked) {
        Some(case) => by_cut(alloc, evidence, query, &case, counts, hasher),
        None => wanting_there(alloc, evidence, query.zone, asked, counts),
    }
}

/// The messages that are wanted for a question for DS.
fn wanting_there(
    alloc: Global,
    evidence: &Evidence,
    zone: &Name<Vec<u8>>,
    asked: &Question,
    counts: Counts,
) -> Result<Result<JudgedHop, Uncut>, AllocError>
    ensures wants { let wants = WantsLacking evidence.now zone.now (asked_of asked.now) in
        IfOk result (λ r. MatchResult r (λ t. wants t.hop) (λ n. ⊥)) }
    ensures counted { IfOk result (λ r. counts_in r ≡ counts) }
{
    let judged_hop = wanting(alloc, evidence, zone, asked, counts)?;
    Ok(Ok(judged_hop))
}

/// Where a message that is judged for DS leads; the counts so far alone where it tells that no
/// delegation is there.
fn by_cut<H: NameHasher>(
    alloc: Global,
    evidence: &Evidence,
    query: &ZoneQuery,
    case: &Case,
    counts: Counts,
    hasher: &mut H,
) -> Result<Result<JudgedHop, Uncut>, AllocError>
    requires between { let q = query.now in
        IsBetween evidence.now q.asked q.zone q.ds case.now.asked }
    requires of { let q = query.now in IsOf evidence.now q.zone q.ds case.now.asked case.now }
    ensures stops { IfOk result (λ r. IfOk r (IsStop evidence.now query.now)) }
    ensures judged { IfOk result (IsJudgedFor evidence.now query.now case.now.asked counts) }
    ensures hashed { let hashes = CountsHashes (H.hashed hasher.old) (H.hashed hasher.new) in
        IfOk result (λ r. hashes counts.hashes (counts_in r).hashes) }
{
    let judged_step = name_step(alloc, evidence, case, hasher)?;
    let validity = judged_step.validity;
    let sums = counts.plus(judged_step.counts);
    match told_cut(judged_step.step, sums) {
        Ok(step) => {
            let sought = ZoneQuery {
                zone: query.zone,
                ds: query.ds,
                question: case.question,
            };
            let so_far = JudgedStep {
                step,
                validity,
                counts: sums,
            };
            judged_hop_there(alloc, &sought, so_far)
        }
        Err(uncut) => Ok(Err(uncut)),
    }
}

/// What is told of a delegation at the name; or that none is there, with the counts so far.
fn told_cut(step: Step, counts: Counts) -> Result<Step, Uncut>
    ensures { let said = told step in
        MatchResult result (λ s. IsToldCut said (told s)) (IsUncutTold said counts) }
{
    match step {
        Step::NoCut => Err(Uncut::SoFar(counts)),
        Step::NoneBelow => Err(Uncut::Throughout(counts)),
        step => Ok(step),
    }
}

/// Where what a message tells of a delegation leads.
fn judged_hop_there(
    alloc: Global,
    sought: &ZoneQuery,
    so_far: JudgedStep,
) -> Result<Result<JudgedHop, Uncut>, AllocError>
    ensures hops { let to = IsHopTo sought.now (told so_far.step) in
        IfOk result (λ r. MatchResult r (λ t. to t.hop) (λ n. ⊥)) }
    ensures lasts { IfOk result (λ r. IfOk r (λ t. t.validity ≡ so_far.validity)) }
    ensures counted { IfOk result (λ r. counts_in r ≡ so_far.counts) }
{
    let there = judged_hop(alloc, sought, so_far)?;
    Ok(Ok(there))
}
