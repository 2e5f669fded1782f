//! Judgements of the same messages for other questions.
ghost use Rattle.std.specs.Prelude.{◌≡◌, ◌+◌, ◌≤◌, IfOk, MatchResult};
ghost use Rattle.std.specs.Option.{option_map};
ghost use Rattle.messages.specs.Questions.{asked_of};
ghost use Rattle.answer_judge.specs.Judging.{answer_of, hash_bound};
ghost use Rattle.answer_judge_table.specs.Asking.{AreWanted};
ghost use Rattle.answer_judge_table.specs.Decided.{is_out_of_memory};
ghost use Rattle.answer_judge_table.specs.Outcomes.{IsOutcome, hashes_of_outcome};
ghost use Rattle.answer_findings.specs.Found.{hash_bound_aside};
ghost use Rattle.answer_findings.specs.Judgements.{AreAskedAside, AreWantedAside, IsMadeOf, aside};
ghost use Rattle.answer_findings.specs.Seen.{hashed_aside, judgements_up_to};

use answer_hasher::NameHasher;
use answer_judge_table::{
    Ask, Case, CheckedSignature, Judgement, Outcome, Refusal, Refused, asks_by_table,
    judge_by_table,
};
use messages::question::Question;
use std::alloc::{AllocError, Global};

/// A judgement of a case's messages for another question.
#[derive(Debug, Drop)]
pub(crate) struct SideJudgement {
    pub(crate) question: Question,
    pub(crate) said: Result<Judgement, Refused>,
}

/// The judgements of a search: of the case itself, of the question that proves an alias, and of NS
/// and DS at a name.
#[derive(Debug, Drop)]
pub(crate) struct Judgements {
    pub(crate) own: Result<Judgement, Refused>,
    pub(crate) alias: Option<SideJudgement>,
    pub(crate) ns: Option<SideJudgement>,
    pub(crate) ds: Option<SideJudgement>,
}

impl Judgements {
    /// Those that were made before one of NS or DS: none yet of DS.
    pub(crate) fn up_to(
        own: Result<Judgement, Refused>,
        alias: Option<SideJudgement>,
        ns: Option<SideJudgement>,
    ) -> Self
        ensures { result ≡ judgements_up_to own alias ns }
    {
        Judgements {
            own,
            alias,
            ns,
            ds: None,
        }
    }
}

/// Judges a case's messages for another question, if there is one; or says which signatures that
/// wants.
pub(crate) fn judge_other_question<H: NameHasher>(
    alloc: Global,
    case: &Case,
    table: &[CheckedSignature],
    question: Option<Question>,
    hasher: &mut H,
) -> Result<Result<Option<SideJudgement>, Vec<Ask>>, AllocError>
    ensures made { let wanted = option_map asked_of question in
        IfOk result (λ r. MatchResult r (IsMadeOf table.now case.now wanted)
        (λ asks. AreAskedAside table.now case.now wanted asks.items)) }
    ensures hashed { IfOk result
        (λ r. H.hashed hasher.new ≡ H.hashed hasher.old + hashed_aside r) }
    ensures bound { let most = hash_bound_aside case.now (option_map asked_of question) in
        H.hashed hasher.new ≤ H.hashed hasher.old + most }
{
    let Some(question) = question else {
        return Ok(Ok(None));
    };
    match outcome_aside(alloc, case, table, &question, hasher)? {
        Outcome::Judged(said) if ran_out(&said) => Err(AllocError),
        Outcome::Judged(said) => Ok(Ok(Some(SideJudgement { question, said }))),
        Outcome::Asks(asks) => Ok(Err(asks)),
    }
}

/// Whether a judgement ended for want of memory. What it would prove with memory would otherwise
/// pass for not proven.
fn ran_out(said: &Result<Judgement, Refused>) -> bool
    ensures { result ≡ is_out_of_memory (answer_of said.now) }
{
    match said {
        Ok(_) => false,
        Err(refused) => refused.refusal == Refusal::Memory,
    }
}

/// The signatures that a judgement of a case's messages for another question wants, if there is
/// one; none where the table has all that is due. No name is hashed for it.
pub(crate) fn asks_aside(
    alloc: Global,
    case: &Case,
    table: &[CheckedSignature],
    question: Option<Question>,
) -> Result<Vec<Ask>, AllocError>
    ensures { let wanted = option_map asked_of question in
        IfOk result (λ v. AreWantedAside table.now case.now wanted v.items) }
{
    let Some(question) = question else {
        return Ok(Vec::new(alloc));
    };
    wanted_aside(alloc, case, table, &question)
}

/// The signatures that a judgement of a case's messages for another question wants.
fn wanted_aside(
    alloc: Global,
    case: &Case,
    table: &[CheckedSignature],
    question: &Question,
) -> Result<Vec<Ask>, AllocError>
    ensures { let h = aside case.now (asked_of question.now) in
        IfOk result (λ v. AreWanted table.now h v.items) }
{
    asks_by_table(alloc, &case_for(case, question), table)
}

/// What comes of a judgement of a case's messages for another question.
fn outcome_aside<H: NameHasher>(
    alloc: Global,
    case: &Case,
    table: &[CheckedSignature],
    question: &Question,
    hasher: &mut H,
) -> Result<Outcome, AllocError>
    ensures outcome { let h = aside case.now (asked_of question.now) in
        IfOk result (λ o. IsOutcome table.now h o) }
    ensures hashed { IfOk result
        (λ o. H.hashed hasher.new ≡ H.hashed hasher.old + hashes_of_outcome o) }
    ensures bound { let h = aside case.now (asked_of question.now) in
        H.hashed hasher.new ≤ H.hashed hasher.old + hash_bound h }
{
    judge_by_table(alloc, &case_for(case, question), table, hasher)
}

/// A case of the same messages for another question, which need not be the one that was asked.
pub fn case_for<'a>(case: &Case<'a>, question: &'a Question) -> Case<'a>
    ensures { result ≡ aside case.now (asked_of question.now) }
{
    Case {
        apex: case.apex,
        ds: case.ds,
        dnskey: case.dnskey,
        answer: case.answer,
        question,
        moment: case.moment,
        limit: case.limit,
        one_moment: case.one_moment,
        other_question: true,
    }
}
