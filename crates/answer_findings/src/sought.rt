//! The judgements for other questions that a search comes to.
ghost use Rattle.std.specs.Prelude.{◌≡◌, ◌+◌, ◌≤◌, IfOk, MatchResult};
ghost use Rattle.definitions.specs.Limits.{pointer_limit};
ghost use Rattle.answer_judge.specs.Judging.{answer_of, hash_bound};
ghost use Rattle.answer_findings.specs.Judgements.{AreAskedAside, AreWantedAside, IsMadeOf};
ghost use Rattle.answer_findings.specs.Judgements.{alias_question};
ghost use Rattle.answer_findings.specs.Judgements.{ds_question, first_question, ns_question};
ghost use Rattle.answer_findings.specs.Seen.{hashed_aside};

use crate::asked::{alias_question, ds_question, first_question, ns_question};
use crate::side_judgements::{SideJudgement, asks_aside, judge_other_question};
use answer_hasher::NameHasher;
use answer_judge_table::{Ask, Case, CheckedSignature, Judgement, Refused};
use std::alloc::{AllocError, Global};

/// The signatures that the judgement wants which may prove more than the case itself, if one is
/// suggested; none where the table has all that is due.
pub(crate) fn first_asks(
    alloc: Global,
    case: &Case,
    table: &[CheckedSignature],
) -> Result<Vec<Ask>, AllocError>
    ensures { let wanted = first_question pointer_limit case.now in
        IfOk result (λ v. AreWantedAside table.now case.now wanted v.items) }
{
    let question = first_question(alloc, case)?;
    asks_aside(alloc, case, table, question)
}

/// The judgement that proves an alias, if one is sought; or the signatures that it wants.
pub(crate) fn judged_alias<H: NameHasher>(
    alloc: Global,
    case: &Case,
    table: &[CheckedSignature],
    own: &Result<Judgement, Refused>,
    hasher: &mut H,
) -> Result<Result<Option<SideJudgement>, Vec<Ask>>, AllocError>
    ensures made { let wanted = alias_question pointer_limit case.now (answer_of own.now) in
        IfOk result (λ r. MatchResult r (IsMadeOf table.now case.now wanted)
        (λ asks. AreAskedAside table.now case.now wanted asks.items)) }
    ensures hashed { IfOk result
        (λ r. H.hashed hasher.new ≡ H.hashed hasher.old + hashed_aside r) }
    ensures bound { H.hashed hasher.new ≤ H.hashed hasher.old + hash_bound case.now }
{
    let question = alias_question(alloc, case, own)?;
    judge_other_question(alloc, case, table, question, hasher)
}

/// The judgement of NS at a name, if one is sought; or the signatures that it wants.
pub(crate) fn judged_ns<H: NameHasher>(
    alloc: Global,
    case: &Case,
    table: &[CheckedSignature],
    own: &Result<Judgement, Refused>,
    hasher: &mut H,
) -> Result<Result<Option<SideJudgement>, Vec<Ask>>, AllocError>
    ensures made { let wanted = ns_question pointer_limit case.now (answer_of own.now) in
        IfOk result (λ r. MatchResult r (IsMadeOf table.now case.now wanted)
        (λ asks. AreAskedAside table.now case.now wanted asks.items)) }
    ensures hashed { IfOk result
        (λ r. H.hashed hasher.new ≡ H.hashed hasher.old + hashed_aside r) }
    ensures bound { H.hashed hasher.new ≤ H.hashed hasher.old + hash_bound case.now }
{
    let question = ns_question(alloc, case, own)?;
    judge_other_question(alloc, case, table, question, hasher)
}

/// The judgement of DS at a name, if one is sought; or the signatures that it wants.
pub(crate) fn judged_ds<H: NameHasher>(
    alloc: Global,
    case: &Case,
    table: &[CheckedSignature],
    own: &Result<Judgement, Refused>,
    leads: bool,
    hasher: &mut H,
) -> Result<Result<Option<SideJudgement>, Vec<Ask>>, AllocError>
    ensures made { let wanted = ds_question pointer_limit case.now (answer_of own.now) leads in
        IfOk result (λ r. MatchResult r (IsMadeOf table.now case.now wanted)
        (λ asks. AreAskedAside table.now case.now wanted asks.items)) }
    ensures hashed { IfOk result
        (λ r. H.hashed hasher.new ≡ H.hashed hasher.old + hashed_aside r) }
    ensures bound { H.hashed hasher.new ≤ H.hashed hasher.old + hash_bound case.now }
{
    let question = ds_question(alloc, case, own, leads)?;
    judge_other_question(alloc, case, table, question, hasher)
}
