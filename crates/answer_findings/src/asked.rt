//! The other questions that a case's messages are judged for.
ghost use Rattle.std.specs.Prelude.{◌≡◌, IfOk, map};
ghost use Rattle.std.specs.Option.{option_map};
ghost use Rattle.definitions.specs.Limits.{pointer_limit};
ghost use Rattle.messages.specs.Questions.{asked_of};
ghost use Rattle.messages.specs.Record.{spelled};
ghost use Rattle.answer_judge.specs.Judging.{answer_of};
ghost use Rattle.answer_judge_rules.specs.Rules.{verdict_of};
ghost use Rattle.answer_findings.specs.Hints.{answer_records};
ghost use Rattle.answer_findings.specs.Judgements.{alias_hint, alias_question, asking};
ghost use Rattle.answer_findings.specs.Judgements.{cut_question, ds_question, first_question};
ghost use Rattle.answer_findings.specs.Judgements.{is_delegated, is_no_type, is_unproven};
ghost use Rattle.answer_findings.specs.Judgements.{ns_question, says_delegated, seeks_delegation};

use crate::hints::{Hint, answer_records, has_cname, owner_among};
use answer_judge_table::{Case, Judgement, Refusal, Refused, Verdict};
use messages::ViewRecord;
use messages::names::{Name, copy_name, is_above, is_at_or_above};
use messages::question::Question;
use names_rdata::rtype::Rtype;
use std::alloc::{AllocError, Global};

/// The question that may prove more than the case itself, if the answer suggests one: that of an
/// alias, else for DS at a cut.
pub fn first_question(alloc: Global, case: &Case) -> Result<Option<Question>, AllocError>
    ensures { IfOk result
        (λ q. option_map asked_of q ≡ first_question pointer_limit case.now) }
{
    let records = answer_records(alloc, case)?;
    match alias_hint(alloc, case, &records)? {
        Some(question) => Ok(Some(question)),
        None => cut_among(alloc, case, Rtype::DS, &records),
    }
}

/// The question whose answer proves that the name is an alias, where the case itself proves nothing
/// and its answer suggests one.
pub(crate) fn alias_question(
    alloc: Global,
    case: &Case,
    own: &Result<Judgement, Refused>,
) -> Result<Option<Question>, AllocError>
    ensures { let said = answer_of own.now in
        IfOk result (λ q. option_map asked_of q ≡ alias_question pointer_limit case.now said) }
{
    if !is_unproven(own) {
        return Ok(None);
    }
    let records = answer_records(alloc, case)?;
    alias_hint(alloc, case, &records)
}

/// The question for the DNAME above the name, else for its CNAME, if the answer's records suggest
/// it.
fn alias_hint(
    alloc: Global,
    case: &Case,
    records: &[ViewRecord],
) -> Result<Option<Question>, AllocError>
    requires read { map spelled records.now ≡ answer_records pointer_limit case.now }
    ensures { IfOk result (λ q. option_map asked_of q ≡ alias_hint pointer_limit case.now) }
{
    if let Some(owner) = owner_among(alloc, case, Hint::Dname, records)? {
        return Ok(Some(asking(case, owner, Rtype::DNAME)));
    }
    let question = case.question;
    if is_at_or_above(case.apex, &question.name)
        && question.rtype != Rtype::CNAME
        && has_cname(case, records)
    {
        let name = copy_name(alloc, &question.name)?;
        return Ok(Some(asking(case, name, Rtype::CNAME)));
    }
    Ok(None)
}

/// The question for NS, if one is sought: at the cut of a name that is delegated, or at a name that
/// has no DS record.
pub(crate) fn ns_question(
    alloc: Global,
    case: &Case,
    own: &Result<Judgement, Refused>,
) -> Result<Option<Question>, AllocError>
    ensures { let said = answer_of own.now in
        IfOk result (λ q. option_map asked_of q ≡ ns_question pointer_limit case.now said) }
{
    if says_delegated(own) {
        return cut_question(alloc, case, Rtype::NS);
    }
    if seeks_delegation(case, own) {
        let name = copy_name(alloc, &case.question.name)?;
        return Ok(Some(asking(case, name, Rtype::NS)));
    }
    Ok(None)
}

/// The question for DS, if one is sought: at the cut of a name that is delegated, or where nothing
/// is proven and no alias found.
pub(crate) fn ds_question(
    alloc: Global,
    case: &Case,
    own: &Result<Judgement, Refused>,
    leads: bool,
) -> Result<Option<Question>, AllocError>
    ensures { let said = answer_of own.now in
        IfOk result (λ q. option_map asked_of q ≡ ds_question pointer_limit case.now said leads) }
{
    if says_delegated(own) || (is_unproven(own) && !leads) {
        return cut_question(alloc, case, Rtype::DS);
    }
    Ok(None)
}

/// The question for a type at the cut that the answer's NS records suggest, if they do.
fn cut_question(alloc: Global, case: &Case, rtype: Rtype) -> Result<Option<Question>, AllocError>
    ensures { IfOk result
        (λ q. option_map asked_of q ≡ cut_question pointer_limit case.now rtype) }
{
    let records = answer_records(alloc, case)?;
    cut_among(alloc, case, rtype, &records)
}

fn cut_among(
    alloc: Global,
    case: &Case,
    rtype: Rtype,
    records: &[ViewRecord],
) -> Result<Option<Question>, AllocError>
    requires read { map spelled records.now ≡ answer_records pointer_limit case.now }
    ensures { IfOk result
        (λ q. option_map asked_of q ≡ cut_question pointer_limit case.now rtype) }
{
    match owner_among(alloc, case, Hint::Cut, records)? {
        Some(cut) => Ok(Some(asking(case, cut, rtype))),
        None => Ok(None),
    }
}

/// The question for a type at a name.
fn asking(case: &Case, name: Name<Vec<u8>>, rtype: Rtype) -> Question
    ensures { asked_of result ≡ asking case.now name rtype }
{
    Question {
        name,
        rtype,
        class: case.question.class,
    }
}

/// Whether a judgement says that the name is delegated.
pub(crate) fn says_delegated(said: &Result<Judgement, Refused>) -> bool
    ensures { result ≡ says_delegated (answer_of said.now) }
{
    match said {
        Ok(judgement) => is_delegated(&judgement.verdict),
        Err(_) => false,
    }
}

pub(crate) fn is_delegated(verdict: &Verdict) -> bool
    ensures { result ≡ is_delegated (verdict_of verdict.now) }
{
    matches!(verdict, Verdict::Delegated)
}

pub(crate) fn is_no_type(verdict: &Verdict) -> bool
    ensures { result ≡ is_no_type (verdict_of verdict.now) }
{
    matches!(verdict, Verdict::NoType)
}

/// Whether a judgement says that a name below the apex has no DS record.
fn seeks_delegation(case: &Case, said: &Result<Judgement, Refused>) -> bool
    ensures { result ≡ seeks_delegation case.now (answer_of said.now) }
{
    match said {
        Ok(judgement) => {
            is_no_type(&judgement.verdict)
                && case.question.rtype == Rtype::DS
                && is_above(case.apex, &case.question.name)
        }
        Err(_) => false,
    }
}

fn is_unproven(said: &Result<Judgement, Refused>) -> bool
    ensures { result ≡ is_unproven (answer_of said.now) }
{
    match said {
        Ok(_) => false,
        Err(refused) => refused.refusal == Refusal::NotProven,
    }
}
