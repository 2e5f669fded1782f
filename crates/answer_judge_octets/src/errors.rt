//! Why a case is refused, as an extended error (RFC 8914).
ghost use Rattle.std.specs.Prelude.{◌≡◌, ◌<◌, IfOk};
ghost use Rattle.messages.specs.Questions.{asked_of};
ghost use Rattle.answer_findings.specs.Judgements.{aside};
ghost use Rattle.answer_judge_octets.specs.Replying.{error_of, own_error};

use crate::table_alone::TableAlone;
use answer_extended_errors::{ExtendedError, extended_error};
use answer_findings::{Case, CheckedSignature, Refusal, case_for, first_question};
use messages::question::Question;
use std::alloc::{AllocError, Global};
use std::marker::Brand;
use std::sync::ledger::{Blank, Ledger};

/// The extended error that says why a case is refused beside a table; the first one, which says
/// nothing, where no other says it.
///
/// Where nothing is proven it says why of the question that may prove more, if the answer suggests
/// one: of an alias, or of DS at a cut.
///
/// A refusal is said once the table has all signatures that are wanted. One that it doesn't have
/// does not pass.
pub fn error_of(
    alloc: Global,
    case: &Case,
    table: &[CheckedSignature],
    refusal: Refusal,
) -> Result<ExtendedError, AllocError>
    ensures { IfOk result (λ e. e ≡ error_of case.now table.now refusal) }
{
    if refusal != Refusal::NotProven {
        return own_error(alloc, case, table, refusal);
    }
    match first_question(alloc, case)? {
        Some(question) => error_aside(alloc, case, &question, table, refusal),
        None => own_error(alloc, case, table, refusal),
    }
}

/// The extended error that says why a case is refused, of another question.
fn error_aside(
    alloc: Global,
    case: &Case,
    question: &Question,
    table: &[CheckedSignature],
    refusal: Refusal,
) -> Result<ExtendedError, AllocError>
    ensures { let h = aside case.now (asked_of question.now) in
        IfOk result (λ e. e ≡ own_error h table.now refusal) }
{
    own_error(alloc, &case_for(case, question), table, refusal)
}

/// The extended error that says why a case is refused, of its own question.
fn own_error(
    alloc: Global,
    case: &Case,
    table: &[CheckedSignature],
    refusal: Refusal,
) -> Result<ExtendedError, AllocError>
    ensures { IfOk result (λ e. e ≡ own_error case.now table.now refusal) }
{
    let (first, second) = (Blank::new(1), Blank::new(1));
    error_by::<Brand, Brand>(alloc, case, table, refusal, first, second)
}

/// The extended error of a refusal. Calls are counted from 0 on.
fn error_by<L: Ledger, M: Ledger>(
    alloc: Global,
    case: &Case,
    table: &[CheckedSignature],
    refusal: Refusal,
    first: Blank,
    second: Blank,
) -> Result<ExtendedError, AllocError>
    requires name { first.name ≡ L.name }
    requires parts { first.parts ≡ L.parts }
    requires some { 0 < L.parts }
    requires second_name { second.name ≡ M.name }
    requires second_parts { second.parts ≡ M.parts }
    requires second_some { 0 < M.parts }
    ensures { IfOk result (λ e. e ≡ own_error case.now table.now refusal) }
{
    let mut checks = TableAlone::<L, M>::new(table, first, second);
    extended_error(alloc, case, refusal, &mut checks)
}
