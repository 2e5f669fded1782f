//! A search for what an answer says beyond a verdict.
ghost use Rattle.std.specs.Prelude.{◌≡◌, ◌+◌, ◌*◌, ◌≤◌, IfOk};
ghost use Rattle.answer_judge.specs.Judging.{hash_bound};
ghost use Rattle.answer_judge_table.specs.Asking.{AreAsked};
ghost use Rattle.answer_findings.specs.Found.{AreAskedAtOnce, IsFound, IsFoundWithin, hashes_found};
ghost use Rattle.answer_findings.specs.Truth.{FindsTruly};

use crate::combining::{asks_behind, combine};
use crate::leads::lead_found;
use crate::meaning::AnswerOutcome;
use crate::side_judgements::Judgements;
use crate::sought::{first_asks, judged_alias, judged_ds, judged_ns};
use answer_hasher::NameHasher;
use answer_judge_table::{Ask, Case, CheckedSignature, Outcome, judge_by_table};
use std::alloc::{AllocError, Global};

/// Says what an answer tells of a question, by a table of signatures that were checked, as
/// [`judge_by_table`] does: the judge's verdict, with the cut of a name that is delegated, and
/// whether a name without DS is delegated; or where no verdict is proven, where the name leads as
/// an alias, or the DS records of a referral. Why nothing is found is the judge's own refusal.
///
/// What goes beyond the verdict is what the judge says of the same messages for other questions:
/// for the CNAME or the DNAME that the answer holds, for NS and DS at the cut that its NS records
/// suggest. So there are at most four judgements a call, each bounded as one is; the counts are
/// their sums, also where signatures are asked for behind judgements that were made. The hasher
/// that is lent counts as many names as is said. Signatures are asked for by the first judgement
/// that the table does not suffice for; where that is the case's own, by the one that the answer
/// suggests besides, which wants those of the case too where the answer is one about an alias or a
/// referral: then no name is hashed.
///
/// What is found in messages in which nothing is forged, whichever of these questions they are
/// judged for, is so of a version of the zone: an alias leads there, the DS records are at the cut.
/// What rests on two judgements, the cut and whether a name without DS is delegated, is so of a
/// zone that does not change.
pub fn judge_answer<H: NameHasher>(
    alloc: Global,
    case: &Case,
    table: &[CheckedSignature],
    hasher: &mut H,
) -> Result<AnswerOutcome, AllocError>
    ensures found { IfOk result (λ f. IsFound table.now case.now f) }
    ensures honest { IfOk result (λ f. FindsTruly table.now case.now f) }
    ensures within { IfOk result (λ f. IsFoundWithin case.now f) }
    ensures hashed { IfOk result
        (λ f. H.hashed hasher.new ≡ H.hashed hasher.old + hashes_found f) }
    ensures bound { H.hashed hasher.new ≤ H.hashed hasher.old + 4 * hash_bound case.now }
{
    let own = match judge_by_table(alloc, case, table, hasher)? {
        Outcome::Judged(own) => own,
        Outcome::Asks(asks) => {
            let asks = asks_first(alloc, case, table, asks)?;
            return Ok(AnswerOutcome::Asks {
                asks,
                verifications: 0,
                hashes: 0,
            });
        }
    };
    let alias = match judged_alias(alloc, case, table, &own, hasher)? {
        Ok(alias) => alias,
        Err(asks) => return Ok(asks_behind(asks, Judgements::up_to(own, None, None))),
    };
    let lead = lead_found(alloc, case, &alias)?;
    let ns = match judged_ns(alloc, case, table, &own, hasher)? {
        Ok(ns) => ns,
        Err(asks) => return Ok(asks_behind(asks, Judgements::up_to(own, alias, None))),
    };
    let ds = match judged_ds(alloc, case, table, &own, lead.is_some(), hasher)? {
        Ok(ds) => ds,
        Err(asks) => return Ok(asks_behind(asks, Judgements::up_to(own, alias, ns))),
    };
    combine(alloc, case, Judgements { own, alias, ns, ds }, lead)
}

/// The signatures that are asked for before the case itself is judged, which wants some.
fn asks_first(
    alloc: Global,
    case: &Case,
    table: &[CheckedSignature],
    own: Vec<Ask>,
) -> Result<Vec<Ask>, AllocError>
    requires own { AreAsked table.now case.now own.items }
    ensures { IfOk result (λ v. AreAskedAtOnce table.now case.now v.items) }
{
    let first = first_asks(alloc, case, table)?;
    if first.is_empty() {
        return Ok(own);
    }
    Ok(first)
}
