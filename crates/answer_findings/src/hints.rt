//! Records of an answer that suggest other questions to judge it for. Nothing of them is verified.
ghost use Rattle.std.specs.Prelude.{◌≡◌, IfOk, map};
ghost use Rattle.std.specs.List.{find, list_any};
ghost use Rattle.std.specs.Option.{option_map};
ghost use Rattle.definitions.specs.Limits.{pointer_limit};
ghost use Rattle.messages.specs.Record.{spelled};
ghost use Rattle.answer_findings.specs.Hints.{answer_records, hints_at};

use answer_judge_table::Case;
use messages::names::{Name, ToName, copy_name, is_above, is_at_or_above};
use messages::{ViewRecord, read_message_into};
use names_rdata::rtype::Rtype;
use numbers::class::Class;
use std::alloc::{AllocError, Global};

/// Where a record must stand to suggest a question.
#[derive(Clone, Copy, Debug, PartialEq, Eq)]
pub(crate) enum Hint {
    /// A CNAME record at the name.
    Cname,
    /// A DNAME record strictly above the name, at or below the apex.
    Dname,
    /// An NS record at or above the name, strictly below the apex.
    Cut,
}

/// The records of the answer; none where it isn't read.
pub(crate) fn answer_records<'a>(
    alloc: Global,
    case: &Case<'a>,
) -> Result<Vec<ViewRecord<'a>>, AllocError>
    ensures { IfOk result
        (λ v. map spelled v.items ≡ answer_records pointer_limit case.now) }
{
    let mut records = Vec::new(alloc);
    let Ok((_view, in_memory)) = read_message_into(case.answer, &mut records) else {
        return Ok(Vec::new(alloc));
    };
    in_memory?;
    Ok(records)
}

/// Whether a CNAME record at the question's name is among records.
pub(crate) fn has_cname(case: &Case, records: &[ViewRecord]) -> bool
    ensures { let is = hints_at case.now Hint.Cname in
        result ≡ list_any is (map spelled records.now) }
{
    for record in records {
        if hints_at(case, Hint::Cname, record) {
            return true;
        }
    }
    false
}

/// The owner of the first record that hints so.
pub(crate) fn owner_among(
    alloc: Global,
    case: &Case,
    hint: Hint,
    records: &[ViewRecord],
) -> Result<Option<Name<Vec<u8>>>, AllocError>
    ensures { let found = find (hints_at case.now hint) (map spelled records.now) in
        IfOk result (λ o. o ≡ option_map (λ r. r.owner) found) }
{
    for record in records {
        if hints_at(case, hint, record) {
            return Ok(Some(copy_name(alloc, record.owner.name())?));
        }
    }
    Ok(None)
}

/// Whether a record is of class IN, of the hint's type and where the hint wants it.
fn hints_at(case: &Case, hint: Hint, view: &ViewRecord) -> bool
    ensures { result ≡ hints_at case.now hint (spelled view.now) }
{
    if view.class != Class::IN {
        return false;
    }
    let owner = view.owner.name();
    let name = &case.question.name;
    match hint {
        Hint::Cname => view.rtype == Rtype::CNAME && owner.name_eq(name),
        Hint::Dname => {
            view.rtype == Rtype::DNAME && is_at_or_above(case.apex, owner) && is_above(owner, name)
        }
        Hint::Cut => {
            view.rtype == Rtype::NS && is_above(case.apex, owner) && is_at_or_above(owner, name)
        }
    }
}
