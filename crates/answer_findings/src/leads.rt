//! Where an alias leads that a judgement proves.
ghost use Rattle.std.specs.Prelude.{◌≡◌, IfOk};
ghost use Rattle.std.specs.Option.{option_map};
ghost use Rattle.answer_findings.specs.Judgements.{question_of};
ghost use Rattle.answer_findings.specs.Seen.{lead_found, named_lead, one_name, open_lead};
ghost use Rattle.answer_findings.specs.Seen.{own_lead, seen, star_lead};

use crate::meaning::Meaning;
use crate::side_judgements::SideJudgement;
use answer_judge_table::{Case, DataList, Verdict};
use answer_terms::redirection::exchanged;
use messages::names::{Name, copy_name, is_above, name_from_octets};
use names_rdata::rtype::Rtype;
use std::alloc::{AllocError, Global};

/// Where the name leads that a judgement shows to be an alias, or that opt-out leaves it open, if
/// it does.
pub(crate) fn lead_found(
    alloc: Global,
    case: &Case,
    made: &Option<SideJudgement>,
) -> Result<Option<Meaning>, AllocError>
    ensures { IfOk result (λ f. option_map seen f ≡ lead_found case.now made.now) }
{
    let Some(made) = made else {
        return Ok(None);
    };
    match &made.said {
        Ok(judgement) => match &judgement.verdict {
            Verdict::Records(datas) => own_lead(alloc, case, made, datas),
            Verdict::StarRecords(datas) => wildcard_lead(alloc, made, datas),
            Verdict::Open => Ok(open_lead(made)),
            _ => Ok(None),
        },
        Err(_) => Ok(None),
    }
}

/// Where a name's own CNAME leads it, or a DNAME above it.
fn own_lead(
    alloc: Global,
    case: &Case,
    made: &SideJudgement,
    datas: &DataList,
) -> Result<Option<Meaning>, AllocError>
    ensures { let led = named_lead (own_lead case.now (question_of made.now))
        (one_name datas.now) in
        IfOk result (λ f. option_map seen f ≡ led) }
{
    let Some(target) = one_name(alloc, datas)? else {
        return Ok(None);
    };
    if made.question.rtype == Rtype::CNAME {
        return Ok(Some(Meaning::Alias(target)));
    }
    let owner = &made.question.name;
    if !is_above(owner, &case.question.name) {
        return Ok(None);
    }
    Ok(Some(Meaning::Dname {
        owner: copy_name(alloc, owner)?,
        leads: exchanged(alloc, &case.question.name, owner, &target)?,
    }))
}

/// Where a wildcard's CNAME leads.
fn wildcard_lead(
    alloc: Global,
    made: &SideJudgement,
    datas: &DataList,
) -> Result<Option<Meaning>, AllocError>
    ensures { let led = named_lead (star_lead (question_of made.now)) (one_name datas.now) in
        IfOk result (λ f. option_map seen f ≡ led) }
{
    let Some(target) = one_name(alloc, datas)? else {
        return Ok(None);
    };
    if made.question.rtype == Rtype::CNAME {
        return Ok(Some(Meaning::WildcardAlias(target)));
    }
    Ok(None)
}

/// That opt-out leaves the name open, where a judgement for its CNAME says so. It is so of each
/// type.
fn open_lead(made: &SideJudgement) -> Option<Meaning>
    ensures { option_map seen result ≡ open_lead (question_of made.now) }
{
    if made.question.rtype == Rtype::CNAME {
        return Some(Meaning::LeftOpen);
    }
    None
}

/// The name that a list of one datum spells.
fn one_name(alloc: Global, datas: &DataList) -> Result<Option<Name<Vec<u8>>>, AllocError>
    ensures { IfOk result (λ n. n ≡ one_name datas.now) }
{
    match datas.as_slice() {
        [datum] => name_from_octets(alloc, datum),
        _ => Ok(None),
    }
}
