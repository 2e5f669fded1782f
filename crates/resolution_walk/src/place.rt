//! What the messages of a zone on the way tell.
ghost use Rattle.std.specs.Prelude.{◌≡◌, ◌+◌, IfNone, IfOk, IfSome, Some, false, true};
ghost use Rattle.messages.specs.Questions.{asked_of};
ghost use Rattle.evidence_laws.specs.Counted.{CountsHashes};
ghost use Rattle.evidence_laws.specs.Told.{IsJudgedCut, IsJudgedStep, told};
ghost use Rattle.evidence_laws.specs.Given.{IsOf, message_of};
ghost use Rattle.resolution_walk.specs.Between.{is_of_memory, lacked_memory};
ghost use Rattle.resolution_walk.specs.Stopping.{IsHopUntold, IsHopTo, WantsLacking};
ghost use Rattle.resolution_walk.specs.Wanted.{is_for_keys, is_lacking, lacking, wanted_of};

use crate::ending::{Ending, Hop, JudgedHop, Wanted};
use crate::evidence::Evidence;
use crate::query::ZoneQuery;
use answer_hasher::NameHasher;
use denial_data::Ds;
use evidence_laws::{Case, Counts, JudgedStep, Refusal, Step, cut_step, step};
use messages::names::{Name, ToName, copy_name};
use messages::question::Question;
use names_rdata::rtype::Rtype;
use std::alloc::{AllocError, Global};

/// What the zone's answer to a question tells of it.
pub(crate) fn own_step<H: NameHasher>(
    alloc: Global,
    evidence: &Evidence,
    case: &Case,
    hasher: &mut H,
) -> Result<JudgedStep, AllocError>
    ensures told { let e = evidence.now in
        IfOk result (IsJudgedStep e.algorithms e.table case.now) }
    ensures in_memory { IfOk result (λ t. lacked_memory (told t.step) ≡ false) }
    ensures hashed { let hashes = CountsHashes (H.hashed hasher.old) (H.hashed hasher.new) in
        IfOk result (λ t. hashes 0 t.counts.hashes) }
{
    let judged_step = step(alloc, case, evidence.table, evidence.algorithms, hasher)?;
    unless_memory_lacked(judged_step)
}

/// What the zone's answer to a question for DS tells of a delegation there.
pub(crate) fn name_step<H: NameHasher>(
    alloc: Global,
    evidence: &Evidence,
    case: &Case,
    hasher: &mut H,
) -> Result<JudgedStep, AllocError>
    ensures told { let e = evidence.now in
        IfOk result (IsJudgedCut e.algorithms e.table case.now) }
    ensures in_memory { IfOk result (λ t. lacked_memory (told t.step) ≡ false) }
    ensures hashed { IfOk result
        (λ t. H.hashed hasher.new ≡ H.hashed hasher.old + t.counts.hashes) }
{
    let judged_step = cut_step(alloc, case, evidence.table, evidence.algorithms, hasher)?;
    unless_memory_lacked(judged_step)
}

/// What is told, unless memory lacked for that: no zone is bogus for this.
fn unless_memory_lacked(judged_step: JudgedStep) -> Result<JudgedStep, AllocError>
    ensures same { IfOk result (λ t. t ≡ judged_step) }
    ensures in_memory { IfOk result (λ t. lacked_memory (told t.step) ≡ false) }
{
    if lacked_memory(&judged_step.step) {
        Err(AllocError)
    } else {
        Ok(judged_step)
    }
}

fn lacked_memory(step: &Step) -> bool
    ensures { result ≡ lacked_memory (told step.now) }
{
    match step {
        Step::Untold(refusal) => is_of_memory(refusal),
        _ => false,
    }
}

fn is_of_memory(refusal: &Option<Refusal>) -> bool
    ensures { result ≡ is_of_memory refusal.now }
{
    match refusal {
        Some(refusal) => *refusal == Refusal::Memory,
        None => false,
    }
}

/// A zone's messages, to be judged for a question: its keys, and the answer. None where one of them
/// is not there.
pub fn case_of<'a>(
    evidence: &'a Evidence,
    zone: &'a Name<Vec<u8>>,
    ds: &'a [Ds<Vec<u8>>],
    question: &'a Question,
) -> Option<Case<'a>>
    ensures some { let asked = asked_of question.now in
        IfSome result (IsOf evidence.now zone.now ds.now asked) }
    ensures none { let asked = asked_of question.now in
        IfNone result (is_lacking evidence.now zone.now asked ≡ true) }
{
    match evidence.message_of(zone, zone, Rtype::DNSKEY) {
        Some(keys) => case_with(evidence, zone, ds, question, keys),
        None => None,
    }
}

/// The answer to a question, to be judged by these keys. None where it is not there.
fn case_with<'a>(
    evidence: &'a Evidence,
    zone: &'a Name<Vec<u8>>,
    ds: &'a [Ds<Vec<u8>>],
    question: &'a Question,
    keys: &'a [u8],
) -> Option<Case<'a>>
    requires { message_of evidence.now zone.now zone.now 48 ≡ Some keys.now }
    ensures some { let asked = asked_of question.now in
        IfSome result (IsOf evidence.now zone.now ds.now asked) }
    ensures none { let asked = asked_of question.now in
        IfNone result (is_lacking evidence.now zone.now asked ≡ true) }
{
    match evidence.message_of(zone, &question.name, question.rtype) {
        Some(answer) => Some(Case {
            apex: zone,
            ds,
            dnskey: keys,
            answer,
            question,
            moment: evidence.moment,
            limit: evidence.limit,
            one_moment: evidence.one_moment,
            other_question: true,
        }),
        None => None,
    }
}

/// The end where messages are wanted for a question of a zone: of its keys and the answer those
/// that are not there. None is judged for it.
pub(crate) fn wanting(
    alloc: Global,
    evidence: &Evidence,
    zone: &Name<Vec<u8>>,
    question: &Question,
    counts: Counts,
) -> Result<JudgedHop, AllocError>
    ensures wants { let asked = asked_of question.now in
        IfOk result (λ t. WantsLacking evidence.now zone.now asked t.hop) }
    ensures counted { IfOk result (λ t. t.counts ≡ counts) }
{
    let wanted = lacking(alloc, evidence, zone, question)?;
    Ok(JudgedHop {
        hop: Hop::Ends(Ending::Wants(wanted)),
        validity: None,
        counts,
    })
}

/// What is not there of a zone's keys and its answer to a question, each once.
fn lacking(
    alloc: Global,
    evidence: &Evidence,
    zone: &Name<Vec<u8>>,
    question: &Question,
) -> Result<Vec<Wanted>, AllocError>
    ensures { let asked = asked_of question.now in
        IfOk result (λ ws. ws.items ≡ lacking evidence.now zone.now asked) }
{
    let mut wanted = Vec::new(alloc);
    let lacks_keys = evidence.lacks(zone, zone, Rtype::DNSKEY);
    if lacks_keys {
        wanted.push(wanted_of(alloc, zone, zone, Rtype::DNSKEY)?)?;
    }
    let is_wanted = lacks_keys && is_for_keys(zone, question);
    if evidence.lacks(zone, &question.name, question.rtype) && !is_wanted {
        wanted.push(wanted_of(alloc, zone, &question.name, question.rtype)?)?;
    }
    Ok(wanted)
}

/// Whether a question is the one for a zone's keys.
fn is_for_keys(zone: &Name<Vec<u8>>, question: &Question) -> bool
    ensures { result ≡ is_for_keys zone.now (asked_of question.now) }
{
    zone.name_eq(&question.name) && question.rtype == Rtype::DNSKEY
}

/// The answer of a zone to a question for a name and a type, as it is wanted.
fn wanted_of(
    alloc: Global,
    zone: &Name<Vec<u8>>,
    name: &Name<Vec<u8>>,
    rtype: Rtype,
) -> Result<Wanted, AllocError>
    ensures { IfOk result (λ w. w ≡ wanted_of zone.now name.now rtype) }
{
    Ok(Wanted {
        zone: copy_name(alloc, zone)?,
        name: copy_name(alloc, name)?,
        rtype,
    })
}

/// Where what a zone's message tells leads, how long it lasts and what is counted so far.
pub(crate) fn judged_hop(
    alloc: Global,
    query: &ZoneQuery,
    so_far: JudgedStep,
) -> Result<JudgedHop, AllocError>
    ensures hops { IfOk result (λ t. IsHopTo query.now (told so_far.step) t.hop) }
    ensures lasts { IfOk result (λ t. t.validity ≡ so_far.validity) }
    ensures counted { IfOk result (λ t. t.counts ≡ so_far.counts) }
{
    let (validity, counts) = (so_far.validity, so_far.counts);
    let hop = hop_of(alloc, query, so_far.step)?;
    Ok(JudgedHop {
        hop,
        validity,
        counts,
    })
}

/// Where what a zone's message tells leads.
fn hop_of(alloc: Global, query: &ZoneQuery, step: Step) -> Result<Hop, AllocError>
    ensures { IfOk result (IsHopTo query.now (told step)) }
{
    match step {
        Step::Answer(verdict) => {
            let zone = copy_name(alloc, query.zone)?;
            Ok(Hop::Ends(Ending::Secure { zone, verdict }))
        }
        Step::Leads(lead) => Ok(Hop::Ends(Ending::Leads(lead))),
        Step::Down { cut, ds } => Ok(Hop::Down { zone: cut, ds }),
        Step::Unsigned { cut, ds } => Ok(Hop::Ends(Ending::Unsigned { cut, ds })),
        Step::LeftOpen => {
            let zone = copy_name(alloc, query.zone)?;
            Ok(Hop::Ends(Ending::LeftOpen(zone)))
        }
        Step::NoCut => untold(alloc, query, None),
        Step::NoneBelow => untold(alloc, query, None),
        Step::Untold(refusal) => untold(alloc, query, refusal),
        Step::Asks(asks) => Ok(Hop::Ends(Ending::Asks(asks))),
    }
}

/// The end where a zone's answer to a question tells nothing of the way.
pub(crate) fn untold(
    alloc: Global,
    query: &ZoneQuery,
    refusal: Option<Refusal>,
) -> Result<Hop, AllocError>
    ensures { IfOk result (IsHopUntold query.now refusal) }
{
    let zone = copy_name(alloc, query.zone)?;
    let ds = copied_ds(alloc, query.ds)?;
    let name = copy_name(alloc, &query.question.name)?;
    let rtype = query.question.rtype;
    Ok(Hop::Ends(Ending::Untold {
        zone,
        ds,
        name,
        rtype,
        refusal,
    }))
}

/// A copy of DS records.
fn copied_ds(alloc: Global, ds: &[Ds<Vec<u8>>]) -> Result<Vec<Ds<Vec<u8>>>, AllocError>
    ensures { IfOk result (λ v. v.items ≡ ds.now) }
{
    let mut copied = Vec::new(alloc);
    for one in ds {
        copied.push(copied_one(alloc, one)?)?;
    }
    Ok(copied)
}

/// A copy of a DS record. Longer data than a record has room for, of which there is none, are
/// refused as out of memory.
fn copied_one(alloc: Global, ds: &Ds<Vec<u8>>) -> Result<Ds<Vec<u8>>, AllocError>
    ensures { IfOk result (λ d. d ≡ ds.now) }
{
    let digest = ds.digest().to_vec(alloc)?;
    match Ds::new(ds.key_tag(), ds.algorithm(), ds.digest_type(), digest) {
        Ok(copy) => Ok(copy),
        Err(_) => Err(AllocError),
    }
}
