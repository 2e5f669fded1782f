//! What a walk says, in octets.
ghost use Rattle.std.specs.Prelude.{◌≡◌, ◌++◌, ◌+◌, length, nat_lt, IfOk, OnOk};
ghost use Rattle.std.specs.List.{flat_map};
ghost use Rattle.definitions.specs.Name.{wire};
ghost use Rattle.messages.specs.Questions.{asked_of};
ghost use Rattle.answer_judge_octets.specs.Replying.{IsAskReplied, counted, only, reply_seen};
ghost use Rattle.resolution_octets.specs.Saying.{IsEndReplied, IsEndSaid, IsErrorOf, IsErrorOfEnd};
ghost use Rattle.resolution_octets.specs.Saying.{IsErrorTold, IsSaid, is_empty, last_asked};
ghost use Rattle.resolution_octets.specs.Saying.{untimely_or};
ghost use Rattle.resolution_walk.specs.Truth.{last_of};
ghost use Rattle.resolution_octets.specs.Saying.{are_too_many, code_of_end, ede_of_end, most_of};
ghost use Rattle.resolution_octets.specs.Saying.{names_octets};
ghost use Rattle.resolution_octets.specs.Saying.{octets_of_end, question_octets, sought_of};
ghost use Rattle.resolution_octets.specs.Saying.{wanted_octets};

use crate::cuts::error_of_cut;
use crate::working::goes_too_far;
use answer_extended_errors::ExtendedError;
use answer_findings::Lead;
use answer_judge_octets::ReplyCode;
use answer_judge_octets::errors::error_of;
use answer_judge_octets::reply::{
    Reply, code_of_verdict, code_refused, octets_of_verdict, reply_of_asks, ttl_of, until_of,
};
use denial_data::Ds;
use messages::names::{Name, ZoneName, copy_name};
use messages::question::Question;
use names_rdata::rtype::Rtype;
use resolution_walk::{Ask, Counts, Ending, Evidence, Refusal, Walk, Wanted, case_of};
use std::alloc::{AllocError, Global};

/// How many signatures may be checked where a caller says no number.
const MOST_SIGNATURES: u32 = 256;

/// How much a caller allows where more is wanted.
#[derive(Clone, Copy)]
pub(crate) struct ReplyLimits {
    /// How many signatures may be checked.
    pub(crate) signatures: u32,
    /// How many the table has.
    pub(crate) checked: usize,
    /// How much work all calls may be.
    pub(crate) work: u64,
}

/// An answer of a zone that is refused: the zone, the DS records that it is judged by, the name and
/// the type that it was asked, and why.
#[derive(Clone, Copy)]
struct RefusedAnswer<'a> {
    zone: &'a Name<Vec<u8>>,
    ds: &'a [Ds<Vec<u8>>],
    name: &'a Name<Vec<u8>>,
    rtype: Rtype,
    refusal: Refusal,
}

/// The reply to what a walk over evidence says of a question, at a moment in seconds and within
/// limits.
pub(crate) fn reply_of_walk(
    alloc: Global,
    second: u64,
    limits: ReplyLimits,
    evidence: &Evidence,
    question: &Question,
    walk: &Walk,
) -> Result<Reply, AllocError>
    ensures { let e = evidence.now in let asked = asked_of question.now in
        let said = IsSaid second limits e asked walk.now in
        IfOk result (λ r. said (reply_seen r)) }
{
    if goes_too_far(limits.work, evidence, walk) {
        let reply = Reply::only(alloc, ReplyCode::TooMuchWork);
        return Ok(counted(reply, walk.counts));
    }
    reply_of_ending(alloc, second, limits, evidence, question, walk)
}

/// The reply to what a walk says.
fn reply_of_ending(
    alloc: Global,
    second: u64,
    limits: ReplyLimits,
    evidence: &Evidence,
    question: &Question,
    walk: &Walk,
) -> Result<Reply, AllocError>
    ensures { let e = evidence.now in let asked = asked_of question.now in
        let said = IsEndSaid second limits e asked walk.now walk.now.ending in
        IfOk result (λ r. said (reply_seen r)) }
{
    match &walk.ending {
        Ending::Asks(asks) => {
            asked_for(alloc, limits.signatures, limits.checked, asks, walk.counts)
        }
        Ending::Wants(wanted) => {
            let octets = octets_of_wanted(alloc, wanted)?;
            Ok(replied(alloc, ReplyCode::Want, octets, walk.counts))
        }
        _ => end_replied(alloc, second, evidence, question, walk),
    }
}

/// The reply to an end: how long it lasts, what was counted for it, and its extended error.
fn end_replied(
    alloc: Global,
    second: u64,
    evidence: &Evidence,
    question: &Question,
    walk: &Walk,
) -> Result<Reply, AllocError>
    ensures { let e = evidence.now in let asked = asked_of question.now in
        IfOk result (λ r. IsEndReplied second e asked walk.now (reply_seen r)) }
{
    let octets = octets_of_walk(alloc, &walk.through, &walk.ending)?;
    let error = error_of_end(alloc, evidence, question, walk)?;
    Ok(Reply {
        code: code_of_end(&walk.ending, error),
        octets,
        verifications: walk.counts.verifications,
        hashes: walk.counts.hashes,
        ttl: ttl_of(walk.validity),
        until: until_of(second, walk.validity),
        ede: ede_of_end(&walk.ending, error),
        delegates: 0,
    })
}

/// The extended error of an end that is a refusal; of another end the first one, which says
/// nothing.
fn error_of_end(
    alloc: Global,
    evidence: &Evidence,
    question: &Question,
    walk: &Walk,
) -> Result<ExtendedError, AllocError>
    ensures { let e = evidence.now in let asked = asked_of question.now in
        let w = walk.now in
        IfOk result (IsErrorOfEnd e asked w.through.items w.ending) }
{
    match &walk.ending {
        Ending::Untold {
            zone,
            ds,
            name,
            rtype,
            refusal: Some(refusal),
        } => {
            let answer = RefusedAnswer {
                zone,
                ds,
                name,
                rtype: *rtype,
                refusal: *refusal,
            };
            error_told(alloc, evidence, question, &walk.through, &answer)
        }
        _ => Ok(ExtendedError::Other),
    }
}

/// The error that is told of a refused answer.
///
/// An answer for DS that shows nothing is asked for only since the answer to the question tells
/// nothing: where signatures of that have expired, this is what has to be mended.
fn error_told(
    alloc: Global,
    evidence: &Evidence,
    question: &Question,
    through: &[Name<Vec<u8>>],
    answer: &RefusedAnswer,
) -> Result<ExtendedError, AllocError>
    ensures { let a = answer.now in let asked = asked_of question.now in
        let sought = sought_of asked a.name.now a.rtype in
        let last = last_asked asked through.now in
        IfOk result (IsErrorTold evidence.now a.zone.now a.ds.now last sought a.refusal) }
{
    let named = error_of_answer(alloc, evidence, question, answer)?;
    if !is_empty(named) {
        return Ok(named);
    }
    let own = error_of_question(alloc, evidence, question, through, answer.zone, answer.ds)?;
    Ok(untimely_or(named, own))
}

/// The error of a zone's answer to the question, at the end of aliases.
fn error_of_question<'a>(
    alloc: Global,
    evidence: &Evidence,
    question: &'a Question,
    through: &'a [Name<Vec<u8>>],
    zone: &'a Name<Vec<u8>>,
    ds: &'a [Ds<Vec<u8>>],
) -> Result<ExtendedError, AllocError>
    ensures { let last = last_asked (asked_of question.now) through.now in
        IfOk result (IsErrorOf evidence.now zone.now ds.now last Refusal.NotProven) }
{
    let answer = RefusedAnswer {
        zone,
        ds,
        name: last_name(&question.name, through),
        rtype: question.rtype,
        refusal: Refusal::NotProven,
    };
    error_of_answer(alloc, evidence, question, &answer)
}

/// Whether an answer has no record that shows that something does not exist.
fn is_empty(error: ExtendedError) -> bool
    ensures { result ≡ is_empty error }
{
    error == ExtendedError::NsecMissing
}

/// The error of signatures that do not hold now, or else another.
fn untimely_or(other: ExtendedError, error: ExtendedError) -> ExtendedError
    ensures { result ≡ untimely_or other error }
{
    match error {
        ExtendedError::SignatureExpired | ExtendedError::SignatureNotYetValid => error,
        _ => other,
    }
}

/// The name at the end of aliases.
fn last_name<'a>(name: &'a Name<Vec<u8>>, through: &'a [Name<Vec<u8>>]) -> &'a Name<Vec<u8>>
    ensures { result.now ≡ last_of name.now through.now }
{
    let mut last = name;
    for next in through {
        last = next;
    }
    last
}

/// The code of an end's extended error; at a delegation whose DS records are of no known kind that
/// of these.
fn ede_of_end(ending: &Ending, error: ExtendedError) -> u16
    ensures { result ≡ ede_of_end ending.now error }
{
    match ending {
        Ending::Unsigned { ds, .. } => error_of_cut(ds),
        _ => error.code(),
    }
}

/// The extended error of a refused answer, judged for the class that was asked for.
fn error_of_answer(
    alloc: Global,
    evidence: &Evidence,
    question: &Question,
    answer: &RefusedAnswer,
) -> Result<ExtendedError, AllocError>
    ensures { let a = answer.now in
        let sought = sought_of (asked_of question.now) a.name.now a.rtype in
        IfOk result (IsErrorOf evidence.now a.zone.now a.ds.now sought a.refusal) }
{
    let sought = sought_of(alloc, question, answer.name, answer.rtype)?;
    refused(
        alloc,
        evidence,
        answer.zone,
        answer.ds,
        &sought,
        answer.refusal,
    )
}

/// A question for a name and a type, of the class that was asked for.
fn sought_of(
    alloc: Global,
    question: &Question,
    name: &Name<Vec<u8>>,
    rtype: Rtype,
) -> Result<Question, AllocError>
    ensures { let asked = asked_of question.now in
        IfOk result (λ q. asked_of q ≡ sought_of asked name.now rtype) }
{
    Ok(Question {
        name: copy_name(alloc, name)?,
        rtype,
        class: question.class,
    })
}

/// Why a zone's answer to a question is refused, as an extended error.
fn refused(
    alloc: Global,
    evidence: &Evidence,
    zone: &Name<Vec<u8>>,
    ds: &[Ds<Vec<u8>>],
    sought: &Question,
    refusal: Refusal,
) -> Result<ExtendedError, AllocError>
    ensures { let asked = asked_of sought.now in
        IfOk result (IsErrorOf evidence.now zone.now ds.now asked refusal) }
{
    match case_of(evidence, zone, ds, sought) {
        Some(case) => error_of(alloc, &case, evidence.table, refusal),
        None => Ok(ExtendedError::Other),
    }
}

/// The reply that asks for signatures, or that they are too many, and how often was verified and
/// hashed before.
fn asked_for(
    alloc: Global,
    most: u32,
    checked: usize,
    asks: &[Ask],
    counts: Counts,
) -> Result<Reply, AllocError>
    ensures { let stops = are_too_many most checked (length asks.now) in
        let asked = IsAskReplied stops asks.now counts.verifications counts.hashes in
        IfOk result (λ r. asked (reply_seen r)) }
{
    let stops = are_too_many(most, checked, asks.len());
    let reply = reply_of_asks(alloc, asks, stops)?;
    Ok(counted(reply, counts))
}

/// The reply, and how often was verified and hashed for it.
fn counted(reply: Reply, counts: Counts) -> Reply
    ensures { reply_seen result
        ≡ counted counts.verifications counts.hashes (reply_seen reply) }
{
    let mut reply = reply;
    reply.verifications = counts.verifications;
    reply.hashes = counts.hashes;
    reply
}

/// A code with octets, and how often was verified and hashed for it.
fn replied(alloc: Global, code: ReplyCode, octets: Vec<u8>, sums: Counts) -> Reply
    ensures { let said = record (only code) { octets = octets.items } in
        reply_seen result ≡ counted sums.verifications sums.hashes said }
{
    let mut reply = Reply::only(alloc, code);
    reply.octets = octets;
    reply.verifications = sums.verifications;
    reply.hashes = sums.hashes;
    reply
}

/// Whether so many signatures more are too many.
fn are_too_many(most: u32, checked: usize, more: usize) -> bool
    ensures { result ≡ nat_lt (most_of most) (checked + more) }
{
    match checked.checked_add(more) {
        Some(all) => all > most_of(most),
        None => true,
    }
}

fn most_of(number: u32) -> usize
    ensures { result ≡ most_of number }
{
    let most = if number == 0 { MOST_SIGNATURES } else { number };
    most as usize
}

/// The code of an end that asks for nothing and wants nothing, of a refusal with its extended
/// error.
fn code_of_end(ending: &Ending, error: ExtendedError) -> ReplyCode
    ensures { result ≡ code_of_end ending.now error }
{
    match ending {
        Ending::Secure { verdict, .. } => code_of_verdict(verdict),
        Ending::Leads(Lead::To(_)) => ReplyCode::Alias,
        Ending::Leads(Lead::TooLong) => ReplyCode::Dname,
        Ending::Unsigned { .. } => ReplyCode::Unsigned,
        Ending::LeftOpen(_) => ReplyCode::Open,
        Ending::Untold {
            refusal: Some(refusal),
            ..
        } => code_refused(*refusal, error),
        Ending::Untold { refusal: None, .. } => ReplyCode::NothingTold,
        Ending::Asks(_) => ReplyCode::Ask,
        Ending::Wants(_) => ReplyCode::Want,
        Ending::TooManyCuts => ReplyCode::TooManyCuts,
        Ending::TooManyAliases => ReplyCode::TooManyAliases,
        Ending::TooManyMessages => ReplyCode::TooManyMessages,
        Ending::Outside => ReplyCode::Outside,
    }
}

/// The names that aliases lead through, behind their number in four octets, and behind them what an
/// end says.
fn octets_of_walk(
    alloc: Global,
    through: &[Name<Vec<u8>>],
    ending: &Ending,
) -> Result<Vec<u8>, AllocError>
    ensures { IfOk result (λ v. v.items ≡ names_octets through.now ++ octets_of_end ending.now) }
{
    let mut octets = octets_of_names(alloc, through)?;
    put_end(alloc, ending, &mut octets)?;
    Ok(octets)
}

/// Names in wire form, behind their number in four octets.
fn octets_of_names(alloc: Global, names: &[Name<Vec<u8>>]) -> Result<Vec<u8>, AllocError>
    ensures { IfOk result (λ v. v.items ≡ names_octets names.now) }
{
    let count = u32::try_from(names.len()).map_err(|_| AllocError)?;
    let mut octets = Vec::new(alloc);
    octets.extend_from_slice(&count.to_be_bytes())?;
    for name in names {
        name.compose(&mut octets)?;
    }
    Ok(octets)
}

/// Puts what an end says at the end.
fn put_end(alloc: Global, ending: &Ending, octets: &mut Vec<u8>) -> Result<(), AllocError>
    ensures { OnOk result (octets.new.items ≡ octets.old.items ++ octets_of_end ending.now) }
{
    match ending {
        Ending::Secure { zone, verdict } => {
            let data = octets_of_verdict(alloc, verdict)?;
            zone.compose(octets)?;
            octets.extend_from_slice(&data)
        }
        Ending::Leads(Lead::To(name)) | Ending::LeftOpen(name) => name.compose(octets),
        Ending::Unsigned { cut, .. } => cut.compose(octets),
        Ending::Untold {
            zone,
            name,
            rtype,
            ..
        } => put_question(zone, name, *rtype, octets),
        Ending::Leads(Lead::TooLong) | Ending::Asks(_) | Ending::Wants(_) => Ok(()),
        Ending::TooManyCuts | Ending::TooManyAliases | Ending::TooManyMessages => Ok(()),
        Ending::Outside => Ok(()),
    }
}

/// Messages that are wanted, one behind another.
fn octets_of_wanted(alloc: Global, wanted: &[Wanted]) -> Result<Vec<u8>, AllocError>
    ensures { IfOk result (λ v. v.items ≡ flat_map wanted_octets wanted.now) }
{
    let mut octets = Vec::new(alloc);
    for message in wanted {
        put_question(&message.zone, &message.name, message.rtype, &mut octets)?;
    }
    Ok(octets)
}

/// Puts a zone and what it is asked at the end: two names in wire form, and a type in two octets.
fn put_question(
    zone: &Name<Vec<u8>>,
    name: &Name<Vec<u8>>,
    rtype: Rtype,
    octets: &mut Vec<u8>,
) -> Result<(), AllocError>
    ensures { let question = question_octets zone.now name.now rtype in
        OnOk result (octets.new.items ≡ octets.old.items ++ question) }
{
    zone.compose(octets)?;
    name.compose(octets)?;
    octets.extend_from_slice(&rtype.to_int().to_be_bytes())
}
