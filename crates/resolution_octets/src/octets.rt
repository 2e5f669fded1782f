//! A walk from octets to octets, for callers in other languages.
ghost use Rattle.std.specs.Prelude.{◌≡◌, ◌⊎◌, IfErr, IfOk, Some, None, length};
ghost use Rattle.messages.specs.NameOctets.{name_of_octets};
ghost use Rattle.answer_judge_octets.specs.Replying.{only, reply_seen};
ghost use Rattle.evidence_laws.specs.Counted.{CountsHashes};
ghost use Rattle.resolution_octets.specs.Hashed.{CountsReply, CountsReport};
ghost use Rattle.resolution_octets.specs.Limiting.{limit_of, limits_of, reply_limits_of, work_in};
ghost use Rattle.resolution_octets.specs.Saying.{IsSaid};
ghost use Rattle.resolution_octets.specs.Replying.{Answers, Replies, Says, SaysWalked};
ghost use Rattle.resolution_octets.specs.Spelling.{HasDs, IsAnchor, LacksDs, Unread, flag_in};
ghost use Rattle.resolution_octets.specs.Spelling.{is_known_size};
ghost use Rattle.resolution_octets.specs.ReadEvidence.{ReadsAs, asked_in, given_of};

use crate::received::{IN, ReadMessage, are_crowded, read_messages, walk_messages};
use crate::walk_reply::{ReplyLimits, reply_of_walk};
use answer_hasher::NameHasher;
use answer_judge_octets::ds::judged_ds;
use answer_judge_octets::list::read_list;
use answer_judge_octets::octets::{REPORT_SIZE, hand_out, read_name};
use answer_judge_octets::reply::Reply;
use answer_judge_octets::{CheckedSignature, ReplyCode, Report};
use denial_data::Ds;
use denial_fields::unix_time::UnixTime;
use messages::names::Name;
use messages::question::Question;
use names_rdata::rtype::Rtype;
use numbers::class::Class;
use resolution_walk::{Evidence, Limits, Walk, resolve};
use std::alloc::{AllocError, Global};
use std::time::Duration;

/// What a walk is handed, in octets. Names are in wire form, without pointers (RFC 1035, 3.1).
#[repr(C)]
#[derive(Drop)]
pub struct OctetEvidence<'a> {
    /// How many octets the evidence has as its caller knows it: 136, or 128 where it does not know
    /// `max_work`.
    pub size: usize,
    /// The name of the trust anchor's zone, with capitals or without.
    pub anchor: &'a [u8],
    /// The DS set of the trust anchor: each record's data behind its length in two octets (RFC
    /// 4034, 5.1). Of them those are judged by that have a digest of SHA-256 or SHA-384 and one of
    /// the `algorithms`; one at least.
    pub ds: &'a [u8],
    /// The name that is asked for.
    pub name: &'a [u8],
    /// The messages so far, one behind another: the name of the zone that a message is of, and the
    /// name that it answers, each behind its length in two octets; the type that it answers in two
    /// octets; the message behind its length in four.
    pub messages: &'a [u8],
    /// The signatures that were checked, as they were asked for, each with its last octet 1 where
    /// it passes, and else 0.
    pub checked: &'a [u8],
    /// The algorithms of signatures that the caller checks, by their numbers (RFC 4034, A.1); none
    /// where it checks all.
    pub algorithms: &'a [u8],
    /// The moment at which signatures are to hold, in seconds since 1970.
    pub moment: u64,
    /// The type that is asked for; the class is IN.
    pub rtype: u16,
    /// How many iterations of a name's hash are allowed (RFC 5155, 10.3).
    pub limit: u16,
    /// How many delegations are gone down for a name at most; 0 stands for 32, so that one is the
    /// least that can be asked for.
    pub max_cuts: u16,
    /// How many aliases are followed at most; 0 stands for 16, so that one is the least that can be
    /// asked for, and what is beyond 255 for 255.
    pub max_aliases: u16,
    /// 1 where all signatures of an answer are to be of one inception and one expiration; else 0.
    pub one_moment: u16,
    /// How many messages there may be: beside so many, or more, none is wanted; 0 stands for 128.
    pub max_messages: u16,
    /// How many signatures `checked` may have with those that are asked for; 0 stands for 256.
    pub max_signatures: u32,
    /// How much work the calls may be: where more is wanted beside evidence of which all calls so
    /// far may have been more, the walk ends; 0 stands for 6,000,000.
    pub max_work: u64,
}

/// How many octets evidence has in memory.
const EVIDENCE_SIZE: usize = 136;

/// How many it has for callers that do not know `max_work`.
const SIZE_WITHOUT_WORK: usize = 128;

const _: () = prove!(size_of::<OctetEvidence>() == EVIDENCE_SIZE);

/// The numbers of delegations, aliases and messages that limits of 0 stand for.
const MOST_CUTS: u16 = 32;

const MOST_ALIASES: u16 = 16;

const MOST_MESSAGES: u16 = 128;

/// How many aliases any evidence allows: the walk takes memory of its stack for each.
const ALL_ALIASES: u16 = 255;

/// What the octets of evidence spell.
#[derive(Drop)]
struct ReadEvidence<'a> {
    anchor: Name<Vec<u8>>,
    /// The DS records that are judged by.
    ds: Vec<Ds<Vec<u8>>>,
    question: Question,
    messages: Vec<ReadMessage<'a>>,
    table: Vec<CheckedSignature<'a>>,
    one_moment: bool,
}

/// Says what evidence tells of a question as [`resolve`](resolution_walk::resolve) does, from
/// octets. The reply's octets are written to the front of `out` where there is room for them.
///
/// Signatures that are asked for stand there as entries, which belong into `checked` with their
/// last octets set; messages that are wanted as the zone's name, the name and the type that it is
/// to be asked. With each other end the names come first that aliases led through, behind their
/// number in four octets, and behind them the name of the zone and the data of records, each behind
/// its length in two octets; the name of the delegation below which nothing is signed; the name of
/// the zone that leaves the name open; or the zone, the name and the type of the answer that tells
/// nothing.
///
/// The report says how long such an end may be kept and stands: as long as all that it rests on, on
/// each zone's step of the way and through all aliases; nothing where it is neither secure nor
/// insecure. It says how often was verified and hashed for all judgements of the walk. Where an
/// answer is refused it says the extended error of that, for which the signatures of the answer may
/// be looked up once more; and of a delegation below which nothing is signed why none of its DS
/// records counts, if it has some.
///
/// Where the walk wants more, and its calls so far may have been more work than the evidence allows,
/// it ends: as many calls as there are messages and signatures, one that fails for sixteen of them,
/// each as much as this call.
///
/// Each message is judged with names in its data in full and in lower case (RFC 4034, 6.2), as
/// every validator does: put in canonical form where it has to be. Evidence with one that would
/// cost too much work ([`is_crowded`]) is refused as too long.
///
/// Names are hashed by the hasher that is lent: as many as the report says, unless memory runs out,
/// which it does not count.
///
/// [`is_crowded`]: answer_judge_octets::crowded::is_crowded
pub fn resolve_octets<H: NameHasher>(
    alloc: Global,
    evidence: &OctetEvidence,
    out: &mut [u8],
    report: &mut Report,
    hasher: &mut H,
) -> ReplyCode
    ensures answers { Answers evidence.now out.old out.new report.old report.new result }
    ensures hashed { let ran_out = result ≡ ReplyCode.OutOfMemory in
        let hashes = CountsReport ran_out report.old report.new in
        hashes (H.hashed hasher.old) (H.hashed hasher.new) }
{
    if report.size != REPORT_SIZE {
        return ReplyCode::BadCase;
    }
    let reply = reply(alloc, evidence, hasher);
    hand_out(&reply, out, report)
}

/// The reply to evidence.
fn reply<H: NameHasher>(alloc: Global, evidence: &OctetEvidence, hasher: &mut H) -> Reply
    ensures replies { Replies evidence.now (reply_seen result) }
    ensures hashed { let ran_out = reply_seen result ≡ only ReplyCode.OutOfMemory in
        CountsReply ran_out result.hashes (H.hashed hasher.old) (H.hashed hasher.new) }
{
    let read = match read_evidence(alloc, evidence) {
        Ok(read) => read,
        Err(code) => return Reply::only(alloc, code),
    };
    match walked(alloc, evidence, &read, hasher) {
        Ok(reply) => reply,
        Err(_) => Reply::only(alloc, ReplyCode::OutOfMemory),
    }
}

/// The reply to what evidence spells.
fn walked<H: NameHasher>(
    alloc: Global,
    handed_in: &OctetEvidence,
    read: &ReadEvidence,
    hasher: &mut H,
) -> Result<Reply, AllocError>
    ensures says { let e = given_of handed_in.now read.now in let asked = asked_in read.now in
        IfOk result (λ r. Says handed_in.now e asked (reply_seen r)) }
    ensures hashed { let hashes = CountsHashes (H.hashed hasher.old) (H.hashed hasher.new) in
        IfOk result (λ r. hashes 0 r.hashes) }
{
    if are_crowded(&read.messages) {
        return Ok(Reply::only(alloc, ReplyCode::MessageTooLong));
    }
    resolved(alloc, handed_in, read, hasher)
}

/// The reply to what evidence tells.
fn resolved<H: NameHasher>(
    alloc: Global,
    handed_in: &OctetEvidence,
    read: &ReadEvidence,
    hasher: &mut H,
) -> Result<Reply, AllocError>
    ensures says { let e = given_of handed_in.now read.now in let asked = asked_in read.now in
        IfOk result (λ r. SaysWalked handed_in.now e asked (reply_seen r)) }
    ensures hashed { let hashes = CountsHashes (H.hashed hasher.old) (H.hashed hasher.new) in
        IfOk result (λ r. hashes 0 r.hashes) }
{
    let messages = walk_messages(alloc, &read.messages)?;
    let evidence = Evidence {
        anchor: &read.anchor,
        ds: &read.ds,
        messages: &messages,
        table: &read.table,
        algorithms: handed_in.algorithms,
        moment: UnixTime::new(Duration::from_secs(handed_in.moment)),
        limit: handed_in.limit,
        one_moment: read.one_moment,
    };
    walked_reply(alloc, handed_in, read, &evidence, hasher)
}

/// The reply to a walk over evidence that was read.
fn walked_reply<H: NameHasher>(
    alloc: Global,
    handed_in: &OctetEvidence,
    read: &ReadEvidence,
    evidence: &Evidence,
    hasher: &mut H,
) -> Result<Reply, AllocError>
    requires { evidence.now ≡ given_of handed_in.now read.now }
    ensures says { let e = given_of handed_in.now read.now in let asked = asked_in read.now in
        IfOk result (λ r. SaysWalked handed_in.now e asked (reply_seen r)) }
    ensures hashed { let hashes = CountsHashes (H.hashed hasher.old) (H.hashed hasher.new) in
        IfOk result (λ r. hashes 0 r.hashes) }
{
    let walk = resolve(
        alloc,
        evidence,
        &read.question,
        limits_of(handed_in),
        hasher,
    )?;
    reply_within(alloc, handed_in, read, evidence, &walk)
}

/// The reply to a walk, within the limits that its evidence was handed in with.
fn reply_within(
    alloc: Global,
    handed_in: &OctetEvidence,
    read: &ReadEvidence,
    evidence: &Evidence,
    walk: &Walk,
) -> Result<Reply, AllocError>
    ensures { let case = handed_in.now in let asked = asked_in read.now in
        let limits = reply_limits_of case (length read.now.table.items) in
        let said = IsSaid case.moment limits evidence.now asked walk.now in
        IfOk result (λ r. said (reply_seen r)) }
{
    let checked = read.table.len();
    let limits = ReplyLimits {
        signatures: handed_in.max_signatures,
        checked,
        work: work_in(handed_in),
    };
    let second = handed_in.moment;
    reply_of_walk(alloc, second, limits, evidence, &read.question, walk)
}

/// The limits of evidence.
fn limits_of(evidence: &OctetEvidence) -> Limits
    ensures { result ≡ limits_of evidence.now }
{
    Limits {
        cuts: limit_of(evidence.max_cuts, MOST_CUTS),
        aliases: limit_of(evidence.max_aliases, MOST_ALIASES).min(ALL_ALIASES),
        messages: limit_of(evidence.max_messages, MOST_MESSAGES),
    }
}

/// A number, or another in the place of 0.
fn limit_of(number: u16, other: u16) -> u16
    ensures { result ≡ limit_of number other }
{
    if number == 0 { other } else { number }
}

/// Reads what the octets of evidence spell.
fn read_evidence<'a>(
    alloc: Global,
    evidence: &OctetEvidence<'a>,
) -> Result<ReadEvidence<'a>, ReplyCode>
    ensures ok { IfOk result (λ r. ReadsAs evidence.now r) }
    ensures unread { IfErr result
        (λ c. (c ≡ ReplyCode.OutOfMemory) ⊎ Unread evidence.now c) }
{
    let one_moment = flag_in(evidence)?;
    let anchor = read_anchor(alloc, evidence.anchor)?;
    let ds = read_ds(alloc, evidence)?;
    let name = read_name(alloc, evidence.name, ReplyCode::BadName)?;
    let Some(sent) = read_list(alloc, evidence.messages)? else {
        return Err(ReplyCode::BadMessages);
    };
    let Some(table) = read_list(alloc, evidence.checked)? else {
        return Err(ReplyCode::BadSignatures);
    };
    let messages = read_messages(alloc, &sent)?;
    Ok(ReadEvidence {
        anchor,
        ds,
        question: Question {
            name,
            rtype: Rtype::from_int(evidence.rtype),
            class: Class::from_int(IN),
        },
        messages,
        table,
        one_moment,
    })
}

/// Reads the anchor's name, in lower case.
fn read_anchor(alloc: Global, octets: &[u8]) -> Result<Name<Vec<u8>>, ReplyCode>
    ensures ok { IfOk result (λ n. IsAnchor octets.now n) }
    ensures unread { IfErr result (λ c. (c ≡ ReplyCode.OutOfMemory)
        ⊎ ((c ≡ ReplyCode.BadApex) × (name_of_octets octets.now ≡ None))) }
{
    let mut name = read_name(alloc, octets, ReplyCode::BadApex)?;
    name.make_canonical();
    Ok(name)
}

/// The DS records of the trust anchor that are judged by, one at least.
fn read_ds(alloc: Global, evidence: &OctetEvidence) -> Result<Vec<Ds<Vec<u8>>>, ReplyCode>
    ensures ok { IfOk result (λ v. HasDs evidence.now v.items) }
    ensures unread { IfErr result (λ c. (c ≡ ReplyCode.OutOfMemory)
        ⊎ ((c ≡ ReplyCode.BadDsSet) × LacksDs evidence.now)) }
{
    let Some(set) = read_list(alloc, evidence.ds)? else {
        return Err(ReplyCode::BadDsSet);
    };
    let ds = judged_ds(set, evidence.algorithms);
    if ds.is_empty() {
        return Err(ReplyCode::BadDsSet);
    }
    Ok(ds)
}

/// What the flag of evidence of a size that is known says.
fn flag_in(evidence: &OctetEvidence) -> Result<bool, ReplyCode>
    ensures said { IfOk result (λ b. flag_in evidence.now ≡ Some b) }
    ensures unread { IfErr result (λ c. (c ≡ ReplyCode.BadCase) × (flag_in evidence.now ≡ None)) }
{
    if !is_known_size(evidence.size) {
        return Err(ReplyCode::BadCase);
    }
    match evidence.one_moment {
        0 => Ok(false),
        1 => Ok(true),
        _ => Err(ReplyCode::BadCase),
    }
}

fn is_known_size(size: usize) -> bool
    ensures { result ≡ is_known_size size }
{
    size == EVIDENCE_SIZE || size == SIZE_WITHOUT_WORK
}

/// How much work evidence allows; 0 where its caller does not know that there is a limit.
fn work_in(evidence: &OctetEvidence) -> u64
    ensures { result ≡ work_in evidence.now }
{
    if evidence.size == SIZE_WITHOUT_WORK {
        0
    } else {
        evidence.max_work
    }
}
