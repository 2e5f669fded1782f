//! A judgement from octets to octets, for callers in other languages.
ghost use Rattle.std.specs.Prelude.{◌≡◌, ◌⊎◌, ◌+◌, ◌*◌, ◌≤◌, Some, None, false, IfOk, IfErr};
ghost use Rattle.std.specs.Cow.{cow_slice_items};
ghost use Rattle.messages.specs.NameOctets.{name_of_octets};
ghost use Rattle.answer_judge.specs.Judging.{hash_bound as hash_bound_of};
ghost use Rattle.messages_canonical.specs.InForm.{GrowsTooLong};
ghost use Rattle.answer_judge_octets.specs.Replying.{Answers, IsHandedOut, IsJudged, Replies, Says};
ghost use Rattle.answer_judge_octets.specs.Replying.{SaysFound, only};
ghost use Rattle.answer_judge_octets.specs.Hashed.{CountsReply, CountsReport, hash_bound};
ghost use Rattle.answer_judge_octets.specs.Replying.{Unread};
ghost use Rattle.answer_judge_octets.specs.Replying.{flag_in, reply_seen, report_of};
ghost use Rattle.answer_judge_octets.specs.ReadCases.{ReadsAs, judge_input_of};

use crate::crowded::are_crowded;
use crate::ds::{judged_ds, unsupported};
use crate::errors::error_of;
use crate::limit::are_too_many;
use crate::list::read_list;
use crate::places::octets_in_front;
use crate::reply::{Reply, ReplyCode, reply_of_asks, reply_of_meaning, reply_of_refusal};
use answer_findings::{AnswerOutcome, Case, CheckedSignature, judge_answer};
use answer_hasher::NameHasher;
use denial_data::Ds;
use denial_fields::unix_time::UnixTime;
use messages::names::{Name, name_from_octets};
use messages::question::Question;
use messages_canonical::{CanonicalError, canonical_cow};
use names_rdata::rtype::Rtype;
use numbers::class::Class;
use std::alloc::{AllocError, Global};
use std::borrow::CowSlice;
use std::time::Duration;

/// What a judge is handed, in octets. Names are in wire form, without pointers (RFC 1035, 3.1).
#[repr(C)]
#[derive(Drop)]
pub struct OctetCase<'a> {
    /// How many octets the case has as its caller knows it: 160.
    pub size: usize,
    /// The name of the zone.
    pub apex: &'a [u8],
    /// The DS set of the parent: each record's data behind its length in two octets (RFC 4034,
    /// 5.1). Of them those are judged by that have a digest of SHA-256 or SHA-384 and one of the
    /// `algorithms`.
    pub ds: &'a [u8],
    /// The answer for the DNSKEY RRset, a message.
    pub dnskey: &'a [u8],
    /// The answer to the question, a message.
    pub answer: &'a [u8],
    /// The name that was asked for.
    pub name: &'a [u8],
    /// The signatures that were checked, as they were asked for, each with its last octet 1 where
    /// it passes, and else 0.
    pub checked: &'a [u8],
    /// The moment at which signatures are to hold, in seconds since 1970.
    pub moment: u64,
    /// The type that was asked for.
    pub rtype: u16,
    /// The class that was asked for.
    pub class: u16,
    /// How many iterations of a name's hash are allowed (RFC 5155, 10.3).
    pub limit: u16,
    /// 1 where all signatures of the answer are to be of one inception and one expiration; else 0.
    pub one_moment: u32,
    /// 0 where both messages are judged with names in their data in full and in lower case (RFC
    /// 4034, 6.2), as every validator does: put in canonical form where they have to be; 1 where
    /// they are judged as their octets stand.
    pub as_received: u32,
    /// The algorithms of signatures that the caller checks, by their numbers (RFC 4034, A.1); none
    /// where it checks all.
    pub algorithms: &'a [u8],
    /// How many signatures of both messages are to be checked at most; 0 stands for 16.
    pub max_signatures: u32,
    /// 1 where the answer may be one to another question of the zone, as a cached denial is (RFC
    /// 8198); else 0.
    pub other_question: u32,
    /// 1 where the parent proved that there is no DS record; else 0, and `ds` has some.
    pub no_ds: u32,
    /// 1 where the reply is to say which records of `answer` a verdict vouches for; else 0.
    pub places: u32,
}

/// How many octets a case has in memory.
const CASE_SIZE: usize = 160;

const _: () = prove!(size_of::<OctetCase>() == CASE_SIZE);

/// What is said of a reply beside its code and its octets.
#[repr(C)]
#[derive(Clone, Copy, Debug)]
pub struct Report {
    /// How many octets the report has as its caller knows it: 48.
    pub size: usize,
    /// How many octets the reply has.
    pub len: usize,
    /// The last second since 1970 in which the verdict stands; 0 where nothing says it.
    pub until: u64,
    /// How many signatures were verified for it.
    pub verifications: u64,
    /// How many names were hashed for it.
    pub hashes: u64,
    /// For how many seconds the verdict may be kept (RFC 4035, 5.3.3); 0 where nothing says it.
    pub ttl: u32,
    /// The extended error that the reply brings (RFC 8914, 4), or 0: code 0 of the RFC, which says
    /// nothing, is never brought.
    pub ede: u16,
    /// Whether a name without DS records is delegated: 1 where it is, 2 where it is not, 0 where
    /// the reply says nothing of it.
    pub delegates: u16,
}

/// How many octets a report has in memory.
pub const REPORT_SIZE: usize = 48;

const _: () = prove!(size_of::<Report>() == REPORT_SIZE);

/// What the octets of a case spell.
#[derive(Drop)]
struct ReadCase<'a> {
    apex: Name<Vec<u8>>,
    /// The DS records that are judged by.
    ds: Vec<Ds<Vec<u8>>>,
    /// The extended error that is said where there is none of them.
    error: u16,
    dnskey: CowSlice<'a, u8>,
    answer: CowSlice<'a, u8>,
    one_moment: bool,
    other_question: bool,
    places: bool,
    question: Question,
    table: Vec<CheckedSignature<'a>>,
}

/// Judges as [`find`](answer_findings::find) does, from octets. The reply's octets are written to
/// the front of `out` where there is room for them: of records their data, each behind its length
/// in two octets; of an alias its target, of a DNAME its owner and the name that the question's
/// becomes, if it isn't too long, of a delegation the cut, and of a referral behind it the data of
/// its DS records, all names in wire form; of signatures that are asked for their entries, which
/// belong into the list with their last octets set.
///
/// Where the case wants places, in front of the octets of each verdict but that the zone is not
/// signed stand the numbers of the records that it vouches for, counted from 0 over the sections of
/// the answer, ascending, in four octets each, behind how many there are in four.
///
/// What it says of messages in which nothing is forged, in the form that is judged, is so of a
/// version of the zone: of a zone in order (nothing beside a CNAME, nothing below a DNAME), whoever
/// signs and serves it, and whichever question the answer was given to.
///
/// Beside a DS set a message that would cost too much work ([`is_crowded`]) is refused as too long,
/// and not judged.
///
/// A refusal brings its extended error, for which the signatures of the answer may be looked up
/// once more.
///
/// Names are hashed by the hasher that is lent: as many as the report says, and where memory runs
/// out, which it does not count, no more than four judgements may.
///
/// [`is_crowded`]: crate::crowded::is_crowded
pub fn judge_octets<H: NameHasher>(
    alloc: Global,
    case: &OctetCase,
    out: &mut [u8],
    report: &mut Report,
    hasher: &mut H,
) -> ReplyCode
    ensures answers { Answers case.now out.old out.new report.old report.new result }
    ensures hashed { let ran_out = result ≡ ReplyCode.OutOfMemory in let most = hash_bound case.now in
        let hashes = CountsReport most ran_out report.old report.new in
        hashes (H.hashed hasher.old) (H.hashed hasher.new) }
{
    if report.size != REPORT_SIZE {
        return ReplyCode::BadCase;
    }
    let reply = reply(alloc, case, hasher);
    hand_out(&reply, out, report)
}

/// Writes a reply's octets to the front of `out`, where there is room for them, and says of it in
/// `report` all but its code.
pub fn hand_out(reply: &Reply, out: &mut [u8], report: &mut Report) -> ReplyCode
    ensures out { IsHandedOut (reply_seen reply.now) out.old out.new result }
    ensures said { report.new ≡ report_of (reply_seen reply.now) }
{
    *report = report_of(reply);
    if reply.octets.len() > out.len() {
        return ReplyCode::BufferTooSmall;
    }
    out[..reply.octets.len()].copy_from_slice(&reply.octets);
    reply.code
}

fn report_of(reply: &Reply) -> Report
    ensures { result ≡ report_of (reply_seen reply.now) }
{
    Report {
        size: REPORT_SIZE,
        len: reply.octets.len(),
        until: reply.until,
        verifications: reply.verifications,
        hashes: reply.hashes,
        ttl: reply.ttl,
        ede: reply.ede,
        delegates: reply.delegates,
    }
}

/// The reply to a case.
fn reply<H: NameHasher>(alloc: Global, case: &OctetCase, hasher: &mut H) -> Reply
    ensures replies { Replies case.now (reply_seen result) }
    ensures hashed { let ran_out = reply_seen result ≡ only ReplyCode.OutOfMemory in
        let most = hash_bound case.now in
        CountsReply most ran_out result.hashes (H.hashed hasher.old) (H.hashed hasher.new) }
{
    let read = match read_case(alloc, case) {
        Ok(read) => read,
        Err(code) => return Reply::only(alloc, code),
    };
    match reply_of(alloc, case, &read, hasher) {
        Ok(reply) => reply,
        Err(_) => Reply::only(alloc, ReplyCode::OutOfMemory),
    }
}

/// The reply to what a case spells.
fn reply_of<H: NameHasher>(
    alloc: Global,
    case: &OctetCase,
    read: &ReadCase,
    hasher: &mut H,
) -> Result<Reply, AllocError>
    ensures says { let h = judge_input_of case.now read.now in let table = read.now.table.items in
        let places = read.now.places in
        IfOk result (λ r. Says case.now read.now.error places h table (reply_seen r)) }
    ensures hashed { IfOk result
        (λ r. H.hashed hasher.new ≡ H.hashed hasher.old + r.hashes) }
    ensures bound { let h = judge_input_of case.now read.now in
        H.hashed hasher.new ≤ H.hashed hasher.old + 4 * hash_bound_of h }
{
    let judge_case = judge_case(case, read);
    if are_crowded(&judge_case) {
        return Ok(Reply::only(alloc, ReplyCode::MessageTooLong));
    }
    judged_reply(alloc, case, read, &judge_case, hasher)
}

/// What a case spells, as a search is handed it.
fn judge_case<'a>(case: &OctetCase, read: &'a ReadCase) -> Case<'a>
    ensures { result ≡ judge_input_of case.now read.now }
{
    Case {
        apex: &read.apex,
        ds: &read.ds,
        dnskey: read.dnskey.as_slice(),
        answer: read.answer.as_slice(),
        question: &read.question,
        moment: UnixTime::new(Duration::from_secs(case.moment)),
        limit: case.limit,
        one_moment: read.one_moment,
        other_question: read.other_question,
    }
}

/// The reply to what is found in a case's messages.
fn judged_reply<H: NameHasher>(
    alloc: Global,
    case: &OctetCase,
    read: &ReadCase,
    judge_case: &Case,
    hasher: &mut H,
) -> Result<Reply, AllocError>
    ensures says { let h = judge_case.now in let table = read.now.table.items in
        let places = read.now.places in
        IfOk result (λ r. SaysFound case.now read.now.error places h table (reply_seen r)) }
    ensures hashed { IfOk result
        (λ r. H.hashed hasher.new ≡ H.hashed hasher.old + r.hashes) }
    ensures bound { let h = judge_case.now in
        H.hashed hasher.new ≤ H.hashed hasher.old + 4 * hash_bound_of h }
{
    match judge_answer(alloc, judge_case, &read.table, hasher)? {
        AnswerOutcome::Means {
            meaning,
            validity,
            verifications,
            hashes,
        } => {
            let reply = reply_of_meaning(alloc, case.moment, read.error, &meaning, validity)?;
            let reply = reply.counted(verifications, hashes);
            if !read.places {
                return Ok(reply);
            }
            reply.behind(octets_in_front(alloc, judge_case, &read.table, &meaning)?)
        }
        AnswerOutcome::Refused {
            refusal,
            verifications,
            hashes,
        } => {
            let error = error_of(alloc, judge_case, &read.table, refusal)?;
            Ok(reply_of_refusal(alloc, refusal, error).counted(verifications, hashes))
        }
        AnswerOutcome::Asks {
            asks,
            verifications,
            hashes,
        } => {
            let stops = are_too_many(case.max_signatures, judge_case, &read.table, asks.len());
            Ok(reply_of_asks(alloc, &asks, stops)?.counted(verifications, hashes))
        }
    }
}

/// Reads what the octets of a case spell.
fn read_case<'a>(alloc: Global, case: &OctetCase<'a>) -> Result<ReadCase<'a>, ReplyCode>
    ensures ok { IfOk result (λ r. ReadsAs case.now r) }
    ensures unread { IfErr result
        (λ c. (c ≡ ReplyCode.OutOfMemory) ⊎ Unread case.now c) }
{
    let one_moment = flag_in(case, case.one_moment)?;
    let as_received = flag_in(case, case.as_received)?;
    let other_question = flag_in(case, case.other_question)?;
    let places = flag_in(case, case.places)?;
    if flag_in(case, case.no_ds)? != case.ds.is_empty() {
        return Err(ReplyCode::BadCase);
    }
    let apex = read_name(alloc, case.apex, ReplyCode::BadApex)?;
    let Some(ds_set) = read_list(alloc, case.ds)? else {
        return Err(ReplyCode::BadDsSet);
    };
    let name = read_name(alloc, case.name, ReplyCode::BadName)?;
    let Some(table) = read_list(alloc, case.checked)? else {
        return Err(ReplyCode::BadSignatures);
    };
    let error = unsupported(&ds_set);
    let ds = judged_ds(ds_set, case.algorithms);
    let as_received = ds.is_empty() || as_received;
    let dnskey = judged_form(alloc, case.dnskey, as_received)?;
    let answer = judged_form(alloc, case.answer, as_received)?;
    Ok(ReadCase {
        apex,
        ds,
        error,
        dnskey,
        answer,
        one_moment,
        other_question,
        places,
        question: Question {
            name,
            rtype: Rtype::from_int(case.rtype),
            class: Class::from_int(case.class),
        },
        table,
    })
}

/// What a flag of a case says.
fn flag_in(case: &OctetCase, flag: u32) -> Result<bool, ReplyCode>
    ensures said { IfOk result (λ b. flag_in case.now flag ≡ Some b) }
    ensures unread { IfErr result (λ c. (c ≡ ReplyCode.BadCase) × (flag_in case.now flag ≡ None)) }
{
    if case.size != CASE_SIZE {
        return Err(ReplyCode::BadCase);
    }
    match flag {
        0 => Ok(false),
        1 => Ok(true),
        _ => Err(ReplyCode::BadCase),
    }
}

/// The octets that are judged of a message.
pub fn judged_form<'a>(
    alloc: Global,
    message: &'a [u8],
    as_received: bool,
) -> Result<CowSlice<'a, u8>, ReplyCode>
    ensures ok { IfOk result (λ o. IsJudged as_received message.now (cow_slice_items o)) }
    ensures long { IfErr result (λ c. (c ≡ ReplyCode.OutOfMemory)
        ⊎ ((c ≡ ReplyCode.MessageTooLong) × (as_received ≡ false) × GrowsTooLong message.now)) }
{
    if as_received {
        return Ok(CowSlice::Borrowed(message));
    }
    match canonical_cow(alloc, message) {
        Ok(octets) => Ok(octets),
        Err(CanonicalError::TooLong) => Err(ReplyCode::MessageTooLong),
        Err(_) => Err(ReplyCode::OutOfMemory),
    }
}

/// Reads a name, or says which is none.
pub fn read_name(alloc: Global, octets: &[u8], bad: ReplyCode) -> Result<Name<Vec<u8>>, ReplyCode>
    ensures ok { IfOk result (λ n. name_of_octets octets.now ≡ Some n) }
    ensures unread { IfErr result (λ c. (c ≡ ReplyCode.OutOfMemory)
        ⊎ ((c ≡ bad) × (name_of_octets octets.now ≡ None))) }
{
    match name_from_octets(alloc, octets)? {
        Some(name) => Ok(name),
        None => Err(bad),
    }
}

impl From<AllocError> for ReplyCode {
    ghost use Rattle.answer_judge_octets.specs.declared.reply.ReplyCode.TheVariants.{OutOfMemory};

    ghost from_gives = { λ _ c. c ≡ OutOfMemory };

    fn from(_error: AllocError) -> ReplyCode {
        ReplyCode::OutOfMemory
    }
}
