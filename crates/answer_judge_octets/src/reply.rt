//! What is replied to a caller in octets.
ghost use Rattle.std.specs.Prelude.{◌≡◌, ◌++◌, length, map, IfOk, MatchOption, OnOk};
ghost use Rattle.std.specs.List.{AllByRecursion, flat_map};
ghost use Rattle.definitions.specs.Dnskey.{dnskey_data};
ghost use Rattle.definitions.specs.Name.{wire};
ghost use Rattle.names_rdata.specs.Composing.{with_length};
ghost use Rattle.answer_judge_rules.specs.Rules.{verdict_of};
ghost use Rattle.answer_findings.specs.Seen.{seen};
ghost use Rattle.answer_terms.specs.Redirection.{lead_seen};
ghost use Rattle.answer_judge_octets.specs.declared.reply.ReplyCode.{ReplyCode};
ghost use Rattle.answer_findings.specs.Asking.{unchecked};
ghost use Rattle.answer_judge_octets.specs.Written.{FitsChecked, IsLong, IsShort, checked_octets};
ghost use Rattle.answer_judge_octets.specs.Written.{with_long_length};
ghost use Rattle.answer_judge_octets.specs.Replying.{AsksOrStops, behind, code_of_refusal};
ghost use Rattle.answer_judge_octets.specs.Replying.{code_of_verdict};
ghost use Rattle.answer_judge_octets.specs.Replying.{code_found, code_refused, counted};
ghost use Rattle.answer_judge_octets.specs.Replying.{delegates_found};
ghost use Rattle.answer_judge_octets.specs.Replying.{entries_of, error_beside, found_reply};
ghost use Rattle.answer_judge_octets.specs.Replying.{is_refusal, is_verdict, number_of};
ghost use Rattle.answer_judge_octets.specs.Replying.{octets_found, octets_of_dname};
ghost use Rattle.answer_judge_octets.specs.Replying.{octets_of_verdict, only, refusal_reply};
ghost use Rattle.answer_judge_octets.specs.Replying.{reply_seen, ttl_of, until_of};

use answer_extended_errors::ExtendedError;
use answer_findings::{Ask, DataList, Lead, Meaning, Refusal, Validity, Verdict};
use answer_terms::dnskey::ZoneKey;
use denial_data::Dnskey;
use messages::names::{Name, ZoneName};
use std::alloc::{AllocError, Global};

/// What a caller in octets is told: a verdict, why there is none, or what is wanted.
#[derive(Clone, Copy, Debug, PartialEq, Eq)]
pub enum ReplyCode {
    /// The name has records of the type: their data.
    Records = 0,
    /// The name has no record of the type.
    NoType = 1,
    /// There is no such name.
    NoName = 2,
    /// A wildcard stands for the name: the data of its records.
    StarRecords = 3,
    /// A wildcard stands for the name, and has no record of the type.
    StarNoType = 4,
    /// The name is at or below a delegation.
    Delegated = 5,
    /// An opt-out chain leaves open what is there.
    Open = 6,
    /// The DS set is empty, or no record of it counts (of none is the algorithm checked and the
    /// digest made), so nothing vouches for the zone's keys.
    Unsigned = 7,
    /// The name has a CNAME record, which leads to another name.
    Alias = 8,
    /// A wildcard with a CNAME record stands for the name, and leads to another name.
    WildcardAlias = 9,
    /// A DNAME record stands above the name.
    Dname = 10,
    /// The zone has DS records at a name at or above the question's.
    Referral = 11,
    QuestionNotAllowed = 16,
    BadDnskeyMessage = 17,
    BadAnswerMessage = 18,
    QuestionMismatch = 19,
    EqualTags = 20,
    NoTrustedKey = 21,
    MixedNsec3Parameters = 22,
    IterationsOverLimit = 23,
    HashFailed = 24,
    NotProven = 25,
    OutOfMemory = 26,
    /// Signatures are of unlike times where the case asks for one moment.
    MixedVersions = 27,
    /// A message has more than 65,535 octets in canonical form, or would cost too much work.
    MessageTooLong = 28,
    /// More signatures would be asked for than the case allows.
    TooManySignatures = 29,
    /// A zone's answer tells nothing of the way down to the name.
    NothingTold = 30,
    /// The name is not at or below the trust anchor, or is the anchor's and asked for DS.
    Outside = 31,
    /// These signatures are to be checked: entries of the list.
    Ask = 32,
    /// These messages are wanted.
    Want = 33,
    /// The reply has more octets than there is room for.
    BufferTooSmall = 34,
    /// The name of the zone is no name in wire form.
    BadApex = 35,
    /// The DS set is no list of DS records.
    BadDsSet = 36,
    /// The name that was asked for is no name in wire form.
    BadName = 37,
    /// The signatures are no list of checked signatures.
    BadSignatures = 38,
    /// The case or the report has another size, a flag is neither 0 nor 1, or it is unclear whether
    /// there is a DS record.
    BadCase = 39,
    /// The messages are no list of messages, or a name in front of one is no name in wire form.
    BadMessages = 40,
    /// More delegations are on the way down to the name than are allowed.
    TooManyCuts = 48,
    /// More aliases are on the way to the name than are allowed.
    TooManyAliases = 49,
    /// More messages are wanted than the evidence may have.
    TooManyMessages = 50,
    /// Nothing is proven: records of the denial verify, and one that the proof needs is missing.
    IncompleteDenial = 51,
    /// More messages or signatures are wanted, and the calls so far were as much work as is allowed.
    TooMuchWork = 52,
}

impl ReplyCode {
    /// The number of it.
    pub fn number(self) -> u32
        ensures { result ≡ number_of self }
    {
        self as u32
    }

    /// The code of a number, if it is one.
    pub fn from_number(number: u32) -> Option<Self>
        ensures { MatchOption result
            ((c : ReplyCode) → number_of c ≡ number → ⊥) (λ c. number_of c ≡ number) }
    {
        match number {
            0 => Some(ReplyCode::Records),
            1 => Some(ReplyCode::NoType),
            2 => Some(ReplyCode::NoName),
            3 => Some(ReplyCode::StarRecords),
            4 => Some(ReplyCode::StarNoType),
            5 => Some(ReplyCode::Delegated),
            6 => Some(ReplyCode::Open),
            7 => Some(ReplyCode::Unsigned),
            8 => Some(ReplyCode::Alias),
            9 => Some(ReplyCode::WildcardAlias),
            10 => Some(ReplyCode::Dname),
            11 => Some(ReplyCode::Referral),
            16 => Some(ReplyCode::QuestionNotAllowed),
            17 => Some(ReplyCode::BadDnskeyMessage),
            18 => Some(ReplyCode::BadAnswerMessage),
            19 => Some(ReplyCode::QuestionMismatch),
            20 => Some(ReplyCode::EqualTags),
            21 => Some(ReplyCode::NoTrustedKey),
            22 => Some(ReplyCode::MixedNsec3Parameters),
            23 => Some(ReplyCode::IterationsOverLimit),
            24 => Some(ReplyCode::HashFailed),
            25 => Some(ReplyCode::NotProven),
            26 => Some(ReplyCode::OutOfMemory),
            27 => Some(ReplyCode::MixedVersions),
            28 => Some(ReplyCode::MessageTooLong),
            29 => Some(ReplyCode::TooManySignatures),
            30 => Some(ReplyCode::NothingTold),
            31 => Some(ReplyCode::Outside),
            32 => Some(ReplyCode::Ask),
            33 => Some(ReplyCode::Want),
            34 => Some(ReplyCode::BufferTooSmall),
            35 => Some(ReplyCode::BadApex),
            36 => Some(ReplyCode::BadDsSet),
            37 => Some(ReplyCode::BadName),
            38 => Some(ReplyCode::BadSignatures),
            39 => Some(ReplyCode::BadCase),
            40 => Some(ReplyCode::BadMessages),
            48 => Some(ReplyCode::TooManyCuts),
            49 => Some(ReplyCode::TooManyAliases),
            50 => Some(ReplyCode::TooManyMessages),
            51 => Some(ReplyCode::IncompleteDenial),
            52 => Some(ReplyCode::TooMuchWork),
            _ => None,
        }
    }

    /// Whether it is a verdict.
    pub fn is_verdict(self) -> bool
        ensures { result ≡ is_verdict self }
    {
        match self {
            ReplyCode::Records | ReplyCode::NoType | ReplyCode::NoName => true,
            ReplyCode::StarRecords | ReplyCode::StarNoType => true,
            ReplyCode::Delegated | ReplyCode::Open | ReplyCode::Unsigned => true,
            ReplyCode::Alias | ReplyCode::WildcardAlias => true,
            ReplyCode::Dname | ReplyCode::Referral => true,
            _ => false,
        }
    }

    /// Whether it says why there is no verdict.
    pub fn is_refusal(self) -> bool
        ensures { result ≡ is_refusal self }
    {
        match self {
            ReplyCode::QuestionNotAllowed | ReplyCode::QuestionMismatch => true,
            ReplyCode::BadDnskeyMessage | ReplyCode::BadAnswerMessage => true,
            ReplyCode::EqualTags | ReplyCode::NoTrustedKey | ReplyCode::MixedVersions => true,
            ReplyCode::MixedNsec3Parameters | ReplyCode::IterationsOverLimit => true,
            ReplyCode::HashFailed | ReplyCode::NotProven | ReplyCode::OutOfMemory => true,
            ReplyCode::MessageTooLong | ReplyCode::TooManySignatures => true,
            ReplyCode::NothingTold | ReplyCode::Outside => true,
            ReplyCode::TooManyCuts | ReplyCode::TooManyAliases => true,
            ReplyCode::TooManyMessages | ReplyCode::IncompleteDenial => true,
            ReplyCode::TooMuchWork => true,
            _ => false,
        }
    }
}

/// What is replied: its code and its octets, how often was verified and hashed, how long a verdict
/// lasts, an extended error, and whether a name is a delegation.
#[derive(Debug, Drop)]
pub struct Reply {
    pub code: ReplyCode,
    pub octets: Vec<u8>,
    pub verifications: u64,
    pub hashes: u64,
    pub ttl: u32,
    pub until: u64,
    pub ede: u16,
    pub delegates: u16,
}

impl Reply {
    /// A code alone.
    pub fn only(alloc: Global, code: ReplyCode) -> Self
        ensures { reply_seen result ≡ only code }
    {
        Reply {
            code,
            octets: Vec::new(alloc),
            verifications: 0,
            hashes: 0,
            ttl: 0,
            until: 0,
            ede: 0,
            delegates: 0,
        }
    }

    /// The reply, and how often was verified and hashed for it.
    pub(crate) fn counted(self, verifications: u64, hashes: u64) -> Self
        ensures { reply_seen result ≡ counted verifications hashes (reply_seen self) }
    {
        let mut reply = self;
        reply.verifications = verifications;
        reply.hashes = hashes;
        reply
    }

    /// The reply, its octets behind others.
    pub(crate) fn behind(self, front: Vec<u8>) -> Result<Self, AllocError>
        ensures { IfOk result (λ r. reply_seen r ≡ behind front.items (reply_seen self)) }
    {
        let mut octets = front;
        octets.extend_from_slice(&self.octets)?;
        let mut reply = self;
        reply.octets = octets;
        Ok(reply)
    }
}

/// The reply to what is found at a moment in seconds, beside a DS set with an error that is said
/// where none of it is judged by.
pub(crate) fn reply_of_meaning(
    alloc: Global,
    second: u64,
    error: u16,
    meaning: &Meaning,
    validity: Option<Validity>,
) -> Result<Reply, AllocError>
    ensures { let s = seen meaning.now in
        IfOk result (λ r. reply_seen r ≡ found_reply second error s validity) }
{
    Ok(Reply {
        code: code_of_meaning(meaning),
        octets: octets_of_meaning(alloc, meaning)?,
        verifications: 0,
        hashes: 0,
        ttl: ttl_of(validity),
        until: until_of(second, validity),
        ede: error_beside(error, meaning),
        delegates: delegates_of(meaning),
    })
}

/// The reply to a refusal, with its extended error.
pub(crate) fn reply_of_refusal(alloc: Global, refusal: Refusal, error: ExtendedError) -> Reply
    ensures { reply_seen result ≡ refusal_reply refusal error }
{
    let mut reply = Reply::only(alloc, code_refused(refusal, error));
    reply.ede = error.code();
    reply
}

/// For how many seconds a verdict may be kept.
pub fn ttl_of(validity: Option<Validity>) -> u32
    ensures { result ≡ ttl_of validity }
{
    match validity {
        Some(validity) => validity.ttl.as_secs(),
        None => 0,
    }
}

/// The last second in which a verdict stands that was given in one.
pub fn until_of(second: u64, validity: Option<Validity>) -> u64
    ensures { result ≡ until_of second validity }
{
    match validity {
        Some(validity) => second.saturating_add(u64::from(validity.seconds)),
        None => 0,
    }
}

/// The error of a DS set, beside the verdict that the zone is not signed.
fn error_beside(error: u16, meaning: &Meaning) -> u16
    ensures { result ≡ error_beside error (seen meaning.now) }
{
    match meaning {
        Meaning::Verdict(Verdict::Unsigned) => error,
        _ => 0,
    }
}

/// A name that has no DS record is a delegation, or none.
const DELEGATES: u16 = 1;

const DELEGATES_NOT: u16 = 2;

/// Whether a name that has no DS record is a delegation; 0 where nothing is said of it.
fn delegates_of(meaning: &Meaning) -> u16
    ensures { result ≡ delegates_found (seen meaning.now) }
{
    match meaning {
        Meaning::NoDs(true) => DELEGATES,
        Meaning::NoDs(false) => DELEGATES_NOT,
        _ => 0,
    }
}

/// The reply that asks for signatures, or that they are too many.
pub fn reply_of_asks(alloc: Global, asks: &[Ask], stops: bool) -> Result<Reply, AllocError>
    ensures { IfOk result (λ r. AsksOrStops stops asks.now (reply_seen r)) }
{
    if stops {
        return Ok(Reply::only(alloc, ReplyCode::TooManySignatures));
    }
    let mut reply = Reply::only(alloc, ReplyCode::Ask);
    reply.octets = octets_of_asks(alloc, asks)?;
    Ok(reply)
}

fn code_of_meaning(meaning: &Meaning) -> ReplyCode
    ensures { result ≡ code_found (seen meaning.now) }
{
    match meaning {
        Meaning::Verdict(verdict) => code_of_verdict(verdict),
        Meaning::Delegated(_) => ReplyCode::Delegated,
        Meaning::NoDs(_) => ReplyCode::NoType,
        Meaning::Alias(_) => ReplyCode::Alias,
        Meaning::WildcardAlias(_) => ReplyCode::WildcardAlias,
        Meaning::LeftOpen => ReplyCode::Open,
        Meaning::Dname { .. } => ReplyCode::Dname,
        Meaning::Referral { .. } => ReplyCode::Referral,
    }
}

/// The code of a verdict.
pub fn code_of_verdict(verdict: &Verdict) -> ReplyCode
    ensures { result ≡ code_of_verdict (verdict_of verdict.now) }
{
    match verdict {
        Verdict::Records(_) => ReplyCode::Records,
        Verdict::NoType => ReplyCode::NoType,
        Verdict::NoName => ReplyCode::NoName,
        Verdict::StarRecords(_) => ReplyCode::StarRecords,
        Verdict::StarNoType => ReplyCode::StarNoType,
        Verdict::Delegated => ReplyCode::Delegated,
        Verdict::Open => ReplyCode::Open,
        Verdict::Unsigned => ReplyCode::Unsigned,
    }
}

/// The code of a refusal with its extended error: where nothing is proven an incomplete denial has
/// one of its own.
pub fn code_refused(refusal: Refusal, error: ExtendedError) -> ReplyCode
    ensures { result ≡ code_refused refusal error }
{
    match (refusal, error) {
        (Refusal::NotProven, ExtendedError::IncompleteDenial) => ReplyCode::IncompleteDenial,
        _ => code_of_refusal(refusal),
    }
}

/// The code of a refusal by itself.
fn code_of_refusal(refusal: Refusal) -> ReplyCode
    ensures { result ≡ code_of_refusal refusal }
{
    match refusal {
        Refusal::QuestionNotAllowed => ReplyCode::QuestionNotAllowed,
        Refusal::BadDnskeyMessage => ReplyCode::BadDnskeyMessage,
        Refusal::BadAnswerMessage => ReplyCode::BadAnswerMessage,
        Refusal::QuestionMismatch => ReplyCode::QuestionMismatch,
        Refusal::EqualTags => ReplyCode::EqualTags,
        Refusal::NoTrustedKey => ReplyCode::NoTrustedKey,
        Refusal::MixedNsec3Parameters => ReplyCode::MixedNsec3Parameters,
        Refusal::IterationsOverLimit => ReplyCode::IterationsOverLimit,
        Refusal::HashFailed => ReplyCode::HashFailed,
        Refusal::NotProven => ReplyCode::NotProven,
        Refusal::MixedVersions => ReplyCode::MixedVersions,
        Refusal::Memory => ReplyCode::OutOfMemory,
    }
}

/// The octets of what is found: names in wire form, and data, each behind its length.
fn octets_of_meaning(alloc: Global, meaning: &Meaning) -> Result<Vec<u8>, AllocError>
    ensures { IfOk result (λ v. v.items ≡ octets_found (seen meaning.now)) }
{
    match meaning {
        Meaning::Verdict(verdict) => octets_of_verdict(alloc, verdict),
        Meaning::Delegated(None) | Meaning::NoDs(_) | Meaning::LeftOpen => Ok(Vec::new(alloc)),
        Meaning::Delegated(Some(cut)) => octets_of_name(alloc, cut),
        Meaning::Alias(target) | Meaning::WildcardAlias(target) => octets_of_name(alloc, target),
        Meaning::Dname { owner, leads } => octets_of_dname(alloc, owner, leads),
        Meaning::Referral { cut, ds } => octets_of_referral(alloc, cut, ds),
    }
}

fn octets_of_name(alloc: Global, name: &Name<Vec<u8>>) -> Result<Vec<u8>, AllocError>
    ensures { IfOk result (λ v. v.items ≡ wire name.now) }
{
    let mut octets = Vec::new(alloc);
    name.compose(&mut octets)?;
    Ok(octets)
}

/// The owner of a DNAME, and behind it where the name leads, if that is a name.
fn octets_of_dname(
    alloc: Global,
    owner: &Name<Vec<u8>>,
    leads: &Lead,
) -> Result<Vec<u8>, AllocError>
    ensures { IfOk result
        (λ v. v.items ≡ octets_of_dname owner.now (lead_seen leads.now)) }
{
    let mut octets = octets_of_name(alloc, owner)?;
    match leads {
        Lead::TooLong => Ok(octets),
        Lead::To(name) => {
            name.compose(&mut octets)?;
            Ok(octets)
        }
    }
}

/// A cut, and behind it the data of its DS records, each behind its length.
fn octets_of_referral(
    alloc: Global,
    cut: &Name<Vec<u8>>,
    ds: &DataList,
) -> Result<Vec<u8>, AllocError>
    ensures { IfOk result (λ v. v.items ≡ wire cut.now ++ flat_map with_length ds.now) }
{
    let mut octets = octets_of_name(alloc, cut)?;
    let datas = octets_of_data(alloc, ds)?;
    octets.extend_from_slice(&datas)?;
    Ok(octets)
}

/// The data of a verdict, each behind its length; of other verdicts no octets.
pub fn octets_of_verdict(alloc: Global, verdict: &Verdict) -> Result<Vec<u8>, AllocError>
    ensures { IfOk result (λ v. v.items ≡ octets_of_verdict (verdict_of verdict.now)) }
{
    match verdict {
        Verdict::Records(data) | Verdict::StarRecords(data) => octets_of_data(alloc, data),
        _ => Ok(Vec::new(alloc)),
    }
}

fn octets_of_data(alloc: Global, datas: &DataList) -> Result<Vec<u8>, AllocError>
    ensures { IfOk result (λ v. v.items ≡ flat_map with_length datas.now) }
{
    let mut octets = Vec::new(alloc);
    for datum in datas.as_slice() {
        put_short(&mut octets, datum)?;
    }
    Ok(octets)
}

/// How many octets a key's data have in front of the public key (RFC 4034, 2.1).
const HEAD_OF_KEY: usize = 4;

/// How many octets an entry has beside its key, octets and signature: three lengths, and whether it
/// passes.
const HEAD_OF_ENTRY: usize = 9;

/// Signatures that are asked for, as entries that don't pass.
fn octets_of_asks(alloc: Global, asks: &[Ask]) -> Result<Vec<u8>, AllocError>
    ensures octets { IfOk result (λ v. v.items ≡ entries_of asks.now) }
    ensures fit { OnOk result (AllByRecursion FitsChecked (map unchecked asks.now)) }
{
    let mut octets = Vec::with_capacity(alloc, room_for(asks))?;
    for ask in asks {
        put_ask(ask, &mut octets)?;
    }
    Ok(octets)
}

/// How many octets the entries of signatures have, if that is a number of 64 bits.
fn room_for(asks: &[Ask]) -> usize {
    let mut room = 0_usize;
    for ask in asks {
        let key = ask.key.public_key().len().saturating_add(HEAD_OF_KEY);
        let parts = ask.octets.len().saturating_add(ask.signature.len());
        room = room.saturating_add(key.saturating_add(parts).saturating_add(HEAD_OF_ENTRY));
    }
    room
}

/// Puts a signature that is asked for at the end, as an entry that doesn't pass.
fn put_ask(ask: &Ask, octets: &mut Vec<u8>) -> Result<(), AllocError>
    ensures octets { let entry = checked_octets (unchecked ask.now) in
        OnOk result (octets.new.items ≡ octets.old.items ++ entry) }
    ensures fits { OnOk result (FitsChecked (unchecked ask.now)) }
{
    let _flags = ask.key.flags();
    put_key(&ask.key, octets)?;
    put_long(octets, &ask.octets)?;
    put_short(octets, &ask.signature)?;
    octets.push(0)?;
    Ok(())
}

/// Puts a key's data behind their length in two octets at the end. Longer ones are refused as out
/// of memory.
fn put_key(key: &Dnskey<Vec<u8>>, octets: &mut Vec<u8>) -> Result<(), AllocError>
    ensures octets { let rdata = dnskey_data key.now in
        OnOk result (octets.new.items ≡ octets.old.items ++ with_length rdata) }
    ensures short { OnOk result (IsShort (dnskey_data key.now)) }
{
    let len = len_of_key(key)?;
    octets.extend_from_slice(&len.to_be_bytes())?;
    key.compose(octets)
}

/// How many octets a key's data have. More than a length in two octets says are refused as out of
/// memory.
fn len_of_key(key: &Dnskey<Vec<u8>>) -> Result<u16, AllocError>
    ensures len { IfOk result (λ n. n ≡ length (dnskey_data key.now)) }
    ensures short { OnOk result (IsShort (dnskey_data key.now)) }
{
    let len = key.public_key().len().saturating_add(HEAD_OF_KEY);
    u16::try_from(len).map_err(|_| AllocError)
}

/// Puts a part behind its length in two octets at the end. A longer one is refused as out of
/// memory.
fn put_short(octets: &mut Vec<u8>, part: &[u8]) -> Result<(), AllocError>
    ensures octets { OnOk result (octets.new.items ≡ octets.old.items ++ with_length part.now) }
    ensures short { OnOk result (IsShort part.now) }
{
    let len = u16::try_from(part.len()).map_err(|_| AllocError)?;
    octets.extend_from_slice(&len.to_be_bytes())?;
    octets.extend_from_slice(part)
}

/// Appends octets behind their length in four octets.
fn put_long(octets: &mut Vec<u8>, part: &[u8]) -> Result<(), AllocError>
    ensures octets { OnOk result (octets.new.items ≡ octets.old.items
        ++ with_long_length part.now) }
    ensures long { OnOk result (IsLong part.now) }
{
    let len = u32::try_from(part.len()).map_err(|_| AllocError)?;
    octets.extend_from_slice(&len.to_be_bytes())?;
    octets.extend_from_slice(part)
}
