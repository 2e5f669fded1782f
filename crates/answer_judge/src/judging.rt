//! Judging a zone answer from bytes alone (RFC 4035, 5).
ghost use Rattle.std.specs.Prelude.{◌≡◌, ◌==◌, ◌+◌, ◌++◌, ◌<◌, ◌≤◌, ◌⊎◌, IfOk, IfErr, OnOk, length};
ghost use Rattle.std.specs.Prelude.{map, min, true, false};
ghost use Rattle.definitions.specs.Limits.{pointer_limit};
ghost use Rattle.messages.specs.Questions.{asked_of};
ghost use Rattle.messages.specs.Record.{spelled};
ghost use Rattle.answer_judge.specs.Due.{Counts, hashes_due, verifications_due};
ghost use Rattle.messages.specs.Message.{Asked, message};
ghost use Rattle.messages.specs.View.{Gives};
ghost use Rattle.answer_judge.specs.Beyond.{SaysBeyond};
ghost use Rattle.answer_judge.specs.Decided.{HashesDecided, HashesDecidedBeyond};
ghost use Rattle.answer_judge.specs.Honest.{AnswersHonest};
ghost use Rattle.answer_judge.specs.Timely.{RefusesUntimely};
ghost use Rattle.answer_judge.specs.Judged.{judged, said, AnswersAs};
ghost use Rattle.answer_judge.specs.Lasts.{LastsSo, validity_in_bytes};
ghost use Rattle.answer_judge_facts.specs.declared.validity.Validity.{Validity};
ghost use Rattle.answer_judge.specs.Meeting.{AnswersGiven, JudgesSo};
ghost use Rattle.answer_judge.specs.Judging.{Judges, RefusesFirst, answer_of, handed};
ghost use Rattle.answer_judge.specs.Judging.{verifications_of, hashes_of, is_first, is_judged};
ghost use Rattle.answer_judge.specs.Judging.{may_ask, message_refusal, same_question, hash_bound};
ghost use Rattle.answer_judge.specs.Judging.{verification_bound};
ghost use Rattle.answer_scheme.specs.Answers.{EachAgreeing, SignatureTest, with_test};
ghost use Rattle.answer_judge_facts.specs.Asked.{Implies};
ghost use Rattle.answer_judge.specs.Tried.{is_tried_beyond, is_tried_signature};

pub mod by_scheme;
mod deciding;
mod trusting;

use crate::case::Case;
use crate::judging::deciding::judge_proof;
use crate::judging::trusting::{keys_that_may_sign, read_proof, read_unlike_keys};
use crate::verdict::{Judgement, Refusal, Refused, Validity, Verdict};
use answer_judge_facts::keys::check_run::CheckRun;
use answer_scheme::checks::Checks;
use answer_terms::question::asks_alias;
pub use answer_terms::question::is_allowed;
use denial_data::Ds;
use denial_fields::unix_time::UnixTime;
use messages::error::MessageError;
use messages::names::{Name, ToName};
use messages::question::Question;
use messages::{MessageView, ViewRecord, read_message_into};
use names_rdata::rtype::Rtype;
use numbers::class::Class;
use std::alloc::{AllocError, Global};

/// Judges what a zone says of a question, from a DS set, a DNSKEY answer and a zone answer
/// (RFC 4035, 5), as [`Case::judge`] does where the signatures by which the answer is verified must
/// be of one moment.
pub fn judge<C: Checks>(
    alloc: Global,
    apex: &Name<Vec<u8>>,
    ds: &[Ds<Vec<u8>>],
    dnskey_bytes: &[u8],
    answer_bytes: &[u8],
    question: &Question,
    now: &UnixTime,
    checks: &mut C,
    limit: u16,
) -> Result<Judgement, Refused>
    ensures judgement { let asked = asked_of question.now in
        let h = handed apex.now ds.now dnskey_bytes.now answer_bytes.now asked now.now limit true in
        JudgesSo pointer_limit (C.answers checks.old) h result }
    ensures lasts { let asked = asked_of question.now in
        let h = handed apex.now ds.now dnskey_bytes.now answer_bytes.now asked now.now limit true in
        LastsSo pointer_limit (C.answers checks.old) h result }
    ensures verified { C.verified checks.new ≡ C.verified checks.old + verifications_of result }
    ensures hashed { C.hashed checks.new ≡ C.hashed checks.old + hashes_of result }
    ensures same { C.answers checks.new ≡ C.answers checks.old }
{
    let case = Case {
        apex,
        ds,
        dnskey: dnskey_bytes,
        answer: answer_bytes,
        question,
        moment: *now,
        limit,
        one_moment: true,
        other_question: false,
    };
    case.judge(alloc, checks)
}

impl<'a> Case<'a> {
    /// Judges what the zone says of the question.
    ///
    /// Whatever one version of a zone gives under keys that meet, within the times of its
    /// signatures, gets its verdict. Where no signature of the one message holds at the moment, or
    /// none of the other, they are refused.
    ///
    /// No two messages in which nothing is forged get a verdict that no version of the zone has, or
    /// one of a name that is an alias there. That holds whatever the answer was asked, of a zone in
    /// order (nothing beside a CNAME, nothing below a DNAME), whoever signs and serves it. Nothing
    /// is forged where each signature that may be used is over an RRset that was signed: the
    /// apex's, in time, of an RRset that is sought, passing under a key that the zone published and
    /// that may sign; and where each key of the DNSKEY answer that the DS set trusts is one that
    /// the zone published. For a zone that changes this asks that signatures must be of one moment,
    /// or that they pass for one RRset of the answer alone.
    ///
    /// What is said holds under each scheme that agrees with all that `verify` answered. It is
    /// asked about those signatures alone that are due: of the two messages, in time, over an RRset
    /// there that is sought and that no earlier one verified, each under the key of its tag and
    /// algorithm.
    ///
    /// No name is hashed before all signatures that are due were verified (CVE-2023-50868). Where
    /// one is hashed, even if memory runs out then, the judgement is the same, whichever signatures
    /// pass of those that `verify` was not asked about.
    ///
    /// A verdict lasts up to a second that is said beside it: at each moment up to there the same
    /// messages get the same verdict (`answer_judge::laws::verdicts_last`).
    pub fn judge<C: Checks>(&self, alloc: Global, checks: &mut C) -> Result<Judgement, Refused>
        ensures judges { let answer = answer_of result in
            Judges pointer_limit self.now answer (verifications_of result) (hashes_of result) }
        ensures exact { let a = C.answers checks.old in
            AnswersAs (answer_of result) (judged a pointer_limit self.now) }
        ensures given { let a = C.answers checks.old in
            AnswersGiven a pointer_limit self.now (answer_of result) }
        ensures honest { let a = C.answers checks.old in
            AnswersHonest a pointer_limit self.now (answer_of result) }
        ensures timely { RefusesUntimely pointer_limit self.now (answer_of result) }
        ensures counts { let a = C.answers checks.old in
            let due = verifications_due a pointer_limit self.now in
            Counts (answer_of result) (verifications_of result) due }
        ensures hash_counts { let a = C.answers checks.old in
            Counts (answer_of result) (hashes_of result) (hashes_due a pointer_limit self.now) }
        ensures agreeing { (test : SignatureTest) → C.agrees checks.new test
            → C.agrees checks.old test
            × JudgesSo pointer_limit (with_test (C.answers checks.old) test) self.now result }
        ensures decided { let k = pointer_limit in let a = C.answers checks.old in
            let n = verifications_of result in
            HashesDecided a (C.agrees checks.new) k self.now n (hashes_of result) }
        ensures lasts { EachAgreeing (C.answers checks.old) (C.agrees checks.new)
            (λ a. LastsSo pointer_limit a self.now result) }
        ensures asked { let a = C.answers checks.old in
            (test : SignatureTest) → Implies (is_tried_signature a pointer_limit self.now) test
            → C.asked_only checks.old test → C.asked_only checks.new test }
        ensures verified { C.verified checks.new ≡ C.verified checks.old + verifications_of result }
        ensures hashed { C.hashed checks.new ≡ C.hashed checks.old + hashes_of result }
        ensures same { C.answers checks.new ≡ C.answers checks.old }
    {
        self.limit_fits();
        if !self.is_judged() {
            return Err(Refused {
                refusal: Refusal::QuestionNotAllowed,
                verifications: 0,
                hashes: 0,
            });
        }
        if self.ds.is_empty() {
            return Ok(Judgement {
                verdict: Verdict::Unsigned,
                verifications: 0,
                hashes: 0,
                validity: None,
            });
        }
        let mut octets = Vec::new(alloc);
        let mut check_run = CheckRun::new(alloc, checks, &mut octets);
        let mut hashes = 0;
        let mut validity = None;
        match judge_messages(self, &mut check_run, &mut hashes, &mut validity) {
            Ok(verdict) => Ok(Judgement {
                verdict,
                verifications: check_run.count,
                hashes,
                validity,
            }),
            Err(refusal) => Err(Refused {
                refusal,
                verifications: check_run.count,
                hashes,
            }),
        }
    }

    /// Whether the question is judged: one that is allowed, or, with `other_question`, one for the
    /// records of aliases.
    fn is_judged(&self) -> bool
        ensures { result ≡ is_judged self.now }
    {
        self.other_question && asks_alias(self.apex, self.question)
            || is_allowed(self.apex, self.question)
    }

    /// The limit is a number of 16 bits, as the iterations of a chain are (RFC 5155, 3.1.3).
    fn limit_fits(&self)
        ensures { self.now.limit < 65536 }
    {
        let _limit = self.limit;
    }
}

/// The verdict of two messages beside a DS set that isn't empty, and how many names are hashed for
/// it.
///
/// How long it lasts is put into the place of what stands there.
fn judge_messages<C: Checks>(
    case: &Case,
    check_run: &mut CheckRun<C>,
    hashes: &mut u32,
    validity: &mut Option<Validity>,
) -> Result<Verdict, Refusal>
    requires counts { check_run.old.count ≡ 0 }
    requires none_hashed { hashes.old ≡ 0 }
    requires other { (case.now.asked.rtype == 47) ≡ false }
    requires other_too { (case.now.asked.rtype == 50) ≡ false }
    ensures says { EachAgreeing (C.answers check_run.old.checks.now)
        (C.agrees check_run.new.checks.now)
        (λ a. SaysBeyond a pointer_limit case.now (said result) check_run.new.count hashes.new) }
    ensures decided { let a = C.answers check_run.old.checks.now in
        let agrees = C.agrees check_run.new.checks.now in
        HashesDecidedBeyond a agrees case.now check_run.new.count hashes.new }
    ensures verdict { OnOk result (message_refusal pointer_limit case.now ≡ None) }
    ensures lasts { EachAgreeing (C.answers check_run.old.checks.now)
        (C.agrees check_run.new.checks.now)
        (λ a. OnOk result (validity.new ≡ validity_in_bytes a pointer_limit case.now)) }
    ensures refusal { IfErr result
        (λ e. RefusesFirst e (message_refusal pointer_limit case.now)) }
    ensures bound { check_run.new.count ≤ verification_bound pointer_limit case.now }
    ensures counted { C.verified check_run.new.checks.now
        ≡ C.verified check_run.old.checks.now + check_run.new.count }
    ensures hash_bound { hashes.new ≤ hash_bound case.now }
    ensures hashed { C.hashed check_run.new.checks.now
        ≡ C.hashed check_run.old.checks.now + hashes.new }
    ensures agrees { (test : SignatureTest) → C.agrees check_run.new.checks.now test
        → C.agrees check_run.old.checks.now test }
    ensures asked { let a = C.answers check_run.old.checks.now in
        (test : SignatureTest) → Implies (is_tried_beyond a pointer_limit case.now) test
        → C.asked_only check_run.old.checks.now test → C.asked_only check_run.new.checks.now test }
    ensures same { C.answers check_run.new.checks.now ≡ C.answers check_run.old.checks.now }
    ensures same_checks { check_run.new.checks.ghost_name ≡ check_run.old.checks.ghost_name }
{
    let alloc = check_run.alloc;
    let messages = read_messages(alloc, case)?;
    let keys = read_unlike_keys(alloc, case, &messages.key_records)?;
    let mut seconds = 0;
    let usable = keys_that_may_sign(case, &messages.key_records, keys, check_run, &mut seconds)?;
    let proof = read_proof(&*case, &messages.answer_records, &usable, check_run)?;
    *validity = Some(shortened(proof.validity, seconds));
    judge_proof(alloc, case, proof, check_run.checks, hashes)
}

/// How long something lasts that lasts for no more than some seconds.
fn shortened(validity: Validity, seconds: u32) -> Validity
    ensures { let is : Validity =
        record { ttl = validity.ttl; seconds = min seconds validity.seconds } in
        result ≡ is }
{
    Validity {
        ttl: validity.ttl,
        seconds: seconds.min(validity.seconds),
    }
}

/// Both messages, and the records of each.
#[derive(Drop)]
struct Messages<'a> {
    keys: MessageView<'a>,
    key_records: Vec<ViewRecord<'a>>,
    answer: MessageView<'a>,
    answer_records: Vec<ViewRecord<'a>>,
}

/// Reads both messages, which answer the keys' question and the one that is asked, or another where
/// that is wanted. Memory that was refused is told behind both, so that what a message is refused
/// for never depends on it.
fn read_messages<'a>(alloc: Global, case: &Case<'a>) -> Result<Messages<'a>, Refusal>
    ensures keys { IfOk result (λ v. message pointer_limit case.now.dnskey_bytes ≡ Ok v.keys) }
    ensures answer { IfOk result (λ v. message pointer_limit case.now.answer_bytes ≡ Ok v.answer) }
    ensures key_records { IfOk result
        (λ v. map spelled v.key_records.items ≡ v.keys.records) }
    ensures answer_records { IfOk result
        (λ v. map spelled v.answer_records.items ≡ v.answer.records) }
    ensures asks_keys { let keys : Asked = record { name = case.now.apex; rtype = 48; class = 1 } in
        IfOk result (λ v. same_question v.keys.asked keys ≡ true) }
    ensures asks_answer { IfOk result
        (λ v. may_ask case.now v.answer.asked ≡ true) }
    ensures few { IfOk result (λ v. length v.keys.records + length v.answer.records ≤ 393210) }
    ensures first { IfErr result (λ e. (e ≡ Refusal.Memory) ⊎ (is_first e ≡ true)) }
    ensures refusal { IfErr result
        (λ e. RefusesFirst e (message_refusal pointer_limit case.now)) }
{
    let (mut key_records, mut answer_records) = (Vec::new(alloc), Vec::new(alloc));
    let (keys, keys_in_memory) = read_counted(case.dnskey, &mut key_records).map_err(
        |_| Refusal::BadDnskeyMessage,
    )?;
    let (answer, answer_in_memory) = read_counted(case.answer, &mut answer_records).map_err(
        |_| Refusal::BadAnswerMessage,
    )?;
    if !asks(&keys, case.apex, Rtype::DNSKEY, Class::IN) || !may_answer(case, &answer) {
        return Err(Refusal::QuestionMismatch);
    }
    keys_in_memory?;
    answer_in_memory?;
    Ok(Messages {
        keys,
        key_records,
        answer,
        answer_records,
    })
}

/// Reads a message, which has no more records than three counts of 16 bits, and puts them behind
/// those of a list. The second part says whether all of them could be put into memory.
fn read_counted<'a>(
    bytes: &'a [u8],
    records: &mut Vec<ViewRecord<'a>>,
) -> Result<(MessageView<'a>, Result<(), AllocError>), MessageError>
    ensures exact { Gives (λ r. r.0) result (message pointer_limit bytes.now) }
    ensures in_memory { IfOk result (λ r. OnOk r.1
        (map spelled records.new.items ≡ map spelled records.old.items ++ r.0.records)) }
    ensures few { IfOk result (λ r. length r.0.records ≤ 196605) }
{
    read_message_into(bytes, records)
}

/// Whether a message may answer the question: it asks that, or another where this is wanted.
///
/// The answer to another question, replayed, would pass for one that the zone gave to this.
fn may_answer(case: &Case, view: &MessageView) -> bool
    ensures { result ≡ may_ask case.now view.now.asked }
{
    let question = case.question;
    case.other_question || asks(view, &question.name, question.rtype, question.class)
}

/// Whether a message asks for a name, up to case, a type and a class.
fn asks(view: &MessageView, name: &Name<Vec<u8>>, rtype: Rtype, class: Class) -> bool
    ensures { let asked : Asked = record { name = name.now; rtype = rtype; class = class } in
        result ≡ same_question view.now.asked asked }
{
    let asked = view.question();
    asked.name.name_eq(name) && asked.rtype == rtype && asked.class == class
}
