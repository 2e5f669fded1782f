//! What a judge is handed.
use denial_data::Ds;
use denial_fields::unix_time::UnixTime;
use messages::names::Name;
use messages::question::Question;
use std::marker::Model;

/// What a judge is handed: a zone's name, its DS set at the parent, two messages of the zone, and
/// what they are judged for.
///
/// Whole seconds of the moment, modulo 2^32, are compared with the times of signatures (RFC 4034,
/// 3.1.5).
#[derive(Drop)]
pub struct Case<'a> {
    /// The name of the zone.
    pub apex: &'a Name<Vec<u8>>,
    /// The DS set of the parent.
    pub ds: &'a [Ds<Vec<u8>>],
    /// The answer for the DNSKEY RRset, as octets of a message.
    pub dnskey: &'a [u8],
    /// The answer to the question, as octets of a message.
    pub answer: &'a [u8],
    /// What the zone was asked.
    pub question: &'a Question,
    /// The moment at which signatures are to hold.
    pub moment: UnixTime,
    /// How many iterations of a name's hash are allowed (RFC 5155, 10.3).
    pub limit: u16,
    /// Whether the signatures by which the answer is verified must all be of one inception and one
    /// expiration.
    ///
    /// Where a zone changes, records of two versions together may prove what neither says; with
    /// this they are refused, if each answer is signed anew. Signers that sign as records change
    /// give unlike times at any moment: who judges these leaves this out, and has the promise for a
    /// zone that does not change, or for an answer in which signatures pass for one RRset alone.
    pub one_moment: bool,
    /// Whether the answer may be one to another question of the zone, and the question one for
    /// CNAME or DNAME records.
    ///
    /// What a zone has signed is true whatever was asked: a cached denial answers the next question
    /// (RFC 8198), and a CNAME or DNAME record in an answer for another type is proved by a
    /// question for its own. Without this such an answer is refused, so that one which was replayed
    /// or mixed up with another is named as that.
    pub other_question: bool,
}

impl<'a> Model for Case<'a> {
    ghost use Rattle.messages.specs.Questions.{asked_of};
    ghost use Rattle.answer_judge.specs.Judging.{JudgeInput, handed_for};

    ghost Value = { JudgeInput };

    ghost view = { λ c. handed_for c.apex.now c.ds.now c.dnskey.now c.answer.now
        (asked_of c.question.now) c.moment c.limit c.one_moment c.other_question };
}
