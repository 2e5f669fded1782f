//! The message of which a response is made.
ghost use Rattle.std.specs.Prelude.{◌≡◌, ◌↔◌, false, true, IfErr, IfOk, IsErrOf, OnErr, OnOk};
ghost use Rattle.answer_publisher.specs.Replacing.{noted};
ghost use Rattle.answer_publisher.specs.World.{RefusesQuestion, world_of};
ghost use Rattle.answer_terms.specs.Asking.{is_allowed};
ghost use Rattle.messages.specs.Message.{Asked};
ghost use Rattle.messages.specs.Questions.{asked_of};
ghost use Rattle.server_answers.specs.Messages.{Makes};
ghost use Rattle.server_answers.specs.Responding.{is_for_keys, unsigned};
ghost use Rattle.server_answers.specs.Servers.{serving_by};
ghost use Rattle.server_answers.specs.Subset.{IsBare};

use crate::blank::BlankScheme;
use crate::server::Server;
use answer_publisher::fault::AnswerFault;
use answer_publisher::publishing::Publisher;
use answer_scheme::Scheme;
use denial_nsec3_hash::hasher::Nsec3Hasher;
use keyset::UnixTime;
use messages::names::{Name, ToName};
use messages::question::Question;
use numbers::class::Class;
use numbers::rtype::Rtype;
use server_signatures::{Signed, answer_by_table, dnskey_answer_by_table};

/// The message that answers a question at a moment: signed by a table, or, where nobody wants its
/// signatures, with such as have no octets.
pub(crate) fn message_for<S: Scheme, H: Nsec3Hasher>(
    publisher: &mut Publisher<'_, S, H>,
    server: &Server<'_>,
    question: &Question,
    is_signed: bool,
) -> Result<Signed, AnswerFault>
    ensures made { let p = publisher.old in
        let w = world_of S.signature_of S.verifies S.digest_of H.hash_of p in
        let s = serving_by w p.keys server.now in let asked = asked_of question.now in
        let keys = is_for_keys p.zone.apex asked in
        Makes s asked keys is_signed p.latest publisher.new.latest result }
    ensures rest { publisher.new ≡ record publisher.old { latest = publisher.new.latest } }
{
    if is_for_keys(publisher.apex(), question) {
        return keys_message(publisher, server, is_signed);
    }
    zone_message(publisher, server, question, is_signed)
}

/// The answer to a question for the zone's records.
pub(crate) fn zone_message<S: Scheme, H: Nsec3Hasher>(
    publisher: &mut Publisher<'_, S, H>,
    server: &Server<'_>,
    question: &Question,
    is_signed: bool,
) -> Result<Signed, AnswerFault>
    ensures made { let p = publisher.old in
        let w = world_of S.signature_of S.verifies S.digest_of H.hash_of p in
        let s = serving_by w p.keys server.now in let asked = asked_of question.now in
        Makes s asked false is_signed p.latest publisher.new.latest result }
    ensures rest { publisher.new ≡ record publisher.old { latest = publisher.new.latest } }
{
    if is_signed {
        return answer_by_table(publisher, server.table, question, &server.at);
    }
    match publisher.answer_any_with(&BlankScheme, question, &server.at) {
        Ok(message) => Ok(Signed::Message(message)),
        Err(fault) => Err(fault),
    }
}

/// The answer to a question for the zone's records, with signatures that have no octets.
pub(crate) fn bare_message<S: Scheme, H: Nsec3Hasher>(
    publisher: &mut Publisher<'_, S, H>,
    question: &Question,
    at: &UnixTime,
) -> Result<Vec<u8>, AnswerFault>
    ensures allowed { let asked = asked_of question.now in
        let allowed = is_allowed publisher.old.zone.apex asked in
        IsErrOf result AnswerFault.QuestionNotAllowed ↔ (allowed ≡ false) }
    ensures bare { let p = publisher.old in
        let w = world_of S.signature_of S.verifies S.digest_of H.hash_of p in
        IfOk result (λ m. IsBare w p.keys at.now (asked_of question.now) m.items) }
    ensures fault { let p = publisher.old in
        let w = world_of S.signature_of S.verifies S.digest_of H.hash_of p in
        let asked = asked_of question.now in
        IfErr result (RefusesQuestion (unsigned w) p.keys at.now asked) }
    ensures noted { let latest = noted publisher.old.latest at.now in
        OnOk result (publisher.new.latest ≡ latest) }
    ensures refused { OnErr result (publisher.new.latest ≡ publisher.old.latest) }
    ensures rest { publisher.new ≡ record publisher.old { latest = publisher.new.latest } }
{
    publisher.answer_with(&BlankScheme, question, at)
}

/// The answer to a question for the keys.
fn keys_message<S: Scheme, H: Nsec3Hasher>(
    publisher: &Publisher<'_, S, H>,
    server: &Server<'_>,
    is_signed: bool,
) -> Result<Signed, AnswerFault>
    ensures { let p = publisher.now in
        let w = world_of S.signature_of S.verifies S.digest_of H.hash_of p in
        let s = serving_by w p.keys server.now in
        (asked : Asked) → Makes s asked true is_signed p.latest p.latest result }
{
    if is_signed {
        return dnskey_answer_by_table(publisher, server.table, &server.at);
    }
    match publisher.dnskey_answer_with(&BlankScheme, &server.at) {
        Ok(message) => Ok(Signed::Message(message)),
        Err(fault) => Err(fault),
    }
}

/// Whether a question is for the DNSKEY RRset of the apex.
pub(crate) fn is_for_keys(apex: &Name<Vec<u8>>, question: &Question) -> bool
    ensures { result ≡ is_for_keys apex.now (asked_of question.now) }
{
    question.rtype == Rtype::DNSKEY && question.class == Class::IN && question.name.name_eq(apex)
}
