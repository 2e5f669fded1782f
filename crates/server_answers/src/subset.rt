//! Questions for all records of a name, or for all signatures there: one RRset answers them.
ghost use Rattle.std.specs.Prelude.{◌≡◌, ◌≢◌, IfErr, IfOk, MatchBool, OnErr, OnOk};
ghost use Rattle.answer_publisher.specs.Replacing.{noted};
ghost use Rattle.answer_publisher.specs.World.{RefusesQuestion, world_of};
ghost use Rattle.messages.specs.Questions.{asked_of};
ghost use Rattle.server_answers.specs.Listed.{listed};
ghost use Rattle.server_answers.specs.Moments.{IsOrWasNoted};
ghost use Rattle.server_answers.specs.Responding.{unsigned};
ghost use Rattle.server_answers.specs.Servers.{serving_by};
ghost use Rattle.answer_publisher.specs.Aliases.{for_type};
ghost use Rattle.server_answers.specs.Subset.{AnswersSubset, IsChosen, IsFirst, IsHeld};
ghost use Rattle.server_answers.specs.Subset.{MakesSubset, TellsInside, is_memory, is_no_data};
ghost use Rattle.server_answers.specs.Subset.{wants_signatures};
ghost use Rattle.server_queries.specs.Views.{queried_of};

use crate::listed::listed_types;
use crate::message::{bare_message, zone_message};
use crate::requests::{Response, response_with};
use crate::server::Server;
use crate::synthesized::{RESERVED, has_answers, octet_at};
use answer_publisher::fault::AnswerFault;
use answer_publisher::publishing::Publisher;
use answer_scheme::Scheme;
use denial_nsec3_hash::hasher::Nsec3Hasher;
use keyset::UnixTime;
use messages::question::Question;
use numbers::rtype::Rtype;
use server_queries::Query;
use server_responses::is_dnssec_ok;
use server_signatures::Signed;
use std::alloc::{AllocError, Global};

/// The answer to a question for all records of a name, ANY, or for all signatures there, RRSIG, at
/// a moment: what the zone answers for one type. That is the least type of which it has records at
/// the name, or at the wildcard that stands for it; where it has none, it says so of the reserved
/// type (RFC 8482, 4.1). With RRSIG come the signatures of that RRset, without DO too.
pub(crate) fn answer_subset<S: Scheme, H: Nsec3Hasher>(
    alloc: Global,
    publisher: &mut Publisher<'_, S, H>,
    server: &Server<'_>,
    query: &Query<'_>,
    question: Question,
) -> Result<Response, AllocError>
    requires { asked_of question ≡ (queried_of query.now).asked }
    ensures response { let p = publisher.old in
        let w = world_of S.signature_of S.verifies S.digest_of H.hash_of p in
        let s = serving_by w p.keys server.now in let q = queried_of query.now in
        IfOk result (AnswersSubset s q p.latest publisher.new.latest) }
    ensures rest { publisher.new ≡ record publisher.old { latest = publisher.new.latest } }
    ensures memory { OnErr result
        (IsOrWasNoted server.now.at publisher.old.latest publisher.new.latest) }
{
    let is_signed = wants_signatures(query);
    let made = subset_message(alloc, publisher, server, question, is_signed);
    response_with(alloc, server, query, made)
}

/// Whether a query wants signatures: by DO, or by its type.
pub(crate) fn wants_signatures(query: &Query<'_>) -> bool
    ensures { result ≡ wants_signatures (queried_of query.now) }
{
    is_dnssec_ok(query) || query.question.rtype == Rtype::RRSIG
}

/// The message for the type that answers a question for all.
fn subset_message<S: Scheme, H: Nsec3Hasher>(
    alloc: Global,
    publisher: &mut Publisher<'_, S, H>,
    server: &Server<'_>,
    question: Question,
    is_signed: bool,
) -> Result<Signed, AnswerFault>
    ensures made { let p = publisher.old in
        let w = world_of S.signature_of S.verifies S.digest_of H.hash_of p in
        let s = serving_by w p.keys server.now in let asked = asked_of question in
        MakesSubset s asked is_signed p.latest publisher.new.latest result }
    ensures rest { publisher.new ≡ record publisher.old { latest = publisher.new.latest } }
{
    let mut chosen = question;
    match choose_type(alloc, publisher, &mut chosen, &server.at) {
        Ok(()) => zone_message(publisher, server, &chosen, is_signed),
        Err(fault) => Err(fault),
    }
}

/// Puts the type that is answered for into the place of a question's own.
///
/// Where the name is there, the records of the chain that deny the reserved type list the types
/// that it has, or its wildcard: each is tried in turn.
fn choose_type<S: Scheme, H: Nsec3Hasher>(
    alloc: Global,
    publisher: &mut Publisher<'_, S, H>,
    question: &mut Question,
    at: &UnixTime,
) -> Result<(), AnswerFault>
    ensures chosen { let p = publisher.old in
        let w = world_of S.signature_of S.verifies S.digest_of H.hash_of p in
        let asked = asked_of question.old in
        OnOk result (IsChosen w p.keys at.now asked question.new.rtype) }
    ensures name { question.new.name ≡ question.old.name }
    ensures class { question.new.class ≡ question.old.class }
    ensures noted { let latest = noted publisher.old.latest at.now in
        OnOk result (publisher.new.latest ≡ latest) }
    ensures fault { let p = publisher.old in
        let w = world_of S.signature_of S.verifies S.digest_of H.hash_of p in
        let asked = for_type 65535 (asked_of question.old) in
        IfErr result (λ f. f ≢ AnswerFault.Memory
        → RefusesQuestion (unsigned w) p.keys at.now asked f) }
    ensures allowed { let tells = TellsInside publisher.old.zone.apex (asked_of question.old) in
        IfErr result (λ f. f ≢ AnswerFault.Memory → tells f) }
    ensures was { IsOrWasNoted at.now publisher.old.latest publisher.new.latest }
    ensures rest { publisher.new ≡ record publisher.old { latest = publisher.new.latest } }
{
    question.rtype = Rtype::from_int(RESERVED);
    match bare_message(publisher, question, at) {
        Ok(message) => choose_listed(alloc, publisher, question, &message, at),
        Err(fault) => Err(fault),
    }
}

/// Puts the first type that a message lists and that the zone has at a question's name into the
/// place of its own, where the message says that the name is there. The moment has been noted.
fn choose_listed<S: Scheme, H: Nsec3Hasher>(
    alloc: Global,
    publisher: &mut Publisher<'_, S, H>,
    question: &mut Question,
    message: &[u8],
    at: &UnixTime,
) -> Result<(), AnswerFault>
    requires { noted publisher.old.latest at.now ≡ publisher.old.latest }
    ensures listed { let p = publisher.old in let m = message.now in
        let w = world_of S.signature_of S.verifies S.digest_of H.hash_of p in
        let asked = asked_of question.old in let t = question.new.rtype in
        let first = IsFirst w p.keys at.now asked (listed m) t in
        OnOk result (MatchBool (is_no_data m) first (t ≡ question.old.rtype)) }
    ensures name { question.new.name ≡ question.old.name }
    ensures class { question.new.class ≡ question.old.class }
    ensures memory { IfErr result (λ f. f ≡ AnswerFault.Memory) }
    ensures same { publisher.new ≡ publisher.old }
{
    if is_no_data(message) {
        let types = listed_types(alloc, message)?;
        return choose_first(publisher, question, &types, at);
    }
    Ok(())
}

/// Puts the first of some types that the zone has at a question's name into the place of its own,
/// or the reserved type. The moment has been noted.
fn choose_first<S: Scheme, H: Nsec3Hasher>(
    publisher: &mut Publisher<'_, S, H>,
    question: &mut Question,
    types: &[Rtype],
    at: &UnixTime,
) -> Result<(), AnswerFault>
    requires { noted publisher.old.latest at.now ≡ publisher.old.latest }
    ensures first { let p = publisher.old in
        let w = world_of S.signature_of S.verifies S.digest_of H.hash_of p in
        let asked = asked_of question.old in
        OnOk result (IsFirst w p.keys at.now asked types.now question.new.rtype) }
    ensures name { question.new.name ≡ question.old.name }
    ensures class { question.new.class ≡ question.old.class }
    ensures memory { IfErr result (λ f. f ≡ AnswerFault.Memory) }
    ensures same { publisher.new ≡ publisher.old }
{
    for rtype in types {
        question.rtype = *rtype;
        let held = is_held(publisher, question, at)?;
        if held {
            return Ok(());
        }
    }
    question.rtype = Rtype::from_int(RESERVED);
    Ok(())
}

/// Whether the zone has records of the type of a question at its name. The moment has been noted.
fn is_held<S: Scheme, H: Nsec3Hasher>(
    publisher: &mut Publisher<'_, S, H>,
    question: &Question,
    at: &UnixTime,
) -> Result<bool, AnswerFault>
    requires { noted publisher.old.latest at.now ≡ publisher.old.latest }
    ensures held { let p = publisher.old in
        let w = world_of S.signature_of S.verifies S.digest_of H.hash_of p in
        IfOk result (IsHeld w p.keys at.now (asked_of question.now)) }
    ensures memory { IfErr result (λ f. f ≡ AnswerFault.Memory) }
    ensures same { publisher.new ≡ publisher.old }
{
    match bare_message(publisher, question, at) {
        Ok(message) => Ok(has_answers(&message)),
        Err(fault) => {
            if is_memory(fault) {
                return Err(fault);
            }
            Ok(false)
        }
    }
}

/// Whether memory ran out.
fn is_memory(fault: AnswerFault) -> bool
    ensures { result ≡ is_memory fault }
{
    matches!(fault, AnswerFault::Memory)
}

/// Whether a message says that a name is there and has no record of a type: AA alone beside QR, and
/// no record in its answer section (RFC 2308, 2.2).
fn is_no_data(message: &[u8]) -> bool
    ensures { result ≡ is_no_data message.now }
{
    octet_at(message, 2) == 0x84 && octet_at(message, 3) == 0 && !has_answers(message)
}
