//! Questions for types of which no accepted zone holds a record, and for NSEC.
ghost use Rattle.std.specs.Prelude.{◌≡◌, IfOk, OnErr, slice_index};
ghost use Rattle.answer_publisher.specs.World.{world_of};
ghost use Rattle.answer_terms.specs.ModeView.{mode_of};
ghost use Rattle.messages.specs.Questions.{asked_of};
ghost use Rattle.server_answers.specs.MadeOf.{ReadsWhole};
ghost use Rattle.server_answers.specs.Moments.{IsOrWasNoted};
ghost use Rattle.server_answers.specs.Servers.{serving_by};
ghost use Rattle.server_answers.specs.Synthesized.{AnswersSynthesized, IsMadeSynthesized};
ghost use Rattle.server_answers.specs.Synthesized.{has_answers, is_kept_back, is_synthesized};
ghost use Rattle.server_answers.specs.Synthesized.{reserved};
ghost use Rattle.server_queries.specs.Views.{queried_of};

use crate::message::{is_for_keys, message_for};
use crate::parameters::is_for_parameters;
use crate::requests::{REFUSED, Response, response_with};
use crate::server::Server;
use answer_publisher::fault::AnswerFault;
use answer_publisher::publishing::Publisher;
use answer_scheme::Scheme;
use answer_terms::mode::Mode;
use denial_nsec3_hash::hasher::Nsec3Hasher;
use messages::names::Name;
use messages::question::Question;
use numbers::rtype::Rtype;
use server_queries::Query;
use server_responses::{error_response, is_dnssec_ok, is_link_hidden};
use server_signatures::Signed;
use std::alloc::{AllocError, Global};

/// A type that is reserved, so that no zone should hold a record of it (RFC 6895, 3.1).
pub(crate) const RESERVED: u16 = 65535;

/// Whether a question is for a type of which an accepted zone holds no record at its name: CNAME,
/// DNAME and NSEC3, DNSKEY but at the apex, and NSEC3PARAM but at the apex of a zone with a chain
/// of hashes; or for NSEC, as what the zone says of a type that it does not hold has the NSEC
/// record of the name. NSEC3 records are answered as if they were not there (RFC 5155, 7.2.8).
pub(crate) fn is_synthesized(apex: &Name<Vec<u8>>, mode: &Mode, question: &Question) -> bool
    ensures { result ≡ is_synthesized apex.now (mode_of mode.now) (asked_of question.now) }
{
    match question.rtype.to_int() {
        5 | 39 | 47 | 50 => true,
        48 => !is_for_keys(apex, question),
        51 => !is_for_parameters(apex, mode, question),
        _ => false,
    }
}

/// The answer to such a question at a moment: what the zone says of the reserved type at the name,
/// which proves as much of any type that it holds nowhere. A question for NSEC is answered with the
/// NSEC record that this has of the name. It is REFUSED where the zone has records of the reserved
/// type itself, and where the NSEC record is that of a wildcard.
pub(crate) fn answer_synthesized<S: Scheme, H: Nsec3Hasher>(
    alloc: Global,
    publisher: &mut Publisher<'_, S, H>,
    server: &Server<'_>,
    query: &Query<'_>,
    question: Question,
) -> Result<Response, AllocError>
    requires { asked_of question ≡ (queried_of query.now).asked }
    ensures response { let p = publisher.old in
        let w = world_of S.signature_of S.verifies S.digest_of H.hash_of p in
        let s = serving_by w p.keys server.now in let q = queried_of query.now in
        IfOk result (AnswersSynthesized s q p.latest publisher.new.latest) }
    ensures rest { publisher.new ≡ record publisher.old { latest = publisher.new.latest } }
    ensures memory { OnErr result
        (IsOrWasNoted server.now.at publisher.old.latest publisher.new.latest) }
{
    let reserved = reserved_question(question);
    let made = message_for(publisher, server, &reserved, is_dnssec_ok(query));
    synthesized_response(alloc, server, query, made)
}

/// The question for the reserved type at a name.
fn reserved_question(question: Question) -> Question
    ensures { asked_of result ≡ reserved (asked_of question) }
{
    Question {
        name: question.name,
        rtype: Rtype::from_int(RESERVED),
        class: question.class,
    }
}

/// The response that is made of a message for the reserved type, or what is said where there is
/// none, or where the zone has records of that type or the message is kept back.
fn synthesized_response(
    alloc: Global,
    server: &Server<'_>,
    query: &Query<'_>,
    made: Result<Signed, AnswerFault>,
) -> Result<Response, AllocError>
    requires { IfOk made ReadsWhole }
    ensures { let q = queried_of query.now in let sizes = server.now.sizes in
        let addresses = server.now.addresses.now in
        IfOk result (IsMadeSynthesized sizes.limit sizes.udp_size q addresses made) }
{
    let kept_back = is_kept_back(alloc, query, &made)?;
    if kept_back {
        let octets = error_response(alloc, query, REFUSED, server.sizes.udp_size)?;
        return Ok(Response::Reply(octets));
    }
    response_with(alloc, server, query, made)
}

/// Whether a message was made that is not the answer: it has records in its answer section, or
/// denies a type where the NSEC record that is asked for is that of a wildcard.
fn is_kept_back(
    alloc: Global,
    query: &Query<'_>,
    made: &Result<Signed, AnswerFault>,
) -> Result<bool, AllocError>
    ensures { let q = queried_of query.now in
        IfOk result (λ b. b ≡ is_kept_back q made.now) }
{
    match made {
        Ok(Signed::Message(message)) => {
            let is_hidden = is_link_hidden(alloc, query, message)?;
            Ok(has_answers(message) || is_hidden)
        }
        _ => Ok(false),
    }
}

/// Whether a message counts records in its answer section (RFC 1035, 4.1.1).
pub(crate) fn has_answers(message: &[u8]) -> bool
    ensures { result ≡ has_answers message.now }
{
    octet_at(message, 6) > 0 || octet_at(message, 7) > 0
}

/// The octet at a place, 0 where it is not there.
pub(crate) fn octet_at(octets: &[u8], at: usize) -> u8
    ensures { result ≡ slice_index octets.now at }
{
    if at < octets.len() { octets[at] } else { 0 }
}
