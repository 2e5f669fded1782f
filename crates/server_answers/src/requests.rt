//! Requests, octets to octets.
ghost use Rattle.std.specs.Prelude.{◌≡◌, IfOk, IsOk, OnErr};
ghost use Rattle.definitions.specs.Limits.{pointer_limit};
ghost use Rattle.answer_publisher.specs.World.{world_of};
ghost use Rattle.messages.specs.Message.{message};
ghost use Rattle.messages.specs.Questions.{asked_of};
ghost use Rattle.server_answers.specs.Glued.{AnswersGlued};
ghost use Rattle.server_answers.specs.MadeOf.{IsMadeOf, ReadsWhole};
ghost use Rattle.server_answers.specs.Moments.{IsOrWasNoted, backdated};
ghost use Rattle.server_answers.specs.Requests.{Responds};
ghost use Rattle.server_answers.specs.Answering.{RespondsItself, AnswersQueried};
ghost use Rattle.server_answers.specs.Responding.{AnswersHeld, serving};
ghost use Rattle.server_answers.specs.Servers.{serving_by};
ghost use Rattle.server_queries.specs.Views.{queried_of};

use crate::aliased::answer_alias;
use crate::message::message_for;
use crate::moment::backdated;
use crate::parameters::{answer_parameters, is_for_parameters};
use crate::server::Server;
use crate::subset::answer_subset;
use crate::synthesized::{answer_synthesized, is_synthesized};
use answer_publisher::fault::AnswerFault;
use answer_publisher::publishing::Publisher;
use answer_publisher::publishing::aliases::asks_all;
use answer_scheme::Scheme;
use denial_nsec3_hash::hasher::Nsec3Hasher;
use keyset::UnixTime;
use messages::names::ToName;
use messages::question::Question;
use server_glue::Addresses;
use server_queries::{Query, Refusal, read_query, write_refusal};
use server_responses::{
    ResponseError, ResponseSizes, Transport, error_response, is_dnssec_ok, response, size_limit,
};
use server_signatures::{MadeSignature, Signed, SigningInput};
use std::alloc::{AllocError, Global};

/// What a server is sent, and the signatures that were made for its response.
#[derive(Debug, Drop)]
pub struct Request<'a> {
    /// What was received, a whole message.
    pub octets: &'a [u8],
    /// The signatures that were made, as they were asked for.
    pub table: &'a [MadeSignature<'a>],
    /// The moment of the server's clock.
    pub moment: UnixTime,
    /// What carries the response.
    pub transport: Transport,
}

/// How a server answers.
#[derive(Clone, Copy, Debug)]
pub struct ServerTerms {
    /// How many seconds before the clock everything is that an answer says, at most the life of
    /// its signatures: [`DEFAULT_BACKDATE`](crate::DEFAULT_BACKDATE), say.
    pub backdate: u32,
    /// How many octets this server takes by UDP, as its OPT records say (RFC 6891, 6.2.3).
    pub udp_size: u16,
}

/// What answers a request.
#[derive(Debug, Drop)]
pub enum Response {
    /// Nothing: the request has no header, or is a reply.
    Nothing,
    /// These octets.
    Reply(Vec<u8>),
    /// A reply, once these signatures are in the table, at the same moment of the clock.
    Sign(Vec<SigningInput>),
}

/// The response code of a server that fails (RFC 1035, 4.1.1).
pub(crate) const SERVFAIL: u16 = 2;

/// The response code of a question that a server does not answer.
pub(crate) const REFUSED: u16 = 5;

/// Answers a request by a zone's publisher, whose signatures a caller keeps in a table.
///
/// Everything that an answer says is of the moment that lies `backdate` seconds before the clock:
/// when its signatures begin, and the second that the publisher notes. A request that is no query
/// is answered as [`read_query`] says. A CNAME or DNAME RRset answers for its names (RFC 1034,
/// 4.3.2), the latter with the CNAME that it makes of a name (RFC 6672, 3.1); what these lead to is
/// not sought. Else the apex answers for its DNSKEY RRset, and where the zone has a chain of hashes
/// for its NSEC3PARAM RRset (RFC 5155, 4); elsewhere questions for these, and everywhere those for
/// CNAME, DNAME and NSEC3 records, are answered as the zone answers for a type that it does not
/// hold; questions for NSEC with the NSEC record of the name, or else in the same way; questions
/// for ANY and RRSIG with one RRset of the name. Any other question that the publisher does not
/// answer is REFUSED, and one for the NSEC record of a wildcard; SERVFAIL says that no message
/// holds the answer, or that a name has no hash. Without DO nothing is signed, but for RRSIG. A
/// referral has its glue among the addresses of the zone (RFC 9471). Where memory is refused, the
/// second may have been noted.
pub fn respond<S: Scheme, H: Nsec3Hasher>(
    alloc: Global,
    publisher: &mut Publisher<'_, S, H>,
    addresses: &Addresses,
    request: &Request<'_>,
    terms: &ServerTerms,
) -> Result<Response, AllocError>
    ensures response { let p = publisher.old in let r = request.now in
        let w = world_of S.signature_of S.verifies S.digest_of H.hash_of p in
        let at = backdated r.moment terms.now.backdate in
        let s = serving w p.keys r.table.now at 0 terms.now.udp_size addresses.now in
        IfOk result (Responds s r.transport r.octets.now p.latest publisher.new.latest) }
    ensures rest { publisher.new ≡ record publisher.old { latest = publisher.new.latest } }
    ensures memory { let at = backdated request.now.moment terms.now.backdate in
        OnErr result (IsOrWasNoted at publisher.old.latest publisher.new.latest) }
{
    match read_query(request.octets) {
        Ok(query) => {
            let server = Server {
                table: request.table,
                at: backdated(&request.moment, terms.backdate),
                sizes: ResponseSizes {
                    limit: size_limit(request.transport, query.edns),
                    udp_size: terms.udp_size,
                },
                addresses,
            };
            answer_query(alloc, publisher, &server, &query)
        }
        Err(Refusal::NoReply) => Ok(Response::Nothing),
        Err(Refusal::Reply(reply)) => {
            let mut octets = Vec::new(alloc);
            write_refusal(&mut octets, &reply, terms.udp_size)?;
            Ok(Response::Reply(octets))
        }
    }
}

/// Answers a query at a moment: by the RRset of an alias, or where none answers by what else the
/// zone says.
fn answer_query<S: Scheme, H: Nsec3Hasher>(
    alloc: Global,
    publisher: &mut Publisher<'_, S, H>,
    server: &Server<'_>,
    query: &Query<'_>,
) -> Result<Response, AllocError>
    ensures response { let p = publisher.old in
        let w = world_of S.signature_of S.verifies S.digest_of H.hash_of p in
        let s = serving_by w p.keys server.now in let q = queried_of query.now in
        IfOk result (AnswersQueried s q p.latest publisher.new.latest) }
    ensures rest { publisher.new ≡ record publisher.old { latest = publisher.new.latest } }
    ensures memory { OnErr result
        (IsOrWasNoted server.now.at publisher.old.latest publisher.new.latest) }
{
    let question = question_of(alloc, query)?;
    if let Some(alias) = publisher.alias_of(&question)? {
        return answer_alias(alloc, publisher, server, query, &alias);
    }
    answer_itself(alloc, publisher, server, query, question)
}

/// Answers a query for which no alias answers: by what the zone holds, the NSEC3PARAM RRset of its
/// apex too, by what it says of a type that it does not hold, or by one RRset where all are asked
/// for.
fn answer_itself<S: Scheme, H: Nsec3Hasher>(
    alloc: Global,
    publisher: &mut Publisher<'_, S, H>,
    server: &Server<'_>,
    query: &Query<'_>,
    question: Question,
) -> Result<Response, AllocError>
    requires { asked_of question ≡ (queried_of query.now).asked }
    ensures response { let p = publisher.old in
        let w = world_of S.signature_of S.verifies S.digest_of H.hash_of p in
        let s = serving_by w p.keys server.now in let q = queried_of query.now in
        IfOk result (RespondsItself s q p.latest publisher.new.latest) }
    ensures rest { publisher.new ≡ record publisher.old { latest = publisher.new.latest } }
    ensures memory { OnErr result
        (IsOrWasNoted server.now.at publisher.old.latest publisher.new.latest) }
{
    if is_synthesized(publisher.apex(), publisher.mode(), &question) {
        return answer_synthesized(alloc, publisher, server, query, question);
    }
    if asks_all(&question) {
        return answer_subset(alloc, publisher, server, query, question);
    }
    if is_for_parameters(publisher.apex(), publisher.mode(), &question) {
        return answer_parameters(alloc, publisher, server, query);
    }
    answer_held(alloc, publisher, server, query, &question)
}

/// Answers a query by what a zone's publisher answers to its question at a moment.
fn answer_held<S: Scheme, H: Nsec3Hasher>(
    alloc: Global,
    publisher: &mut Publisher<'_, S, H>,
    server: &Server<'_>,
    query: &Query<'_>,
    question: &Question,
) -> Result<Response, AllocError>
    requires { asked_of question.now ≡ (queried_of query.now).asked }
    ensures response { let p = publisher.old in
        let w = world_of S.signature_of S.verifies S.digest_of H.hash_of p in
        let s = serving_by w p.keys server.now in let q = queried_of query.now in
        IfOk result (AnswersHeld s q p.latest publisher.new.latest) }
    ensures rest { publisher.new ≡ record publisher.old { latest = publisher.new.latest } }
    ensures memory { OnErr result
        (IsOrWasNoted server.now.at publisher.old.latest publisher.new.latest) }
{
    let made = message_for(publisher, server, question, is_dnssec_ok(query));
    response_with(alloc, server, query, made)
}

/// The response that is made of a message, or what is said where there is none.
pub(crate) fn response_with(
    alloc: Global,
    server: &Server<'_>,
    query: &Query<'_>,
    made: Result<Signed, AnswerFault>,
) -> Result<Response, AllocError>
    requires { IfOk made ReadsWhole }
    ensures { let q = queried_of query.now in let sizes = server.now.sizes in
        let addresses = server.now.addresses.now in
        IfOk result (IsMadeOf sizes.limit sizes.udp_size q addresses made) }
{
    match made {
        Ok(Signed::Message(message)) => {
            let octets = glued_response(alloc, server, query, &message)?;
            Ok(Response::Reply(octets))
        }
        Ok(Signed::Missing(inputs)) => Ok(Response::Sign(inputs)),
        Err(AnswerFault::Memory) => Err(AllocError),
        Err(AnswerFault::QuestionNotAllowed) => {
            let octets = error_response(alloc, query, REFUSED, server.sizes.udp_size)?;
            Ok(Response::Reply(octets))
        }
        Err(_) => {
            let octets = error_response(alloc, query, SERVFAIL, server.sizes.udp_size)?;
            Ok(Response::Reply(octets))
        }
    }
}

/// The response of a message, with the glue of a referral.
fn glued_response(
    alloc: Global,
    server: &Server<'_>,
    query: &Query<'_>,
    octets: &[u8],
) -> Result<Vec<u8>, AllocError>
    requires { IsOk (message pointer_limit octets.now) }
    ensures { let q = queried_of query.now in let sizes = server.now.sizes in
        let glued = AnswersGlued sizes.limit sizes.udp_size q server.now.addresses.now in
        IfOk result (λ v. glued octets.now v.items) }
{
    let glue = server.addresses.glue(alloc, octets)?;
    match response(alloc, query, octets, &glue, server.sizes) {
        Ok(whole) => Ok(whole),
        Err(ResponseError::Memory) => Err(AllocError),
        Err(ResponseError::Unreadable) => unreachable!(),
    }
}

/// The question of a query, over octets of its own.
fn question_of(alloc: Global, query: &Query<'_>) -> Result<Question, AllocError>
    ensures { IfOk result (λ q. asked_of q ≡ (queried_of query.now).asked) }
{
    let Ok(name) = query.question.name.to_name(alloc) else {
        return Err(AllocError);
    };
    Ok(Question {
        name,
        rtype: query.question.rtype,
        class: query.question.class,
    })
}
