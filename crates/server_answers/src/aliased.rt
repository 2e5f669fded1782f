//! Questions that an RRset of an alias answers.
ghost use Rattle.std.specs.Prelude.{◌≡◌, IfOk, OnErr};
ghost use Rattle.answer_publisher.specs.World.{world_of};
ghost use Rattle.messages.specs.Questions.{asked_of};
ghost use Rattle.server_answers.specs.Aliased.{AnswersAlias, IsMadeAlias, IsMadeRedirect};
ghost use Rattle.server_answers.specs.MadeOf.{ReadsWhole};
ghost use Rattle.server_answers.specs.Moments.{IsOrWasNoted};
ghost use Rattle.server_answers.specs.Servers.{serving_by};
ghost use Rattle.server_queries.specs.Views.{queried_of};

use crate::message::zone_message;
use crate::requests::{Response, SERVFAIL, response_with};
use crate::server::Server;
use crate::subset::wants_signatures;
use answer_publisher::fault::AnswerFault;
use answer_publisher::publishing::Publisher;
use answer_scheme::Scheme;
use denial_nsec3_hash::hasher::Nsec3Hasher;
use messages::names::is_above;
use messages::question::Question;
use server_queries::Query;
use server_responses::{error_response, redirect_response};
use server_signatures::Signed;
use std::alloc::{AllocError, Global};

/// The answer to a query by the RRset of an alias at a moment: the CNAME or DNAME RRset that is
/// asked for, or that answers in the place of another (RFC 1034, 4.3.2). The name that it leads to
/// is not sought: the client asks for it. With a DNAME above the name comes the CNAME that is made
/// from it (RFC 6672, 3.1).
pub(crate) fn answer_alias<S: Scheme, H: Nsec3Hasher>(
    alloc: Global,
    publisher: &mut Publisher<'_, S, H>,
    server: &Server<'_>,
    query: &Query<'_>,
    alias: &Question,
) -> Result<Response, AllocError>
    ensures response { let p = publisher.old in
        let w = world_of S.signature_of S.verifies S.digest_of H.hash_of p in
        let s = serving_by w p.keys server.now in let q = queried_of query.now in
        let a = asked_of alias.now in
        IfOk result (AnswersAlias s q a p.latest publisher.new.latest) }
    ensures rest { publisher.new ≡ record publisher.old { latest = publisher.new.latest } }
    ensures memory { OnErr result
        (IsOrWasNoted server.now.at publisher.old.latest publisher.new.latest) }
{
    let made = zone_message(publisher, server, alias, wants_signatures(query));
    if is_above(&alias.name, &query.question.name) {
        return redirect_with(alloc, server, query, made);
    }
    response_with(alloc, server, query, made)
}

/// The response that is made of the message of a DNAME above the name, or what is said where there
/// is none.
fn redirect_with(
    alloc: Global,
    server: &Server<'_>,
    query: &Query<'_>,
    made: Result<Signed, AnswerFault>,
) -> Result<Response, AllocError>
    requires { IfOk made ReadsWhole }
    ensures { let q = queried_of query.now in let sizes = server.now.sizes in
        let addresses = server.now.addresses.now in
        IfOk result (IsMadeRedirect sizes.limit sizes.udp_size q addresses made) }
{
    match made {
        Ok(Signed::Message(message)) => {
            match redirect_response(alloc, query, &message, server.sizes)? {
                Some(octets) => Ok(Response::Reply(octets)),
                None => {
                    let octets = error_response(alloc, query, SERVFAIL, server.sizes.udp_size)?;
                    Ok(Response::Reply(octets))
                }
            }
        }
        Ok(Signed::Missing(inputs)) => Ok(Response::Sign(inputs)),
        Err(fault) => response_with(alloc, server, query, Err(fault)),
    }
}
