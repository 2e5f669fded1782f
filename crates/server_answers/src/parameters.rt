//! Questions for the NSEC3PARAM RRset of a zone.
ghost use Rattle.std.specs.Prelude.{◌≡◌, false, not, true, IfOk};
ghost use Rattle.answer_publisher.specs.World.{world_of};
ghost use Rattle.answer_terms.specs.ModeView.{mode_of};
ghost use Rattle.answer_zone.specs.Finding.{links_names};
ghost use Rattle.messages.specs.Questions.{asked_of};
ghost use Rattle.server_answers.specs.Parameters.{RespondsWithParameters, MakesParameters};
ghost use Rattle.server_answers.specs.Parameters.{is_for_parameters};
ghost use Rattle.server_answers.specs.Servers.{serving_by};
ghost use Rattle.server_queries.specs.Views.{queried_of};

use crate::blank::BlankScheme;
use crate::requests::{Response, response_with};
use crate::server::Server;
use answer_publisher::fault::AnswerFault;
use answer_publisher::publishing::Publisher;
use answer_scheme::Scheme;
use answer_terms::mode::Mode;
use denial_nsec3_hash::hasher::Nsec3Hasher;
use messages::names::{Name, ToName};
use messages::question::Question;
use numbers::class::Class;
use numbers::rtype::Rtype;
use server_queries::Query;
use server_responses::is_dnssec_ok;
use server_signatures::{Signed, nsec3param_answer_by_table};
use std::alloc::{AllocError, Global};

/// Whether a question is for the NSEC3PARAM RRset of the apex, which a zone with a chain of hashes
/// has (RFC 5155, 4).
pub(crate) fn is_for_parameters(apex: &Name<Vec<u8>>, mode: &Mode, question: &Question) -> bool
    ensures { result ≡ is_for_parameters apex.now (mode_of mode.now) (asked_of question.now) }
{
    question.rtype == Rtype::NSEC3PARAM
        && question.class == Class::IN
        && question.name.name_eq(apex)
        && is_hashed(mode)
}

/// Whether a chain is one of hashes.
fn is_hashed(mode: &Mode) -> bool
    ensures { result ≡ not (links_names (mode_of mode.now)) }
{
    match mode {
        Mode::Nsec => false,
        Mode::Nsec3 { .. } => true,
    }
}

/// The answer to a question for the NSEC3PARAM RRset at a moment: no moment is noted.
pub(crate) fn answer_parameters<S: Scheme, H: Nsec3Hasher>(
    alloc: Global,
    publisher: &Publisher<'_, S, H>,
    server: &Server<'_>,
    query: &Query<'_>,
) -> Result<Response, AllocError>
    requires { links_names publisher.now.zone.mode ≡ false }
    ensures { let p = publisher.now in
        let w = world_of S.signature_of S.verifies S.digest_of H.hash_of p in
        let s = serving_by w p.keys server.now in let q = queried_of query.now in
        IfOk result (RespondsWithParameters s q p.latest p.latest) }
{
    let made = parameters_message(publisher, server, is_dnssec_ok(query));
    response_with(alloc, server, query, made)
}

/// The message for the NSEC3PARAM RRset: signed by a table, or, where nobody wants its signatures,
/// with such as have no octets.
fn parameters_message<S: Scheme, H: Nsec3Hasher>(
    publisher: &Publisher<'_, S, H>,
    server: &Server<'_>,
    is_signed: bool,
) -> Result<Signed, AnswerFault>
    requires { links_names publisher.now.zone.mode ≡ false }
    ensures { let p = publisher.now in
        let w = world_of S.signature_of S.verifies S.digest_of H.hash_of p in
        let s = serving_by w p.keys server.now in
        MakesParameters s is_signed result }
{
    if is_signed {
        return signed_parameters(publisher, server);
    }
    match publisher.nsec3param_answer_with(&BlankScheme, &server.at) {
        Ok(Some(message)) => Ok(Signed::Message(message)),
        Ok(None) => unreachable!(),
        Err(fault) => Err(fault),
    }
}

/// The message for the NSEC3PARAM RRset, signed by a table.
fn signed_parameters<S: Scheme, H: Nsec3Hasher>(
    publisher: &Publisher<'_, S, H>,
    server: &Server<'_>,
) -> Result<Signed, AnswerFault>
    requires { links_names publisher.now.zone.mode ≡ false }
    ensures { let p = publisher.now in
        let w = world_of S.signature_of S.verifies S.digest_of H.hash_of p in
        let s = serving_by w p.keys server.now in
        MakesParameters s true result }
{
    match nsec3param_answer_by_table(publisher, server.table, &server.at) {
        Ok(Some(signed)) => Ok(signed),
        Ok(None) => unreachable!(),
        Err(fault) => Err(fault),
    }
}
