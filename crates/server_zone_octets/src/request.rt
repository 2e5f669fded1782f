//! A request that is answered.
ghost use Rattle.std.specs.Prelude.{◌≡◌, ◌<◌, Some, false};
ghost use Rattle.answer_publisher.specs.Replacing.{is_too_soon};
ghost use Rattle.server_answers.specs.World.{world_of};
ghost use Rattle.server_zone_octets.specs.Requests.{AnswersRequest, IsToldResponse, TellsResponse};
ghost use Rattle.server_zone_octets.specs.Requests.{moment_of, transport_of};
ghost use Rattle.server_zone_octets.specs.Telling.{told_seen};

use crate::code::ZoneCode;
use crate::entries::{asked_entries, read_made};
use crate::report::ZoneReport;
use crate::told::{CodeAndOctets, hand_out};
use answer_scheme::Scheme;
use denial_nsec3_hash::hasher::Nsec3Hasher;
use keyset::UnixTime;
use server_answers::{Request, Response, ServerTerms, backdated, respond};
use server_responses::Transport;
use server_zone::Zone;
use std::alloc::{AllocError, Global};
use std::time::Duration;

/// What a server is sent, and how it answers.
#[repr(C)]
#[derive(Drop)]
pub struct OctetRequest<'a> {
    /// How many octets this has as its caller knows it: 64.
    pub size: usize,
    /// What was received, a whole message.
    pub request: &'a [u8],
    /// The signatures that were made, as they were asked for.
    pub made: &'a [u8],
    /// The moment of the clock, in seconds since 1970.
    pub moment: u64,
    /// How many seconds before the clock everything is that an answer says: less than the life of
    /// its signatures.
    pub backdate: u32,
    /// 1 where a stream carries the response, as TCP does; 0 where a datagram does.
    pub stream: u32,
    /// How many octets this server sends at most by a datagram.
    pub limit: u16,
    /// How many octets it takes by a datagram, as its OPT records say.
    pub udp_size: u16,
}

/// How many octets a request has in memory.
const REQUEST_SIZE: usize = 64;

const _: () = prove!(size_of::<OctetRequest>() == REQUEST_SIZE);

/// Answers a request as [`respond`] does. The response is written to the front of `out` where there
/// is room for it, or the entries of signatures that are to be made: each has room for its
/// signature, and belongs into `made` once that is there. A request is refused at a moment that is
/// closed ([`Zone::is_closed`]), and where its signatures would have expired by the clock.
pub fn respond_octets<S: Scheme, H: Nsec3Hasher>(
    alloc: Global,
    zone: &mut Zone<'_, S, H>,
    request: &OctetRequest,
    out: &mut [u8],
    report: &mut ZoneReport,
) -> ZoneCode
    ensures answered { let p = zone.old.publisher in
        let w = world_of S.signature_of S.verifies S.digest_of H.hash_of p in
        let addresses = zone.old.addresses in let latest = zone.new.publisher.latest in
        let life = zone.old.life in let closed = zone.old.closed in
        let answers = AnswersRequest w p.keys addresses life closed request.now p.latest latest in
        answers report.old report.new out.old out.new result }
    ensures rest { let p = record zone.old.publisher { latest = zone.new.publisher.latest } in
        zone.new ≡ record zone.old { publisher = p } }
{
    if !report.is_known() {
        return ZoneCode::BadCall;
    }
    let told = reply_to(alloc, zone, request);
    hand_out(&told, out, report)
}

/// The reply to a request.
fn reply_to<S: Scheme, H: Nsec3Hasher>(
    alloc: Global,
    zone: &mut Zone<'_, S, H>,
    octet_request: &OctetRequest,
) -> CodeAndOctets
    ensures told { let p = zone.old.publisher in
        let w = world_of S.signature_of S.verifies S.digest_of H.hash_of p in
        let addresses = zone.old.addresses in let latest = zone.new.publisher.latest in
        let life = zone.old.life in let closed = zone.old.closed in
        let tells = TellsResponse w p.keys addresses life closed octet_request.now in
        tells p.latest latest (told_seen result) }
    ensures rest { let p = record zone.old.publisher { latest = zone.new.publisher.latest } in
        zone.new ≡ record zone.old { publisher = p } }
{
    let transport = match transport_of(octet_request) {
        Some(transport) => transport,
        None => return CodeAndOctets::only(alloc, ZoneCode::BadCall),
    };
    if zone.life() <= octet_request.backdate {
        return CodeAndOctets::only(alloc, ZoneCode::Expired);
    }
    if zone.is_closed(&moment_of(octet_request)) {
        return CodeAndOctets::only(alloc, ZoneCode::TooSoon);
    }
    timely_reply(alloc, zone, octet_request, transport)
}

/// The reply to a request at a moment that the zone answers.
fn timely_reply<S: Scheme, H: Nsec3Hasher>(
    alloc: Global,
    zone: &mut Zone<'_, S, H>,
    octet_request: &OctetRequest,
    transport: Transport,
) -> CodeAndOctets
    requires carried { transport_of octet_request.now ≡ Some transport }
    requires lives { octet_request.now.backdate < zone.old.life }
    requires behind { is_too_soon zone.old.closed (moment_of octet_request.now) ≡ false }
    ensures told { let p = zone.old.publisher in
        let w = world_of S.signature_of S.verifies S.digest_of H.hash_of p in
        let addresses = zone.old.addresses in let latest = zone.new.publisher.latest in
        let life = zone.old.life in let closed = zone.old.closed in
        let tells = TellsResponse w p.keys addresses life closed octet_request.now in
        tells p.latest latest (told_seen result) }
    ensures rest { let p = record zone.old.publisher { latest = zone.new.publisher.latest } in
        zone.new ≡ record zone.old { publisher = p } }
{
    let table = match read_made(alloc, octet_request.made) {
        Ok(table) => table,
        Err(code) => return CodeAndOctets::only(alloc, code),
    };
    let request = Request {
        octets: octet_request.request,
        table: &table,
        moment: UnixTime::new(Duration::from_secs(octet_request.moment)),
        transport,
    };
    let terms = ServerTerms {
        backdate: octet_request.backdate,
        udp_size: octet_request.udp_size,
    };
    match respond(
        alloc,
        &mut zone.publisher,
        &zone.addresses,
        &request,
        &terms,
    ) {
        Ok(response) => told_response(alloc, response),
        Err(AllocError) => CodeAndOctets::only(alloc, ZoneCode::OutOfMemory),
    }
}

/// The moment that the answer to a request is of.
fn moment_of(octet_request: &OctetRequest) -> UnixTime
    ensures { result ≡ moment_of octet_request.now }
{
    let moment = UnixTime::new(Duration::from_secs(octet_request.moment));
    backdated(&moment, octet_request.backdate)
}

/// What is told of a response.
fn told_response(alloc: Global, response: Response) -> CodeAndOctets
    ensures { IsToldResponse response (told_seen result) }
{
    match response {
        Response::Nothing => CodeAndOctets::only(alloc, ZoneCode::NoResponse),
        Response::Reply(octets) => CodeAndOctets {
            code: ZoneCode::Response,
            octets,
        },
        Response::Sign(inputs) => match asked_entries(alloc, &inputs) {
            Ok(octets) => CodeAndOctets {
                code: ZoneCode::Sign,
                octets,
            },
            Err(_) => CodeAndOctets::only(alloc, ZoneCode::OutOfMemory),
        },
    }
}

/// What carries the response.
fn transport_of(octet_request: &OctetRequest) -> Option<Transport>
    ensures { result ≡ transport_of octet_request.now }
{
    if octet_request.size != REQUEST_SIZE {
        return None;
    }
    match octet_request.stream {
        0 => Some(Transport::Datagram {
            limit: octet_request.limit,
        }),
        1 => Some(Transport::Stream),
        _ => None,
    }
}
