//! A message of a zone's publisher as a client is to have it.
ghost use Rattle.std.specs.Prelude.{◌≡◌, ◌++◌, ◌<◌, ◌≤◌, length, map, nat_le, if◌then◌else◌};
ghost use Rattle.std.specs.Prelude.{IfErr, IfOk, None, OnOk, Some};
ghost use Rattle.std.specs.List.{flat_map};
ghost use Rattle.std.specs.Option.{option_map};
ghost use Rattle.messages.specs.HandedRr.{handed_of};
ghost use Rattle.messages.specs.Record.{spelled};
ghost use Rattle.messages.specs.Written.{record_octets};
ghost use Rattle.server_queries.specs.Views.{queried_of};
ghost use Rattle.server_responses.specs.Responses.{AnswersQuery, IsUnreadable, answers_shown};
ghost use Rattle.server_responses.specs.Responses.{authority_shown, error_response, is_dnssec_ok};
ghost use Rattle.server_responses.specs.Responses.{response_flags, truncated_response};
ghost use Rattle.server_responses.specs.Responses.{whole_response};
ghost use Rattle.server_responses.specs.Sections.{written_as_handed};

use crate::links::{push_links, shows_link};
use crate::records::{
    Section, answer_section, authority_section, negative_ttl, pair_at, push_section,
};
use crate::transport::ResponseSizes;
use crate::write::{Counts, push_zone_record, reply_octets};
use messages::listed::read_message_into;
use messages::record::ZoneRecord;
use messages::view::ViewRecord;
use server_queries::{Query, RequestHeader};
use std::alloc::{AllocError, Global};
use thiserror::Error;

/// The most records of 11 octets, the fewest that a record has (RFC 1035, 4.1.3), that a message of
/// 65,535 octets has room for.
const MOST_RECORDS: usize = 5957;

/// Why there is no response.
#[derive(Clone, Copy, Debug, PartialEq, Eq, Drop, Error)]
pub enum ResponseError {
    /// The message does not read.
    #[error("message does not read")]
    Unreadable,
    #[error("out of memory")]
    Memory,
}

impl From<AllocError> for ResponseError {
    ghost use Rattle.std.specs.Prelude.{◌≡◌};
    ghost use Rattle.server_responses.specs.declared.composing.ResponseError.TheVariants.{Memory};

    ghost from_gives = { λ _ e. e ≡ Memory };

    fn from(_error: AllocError) -> ResponseError {
        ResponseError::Memory
    }
}

/// The response to a query of which the zone's publisher made a message.
///
/// It has the id and RD of the query, the query's question, and AA and the RCODE of the message; an
/// OPT record of version 0 where the query has one, with its DO bit. Without DO, records of DNSSEC
/// are left out (RFC 3225, 3; RFC 4035, 3.1). The SOA record of a denial, and its signatures, have
/// no greater TTL than the SOA record's minimum (RFC 2308, 3). A question for NSEC is answered from
/// the message in which the zone denies another type: where it has the NSEC record of the name,
/// that and its signatures are all that the response shows. In the additional section stand the
/// records that are handed in, as they are, and the OPT record behind them. A response of more
/// octets than the limit has TC and no record but OPT (RFC 2181, 9; RFC 9471, 2).
pub fn response(
    alloc: Global,
    query: &Query<'_>,
    message: &[u8],
    additional: &[&ZoneRecord],
    sizes: ResponseSizes,
) -> Result<Vec<u8>, ResponseError>
    ensures octets { let q = queried_of query.now in
        let more = map (λ r. handed_of r.now) additional.now in
        IfOk result (λ v. AnswersQuery sizes.limit sizes.udp_size q message.now more v.items) }
    ensures error { IfErr result
        (λ e. e ≡ ResponseError.Unreadable → IsUnreadable message.now) }
{
    let mut records = Vec::new(alloc);
    let Ok((_view, listed)) = read_message_into(message, &mut records) else {
        return Err(ResponseError::Unreadable);
    };
    listed?;
    let found = limited_response(alloc, query, message, &records, additional, sizes)?;
    if let Some(whole) = found {
        return Ok(whole);
    }
    Ok(truncated_response(alloc, query, message, sizes.udp_size)?)
}

/// The response that has TC and no record but OPT (RFC 2181, 9).
pub(crate) fn truncated_response(
    alloc: Global,
    query: &Query<'_>,
    message: &[u8],
    udp_size: u16,
) -> Result<Vec<u8>, AllocError>
    ensures { let q = queried_of query.now in
        IfOk result (λ v. v.items ≡ truncated_response udp_size q message.now) }
{
    let flags = response_flags(query.header, pair_at(message, 2), true);
    reply_octets(alloc, query, flags, Counts::NONE, &[], udp_size)
}

/// The response with all of its records, where it has no more octets than the limit.
fn limited_response(
    alloc: Global,
    query: &Query<'_>,
    message: &[u8],
    records: &[ViewRecord<'_>],
    additional: &[&ZoneRecord],
    sizes: ResponseSizes,
) -> Result<Option<Vec<u8>>, AllocError>
    ensures { let q = queried_of query.now in let rs = map spelled records.now in
        let more = map written_as_handed (map (λ r. handed_of r.now) additional.now) in
        let whole = whole_response sizes.udp_size q message.now rs more in
        IfOk result (λ o. option_map (λ v. v.items) o
        ≡ (if nat_le (length whole) sizes.limit then Some whole else None)) }
{
    if additional.len() > MOST_RECORDS {
        return Ok(None);
    }
    let whole = whole_response(alloc, query, message, records, additional, sizes.udp_size)?;
    if whole.len() <= usize::from(sizes.limit) {
        Ok(Some(whole))
    } else {
        Ok(None)
    }
}

/// The response with all of its records.
fn whole_response(
    alloc: Global,
    query: &Query<'_>,
    message: &[u8],
    records: &[ViewRecord<'_>],
    additional: &[&ZoneRecord],
    udp_size: u16,
) -> Result<Vec<u8>, AllocError>
    requires { length additional.now ≤ 5957 }
    ensures { let q = queried_of query.now in let rs = map spelled records.now in
        let more = map written_as_handed (map (λ r. handed_of r.now) additional.now) in
        IfOk result (λ v. v.items ≡ whole_response udp_size q message.now rs more) }
{
    let mut octets = Vec::new(alloc);
    let answers = push_answers(&mut octets, query, message, records)?;
    let authority = push_authority(&mut octets, query, message, records)?;
    push_additional(&mut octets, additional)?;
    let counts = Counts {
        answers,
        authority,
        additional: additional.len() as u16,
    };
    let flags = response_flags(query.header, pair_at(message, 2), false);
    reply_octets(alloc, query, flags, counts, &octets, udp_size)
}

/// Appends the records of a zone that the additional section has.
fn push_additional(out: &mut Vec<u8>, records: &[&ZoneRecord]) -> Result<(), AllocError>
    ensures { let more = map written_as_handed (map (λ r. handed_of r.now) records.now) in
        OnOk result (out.new.items ≡ out.old.items ++ flat_map record_octets more) }
{
    for record in records {
        push_zone_record(out, record)?;
    }
    Ok(())
}

/// Appends what the response has of the answer section, and says how many records these are.
pub(crate) fn push_answers(
    out: &mut Vec<u8>,
    query: &Query<'_>,
    message: &[u8],
    records: &[ViewRecord<'_>],
) -> Result<u16, AllocError>
    ensures octets { let q = queried_of query.now in
        let shown = answers_shown q message.now (map spelled records.now) in
        OnOk result (out.new.items ≡ out.old.items ++ flat_map record_octets shown) }
    ensures count { let q = queried_of query.now in
        let shown = answers_shown q message.now (map spelled records.now) in
        IfOk result (λ n. n ≡ length shown) }
{
    let section = Section {
        is_authority: false,
        dnssec_ok: is_dnssec_ok(query),
        asked: query.question.rtype,
        negative_ttl: None,
    };
    if shows_link(query, message, records) {
        let name = &query.question.name;
        return push_links(
            out,
            message,
            authority_section(message, records),
            &section,
            name,
        );
    }
    push_section(out, message, answer_section(message, records), &section)
}

/// Appends what the response has of the authority section, and says how many records these are.
pub(crate) fn push_authority(
    out: &mut Vec<u8>,
    query: &Query<'_>,
    message: &[u8],
    records: &[ViewRecord<'_>],
) -> Result<u16, AllocError>
    ensures octets { let q = queried_of query.now in
        let shown = authority_shown q message.now (map spelled records.now) in
        OnOk result (out.new.items ≡ out.old.items ++ flat_map record_octets shown) }
    ensures count { let q = queried_of query.now in
        let shown = authority_shown q message.now (map spelled records.now) in
        IfOk result (λ n. n ≡ length shown) }
{
    if shows_link(query, message, records) {
        return Ok(0);
    }
    let authority = authority_section(message, records);
    let section = Section {
        is_authority: true,
        dnssec_ok: is_dnssec_ok(query),
        asked: query.question.rtype,
        negative_ttl: negative_ttl(message, authority),
    };
    push_section(out, message, authority, &section)
}

/// Whether a query has an OPT record with DO (RFC 3225, 3).
pub fn is_dnssec_ok(query: &Query<'_>) -> bool
    ensures { result ≡ is_dnssec_ok (queried_of query.now) }
{
    match query.edns {
        Some(edns) => edns.dnssec_ok,
        None => false,
    }
}

/// A reply without records to a query, of a response code below 16.
pub fn error_response(
    alloc: Global,
    query: &Query<'_>,
    rcode: u16,
    udp_size: u16,
) -> Result<Vec<u8>, AllocError>
    requires { rcode < 16 }
    ensures { let q = queried_of query.now in
        IfOk result (λ v. v.items ≡ error_response udp_size q rcode) }
{
    let flags = 0x8000 + u16::from(query.header.is_recursion_desired()) * 0x0100 + rcode;
    reply_octets(alloc, query, flags, Counts::NONE, &[], udp_size)
}

/// The flags of a response: QR, RD of the query, AA and the RCODE of the message, and TC.
pub(crate) fn response_flags(header: RequestHeader, message_flags: u16, is_truncated: bool) -> u16
    ensures { result ≡ response_flags header message_flags is_truncated }
{
    let desired = u16::from(header.is_recursion_desired());
    let authoritative = message_flags / 0x0400 % 2;
    let truncated = u16::from(is_truncated);
    0x8000 + authoritative * 0x0400 + truncated * 0x0200 + desired * 0x0100 + message_flags % 16
}
