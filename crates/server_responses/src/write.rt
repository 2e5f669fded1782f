//! Parts of a response as they are written (RFC 1035, 4.1; RFC 6891, 6.1).
//!
//! Where memory runs out, a part may have been written in part: callers then drop the response.
ghost use Rattle.std.specs.Prelude.{◌≡◌, ◌++◌, ◌+◌, ◌<◌, ◌≤◌, OnOk, IfOk};
ghost use Rattle.messages.specs.HandedRr.{handed_of};
ghost use Rattle.messages.specs.Record.{spelled};
ghost use Rattle.messages.specs.Written.{question_octets, record_octets};
ghost use Rattle.names_parsed.specs.Parsed.{parsed_name};
ghost use Rattle.server_queries.specs.Replies.{opt_bits, opt_octets};
ghost use Rattle.server_queries.specs.Views.{queried_of};
ghost use Rattle.server_responses.specs.Responses.{count_octets, head_octets, reply_octets};
ghost use Rattle.server_responses.specs.Sections.{written_as_handed, written_at};

use messages::names::{ParsedName, ZoneName};
use messages::question::Question;
use messages::record::ZoneRecord;
use messages::view::ViewRecord;
use messages::write::{push_u16, push_u32};
use names_rdata::composer::compose_name;
use names_rdata::data::ComposeRecordData;
use numbers::rtype::Rtype;
use numbers::ttl::Ttl;
use server_queries::Query;
use std::alloc::{AllocError, Global};

/// How many records the sections of a reply have, OPT aside.
#[derive(Clone, Copy, Debug)]
pub(crate) struct Counts {
    pub answers: u16,
    pub authority: u16,
    pub additional: u16,
}

impl Counts {
    /// No records.
    pub(crate) const NONE: Counts = Counts {
        answers: 0,
        authority: 0,
        additional: 0,
    };
}

/// A reply to a query: these flags, its question as it was spelled (RFC 5452, 9.1), so many records
/// in these octets, and an OPT record behind them where the query has one.
pub(crate) fn reply_octets(
    alloc: Global,
    query: &Query<'_>,
    flags: u16,
    counts: Counts,
    records: &[u8],
    udp_size: u16,
) -> Result<Vec<u8>, AllocError>
    requires { counts.additional < 65535 }
    ensures { let q = queried_of query.now in
        let is = reply_octets udp_size q flags counts records.now in
        IfOk result (λ v. v.items ≡ is) }
{
    let mut out = Vec::new(alloc);
    let additional = counts.additional + u16::from(query.edns.is_some());
    push_head(
        &mut out,
        query.header.id,
        flags,
        counts.answers,
        counts.authority,
        additional,
    )?;
    push_question(&mut out, &query.question)?;
    out.extend_from_slice(records)?;
    if let Some(edns) = query.edns {
        push_opt(&mut out, udp_size, edns.dnssec_ok)?;
    }
    Ok(out)
}

/// Appends a header: id, flags, one question, and the numbers of records of the other sections.
#[tactic(auto, unfolding(crate::specs::Responses::head_octets))]
fn push_head(
    out: &mut Vec<u8>,
    id: u16,
    flags: u16,
    answers: u16,
    authority: u16,
    additional: u16,
) -> Result<(), AllocError>
    ensures { let more = head_octets id flags answers authority additional in
        OnOk result (out.new.items ≡ out.old.items ++ more) }
{
    push_u16(out, id)?;
    push_u16(out, flags)?;
    push_u16(out, 1)?;
    push_counts(out, answers, authority, additional)
}

/// Appends the numbers of records of the sections behind the question.
fn push_counts(
    out: &mut Vec<u8>,
    answers: u16,
    authority: u16,
    additional: u16,
) -> Result<(), AllocError>
    ensures { let more = count_octets answers authority additional in
        OnOk result (out.new.items ≡ out.old.items ++ more) }
{
    push_u16(out, answers)?;
    push_u16(out, authority)?;
    push_u16(out, additional)
}

/// Appends a question in the client's spelling.
#[tactic(auto, unfolding(messages::specs::Written::question_octets))]
fn push_question(out: &mut Vec<u8>, question: &Question<ParsedName<'_>>) -> Result<(), AllocError>
    ensures { let name = parsed_name question.now.name in
        let more = question_octets name question.now.rtype question.now.class in
        OnOk result (out.new.items ≡ out.old.items ++ more) }
{
    if compose_name(&question.name, out).is_err() {
        return Err(AllocError);
    }
    push_u16(out, question.rtype.to_int())?;
    push_u16(out, question.class.to_int())
}

/// Appends an OPT record of version 0 without options, of a response code below 16.
#[tactic(auto, unfolding(server_queries::specs::Replies::opt_octets))]
fn push_opt(out: &mut Vec<u8>, udp_size: u16, dnssec_ok: bool) -> Result<(), AllocError>
    ensures { let more = opt_octets udp_size 0 dnssec_ok in
        OnOk result (out.new.items ≡ out.old.items ++ more) }
{
    out.extend_from_slice(&[0])?;
    push_u16(out, Rtype::OPT.to_int())?;
    push_u16(out, udp_size)?;
    push_u32(out, opt_bits(dnssec_ok))?;
    push_u16(out, 0)
}

/// The TTL of an OPT record of version 0 and of a response code below 16: DO.
fn opt_bits(dnssec_ok: bool) -> u32
    ensures { result ≡ opt_bits 0 dnssec_ok }
{
    if dnssec_ok { 0x8000 } else { 0 }
}

/// Appends a record of a message, with a TTL.
#[tactic(auto, unfolding(messages::specs::Written::record_octets))]
pub(crate) fn push_view_record(
    out: &mut Vec<u8>,
    message: &[u8],
    record: &ViewRecord<'_>,
    ttl: Ttl,
) -> Result<(), AllocError>
    ensures { let more = record_octets (written_at message.now ttl (spelled record.now)) in
        OnOk result (out.new.items ≡ out.old.items ++ more) }
{
    if compose_name(record.owner.name(), out).is_err() {
        return Err(AllocError);
    }
    push_u16(out, record.rtype.to_int())?;
    push_u16(out, record.class.to_int())?;
    push_u32(out, ttl.as_secs())?;
    let octets = record.octets(message);
    push_u16(out, octets.len() as u16)?;
    out.extend_from_slice(octets)
}

/// Appends a record of a zone as it was handed in: owner and data as spelled, its own TTL.
#[tactic(auto, unfolding(messages::specs::Written::record_octets))]
pub(crate) fn push_zone_record(out: &mut Vec<u8>, record: &ZoneRecord) -> Result<(), AllocError>
    ensures { let more = record_octets (written_as_handed (handed_of record.now)) in
        OnOk result (out.new.items ≡ out.old.items ++ more) }
{
    record.owner().compose(out)?;
    push_u16(out, record.rtype().to_int())?;
    push_u16(out, record.class().to_int())?;
    push_u32(out, record.ttl().as_secs())?;
    match record.data().compose_len_rdata(out) {
        Ok(()) => Ok(()),
        Err(_) => Err(AllocError),
    }
}
