//! Names below a DNAME: the response has the CNAME that is made from it (RFC 6672, 3.1 and 3.2).
ghost use Rattle.std.specs.Prelude.{◌≡◌, ◌++◌, length, map, true, IfOk, OnOk};
ghost use Rattle.std.specs.List.{find, flat_map};
ghost use Rattle.std.specs.Option.{option_map};
ghost use Rattle.definitions.specs.Name.{strictly_above, wire};
ghost use Rattle.messages.specs.Record.{spelled};
ghost use Rattle.messages.specs.Written.{record_octets, written};
ghost use Rattle.names_parsed.specs.Parsed.{parsed_name};
ghost use Rattle.server_queries.specs.Views.{queried_of};
ghost use Rattle.server_responses.specs.RedirectViews.{redirected_as};
ghost use Rattle.server_responses.specs.Redirects.{is_dname_above, made_cname, redirect_flags};
ghost use Rattle.server_responses.specs.Redirects.{redirect_of, redirect_response, redirected_by};
ghost use Rattle.server_responses.specs.Redirects.{redirected_in};
ghost use Rattle.answer_terms.specs.Redirection.{lead_seen};

use crate::composing::{push_answers, push_authority, response_flags, truncated_response};
use crate::records::{answer_section, pair_at};
use crate::transport::ResponseSizes;
use crate::write::{Counts, reply_octets};
use answer_terms::redirection::{Lead, exchanged};
use messages::listed::read_message_into;
use messages::names::{Name, ParsedName, ZoneName, copy_name, is_above, name_from_octets};
use messages::view::ViewRecord;
use messages::write::push_record;
use numbers::rtype::Rtype;
use server_queries::Query;
use std::alloc::{AllocError, Global};

/// The response code for a name that would be too long (RFC 2136, 2.2; RFC 6672, 3.2).
const YXDOMAIN: u16 = 6;

/// A DNAME record of a message, and where it leads a name below its owner.
#[derive(Drop)]
pub(crate) struct Redirect<'r, 'm> {
    pub(crate) dname: &'r ViewRecord<'m>,
    pub(crate) lead: Lead,
}

/// The response to a query for a name below a DNAME of which the zone's publisher made a message
/// for the DNAME: that of [`response`](crate::response) without additional records, but behind the
/// answer section's records stands a CNAME of the name that is asked for, which leads to the name
/// with the owner's labels exchanged for the target (RFC 6672, 2.2). It has the TTL of the DNAME,
/// and no signatures (RFC 6672, 5.3.1). Where that name is too long, there is no CNAME, and the
/// RCODE is YXDOMAIN.
///
/// `None` says that the message does not read, or that no DNAME record of its answer section stands
/// above the name and has a name as its data.
pub fn redirect_response(
    alloc: Global,
    query: &Query<'_>,
    message: &[u8],
    sizes: ResponseSizes,
) -> Result<Option<Vec<u8>>, AllocError>
    ensures { let q = queried_of query.now in
        IfOk result (λ o. option_map (λ v. v.items) o
        ≡ redirect_response sizes.limit sizes.udp_size q message.now) }
{
    let mut records = Vec::new(alloc);
    let Ok((_view, listed)) = read_message_into(message, &mut records) else {
        return Ok(None);
    };
    listed?;
    let Some(redirect) = redirect_in(alloc, message, &records, &query.question.name)? else {
        return Ok(None);
    };
    let octets = limited_redirect(alloc, query, message, &records, &redirect, sizes)?;
    Ok(Some(octets))
}

/// The first DNAME record of the answer section above a name, and where it leads the name.
fn redirect_in<'r, 'm>(
    alloc: Global,
    message: &[u8],
    records: &'r [ViewRecord<'m>],
    name: &ParsedName<'_>,
) -> Result<Option<Redirect<'r, 'm>>, AllocError>
    ensures { let n = parsed_name name.now in
        IfOk result (λ o. option_map redirected_as o
        ≡ redirected_in message.now n (map spelled records.now)) }
{
    match dname_above(answer_section(message, records), name) {
        Some(dname) => redirect_by(alloc, message, dname, name),
        None => Ok(None),
    }
}

/// The first DNAME record of a name above another.
fn dname_above<'r, 'm>(
    records: &'r [ViewRecord<'m>],
    name: &ParsedName<'_>,
) -> Option<&'r ViewRecord<'m>>
    ensures { let n = parsed_name name.now in
        option_map (λ r. spelled r.now) result
        ≡ find (is_dname_above n) (map spelled records.now) }
{
    for record in records {
        if is_dname_above(record, name) {
            return Some(record);
        }
    }
    None
}

/// Whether a record is a DNAME record of a name above.
fn is_dname_above(record: &ViewRecord<'_>, name: &ParsedName<'_>) -> bool
    ensures { result ≡ is_dname_above (parsed_name name.now) (spelled record.now) }
{
    record.rtype == Rtype::DNAME && is_above(record.owner.name(), name)
}

/// Where a DNAME record leads a name below its owner; `None` where its data are no name.
fn redirect_by<'r, 'm>(
    alloc: Global,
    message: &[u8],
    dname: &'r ViewRecord<'m>,
    name: &ParsedName<'_>,
) -> Result<Option<Redirect<'r, 'm>>, AllocError>
    requires { strictly_above (spelled dname.now).owner (parsed_name name.now) ≡ true }
    ensures { let n = parsed_name name.now in
        IfOk result (λ o. option_map redirected_as o
        ≡ redirected_by message.now n (spelled dname.now)) }
{
    let Some(target) = name_from_octets(alloc, dname.octets(message))? else {
        return Ok(None);
    };
    let name = copy_name(alloc, name)?;
    let owner = copy_name(alloc, dname.owner.name())?;
    Ok(Some(Redirect {
        dname,
        lead: exchanged(alloc, &name, &owner, &target)?,
    }))
}

/// The response with all of its records, or the one that has TC, where it is longer than the limit.
fn limited_redirect(
    alloc: Global,
    query: &Query<'_>,
    message: &[u8],
    records: &[ViewRecord<'_>],
    redirect: &Redirect<'_, '_>,
    sizes: ResponseSizes,
) -> Result<Vec<u8>, AllocError>
    ensures { let q = queried_of query.now in let rs = map spelled records.now in
        let r = redirected_as redirect.now in
        IfOk result (λ v. v.items ≡ redirect_of sizes.limit sizes.udp_size q message.now rs r) }
{
    let mut octets = Vec::new(alloc);
    let answers = push_answers(&mut octets, query, message, records)?;
    let made = push_made(alloc, &mut octets, &query.question.name, redirect)?;
    let authority = push_authority(&mut octets, query, message, records)?;
    if octets.len() > usize::from(sizes.limit) {
        return truncated_response(alloc, query, message, sizes.udp_size);
    }
    let counts = Counts {
        answers: answers + made,
        authority,
        additional: 0,
    };
    let flags = redirect_flags(pair_at(message, 2), &redirect.lead);
    let flags = response_flags(query.header, flags, false);
    let whole = reply_octets(alloc, query, flags, counts, &octets, sizes.udp_size)?;
    if whole.len() > usize::from(sizes.limit) {
        return truncated_response(alloc, query, message, sizes.udp_size);
    }
    Ok(whole)
}

/// Appends the CNAME that is made from a DNAME, and says how many records were appended.
fn push_made(
    alloc: Global,
    out: &mut Vec<u8>,
    name: &ParsedName<'_>,
    redirect: &Redirect<'_, '_>,
) -> Result<u16, AllocError>
    ensures octets { let n = parsed_name name.now in let r = redirected_as redirect.now in
        let made = made_cname n r.dname r.lead in
        OnOk result (out.new.items ≡ out.old.items ++ flat_map record_octets made) }
    ensures count { let n = parsed_name name.now in let r = redirected_as redirect.now in
        IfOk result (λ k. k ≡ length (made_cname n r.dname r.lead)) }
{
    match &redirect.lead {
        Lead::To(target) => {
            let owner = copy_name(alloc, name)?;
            push_cname(out, &owner, redirect.dname, target)?;
            Ok(1)
        }
        Lead::TooLong => Ok(0),
    }
}

/// Appends a CNAME record of a name to another, with the class and the TTL of a DNAME.
fn push_cname(
    out: &mut Vec<u8>,
    owner: &Name<Vec<u8>>,
    dname: &ViewRecord<'_>,
    target: &Name<Vec<u8>>,
) -> Result<(), AllocError>
    ensures { let r = spelled dname.now in
        let more = record_octets (written owner.now 5 r.class r.ttl (wire target.now)) in
        OnOk result (out.new.items ≡ out.old.items ++ more) }
{
    target.keeps();
    push_record(
        out,
        owner,
        Rtype::CNAME,
        dname.class,
        dname.ttl,
        target.as_slice(),
    )
}

/// The flags of a message of which a redirect is made: YXDOMAIN where it leads to a name that would
/// be too long (RFC 6672, 3.2).
fn redirect_flags(flags: u16, lead: &Lead) -> u16
    ensures { result ≡ redirect_flags flags (lead_seen lead.now) }
{
    match lead {
        Lead::To(_) => flags,
        Lead::TooLong => flags / 16 * 16 + YXDOMAIN,
    }
}
