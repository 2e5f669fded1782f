//! Questions for NSEC records: they are answered from the message in which the zone denies another
//! type of the name, which has the record of the name, if there is one (RFC 4035, 3.1.3.1).
ghost use Rattle.std.specs.Prelude.{◌≡◌, ◌++◌, ◌≤◌, length, map, OnOk, IfOk};
ghost use Rattle.std.specs.List.{flat_map, list_any};
ghost use Rattle.messages.specs.Record.{spelled};
ghost use Rattle.messages.specs.Written.{record_octets};
ghost use Rattle.names_parsed.specs.Parsed.{parsed_name};
ghost use Rattle.server_queries.specs.Views.{queried_of};
ghost use Rattle.server_responses.specs.Links.{is_authoritative, is_link, is_link_hidden};
ghost use Rattle.server_responses.specs.Links.{is_link_of};
ghost use Rattle.server_responses.specs.Links.{is_link_or_its_signature, link_shown, links_shown};
ghost use Rattle.server_responses.specs.Links.{shows_link, tells_of};

use crate::records::{Section, authority_section, pair_at, push_shown};
use messages::listed::read_message_into;
use messages::names::{ParsedName, ToName, is_at_or_above};
use messages::view::ViewRecord;
use numbers::rtype::Rtype;
use server_queries::Query;
use std::alloc::{AllocError, Global};

/// Whether a message answers a question for NSEC: it is no referral, and denies another type by the
/// NSEC record of the name itself.
pub(crate) fn shows_link(query: &Query<'_>, message: &[u8], records: &[ViewRecord<'_>]) -> bool
    ensures { let q = queried_of query.now in
        result ≡ shows_link q message.now (map spelled records.now) }
{
    query.question.rtype == Rtype::NSEC
        && is_authoritative(message)
        && has_link_of(authority_section(message, records), &query.question.name)
}

/// Whether a message is authoritative: AA (RFC 1035, 4.1.1).
fn is_authoritative(message: &[u8]) -> bool
    ensures { result ≡ is_authoritative message.now }
{
    pair_at(message, 2) / 0x0400 % 2 == 1
}

/// Whether one of some records is an NSEC record of a name.
fn has_link_of(records: &[ViewRecord<'_>], name: &ParsedName<'_>) -> bool
    ensures { let n = parsed_name name.now in
        result ≡ list_any (is_link_of n) (map spelled records.now) }
{
    for record in records {
        if record.rtype == Rtype::NSEC && record.owner.name().name_eq(name) {
            return true;
        }
    }
    false
}

/// Appends the NSEC records of a name and their signatures, of those of the authority section, and
/// says how many these are.
pub(crate) fn push_links(
    out: &mut Vec<u8>,
    message: &[u8],
    records: &[ViewRecord<'_>],
    section: &Section,
    name: &ParsedName<'_>,
) -> Result<u16, AllocError>
    requires { length records.now ≤ 65535 }
    ensures octets { let n = parsed_name name.now in
        let shown = links_shown section.now message.now n (map spelled records.now) in
        OnOk result (out.new.items ≡ out.old.items ++ flat_map record_octets shown) }
    ensures count { let n = parsed_name name.now in
        let shown = links_shown section.now message.now n (map spelled records.now) in
        IfOk result (λ k. k ≡ length shown) }
{
    let mut count = 0;
    for record in records {
        count += push_link(out, message, record, section, name)?;
    }
    Ok(count)
}

/// Appends a record if it is an NSEC record of the name or its signature, and says how many were
/// appended.
fn push_link(
    out: &mut Vec<u8>,
    message: &[u8],
    record: &ViewRecord<'_>,
    section: &Section,
    name: &ParsedName<'_>,
) -> Result<u16, AllocError>
    ensures octets { let n = parsed_name name.now in
        let shown = link_shown section.now message.now n (spelled record.now) in
        OnOk result (out.new.items ≡ out.old.items ++ flat_map record_octets shown) }
    ensures count { let n = parsed_name name.now in
        let shown = link_shown section.now message.now n (spelled record.now) in
        IfOk result (λ k. k ≡ length shown) }
    ensures one { IfOk result (λ k. k ≤ 1) }
{
    if is_link_or_its_signature(message, record, name) {
        return push_shown(out, message, record, section);
    }
    Ok(0)
}

/// Whether a record is an NSEC record of a name, or a signature there that covers it (RFC 4034,
/// 3.1.1).
fn is_link_or_its_signature(message: &[u8], record: &ViewRecord<'_>, name: &ParsedName<'_>) -> bool
    ensures { let n = parsed_name name.now in
        result ≡ is_link_or_its_signature message.now n (spelled record.now) }
{
    record.owner.name().name_eq(name)
        && (record.rtype == Rtype::NSEC
            || (record.rtype == Rtype::RRSIG && pair_at(message, record.start) == 47))
}

/// Whether a query asks for the NSEC record of a wildcard: the message, which is authoritative and
/// without an error, denies another type by NSEC records, and by none of them the name is there.
///
/// Such a record would be made for the name (RFC 4592, 4.8), but the message does not have it so,
/// and does not deny it either, as the wildcard's types list NSEC.
pub fn is_link_hidden(alloc: Global, query: &Query<'_>, message: &[u8]) -> Result<bool, AllocError>
    ensures { let q = queried_of query.now in
        IfOk result (λ b. b ≡ is_link_hidden q message.now) }
{
    if query.question.rtype != Rtype::NSEC || pair_at(message, 2) != 0x8400 {
        return Ok(false);
    }
    let mut records = Vec::new(alloc);
    let Ok((_view, listed)) = read_message_into(message, &mut records) else {
        return Ok(false);
    };
    listed?;
    Ok(has_link(&records) && !has_telling(message, &records, &query.question.name))
}

/// Whether one of some records is an NSEC record.
fn has_link(records: &[ViewRecord<'_>]) -> bool
    ensures { result ≡ list_any is_link (map spelled records.now) }
{
    for record in records {
        if record.rtype == Rtype::NSEC {
            return true;
        }
    }
    false
}

/// Whether by one of some records a name is there.
fn has_telling(message: &[u8], records: &[ViewRecord<'_>], name: &ParsedName<'_>) -> bool
    ensures { let n = parsed_name name.now in
        result ≡ list_any (tells_of message.now n) (map spelled records.now) }
{
    for record in records {
        if tells_of(message, record, name) {
            return true;
        }
    }
    false
}

/// Whether a record is an NSEC record by which a name is there: the name owns it, or has no records
/// and stands above the next name (RFC 4592, 2.2.2).
fn tells_of(message: &[u8], record: &ViewRecord<'_>, name: &ParsedName<'_>) -> bool
    ensures { let n = parsed_name name.now in
        result ≡ tells_of message.now n (spelled record.now) }
{
    if record.rtype != Rtype::NSEC {
        return false;
    }
    if record.owner.name().name_eq(name) {
        return true;
    }
    match record.link(message) {
        Some(link) => is_at_or_above(name, link.next_name()),
        None => false,
    }
}
