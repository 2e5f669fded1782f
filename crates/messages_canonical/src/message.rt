//! Whole messages in canonical form.
ghost use Rattle.std.specs.Prelude.{◌≡◌, ◌≤◌, ◌++◌, length, map, true, Ok, IfOk, IfErr, OnOk};
ghost use Rattle.std.specs.Cow.{cow_slice_items};
ghost use Rattle.std.specs.List.{flat_map};
ghost use Rattle.definitions.specs.Limits.{pointer_limit};
ghost use Rattle.messages.specs.Message.{data_of, records_at};
ghost use Rattle.messages.specs.Record.{spelled};
ghost use Rattle.messages.specs.Written.{record_octets};
ghost use Rattle.messages_canonical.specs.Canonical.{HasNone, IsCanonical, Writes, canonical_rdata};
ghost use Rattle.messages_canonical.specs.Canonical.{canonical_record, canonical_records};
ghost use Rattle.messages_canonical.specs.Canonical.{head_octets, most_octets, with_data};
ghost use Rattle.messages_canonical.specs.InForm.{HasNoForm, IsInForm};
ghost use Rattle.messages_canonical.specs.Walking.{StandsAt};

use crate::data::{ROOM_FOR_DATA, put_data, put_kept};
use crate::error::CanonicalError;
use crate::names::put_name_at;
use crate::standing::data_stand;
use crate::walk::{is_in_form, records_place};
use messages::signed::record_numbers;
use messages::write::push_u16;
use messages::{MessageView, ViewRecord, read_message_into};
use std::alloc::{AllocError, Global};
use std::borrow::CowSlice;

/// The number of octets that a message has at most (RFC 1035, 4.2.2).
const MOST: usize = 65535;

/// The number of octets before the question (RFC 1035, 4.1.1).
const HEADER: usize = 12;

/// The number of octets between a record's owner and its data (RFC 1035, 4.1.3).
const NUMBERS: usize = 10;

/// The message in canonical form: names in full, and names in data in lower case where signatures
/// are made over lower case. Header, question, order and TTLs are unchanged, and so are data that
/// their type's form doesn't read, octet for octet.
///
/// A message that doesn't read is refused as [`read_message`](messages::read_message) refuses it.
pub fn canonical_message(alloc: Global, bytes: &[u8]) -> Result<Vec<u8>, CanonicalError>
    ensures ok { IfOk result (λ v. IsCanonical bytes.now v.items) }
    ensures none { IfErr result (HasNone bytes.now) }
{
    let mut records = Vec::new(alloc);
    let (view, listed) = read_message_into(bytes, &mut records)?;
    listed?;
    let room = bytes.len().saturating_mul(2).min(MOST);
    let mut octets = Vec::with_capacity(alloc, room)?;
    push_head(bytes, &view, &mut octets)?;
    let (first, _) = records_place(bytes).unwrap();
    if !push_records(alloc, bytes, first, &records, &mut octets)? {
        return Err(CanonicalError::TooLong);
    }
    Ok(octets)
}

/// The message in the form in which signatures are verified. It is the received message, borrowed,
/// where it doesn't read, and where the data of each record are in canonical form already or of a
/// type whose names are read as names (NS, SOA, RRSIG, NSEC). Otherwise it is the message in
/// canonical form.
pub fn canonical_cow<'a>(alloc: Global, bytes: &'a [u8]) -> Result<CowSlice<'a, u8>, CanonicalError>
    ensures ok { IfOk result (λ o. IsInForm bytes.now (cow_slice_items o)) }
    ensures none { IfErr result (HasNoForm bytes.now) }
{
    if is_in_form(alloc, bytes)? {
        return Ok(CowSlice::Borrowed(bytes));
    }
    match canonical_message(alloc, bytes) {
        Ok(octets) => Ok(CowSlice::Owned(octets)),
        Err(CanonicalError::Message(_)) => Ok(CowSlice::Borrowed(bytes)),
        Err(error) => Err(error),
    }
}

/// Appends the header and the question.
fn push_head(bytes: &[u8], view: &MessageView, octets: &mut Vec<u8>) -> Result<(), AllocError>
    ensures { let head = head_octets bytes.now view.now.asked in
        OnOk result (octets.new.items ≡ octets.old.items ++ head) }
{
    octets.extend_from_slice(&bytes[..HEADER.min(bytes.len())])?;
    let question = view.question();
    put_kept(&question.name, octets)?;
    push_u16(octets, question.rtype.to_int())?;
    push_u16(octets, question.class.to_int())?;
    Ok(())
}

/// Appends the records that stand in the message from a place on. Returns false where a message has
/// no room for them.
fn push_records(
    alloc: Global,
    bytes: &[u8],
    first: usize,
    records: &[ViewRecord],
    octets: &mut Vec<u8>,
) -> Result<bool, AllocError>
    requires short { length octets.old.items ≤ most_octets }
    requires placed { let are = map spelled records.now in
        records_at (length records.now) pointer_limit bytes.now first ≡ Ok are }
    ensures { let are = canonical_records pointer_limit bytes.now (map spelled records.now) in
        let more = flat_map record_octets are in
        IfOk result (λ b. Writes b octets.old.items octets.new.items more) }
{
    let mut data = Vec::with_capacity(alloc, ROOM_FOR_DATA)?;
    let mut at = first;
    for record in records {
        if !push_record(bytes, at, record, &mut data, octets)? {
            return Ok(false);
        }
        at = record.start + record.length;
    }
    Ok(true)
}

/// Appends the record at a place, with a buffer for its data. Returns false where a message has no
/// room for it.
fn push_record(
    bytes: &[u8],
    at: usize,
    view: &ViewRecord,
    rdata: &mut Vec<u8>,
    octets: &mut Vec<u8>,
) -> Result<bool, AllocError>
    requires { StandsAt bytes.now at (spelled view.now) }
    ensures { let made = canonical_record pointer_limit bytes.now (spelled view.now) in
        let more = record_octets made in
        IfOk result (λ b. Writes b octets.old.items octets.new.items more) }
{
    if !record_stands(bytes, view) && put_data(bytes, view, rdata)? {
        return push_with_data(bytes, at, view, rdata, octets);
    }
    push_with_own_data(bytes, at, view, octets)
}

/// Whether a quick test shows that the data of a record are in canonical form as they stand.
fn record_stands(bytes: &[u8], view: &ViewRecord) -> bool
    ensures { let r = spelled view.now in
        result ≡ true → canonical_rdata pointer_limit bytes.now r ≡ data_of bytes.now r }
{
    let limit = view.start + view.length;
    limit <= bytes.len() && data_stand(bytes, view.rtype, view.start, limit)
}

/// Appends the record at a place with its data as they stand. Returns false where a message has no
/// room for it.
fn push_with_own_data(
    bytes: &[u8],
    at: usize,
    view: &ViewRecord,
    octets: &mut Vec<u8>,
) -> Result<bool, AllocError>
    requires { StandsAt bytes.now at (spelled view.now) }
    ensures { let r = spelled view.now in
        let more = record_octets (with_data r (data_of bytes.now r)) in
        IfOk result (λ b. Writes b octets.old.items octets.new.items more) }
{
    put_name_at(bytes, at, octets)?;
    octets.extend_from_slice(&bytes[view.start - NUMBERS..view.start + view.length])?;
    Ok(octets.len() <= MOST)
}

/// Appends the record at a place with the given data. Returns false where a message has no room for
/// it.
fn push_with_data(
    bytes: &[u8],
    at: usize,
    view: &ViewRecord,
    rdata: &[u8],
    octets: &mut Vec<u8>,
) -> Result<bool, AllocError>
    requires { StandsAt bytes.now at (spelled view.now) }
    ensures { let more = record_octets (with_data (spelled view.now) rdata.now) in
        IfOk result (λ b. Writes b octets.old.items octets.new.items more) }
{
    if rdata.len() > MOST {
        return Ok(false);
    }
    put_name_at(bytes, at, octets)?;
    octets.extend_from_slice(&record_numbers(view.rtype, view.class, view.ttl, rdata.len()))?;
    octets.extend_from_slice(rdata)?;
    Ok(octets.len() <= MOST)
}
