//! The data of records in canonical form.
ghost use Rattle.std.specs.Prelude.{◌≡◌, ◌≤◌, ◌+◌, ◌++◌, length, slice_index, IfOk, OnOk};
ghost use Rattle.std.specs.Option.{option_map};
ghost use Rattle.definitions.specs.Limits.{pointer_limit};
ghost use Rattle.definitions.specs.Name.{low, wire};
ghost use Rattle.messages.specs.Message.{name_upto};
ghost use Rattle.messages.specs.Record.{spelled};
ghost use Rattle.messages.specs.View.{named};
ghost use Rattle.names_parsed.specs.Parsed.{parsed_name};
ghost use Rattle.messages_canonical.specs.Forms.{form_of};
ghost use Rattle.messages_canonical.specs.Canonical.{PutsData, PutsPart, formed_data};
ghost use Rattle.messages_canonical.specs.Canonical.{is_canonical_data, octets_upto, part_at};
ghost use Rattle.messages_canonical.specs.Canonical.{parts_at, suffix_width, width_at};

use crate::form::{Part, form_of};
use crate::names::{put_lowered_at, put_name_at};
use messages::ViewRecord;
use messages::names::{ParsedName, read_name};
use names_rdata::composer::compose_name;
use names_rdata::rtype::Rtype;
use std::alloc::{AllocError, Global};

/// Room for data with two names of ordinary length; data that need more get it.
pub(crate) const ROOM_FOR_DATA: usize = 128;

/// Replaces the content of a buffer by the data of a record in canonical form. Returns false where
/// the form of their type doesn't read the data.
pub(crate) fn put_data(
    message: &[u8],
    view: &ViewRecord,
    rdata: &mut Vec<u8>,
) -> Result<bool, AllocError>
    ensures { let formed = formed_data pointer_limit message.now (spelled view.now) in
        IfOk result (λ b. PutsData b rdata.new.items formed) }
{
    let limit = view.start + view.length;
    if limit > message.len() {
        return Ok(false);
    }
    put_formed(message, view.rtype, view.start, limit, rdata)
}

/// Replaces the content of a buffer by the data from a place up to a limit, in canonical form.
/// Returns false where the form of their type doesn't read the data.
pub(crate) fn put_formed(
    message: &[u8],
    rtype: Rtype,
    start: usize,
    limit: usize,
    rdata: &mut Vec<u8>,
) -> Result<bool, AllocError>
    requires { limit ≤ length message.now }
    ensures { let form = form_of rtype (slice_index message.now start) in
        let formed = parts_at pointer_limit message.now limit form start in
        IfOk result (λ b. PutsData b rdata.new.items formed) }
{
    rdata.clear();
    let first = message.get(start).copied().unwrap_or(0);
    let mut at = start;
    for part in form_of(rtype, first) {
        match put_part(message, *part, at, limit, rdata)? {
            Some(behind) => at = behind,
            None => return Ok(false),
        }
    }
    Ok(at == limit)
}

/// Whether octets, by themselves, are data of a type in canonical form: the type's form reads them,
/// all names stand in full, and in lower case where signatures are made over lower case (RFC 4034,
/// 6.2). Signatures that a signer makes over data exactly as it was given them verify elsewhere
/// only where the data have this form.
pub fn is_canonical_data(alloc: Global, rtype: Rtype, octets: &[u8]) -> Result<bool, AllocError>
    ensures { IfOk result (λ b. b ≡ is_canonical_data pointer_limit rtype octets.now) }
{
    let mut data = Vec::new(alloc);
    let is_formed = put_formed(octets, rtype, 0, octets.len(), &mut data)?;
    Ok(is_formed && data.as_slice() == octets)
}

/// Appends a part that stands at a place, and returns the place behind it; `None` where no such
/// part ends by the limit.
fn put_part(
    message: &[u8],
    part: Part,
    at: usize,
    limit: usize,
    rdata: &mut Vec<u8>,
) -> Result<Option<usize>, AllocError>
    requires { limit ≤ length message.now }
    ensures { let is = part_at pointer_limit message.now limit part at in
        IfOk result (λ o. PutsPart o rdata.old.items rdata.new.items is) }
{
    match part {
        Part::Lowered => {
            let Some((_, behind)) = name_upto(message, at, limit) else {
                return Ok(None);
            };
            put_lowered_at(message, at, rdata)?;
            Ok(Some(behind))
        }
        Part::Kept => {
            let Some((_, behind)) = name_upto(message, at, limit) else {
                return Ok(None);
            };
            put_name_at(message, at, rdata)?;
            Ok(Some(behind))
        }
        _ => {
            let Some((octets, behind)) = octets_upto(message, part, at, limit) else {
                return Ok(None);
            };
            rdata.extend_from_slice(octets)?;
            Ok(Some(behind))
        }
    }
}

/// The name at a place, and the place behind it, no further than a limit.
pub(crate) fn name_upto(message: &[u8], at: usize, limit: usize) -> Option<(ParsedName<'_>, usize)>
    ensures { option_map (λ r. named (parsed_name r.0) r.1) result
        ≡ name_upto pointer_limit message.now at limit }
{
    let (name, behind) = read_name(message, at).ok()?;
    if behind > limit {
        return None;
    }
    Some((name, behind))
}

/// Appends a name in full, as it is spelled.
pub(crate) fn put_kept(name: &ParsedName, rdata: &mut Vec<u8>) -> Result<(), AllocError>
    ensures { OnOk result (rdata.new.items ≡ rdata.old.items ++ wire (parsed_name name.now)) }
{
    match compose_name(name, rdata) {
        Ok(()) => Ok(()),
        Err(_) => Err(AllocError),
    }
}

/// The octets of a part without names, as they stand, and the place behind them.
pub(crate) fn octets_upto(
    message: &[u8],
    part: Part,
    at: usize,
    limit: usize,
) -> Option<(&[u8], usize)>
    requires { limit ≤ length message.now }
    ensures { let width = width_at message.now limit part at in
        option_map (λ r. (r.0.now, r.1)) result ≡ octets_upto message.now limit at width }
{
    let width = width_at(message, part, at, limit)?;
    if limit.checked_sub(at)? < width {
        return None;
    }
    Some((&message[at..at + width], at + width))
}

/// How many octets a part before a limit has; `None` where its octets don't say, and for a name.
fn width_at(message: &[u8], part: Part, at: usize, limit: usize) -> Option<usize>
    ensures { result ≡ width_at message.now limit part at }
{
    match part {
        Part::Octets(count) => Some(usize::from(count)),
        Part::Text => message.get(at).map(|len| 1 + usize::from(*len)),
        Part::Suffix => message.get(at).and_then(|prefix| suffix_width(*prefix)),
        Part::Rest => Some(limit.saturating_sub(at)),
        Part::Lowered | Part::Kept => None,
    }
}

/// How many octets a prefix length and the bits behind it take; `None` where it is no prefix
/// length.
fn suffix_width(prefix: u8) -> Option<usize>
    ensures { result ≡ suffix_width prefix }
{
    let bits = 128u8.checked_sub(prefix)?;
    Some(1 + (usize::from(bits) + 7) / 8)
}
