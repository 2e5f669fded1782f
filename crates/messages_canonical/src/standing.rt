//! Data that stand in canonical form already, or are read in it however they stand.
ghost use Rattle.std.specs.Prelude.{◌≡◌, ◌≤◌, true, length, slice_index, slice_range, IfOk, IfSome};
ghost use Rattle.std.specs.Prelude.{Some};
ghost use Rattle.std.specs.Str.{str_to_ascii_lowercase};
ghost use Rattle.definitions.specs.Limits.{pointer_limit};
ghost use Rattle.messages_canonical.specs.Forms.{form_of, is_among};
ghost use Rattle.messages_canonical.specs.InForm.{has_form, read_by_name};
ghost use Rattle.messages_canonical.specs.Canonical.{parts_at, part_at};
ghost use Rattle.messages_canonical.specs.Walking.{StandsInFull, data_in_form};

use crate::data::{ROOM_FOR_DATA, is_canonical_data, octets_upto, put_formed};
use crate::form::{Part, form_of};
use crate::names::end_in_full;
use names_rdata::rtype::Rtype;
use std::alloc::{AllocError, Global};

/// Whether data from a place up to a limit need no other form. Memory is taken only where they
/// aren't in canonical form.
pub(crate) fn has_form(
    alloc: Global,
    message: &[u8],
    rtype: Rtype,
    start: usize,
    limit: usize,
) -> Result<bool, AllocError>
    requires ordered { start ≤ limit }
    requires inside { limit ≤ length message.now }
    ensures { IfOk result (λ b. b ≡ data_in_form pointer_limit message.now rtype start limit) }
{
    if is_read_by_name(rtype) || data_stand(message, rtype, start, limit) {
        return Ok(true);
    }
    let mut data = Vec::with_capacity(alloc, ROOM_FOR_DATA)?;
    let is_formed = put_formed(message, rtype, start, limit, &mut data)?;
    Ok(!is_formed || data.as_slice() == &message[start..limit])
}

/// Whether data of a type, by themselves, are signed alike by every signer: names in them stand in
/// full and in lower case, or are read as names by every signer, as those of NS, SOA, RRSIG and
/// NSEC data are (RFC 4034, 6.2). Signatures made over other data as they stand verify nowhere
/// else.
pub fn is_data_in_form(alloc: Global, rtype: Rtype, octets: &[u8]) -> Result<bool, AllocError>
    ensures { IfOk result (λ b. b ≡ has_form rtype octets.now) }
{
    if is_read_by_name(rtype) {
        return Ok(true);
    }
    is_canonical_data(alloc, rtype, octets)
}

/// Whether every signer reads names in data of a type as names.
fn is_read_by_name(rtype: Rtype) -> bool
    ensures { result ≡ is_among rtype read_by_name }
{
    matches!(rtype, Rtype::NS | Rtype::SOA | Rtype::RRSIG | Rtype::NSEC)
}

/// Whether a quick test shows that data from a place up to a limit are in canonical form as they
/// stand. Some data in canonical form fail the test.
pub(crate) fn data_stand(message: &[u8], rtype: Rtype, start: usize, limit: usize) -> bool
    requires ordered { start ≤ limit }
    requires inside { limit ≤ length message.now }
    ensures { let form = form_of rtype (slice_index message.now start) in
        let formed = parts_at pointer_limit message.now limit form start in
        result ≡ true → formed ≡ Some (slice_range message.now start limit) }
{
    let first = message.get(start).copied().unwrap_or(0);
    let form = form_of(rtype, first);
    if let [Part::Rest] = form {
        return true;
    }
    let mut at = start;
    for part in form {
        match part_stands(message, *part, at, limit) {
            Some(behind) => at = behind,
            None => return false,
        }
    }
    at == limit
}

/// The place behind a part that a quick test finds in canonical form at a place.
fn part_stands(message: &[u8], part: Part, at: usize, limit: usize) -> Option<usize>
    requires inside { limit ≤ length message.now }
    ensures stands { IfSome result (λ b.
        part_at pointer_limit message.now limit part at ≡ Some (slice_range message.now at b, b)) }
    ensures onward { IfSome result (λ b. at ≤ b) }
    ensures short { IfSome result (λ b. b ≤ limit) }
{
    match part {
        Part::Lowered => {
            let behind = name_in_full(message, at, limit)?;
            if is_lowered(message.get(at..behind)?) {
                Some(behind)
            } else {
                None
            }
        }
        Part::Kept => name_in_full(message, at, limit),
        _ => {
            let (_, behind) = octets_upto(message, part, at, limit)?;
            Some(behind)
        }
    }
}

/// The place behind a name that stands in full at a place, no further than a limit.
fn name_in_full(message: &[u8], at: usize, limit: usize) -> Option<usize>
    ensures { IfSome result (StandsInFull message.now limit at) }
{
    let behind = end_in_full(message, at)?;
    if behind > limit {
        return None;
    }
    Some(behind)
}

/// Whether no octet is a capital letter.
fn is_lowered(octets: &[u8]) -> bool
    ensures { result ≡ true → str_to_ascii_lowercase octets.now ≡ octets.now }
{
    for octet in octets {
        if octet.is_ascii_uppercase() {
            return false;
        }
    }
    true
}
