//! Names, references and octets as fields of a line. The field `-` stands for nothing.
ghost use Rattle.std.specs.Prelude.{◌≡◌, ◌≤◌, ◌↔◌, length, map, IfOk, IsErrOf, Some, None, true};
ghost use Rattle.std.specs.Prelude.{false, string_bytes, if◌then◌else◌};
ghost use Rattle.std.specs.Result.{result_ok};
ghost use Rattle.std.specs.List.{list_all};
ghost use Rattle.answer_events.specs.Message.{owner_at};
ghost use Rattle.answer_events.specs.NameOctets.{name_of_octets};
ghost use Rattle.answer_events.specs.View.{named};
ghost use Rattle.session_grammar.specs.Fields.{base64_field, hex_field, key_field, is_reference};
ghost use Rattle.session_grammar.specs.Grammar.{name_field, reference_field, references_field};
ghost use Rattle.session_grammar.specs.Readings.{Reads, texts};

use crate::form::Field;
use crate::line_error::{FieldFault, LineError};
use answer_events::message::names::{name_at_place, name_from_octets};
use answer_events::names::Name;
use base64::DecodeAllocError;
use base64::engine::general_purpose::STANDARD;
use hex::FromHexError;
use names_flat::text_error::FromStrError;
use std::alloc::Global;

/// The most octets of a DNSKEY record's key: its data are at most 65,535 (RFC 4034, 2.1).
const MAX_KEY: usize = 65_531;

/// A name as text (RFC 1035, 5.1).
pub fn name(alloc: Global, field: Field, text: &str) -> Result<Name<Vec<u8>>, LineError>
    ensures { Reads (λ n. n) result (name_field text.now) }
{
    match Name::vec_from_str(alloc, text) {
        Ok(name) => Ok(name),
        Err(FromStrError::ShortBuf) => Err(LineError::Memory),
        Err(FromStrError::Presentation(error)) => Err(field.fault(FieldFault::Name(error))),
    }
}

/// The one name of NS data, as wire octets, uncompressed (RFC 1035, 3.3.11).
pub fn name_of_ns(alloc: Global, field: Field, octets: &[u8]) -> Result<Name<Vec<u8>>, LineError>
    ensures { Reads (λ n. n) result (name_of_octets octets.now) }
{
    name_from_octets(alloc, octets)?.ok_or(field.fault(FieldFault::NsData))
}

/// The name at a place of SOA data, uncompressed, and the place behind it.
pub fn name_of_soa(
    alloc: Global,
    field: Field,
    octets: &[u8],
    start: usize,
) -> Result<(Name<Vec<u8>>, usize), LineError>
    ensures read { let read = owner_at 0 octets.now start in
        Reads (λ r. named r.0 r.1) result (result_ok read) }
    ensures inside { IfOk result (λ r. r.1 ≤ length octets.now) }
{
    name_at_place(alloc, octets, start)?.ok_or(field.fault(FieldFault::SoaData))
}

/// What a key is called: text without a comma, neither empty nor `-`.
pub fn reference(alloc: Global, field: Field, text: &str) -> Result<String, LineError>
    ensures { Reads string_bytes result (reference_field text.now) }
{
    if text == "-" || text.is_empty() || text.as_bytes().contains(&b',') {
        return Err(field.fault(FieldFault::Reference));
    }
    Ok(String::from_str(alloc, text)?)
}

/// References joined by commas; `-` for none.
pub fn references(alloc: Global, field: Field, text: &str) -> Result<Vec<String>, LineError>
    ensures { Reads (λ v. map string_bytes v.items) result (references_field text.now) }
{
    if text == "-" {
        return Ok(Vec::new(alloc));
    }
    let parts: Vec<&str> = text.split(',').collect(alloc)?;
    each_reference(alloc, field, &parts)
}

/// References one by one.
fn each_reference(alloc: Global, field: Field, parts: &[&str]) -> Result<Vec<String>, LineError>
    ensures { Reads (λ v. map string_bytes v.items) result
        (if list_all is_reference (texts parts.now) then Some (texts parts.now) else None) }
{
    let mut references = Vec::new(alloc);
    for part in parts {
        references.push(reference(alloc, field, part)?)?;
    }
    Ok(references)
}

/// Octets as hexadecimal digits, at most as many as allowed; `-` for none.
pub fn hex_octets(
    alloc: Global,
    field: Field,
    text: &str,
    most: usize,
) -> Result<Vec<u8>, LineError>
    ensures { Reads (λ v. v.items) result (hex_field most text.now) }
{
    if text == "-" {
        return Ok(Vec::new(alloc));
    }
    if text.is_empty() {
        return Err(field.fault(FieldFault::Empty));
    }
    if text.len() / 2 > most {
        return Err(field.fault(FieldFault::TooLong(most)));
    }
    match hex::decode(alloc, text) {
        Ok(octets) => Ok(octets),
        Err(FromHexError::OutOfMemory) => Err(LineError::Memory),
        Err(FromHexError::OddLength) => Err(field.fault(FieldFault::OddDigits)),
        Err(_) => Err(field.fault(FieldFault::Digits)),
    }
}

/// A key's octets in base64 (RFC 4648, 4); `-` for none.
pub fn key_octets(alloc: Global, field: Field, text: &str) -> Result<Vec<u8>, LineError>
    ensures read { Reads (λ v. v.items) result (key_field text.now) }
    ensures small { IfOk result (λ v. length v.items ≤ 65531) }
{
    if text == "-" {
        return Ok(Vec::new(alloc));
    }
    if text.is_empty() {
        return Err(field.fault(FieldFault::Empty));
    }
    let octets = base64_octets(alloc, field, text)?;
    if octets.len() > MAX_KEY {
        return Err(field.fault(FieldFault::TooLong(MAX_KEY)));
    }
    Ok(octets)
}

fn base64_octets(alloc: Global, field: Field, text: &str) -> Result<Vec<u8>, LineError>
    ensures { Reads (λ v. v.items) result (base64_field text.now) }
{
    match STANDARD.decode(alloc, text.as_bytes()) {
        Ok(octets) => Ok(octets),
        Err(DecodeAllocError::OutOfMemory) => Err(LineError::Memory),
        Err(_) => Err(field.fault(FieldFault::Base64)),
    }
}
