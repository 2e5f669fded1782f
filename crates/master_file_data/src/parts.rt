//! Parts of data, of one field or of all that are left.

ghost use Rattle.std.specs.Prelude.{◌≡◌, [], ◌∷◌, IfOk, IsSomeAnd, option_map};
ghost use Rattle.std.specs.Int.{w16, w32, to_be_bytes};
ghost use Rattle.master_file_data.specs.Parts.{AreTexts, IsAll, IsLowerNameData, IsNameData, IsNumberData};
ghost use Rattle.master_file_data.specs.Parts.{IsPart, IsValueData, TakesPart, takes_all};
ghost use Rattle.master_file_data.specs.Text.{SpellsCounted};

use crate::addresses::{eui_octets, ipv4_octets, ipv6_octets, prefixes_octets};
use crate::decimals::{number_of, number8_of, number16_of, seconds_of};
use crate::digits::{base64_octets, digits_octets, hexadecimal_of};
use crate::fault::DataFault;
use crate::field::{Field, name_of};
use crate::layout::Part;
use crate::location::location_octets;
use crate::mnemonics::{algorithm_of, certificate_of};
use crate::service::parameters_octets;
use crate::text::{counted, text_octets};
use crate::type_text::type_of;
use denial_bitmap::builder::RtypeBitmapBuilder;
use names_flat::name::Name;
use names_traits::to_name::ToName;
use std::alloc::Global;

/// The octets of a part of data, and the fields behind it.
pub(crate) fn part_octets<'f>(
    alloc: Global,
    part: Part,
    fields: &'f [Field],
    origin: Option<&Name<Vec<u8>>>,
) -> Result<(Vec<u8>, &'f [Field]), DataFault>
    ensures { let o = option_map (λ n. n.now) origin.entry in
        IfOk result (λ r. TakesPart part o fields.now r.0.items r.1.now) }
{
    if takes_all(part) {
        let octets = all_octets(alloc, part, fields)?;
        return Ok((octets, &[]));
    }
    match fields {
        [] => Err(DataFault::Missing),
        [field, behind @ ..] => {
            let octets = field_octets(alloc, part, field, origin)?;
            Ok((octets, behind))
        }
    }
}

/// Whether a part is of all fields that are left.
fn takes_all(part: Part) -> bool
    ensures { result ≡ takes_all part }
{
    matches!(
        part,
        Part::Texts
            | Part::Hexadecimal
            | Part::Base64
            | Part::Types
            | Part::Prefixes
            | Part::Location
            | Part::Parameters
    )
}

/// The octets of a part of all fields.
fn all_octets(alloc: Global, part: Part, fields: &[Field]) -> Result<Vec<u8>, DataFault>
    ensures { IfOk result (λ v. IsAll part fields.now v.items) }
{
    match part {
        Part::Texts => texts_octets(alloc, fields),
        Part::Hexadecimal => digits_octets(alloc, fields),
        Part::Base64 => base64_octets(alloc, fields),
        Part::Types => types_octets(alloc, fields),
        Part::Prefixes => prefixes_octets(alloc, fields),
        Part::Location => location_octets(alloc, fields),
        _ => parameters_octets(alloc, fields),
    }
}

/// The octets of a part of one field.
fn field_octets(
    alloc: Global,
    part: Part,
    field: &Field,
    origin: Option<&Name<Vec<u8>>>,
) -> Result<Vec<u8>, DataFault>
    ensures { let o = option_map (λ n. n.now) origin.entry in
        IfOk result (λ v. IsPart part o field.now v.items) }
{
    let text = field.text.as_str();
    match part {
        Part::Name => name_octets(alloc, field, origin),
        Part::LowerName => lower_name_octets(alloc, field, origin),
        Part::Ipv4 => ipv4_octets(alloc, text, DataFault::Ipv4),
        Part::Ipv6 => ipv6_octets(alloc, text, DataFault::Ipv6),
        Part::Eui48 => eui_octets(alloc, text, 6),
        Part::Eui64 => eui_octets(alloc, text, 8),
        Part::Text | Part::Tag | Part::Value | Part::SomeValue | Part::Salt => {
            value_octets(alloc, part, text)
        }
        _ => number_octets(alloc, part, text),
    }
}

/// The octets of a name.
fn name_octets(
    alloc: Global,
    field: &Field,
    origin: Option<&Name<Vec<u8>>>,
) -> Result<Vec<u8>, DataFault>
    ensures { let o = option_map (λ n. n.now) origin.entry in
        IfOk result (λ v. IsNameData o field.now v.items) }
{
    let name = name_of(alloc, field, origin)?;
    Ok(name.into_octets())
}

/// The octets of a name in lower case.
fn lower_name_octets(
    alloc: Global,
    field: &Field,
    origin: Option<&Name<Vec<u8>>>,
) -> Result<Vec<u8>, DataFault>
    ensures { let o = option_map (λ n. n.now) origin.entry in
        IfOk result (λ v. IsLowerNameData o field.now v.items) }
{
    let name = name_of(alloc, field, origin)?;
    match name.to_canonical_name(alloc) {
        Ok(name) => Ok(name.into_octets()),
        Err(_) => Err(DataFault::Memory),
    }
}

/// The octets of a number, as many as the part has.
fn number_octets(alloc: Global, part: Part, text: &str) -> Result<Vec<u8>, DataFault>
    ensures { IfOk result (λ v. IsNumberData part text.now v.items) }
{
    match part {
        Part::Number8 => octet_of(alloc, number8_of(text), DataFault::Number8),
        Part::Algorithm => octet_of(alloc, algorithm_of(text), DataFault::Algorithm),
        Part::Number16 => pair_of(alloc, number16_of(text), DataFault::Number16),
        Part::Certificate => pair_of(alloc, certificate_of(text), DataFault::Certificate),
        Part::Number32 => four_of(alloc, number_of(text), DataFault::Number32),
        _ => four_of(alloc, seconds_of(text), DataFault::Seconds),
    }
}

fn octet_of(alloc: Global, number: Option<u8>, fault: DataFault) -> Result<Vec<u8>, DataFault>
    ensures { IfOk result (λ v. IsSomeAnd number (λ n. v.items ≡ n ∷ [])) }
{
    match number {
        Some(number) => Ok(Vec::from_slice(alloc, &[number])?),
        None => Err(fault),
    }
}

fn pair_of(alloc: Global, number: Option<u16>, fault: DataFault) -> Result<Vec<u8>, DataFault>
    ensures { IfOk result (λ v. IsSomeAnd number (λ n. v.items ≡ to_be_bytes w16 n)) }
{
    match number {
        Some(number) => Ok(Vec::from_slice(alloc, &number.to_be_bytes())?),
        None => Err(fault),
    }
}

fn four_of(alloc: Global, number: Option<u32>, fault: DataFault) -> Result<Vec<u8>, DataFault>
    ensures { IfOk result (λ v. IsSomeAnd number (λ n. v.items ≡ to_be_bytes w32 n)) }
{
    match number {
        Some(number) => Ok(Vec::from_slice(alloc, &number.to_be_bytes())?),
        None => Err(fault),
    }
}

/// The octets of a text, behind its length or not.
fn value_octets(alloc: Global, part: Part, text: &str) -> Result<Vec<u8>, DataFault>
    ensures { IfOk result (λ v. IsValueData part text.now v.items) }
{
    match part {
        Part::Text => counted_text(alloc, text),
        Part::Tag => tag_octets(alloc, text),
        Part::Salt => salt_octets(alloc, text),
        Part::SomeValue if text.is_empty() => Err(DataFault::Value),
        _ => text_octets(alloc, text),
    }
}

/// The octets of a text behind their number.
fn counted_text(alloc: Global, text: &str) -> Result<Vec<u8>, DataFault>
    ensures { IfOk result (λ v. SpellsCounted text.now v.items) }
{
    let octets = text_octets(alloc, text)?;
    counted(alloc, &octets, DataFault::Text)
}

/// Letters and digits behind their number.
fn tag_octets(alloc: Global, text: &str) -> Result<Vec<u8>, DataFault> {
    let is_tag = !text.is_empty() && text.bytes().all(|octet| octet.is_ascii_alphanumeric());
    if !is_tag {
        return Err(DataFault::Tag);
    }
    counted(alloc, text.as_bytes(), DataFault::Tag)
}

/// A salt behind its length; a hyphen is none (RFC 5155, 4.3).
fn salt_octets(alloc: Global, text: &str) -> Result<Vec<u8>, DataFault> {
    if text == "-" {
        return counted(alloc, &[], DataFault::Salt);
    }
    let octets = hexadecimal_of(alloc, text, DataFault::Salt)?;
    counted(alloc, &octets, DataFault::Salt)
}

/// Texts, of which there are some.
fn texts_octets(alloc: Global, fields: &[Field]) -> Result<Vec<u8>, DataFault>
    ensures { IfOk result (λ v. AreTexts fields.now v.items) }
{
    if fields.is_empty() {
        return Err(DataFault::Missing);
    }
    let mut out = Vec::new(alloc);
    for field in fields {
        let octets = counted_text(alloc, field.text.as_str())?;
        out.extend_from_slice(&octets)?;
    }
    Ok(out)
}

/// The bitmap of types (RFC 4034, 4.1.2).
fn types_octets(alloc: Global, fields: &[Field]) -> Result<Vec<u8>, DataFault> {
    let mut types = RtypeBitmapBuilder::new_vec(alloc);
    for field in fields {
        let rtype = type_of(field.text.as_str()).ok_or(DataFault::Types)?;
        types.add(rtype).map_err(|_| DataFault::Memory)?;
    }
    Ok(types.finalize().into_octets())
}
