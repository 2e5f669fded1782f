//! Data of records in the text forms of their types, to octets.

ghost use Rattle.std.specs.Prelude.{◌≡◌, ◌≤◌, codes, length, IfOk, IsTrue, option_map};
ghost use Rattle.master_file_data.specs.Fields.{text_of};
ghost use Rattle.master_file_data.specs.Parts.{AreParts, IsDataOf};

use crate::checks::check_octets;
use crate::digits::octets_of_digits;
use crate::fault::DataFault;
use crate::field::Field;
use crate::layout::{Part, parts_of};
use crate::parts::part_octets;
use names_flat::name::Name;
use names_rdata::rtype::Rtype;
use std::alloc::Global;

/// The octets of data of a type, in its text form or as octets (RFC 3597, 5).
pub fn octets_of(
    alloc: Global,
    rtype: Rtype,
    fields: &[Field],
    origin: Option<&Name<Vec<u8>>>,
) -> Result<Vec<u8>, DataFault>
    ensures are { let o = option_map (λ n. n.now) origin.entry in
        IfOk result (λ v. IsDataOf rtype o fields.now v.items) }
    ensures short { IfOk result (λ v. length v.items ≤ 65535) }
{
    let octets = spelled(alloc, rtype, fields, origin)?;
    check_octets(rtype, &octets)?;
    Ok(octets)
}

fn spelled(
    alloc: Global,
    rtype: Rtype,
    fields: &[Field],
    origin: Option<&Name<Vec<u8>>>,
) -> Result<Vec<u8>, DataFault>
    ensures { let o = option_map (λ n. n.now) origin.entry in
        IfOk result (λ v. IsDataOf rtype o fields.now v.items) }
{
    if let [first, count, digits @ ..] = fields {
        if is_mark(first) {
            let octets = octets_of_digits(alloc, count, digits)?;
            return Ok(octets);
        }
    }
    match parts_of(rtype) {
        Some(parts) => octets_of_parts(alloc, parts, fields, origin),
        None => Err(DataFault::Type),
    }
}

/// Whether a field says that octets stand behind it.
fn is_mark(field: &Field) -> bool
    ensures { IsTrue result → text_of field.now ≡ codes "\\#" }
{
    field.text.as_str() == "\\#" && !field.is_quoted
}

/// The octets of the parts of data.
fn octets_of_parts(
    alloc: Global,
    parts: &[Part],
    fields: &[Field],
    origin: Option<&Name<Vec<u8>>>,
) -> Result<Vec<u8>, DataFault>
    ensures { let o = option_map (λ n. n.now) origin.entry in
        IfOk result (λ v. AreParts parts.now o fields.now v.items) }
{
    let mut out = Vec::new(alloc);
    let mut rest = fields;
    for part in parts {
        let (octets, behind) = part_octets(alloc, *part, rest, origin)?;
        out.extend_from_slice(&octets)?;
        rest = behind;
    }
    if rest.is_empty() {
        Ok(out)
    } else {
        Err(DataFault::Extra)
    }
}
