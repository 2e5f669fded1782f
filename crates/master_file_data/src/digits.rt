//! Hexadecimal and base64, in one field or several.

ghost use Rattle.std.specs.Prelude.{◌≡◌, IfOk, string_bytes};
ghost use Rattle.hex.specs.Hex.{decode_of};
ghost use Rattle.base64.specs.Engines.{standard};
ghost use Rattle.base64.specs.GeneralPurpose.{encode_of};
ghost use Rattle.master_file_data.specs.Fields.{joined};
ghost use Rattle.master_file_data.specs.Parts.{IsGeneric};

use crate::decimals::number_of;
use crate::fault::DataFault;
use crate::field::Field;
use base64::DecodeAllocError;
use base64::engine::general_purpose::STANDARD;
use hex::FromHexError;
use std::alloc::{AllocError, Global};

/// The texts of fields, one behind the other.
fn joined(alloc: Global, fields: &[Field]) -> Result<String, AllocError>
    ensures { IfOk result (λ text. string_bytes text ≡ joined fields.now) }
{
    let mut text = String::new(alloc);
    for field in fields {
        text.push_str(field.text.as_str())?;
    }
    Ok(text)
}

/// Octets in hexadecimal.
pub(crate) fn hexadecimal_of(
    alloc: Global,
    text: &str,
    fault: DataFault,
) -> Result<Vec<u8>, DataFault>
    ensures { IfOk result (λ v. decode_of text.now ≡ Ok v.items) }
{
    match hex::decode(alloc, text) {
        Ok(octets) => Ok(octets),
        Err(FromHexError::OutOfMemory) => Err(DataFault::Memory),
        Err(_) => Err(fault),
    }
}

/// The octets of fields in hexadecimal, of which there are some.
pub(crate) fn digits_octets(alloc: Global, fields: &[Field]) -> Result<Vec<u8>, DataFault>
    ensures { IfOk result (λ v. decode_of (joined fields.now) ≡ Ok v.items) }
{
    let text = joined(alloc, fields)?;
    if text.is_empty() {
        return Err(DataFault::Missing);
    }
    hexadecimal_of(alloc, text.as_str(), DataFault::Hexadecimal)
}

/// Octets in base64.
pub(crate) fn base64_of(alloc: Global, text: &str, fault: DataFault) -> Result<Vec<u8>, DataFault>
    ensures { IfOk result (λ v. text.now ≡ encode_of standard v.items) }
{
    match STANDARD.decode(alloc, text.as_bytes()) {
        Ok(octets) => Ok(octets),
        Err(DecodeAllocError::OutOfMemory) => Err(DataFault::Memory),
        Err(_) => Err(fault),
    }
}

/// The octets of fields in base64, of which there are some.
pub(crate) fn base64_octets(alloc: Global, fields: &[Field]) -> Result<Vec<u8>, DataFault>
    ensures { IfOk result (λ v. joined fields.now ≡ encode_of standard v.items) }
{
    let text = joined(alloc, fields)?;
    if text.is_empty() {
        return Err(DataFault::Missing);
    }
    base64_of(alloc, text.as_str(), DataFault::Base64)
}

/// Data of any type, as octets behind their number (RFC 3597, 5).
pub(crate) fn octets_of_digits(
    alloc: Global,
    count: &Field,
    digits: &[Field],
) -> Result<Vec<u8>, DataFault>
    ensures { IfOk result (λ v. IsGeneric count.now digits.now v.items) }
{
    let count = number_of(count.text.as_str()).ok_or(DataFault::Octets)?;
    let text = joined(alloc, digits)?;
    let octets = hexadecimal_of(alloc, text.as_str(), DataFault::Octets)?;
    if u64::from(count) != octets.len() as u64 {
        return Err(DataFault::Octets);
    }
    Ok(octets)
}
