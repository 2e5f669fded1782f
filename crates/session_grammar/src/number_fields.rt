//! Numbers as fields of a line: decimal digits, leading zeros allowed.
ghost use Rattle.std.specs.Prelude.{◌≡◌};
ghost use Rattle.std.specs.List.{list_all};
ghost use Rattle.std.specs.Char.{is_ascii_digit};
ghost use Rattle.session_grammar.specs.Numbers.{number_field};
ghost use Rattle.session_grammar.specs.Readings.{Reads};

use crate::form::Field;
use crate::line_error::{FieldFault, LineError};

fn is_digits(text: &str) -> bool
    ensures { result ≡ list_all is_ascii_digit text.now }
{
    text.as_bytes().iter().all(|octet| octet.is_ascii_digit())
}

/// A number of 64 bits.
pub fn number_u64(text: &str) -> Option<u64>
    ensures { result ≡ number_field 64 text.now }
{
    if !is_digits(text) {
        return None;
    }
    match text.parse::<u64>() {
        Ok(number) => Some(number),
        Err(_) => None,
    }
}

/// A number of 32 bits.
pub fn number_u32(field: Field, text: &str) -> Result<u32, LineError>
    ensures { Reads (λ n. n) result (number_field 32 text.now) }
{
    match number_u64(text) {
        Some(number) if number < 1 << 32 => Ok(number as u32),
        _ => Err(field.fault(FieldFault::Number(32))),
    }
}

/// A number of 16 bits.
pub fn number_u16(field: Field, text: &str) -> Result<u16, LineError>
    ensures { Reads (λ n. n) result (number_field 16 text.now) }
{
    match number_u64(text) {
        Some(number) if number < 1 << 16 => Ok(number as u16),
        _ => Err(field.fault(FieldFault::Number(16))),
    }
}

/// A number of 8 bits.
pub fn number_u8(field: Field, text: &str) -> Result<u8, LineError>
    ensures { Reads (λ n. n) result (number_field 8 text.now) }
{
    match number_u64(text) {
        Some(number) if number < 1 << 8 => Ok(number as u8),
        _ => Err(field.fault(FieldFault::Number(8))),
    }
}

/// A place of something shown.
pub fn place(field: Field, text: &str) -> Result<usize, LineError>
    ensures { Reads (λ n. n) result (number_field 64 text.now) }
{
    match number_u64(text) {
        Some(number) => Ok(number as usize),
        None => Err(field.fault(FieldFault::Number(64))),
    }
}
