//! Texts as octets.

ghost use Rattle.std.specs.Prelude.{◌≡◌, ◌⊎◌, ◌<◌, ◌≤◌, length, option_map, IfOk, IfErr, OnOk, IfSome};
ghost use Rattle.master_file_data.specs.Text.{Spells, counted, decimal_octet, escaped_at, octet_at};

use crate::fault::DataFault;
use std::alloc::Global;

/// The octets of a text, whose escapes are a backslash before three digits or any other octet (RFC
/// 1035, 5.1).
pub(crate) fn text_octets(alloc: Global, text: &str) -> Result<Vec<u8>, DataFault>
    ensures { IfOk result (λ v. Spells text.now v.items) }
{
    let mut out = Vec::new(alloc);
    let mut rest = text.as_bytes();
    'octets: while !rest.is_empty() {
        let (octet, behind) = octet_at(rest).ok_or(DataFault::Text)?;
        out.extend_from_slice(&[octet])?;
        rest = behind;
    }
    Ok(out)
}

/// The first octet of a text, and what stands behind it.
fn octet_at(text: &[u8]) -> Option<(u8, &[u8])>
    ensures value { option_map (λ r. (r.0, r.1.now)) result ≡ octet_at text.now }
    ensures shorter { IfSome result (λ r. length r.1.now < length text.now) }
{
    match text {
        [] => None,
        [b'\\', behind @ ..] => escaped_at(behind),
        [first, behind @ ..] => Some((*first, behind)),
    }
}

/// The octet that is behind a backslash: three digits, or what is none.
fn escaped_at(text: &[u8]) -> Option<(u8, &[u8])>
    ensures value { option_map (λ r. (r.0, r.1.now)) result ≡ escaped_at text.now }
    ensures shorter { IfSome result (λ r. length r.1.now < length text.now) }
{
    match text {
        [a, b, c, behind @ ..] if a.is_ascii_digit() => {
            let octet = decimal_octet(*a, *b, *c)?;
            Some((octet, behind))
        }
        [a, behind @ ..] if !a.is_ascii_digit() => Some((*a, behind)),
        _ => None,
    }
}

/// The octet that three digits spell.
fn decimal_octet(a: u8, b: u8, c: u8) -> Option<u8>
    ensures { result ≡ decimal_octet a b c }
{
    if !a.is_ascii_digit() || !b.is_ascii_digit() || !c.is_ascii_digit() {
        return None;
    }
    let number = u32::from(a - b'0') * 100 + u32::from(b - b'0') * 10 + u32::from(c - b'0');
    if number <= 255 {
        Some(number as u8)
    } else {
        None
    }
}

/// Octets behind their number.
pub(crate) fn counted(alloc: Global, octets: &[u8], fault: DataFault) -> Result<Vec<u8>, DataFault>
    ensures ok { IfOk result (λ v. v.items ≡ counted octets.now) }
    ensures few { OnOk result (length octets.now ≤ 255) }
    ensures err { IfErr result (λ e. (e ≡ DataFault.Memory) ⊎ (255 < length octets.now)) }
{
    if octets.len() > 255 {
        return Err(fault);
    }
    let mut out = Vec::from_slice(alloc, &[octets.len() as u8])?;
    out.extend_from_slice(octets)?;
    Ok(out)
}
