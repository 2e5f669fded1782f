//! Addresses.

ghost use Rattle.std.specs.Prelude.{IfOk};
ghost use Rattle.std.specs.Net.Grammar.{IsDotted};
ghost use Rattle.master_file_data.specs.Parts.{IsIpv6Octets};

use crate::decimals::number8_of;
use crate::fault::DataFault;
use crate::field::Field;
use std::alloc::Global;
use std::net::{Ipv4Addr, Ipv6Addr};

pub(crate) fn ipv4_octets(alloc: Global, text: &str, fault: DataFault) -> Result<Vec<u8>, DataFault>
    ensures { IfOk result (λ v. IsDotted text.now v.items) }
{
    match text.parse::<Ipv4Addr>() {
        Ok(address) => Ok(Vec::from_slice(alloc, &address.octets())?),
        Err(_) => Err(fault),
    }
}

pub(crate) fn ipv6_octets(alloc: Global, text: &str, fault: DataFault) -> Result<Vec<u8>, DataFault>
    ensures { IfOk result (λ v. IsIpv6Octets text.now v.items) }
{
    match text.parse::<Ipv6Addr>() {
        Ok(address) => Ok(Vec::from_slice(alloc, &address.octets())?),
        Err(_) => Err(fault),
    }
}

/// As many octets, pairs of hexadecimal digits with hyphens between (RFC 7043, 3.2).
pub(crate) fn eui_octets(alloc: Global, text: &str, count: usize) -> Result<Vec<u8>, DataFault> {
    let mut out = Vec::new(alloc);
    for pair in text.split('-') {
        let [high, low] = pair.as_bytes() else {
            return Err(DataFault::Eui);
        };
        let octet = octet_of(*high, *low).ok_or(DataFault::Eui)?;
        out.extend_from_slice(&[octet])?;
    }
    if out.len() == count {
        Ok(out)
    } else {
        Err(DataFault::Eui)
    }
}

/// The octet of two hexadecimal digits.
fn octet_of(high: u8, low: u8) -> Option<u8> {
    Some(
        digit_of(high)?
            .wrapping_mul(16)
            .wrapping_add(digit_of(low)?),
    )
}

/// The value of a hexadecimal digit.
fn digit_of(octet: u8) -> Option<u8> {
    match octet {
        b'0'..=b'9' => Some(octet - b'0'),
        b'a'..=b'f' => Some(octet - b'a' + 10),
        b'A'..=b'F' => Some(octet - b'A' + 10),
        _ => None,
    }
}

/// Prefixes of addresses (RFC 3123, 5).
pub(crate) fn prefixes_octets(alloc: Global, fields: &[Field]) -> Result<Vec<u8>, DataFault> {
    let mut out = Vec::new(alloc);
    for field in fields {
        let octets = prefix_octets(alloc, field.text.as_str())?;
        out.extend_from_slice(&octets)?;
    }
    Ok(out)
}

fn prefix_octets(alloc: Global, text: &str) -> Result<Vec<u8>, DataFault> {
    let (is_not, shown) = match text.strip_prefix('!') {
        Some(behind) => (true, behind),
        None => (false, text),
    };
    let (family, behind) = shown.split_once(':').ok_or(DataFault::Prefix)?;
    let (address, length) = behind.split_once('/').ok_or(DataFault::Prefix)?;
    let length = number8_of(length).ok_or(DataFault::Prefix)?;
    let (family, octets) = if family == "1" && length <= 32 {
        (1, ipv4_octets(alloc, address, DataFault::Prefix)?)
    } else if family == "2" && length <= 128 {
        (2, ipv6_octets(alloc, address, DataFault::Prefix)?)
    } else {
        return Err(DataFault::Prefix);
    };
    let shown = without_zeros(&octets);
    let flag = if is_not { 128 } else { 0 };
    let count = (shown.len() % 128) as u8;
    let mut out = Vec::from_slice(alloc, &[0, family, length, count | flag])?;
    out.extend_from_slice(shown)?;
    Ok(out)
}

/// An address without the zeros at its end.
fn without_zeros(address: &[u8]) -> &[u8] {
    let mut shown = address;
    for _ in 0..address.len() {
        match shown {
            [front @ .., 0] => shown = front,
            _ => break,
        }
    }
    shown
}
