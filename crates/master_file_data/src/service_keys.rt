//! Keys of the parameters of services, and their values (RFC 9460).

use crate::addresses::{ipv4_octets, ipv6_octets};
use crate::decimals::number16_of;
use crate::digits::base64_of;
use crate::fault::DataFault;
use crate::text::{counted, text_octets};
use std::alloc::{AllocError, Global};

/// Words of keys (RFC 9460, 14.3.2; RFC 9461, 5; RFC 9540, 4).
const KEYS: [(u16, &str); 9] = [
    (0, "mandatory"),
    (1, "alpn"),
    (2, "no-default-alpn"),
    (3, "port"),
    (4, "ipv4hint"),
    (5, "ech"),
    (6, "ipv6hint"),
    (7, "dohpath"),
    (8, "ohttp"),
];

/// The number of a key: by its word, or as `key` and the number without zeros before it.
pub(crate) fn key_of(word: &str) -> Option<u16> {
    if let Some((number, _)) = KEYS.iter().find(|known| word == known.1) {
        return Some(*number);
    }
    let digits = word.strip_prefix("key")?;
    let number = number16_of(digits)?;
    let is_short = digits.len() == 1 || !digits.starts_with('0');
    if is_short && number < 65535 {
        Some(number)
    } else {
        None
    }
}

/// The octets of a key's value.
pub(crate) fn value_octets(alloc: Global, key: u16, text: &str) -> Result<Vec<u8>, DataFault> {
    let is_bare = key == 2 || key == 8;
    if key < 9 && is_bare != text.is_empty() {
        return Err(DataFault::Parameter);
    }
    match key {
        0 => mandatory_octets(alloc, text),
        1 => protocol_octets(alloc, &text_octets(alloc, text)?),
        3 => port_octets(alloc, text),
        4 => ipv4_hints(alloc, text),
        5 => base64_of(alloc, text, DataFault::Parameter),
        6 => ipv6_hints(alloc, text),
        7 => template_octets(alloc, text),
        _ => text_octets(alloc, text),
    }
}

fn port_octets(alloc: Global, text: &str) -> Result<Vec<u8>, DataFault> {
    let port = number16_of(text).ok_or(DataFault::Parameter)?;
    Ok(Vec::from_slice(alloc, &port.to_be_bytes())?)
}

fn ipv4_hints(alloc: Global, text: &str) -> Result<Vec<u8>, DataFault> {
    let mut out = Vec::new(alloc);
    for hint in text.split(',') {
        let octets = ipv4_octets(alloc, hint, DataFault::Parameter)?;
        out.extend_from_slice(&octets)?;
    }
    Ok(out)
}

fn ipv6_hints(alloc: Global, text: &str) -> Result<Vec<u8>, DataFault> {
    let mut out = Vec::new(alloc);
    for hint in text.split(',') {
        let octets = ipv6_octets(alloc, hint, DataFault::Parameter)?;
        out.extend_from_slice(&octets)?;
    }
    Ok(out)
}

/// A template of a URI from the root on, with the variable `dns` (RFC 9461, 5).
fn template_octets(alloc: Global, text: &str) -> Result<Vec<u8>, DataFault> {
    if !text.starts_with('/') || !text.contains("dns") || !text.contains('{') {
        return Err(DataFault::Parameter);
    }
    text_octets(alloc, text)
}

/// Keys in ascending order, none of them `mandatory` and none twice.
fn mandatory_octets(alloc: Global, text: &str) -> Result<Vec<u8>, DataFault> {
    let mut keys = Vec::new(alloc);
    for word in text.split(',') {
        let key = key_of(word).ok_or(DataFault::Parameter)?;
        keys.push(key).map_err(AllocError::from)?;
    }
    keys.sort_unstable();
    let (mut out, mut before) = (Vec::new(alloc), 0u16);
    for key in &keys {
        if *key <= before {
            return Err(DataFault::Parameter);
        }
        before = *key;
        out.extend_from_slice(&key.to_be_bytes())?;
    }
    Ok(out)
}

/// Names of protocols, each behind its length, that commas part: one behind a backslash is part of a
/// name, as is a backslash (RFC 9460, A.1).
fn protocol_octets(alloc: Global, octets: &[u8]) -> Result<Vec<u8>, DataFault> {
    let (mut out, mut name, mut is_escaped) = (Vec::new(alloc), Vec::new(alloc), false);
    for octet in octets {
        if is_escaped && *octet != b',' && *octet != b'\\' {
            return Err(DataFault::Parameter);
        }
        if is_escaped || (*octet != b',' && *octet != b'\\') {
            name.extend_from_slice(&[*octet])?;
            is_escaped = false;
        } else if *octet == b'\\' {
            is_escaped = true;
        } else {
            push_protocol(&mut out, &name)?;
            name.clear();
        }
    }
    if is_escaped {
        return Err(DataFault::Parameter);
    }
    push_protocol(&mut out, &name)?;
    Ok(out)
}

/// Appends the name of a protocol behind its length, which is not 0.
fn push_protocol(out: &mut Vec<u8>, name: &[u8]) -> Result<(), DataFault> {
    if name.is_empty() {
        return Err(DataFault::Parameter);
    }
    let octets = counted(*out.allocator(), name, DataFault::Parameter)?;
    Ok(out.extend_from_slice(&octets)?)
}
