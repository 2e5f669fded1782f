//! Owners that spell a hash, and the hash that one spells (RFC 5155, 3).
ghost use Rattle.std.specs.Prelude.{◌≡◌, ◌<◌, true, false, IfOk, MatchOption, length};
ghost use Rattle.std.specs.Char.{to_ascii_lowercase};
ghost use Rattle.std.specs.List.{list_all};
ghost use Rattle.std.specs.Str.{str_to_ascii_lowercase};
ghost use Rattle.definitions.specs.Base32hex.{base32hex};
ghost use Rattle.numbers.specs.Decoding.{is_digit, value};
ghost use Rattle.answer_terms.specs.HashOwner.{hash_spelled, is_base32hex, label_octets};
ghost use Rattle.answer_terms.specs.HashOwner.{spells_hash};

use messages::Owner;
use messages::names::{Name, ToName};
use numbers::base32hex::{DecodeError, decode};
use std::alloc::{AllocError, Global};
use std::str;

/// Whether an owner spells a hash: one label of base32hex under the apex. It takes no memory.
///
/// Deeper names spell no hash: taken for one, a name of the zone would pass for a record of its
/// chain (RFC 5155, 3).
pub fn spells_hash(apex: &Name<Vec<u8>>, owner: &Owner) -> bool
    ensures { result ≡ spells_hash apex.now owner.now }
{
    match owner.name().split_first() {
        None => false,
        Some((label, parent)) => parent.name_eq(apex) && is_base32hex(label.as_slice()),
    }
}

/// Whether a label spells octets in base32hex, in either case.
fn is_base32hex(label: &[u8]) -> bool
    ensures { result ≡ is_base32hex label.now }
{
    if !are_digits(label) {
        return false;
    }
    let whole = label.len() / 8 * 8;
    spells_rest(&label[whole..])
}

/// Whether all are digits of base32hex, in either case.
fn are_digits(label: &[u8]) -> bool
    ensures { result ≡ list_all (λ c. is_digit (to_ascii_lowercase c)) label.now }
{
    label.iter().all(|c| is_digit(*c))
}

fn is_digit(octet: u8) -> bool
    ensures { result ≡ is_digit (to_ascii_lowercase octet) }
{
    let lower = octet.to_ascii_lowercase();
    (b'0' <= lower && lower <= b'9') || (b'a' <= lower && lower <= b'v')
}

/// Whether fewer than eight digits spell octets: as many as octets have, and the bits behind the
/// last octet are zeros.
fn spells_rest(digits: &[u8]) -> bool
    requires few { length digits.now < 8 }
    requires digits { list_all (λ c. is_digit (to_ascii_lowercase c)) digits.now ≡ true }
    ensures { result ≡ is_base32hex digits.now }
{
    match digits {
        [] => true,
        [_, b] => value(*b) % 4 == 0,
        [_, _, _, d] => value(*d) % 16 == 0,
        [_, _, _, _, e] => value(*e) % 2 == 0,
        [_, _, _, _, _, _, g] => value(*g) % 8 == 0,
        _ => false,
    }
}

/// What a digit stands for, in either case.
fn value(octet: u8) -> u8
    ensures { result ≡ value (to_ascii_lowercase octet) }
{
    let lower = octet.to_ascii_lowercase();
    if lower <= b'9' {
        lower.saturating_sub(b'0') % 32
    } else {
        lower.saturating_sub(b'a' - 10) % 32
    }
}

/// The hash that an owner spells.
pub fn hash_spelled(
    alloc: Global,
    apex: &Name<Vec<u8>>,
    owner: &Owner,
) -> Result<Option<Vec<u8>>, AllocError>
    ensures { IfOk result (λ o. MatchOption o (spells_hash apex.now owner.now ≡ false)
        (λ h. (spells_hash apex.now owner.now ≡ true) × (h.items ≡ hash_spelled owner.now))) }
{
    let Some((label, parent)) = owner.name().split_first() else {
        return Ok(None);
    };
    if !parent.name_eq(apex) {
        return Ok(None);
    }
    label_octets(alloc, label.as_slice())
}

/// The octets that a label spells in base32hex, in either case.
fn label_octets(alloc: Global, label: &[u8]) -> Result<Option<Vec<u8>>, AllocError>
    ensures { IfOk result (λ o. MatchOption o (is_base32hex label.now ≡ false)
        (λ h. (is_base32hex label.now ≡ true) × (h.items ≡ label_octets label.now))) }
{
    let Ok(text) = str::from_utf8(label) else {
        return Ok(None);
    };
    match decode(alloc, text) {
        Ok(octets) => {
            are_spelled(octets.as_slice(), label);
            Ok(Some(octets))
        }
        Err(error) => {
            if is_memory(error) {
                return Err(AllocError);
            }
            Ok(None)
        }
    }
}

/// What octets are whose digits a label is. It does nothing.
fn are_spelled(octets: &[u8], label: &[u8])
    requires { base32hex octets.now ≡ str_to_ascii_lowercase label.now }
    ensures spelled { is_base32hex label.now ≡ true }
    ensures octets { octets.now ≡ label_octets label.now }
{}

/// Whether memory ran out.
fn is_memory(error: DecodeError) -> bool
    ensures { error ≡ DecodeError.Memory → result ≡ true }
{
    match error {
        DecodeError::Memory => true,
        _ => false,
    }
}
