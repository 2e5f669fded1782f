//! base32hex: unpadded and in lower case, eight digits for five octets (RFC 4648, 7; RFC 5155,
//! 3.3).

ghost use Rattle.std.specs.Prelude.{◌≡◌, ◌==◌, ◌<◌, ◌++◌, ◌∷◌, [], length, not, position};
ghost use Rattle.std.specs.Prelude.{slice_index_or, take, IsTrue, OnOk, OnErr, IfOk, IfErr};
ghost use Rattle.std.specs.Prelude.{MatchBool, MatchOption, ◌↔◌};
ghost use Rattle.std.specs.Char.{to_ascii_lowercase};
ghost use Rattle.std.specs.List.{AllByRecursion, list_all};
ghost use Rattle.std.specs.Str.{str_to_ascii_lowercase};
ghost use Rattle.numbers.specs.Blocks.{padded};
ghost use Rattle.numbers.specs.Decoding.{is_digit, filled, Spells, SpellsNothing, Appends};
ghost use Rattle.numbers.specs.Refusing.{IsBadLength, RefusedText};
ghost use Rattle.std.specs.String.{string_bytes};
ghost use Rattle.definitions.specs.Base32hex.{base32hex, digit};

pub mod digits;

use crate::base32hex::digits::{digit_octet, value};
use std::alloc::{AllocError, Global};
use thiserror::Error;

/// The digits of octets.
pub fn encode(alloc: Global, octets: &[u8]) -> Result<String, AllocError>
    ensures { IfOk result (λ text. string_bytes text ≡ base32hex octets.now) }
{
    let mut digits = Vec::with_capacity(alloc, octets.len().div_ceil(5).saturating_mul(8))?;
    append(&mut digits, octets)?;
    // Each digit is an ASCII character.
    Ok(unsafe { String::from_utf8_unchecked(digits) })
}

/// Appends the digits of octets. A refused call leaves the digits as they were.
pub fn append(digits: &mut Vec<u8>, octets: &[u8]) -> Result<(), AllocError>
    ensures ok { OnOk result (digits.new.items ≡ digits.old.items ++ base32hex octets.now) }
    ensures err { OnErr result (digits.new.items ≡ digits.old.items) }
{
    let len = digits.len();
    let done = append_blocks(digits, octets);
    if done.is_err() {
        digits.truncate(len);
    }
    done
}

/// Appends the digits of octets, and leaves a part of them where memory runs out.
fn append_blocks(digits: &mut Vec<u8>, octets: &[u8]) -> Result<(), AllocError>
    ensures ok { OnOk result (digits.new.items ≡ digits.old.items ++ base32hex octets.now) }
    ensures err { let old = digits.old.items in
        OnErr result (take (length old) digits.new.items ≡ old) }
{
    let mut rest = octets;
    while rest.len() >= 5 {
        let (block, behind) = rest.split_at(5);
        digits.extend_from_slice(&block_digits(block))?;
        rest = behind;
    }
    append_tail(digits, rest)
}

/// The eight digits of five octets.
fn block_digits(octets: &[u8]) -> [u8; 8]
    requires { length octets.now ≡ 5 }
    ensures { result ≡ base32hex octets.now }
{
    let (a, b, c, d, e) = (octets[0], octets[1], octets[2], octets[3], octets[4]);
    [
        digit_octet(a / 8),
        digit_octet(a % 8 * 4 + b / 64),
        digit_octet(b / 2 % 32),
        digit_octet(b % 2 * 16 + c / 16),
        digit_octet(c % 16 * 2 + d / 128),
        digit_octet(d / 4 % 32),
        digit_octet(d % 4 * 8 + e / 32),
        digit_octet(e % 32),
    ]
}

/// Appends the digits of fewer than five octets, or nothing. A last digit is filled with zero bits.
fn append_tail(digits: &mut Vec<u8>, octets: &[u8]) -> Result<(), AllocError>
    requires { length octets.now < 5 }
    ensures ok { OnOk result (digits.new.items ≡ digits.old.items ++ base32hex octets.now) }
    ensures err { OnErr result (digits.new.items ≡ digits.old.items) }
{
    let block = block_digits(&padded(octets));
    digits.extend_from_slice(&block[..(octets.len() * 8).div_ceil(5)])?;
    Ok(())
}

/// Fewer than five octets, and zeros behind them.
fn padded(octets: &[u8]) -> [u8; 5]
    ensures { result ≡ padded octets.now }
{
    [
        octet_or(octets, 0, 0),
        octet_or(octets, 1, 0),
        octet_or(octets, 2, 0),
        octet_or(octets, 3, 0),
        octet_or(octets, 4, 0),
    ]
}

/// Why text is not base32hex. Where several reasons hold, the first one listed here is given.
#[derive(Clone, Copy, Debug, PartialEq, Eq, Error)]
pub enum DecodeError {
    /// The octet at this place is no digit.
    #[error("illegal character at {0}")]
    BadChar(usize),
    /// No octets have this number of digits.
    #[error("illegal number of digits")]
    BadLength,
    /// Bits behind the last whole octet are not zero.
    #[error("trailing bits")]
    TrailingBits,
    /// Memory ran out.
    #[error("out of memory")]
    Memory,
}

impl From<AllocError> for DecodeError {
    ghost use Rattle.numbers.specs.declared.base32hex.DecodeError.TheVariants.{Memory};

    ghost from_gives = { λ _ e. e ≡ Memory };

    fn from(_: AllocError) -> DecodeError {
        DecodeError::Memory
    }
}

/// The octets that digits in either case stand for: exactly those whose digits they are.
pub fn decode(alloc: Global, text: &str) -> Result<Vec<u8>, DecodeError>
    ensures ok { IfOk result (λ octets. base32hex octets.items ≡ str_to_ascii_lowercase text.now) }
    ensures refused { IfErr result (RefusedText text.now) }
{
    let digits = text.as_bytes();
    match decoded(alloc, digits)? {
        Some(octets) => Ok(octets),
        None => Err(refusal(digits)),
    }
}

/// Why no octets have these digits.
fn refusal(digits: &[u8]) -> DecodeError
    requires { SpellsNothing digits.now }
    ensures { RefusedText digits.now result }
{
    if let Some(place) = first_no_digit(digits) {
        return DecodeError::BadChar(place);
    }
    if is_bad_length(digits.len()) {
        return DecodeError::BadLength;
    }
    DecodeError::TrailingBits
}

/// The place of the first character that is no digit in either case.
fn first_no_digit(digits: &[u8]) -> Option<usize>
    ensures { result ≡ position (λ c. not (is_digit (to_ascii_lowercase c))) digits.now }
{
    digits
        .iter()
        .position(|c| !is_digit(c.to_ascii_lowercase()))
}

fn is_digit(octet: u8) -> bool
    ensures { result ≡ is_digit octet }
{
    (48 <= octet && octet <= 57) || (97 <= octet && octet <= 118)
}

/// Whether no octets have this number of digits.
fn is_bad_length(len: usize) -> bool
    ensures { IsTrue result ↔ IsBadLength len }
{
    let last = len % 8;
    last == 1 || last == 3 || last == 6
}

/// The octets whose digits these are, if any octets have them.
fn decoded(alloc: Global, digits: &[u8]) -> Result<Option<Vec<u8>>, AllocError>
    ensures { IfOk result (λ found.
        MatchOption found (SpellsNothing digits.now) (λ octets. Spells octets.items digits.now)) }
{
    let mut octets = Vec::with_capacity(alloc, digits.len().div_ceil(8).saturating_mul(5))?;
    let mut rest = digits;
    while rest.len() >= 8 {
        let (block, behind) = rest.split_at(8);
        let Some(five) = block_octets(block) else {
            return Ok(None);
        };
        octets.extend_from_slice(&five)?;
        rest = behind;
    }
    if push_rest(&mut octets, rest)? {
        Ok(Some(octets))
    } else {
        Ok(None)
    }
}

/// The five octets of eight digits, where all are digits.
fn block_octets(digits: &[u8]) -> Option<[u8; 5]>
    requires { length digits.now ≡ 8 }
    ensures { MatchOption result (SpellsNothing digits.now)
        (λ five. (length five ≡ 5) × AllByRecursion (λ o. o < 256) five × Spells five digits.now) }
{
    let (a, b) = (value(digits[0])?, value(digits[1])?);
    let (c, d) = (value(digits[2])?, value(digits[3])?);
    let (e, f) = (value(digits[4])?, value(digits[5])?);
    let (g, h) = (value(digits[6])?, value(digits[7])?);
    Some([
        a * 8 + b / 4,
        b % 4 * 64 + c * 2 + d / 16,
        d % 16 * 16 + e / 2,
        e % 2 * 128 + f * 4 + g / 8,
        g % 8 * 32 + h,
    ])
}

/// Appends the octets of fewer than eight digits, and returns whether any octets have these digits.
fn push_rest(octets: &mut Vec<u8>, digits: &[u8]) -> Result<bool, AllocError>
    requires { length digits.now < 8 }
    ensures { IfOk result (λ found. MatchBool found
        (Appends octets.old.items octets.new.items digits.now) (SpellsNothing digits.now)) }
{
    if is_bad_length(digits.len()) {
        return Ok(false);
    }
    let Some(five) = block_octets(&filled(digits)) else {
        return Ok(false);
    };
    let (whole, behind) = five.split_at(digits.len() * 5 / 8);
    if !are_zeros(behind) {
        return Ok(false);
    }
    octets.extend_from_slice(whole)?;
    Ok(true)
}

/// Fewer than eight digits, and zeros behind them.
fn filled(digits: &[u8]) -> [u8; 8]
    ensures { result ≡ filled digits.now }
{
    [
        octet_or(digits, 0, b'0'),
        octet_or(digits, 1, b'0'),
        octet_or(digits, 2, b'0'),
        octet_or(digits, 3, b'0'),
        octet_or(digits, 4, b'0'),
        octet_or(digits, 5, b'0'),
        octet_or(digits, 6, b'0'),
        octet_or(digits, 7, b'0'),
    ]
}

/// The octet at a place, or another where there is none.
fn octet_or(octets: &[u8], place: usize, other: u8) -> u8
    ensures { result ≡ slice_index_or octets.now place other }
{
    octets.get(place).copied().unwrap_or(other)
}

fn are_zeros(octets: &[u8]) -> bool
    ensures { result ≡ list_all (λ o. o == 0) octets.now }
{
    octets.iter().all(|o| *o == 0)
}
