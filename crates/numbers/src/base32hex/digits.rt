//! The digits of octets, printed without memory, and what a digit stands for.

ghost use Rattle.std.specs.Prelude.{◌≡◌, ◌<◌, false, MatchOption, Some};
ghost use Rattle.std.specs.Char.{to_ascii_lowercase};
ghost use Rattle.definitions.specs.Base32hex.{base32hex, digit};
ghost use Rattle.numbers.specs.Decoding.{is_digit};

use std::fmt;

/// Octets that print as base32hex: eight digits for five octets.
#[derive(Clone, Copy, Debug, Drop)]
pub struct Base32hexDigits<'a>(pub &'a [u8]);

impl<'a> fmt::Display for Base32hexDigits<'a> {
    ghost output = { λ d. Some (base32hex d.0.now) };

    fn fmt<W: fmt::Write>(&self, f: &mut fmt::Formatter<W>) -> fmt::Result {
        let mut rest = self.0;
        while rest.len() >= 5 {
            let (block, behind) = rest.split_at(5);
            write!(f, "{}", Block(block))?;
            rest = behind;
        }
        write!(f, "{}", Block(rest))
    }
}

/// At most five octets.
#[derive(Clone, Copy, Drop)]
struct Block<'a>(&'a [u8]);

impl<'a> fmt::Display for Block<'a> {
    ghost use Rattle.numbers.specs.Blocks.{block_text};

    ghost output = { λ b. Some (block_text b.0.now) };

    fn fmt<W: fmt::Write>(&self, f: &mut fmt::Formatter<W>) -> fmt::Result {
        match self.0 {
            [] => Ok(()),
            [a] => write!(f, "{}{}", digit(a / 8), digit(a % 8 * 4)),
            [a, b] => write!(
                f,
                "{}{}{}{}",
                digit(a / 8),
                digit(a % 8 * 4 + b / 64),
                digit(b / 2 % 32),
                digit(b % 2 * 16)
            ),
            [a, b, c] => write!(f, "{}{}", Front(*a, *b, *c), digit(c % 16 * 2)),
            [a, b, c, d] => write!(f, "{}{}", Front(*a, *b, *c), Three(*c, *d)),
            [a, b, c, d, e, ..] => write!(f, "{}{}", Front(*a, *b, *c), Back(*c, *d, *e)),
        }
    }
}

/// The first four digits of three octets or more.
#[derive(Clone, Copy)]
struct Front(u8, u8, u8);

impl fmt::Display for Front {
    ghost use Rattle.numbers.specs.Blocks.{front_digits};

    ghost output = { λ t. Some (front_digits t.0 t.1 t.2) };

    fn fmt<W: fmt::Write>(&self, f: &mut fmt::Formatter<W>) -> fmt::Result {
        let Front(a, b, c) = *self;
        write!(
            f,
            "{}{}{}{}",
            digit(a / 8),
            digit(a % 8 * 4 + b / 64),
            digit(b / 2 % 32),
            digit(b % 2 * 16 + c / 16)
        )
    }
}

/// The last three digits of four octets.
#[derive(Clone, Copy)]
struct Three(u8, u8);

impl fmt::Display for Three {
    ghost use Rattle.numbers.specs.Blocks.{three_digits};

    ghost output = { λ t. Some (three_digits t.0 t.1) };

    fn fmt<W: fmt::Write>(&self, f: &mut fmt::Formatter<W>) -> fmt::Result {
        let Three(c, d) = *self;
        write!(
            f,
            "{}{}{}",
            digit(c % 16 * 2 + d / 128),
            digit(d / 4 % 32),
            digit(d % 4 * 8)
        )
    }
}

/// The last four digits of five octets.
#[derive(Clone, Copy)]
struct Back(u8, u8, u8);

impl fmt::Display for Back {
    ghost use Rattle.numbers.specs.Blocks.{back_digits};

    ghost output = { λ t. Some (back_digits t.0 t.1 t.2) };

    fn fmt<W: fmt::Write>(&self, f: &mut fmt::Formatter<W>) -> fmt::Result {
        let Back(c, d, e) = *self;
        write!(
            f,
            "{}{}{}{}",
            digit(c % 16 * 2 + d / 128),
            digit(d / 4 % 32),
            digit(d % 4 * 8 + e / 32),
            digit(e % 32)
        )
    }
}

/// The digits of 0 to 31, in lower case.
static DIGITS: [u8; 32] = *b"0123456789abcdefghijklmnopqrstuv";

/// A digit of base32hex, in lower case.
pub(crate) fn digit_octet(value: u8) -> u8
    requires { value < 32 }
    ensures { result ≡ digit value }
{
    DIGITS[value as usize]
}

fn digit(value: u8) -> char
    requires { value < 32 }
    ensures { result ≡ digit value }
{
    digit_octet(value) as char
}

/// What each octet stands for as a digit in either case, and 255 where it is none.
#[rattlefmt::skip]
static VALUES: [u8; 256] = [
    255, 255, 255, 255, 255, 255, 255, 255, 255, 255, 255, 255, 255, 255, 255, 255,
    255, 255, 255, 255, 255, 255, 255, 255, 255, 255, 255, 255, 255, 255, 255, 255,
    255, 255, 255, 255, 255, 255, 255, 255, 255, 255, 255, 255, 255, 255, 255, 255,
      0,   1,   2,   3,   4,   5,   6,   7,   8,   9, 255, 255, 255, 255, 255, 255,
    255,  10,  11,  12,  13,  14,  15,  16,  17,  18,  19,  20,  21,  22,  23,  24,
     25,  26,  27,  28,  29,  30,  31, 255, 255, 255, 255, 255, 255, 255, 255, 255,
    255,  10,  11,  12,  13,  14,  15,  16,  17,  18,  19,  20,  21,  22,  23,  24,
     25,  26,  27,  28,  29,  30,  31, 255, 255, 255, 255, 255, 255, 255, 255, 255,
    255, 255, 255, 255, 255, 255, 255, 255, 255, 255, 255, 255, 255, 255, 255, 255,
    255, 255, 255, 255, 255, 255, 255, 255, 255, 255, 255, 255, 255, 255, 255, 255,
    255, 255, 255, 255, 255, 255, 255, 255, 255, 255, 255, 255, 255, 255, 255, 255,
    255, 255, 255, 255, 255, 255, 255, 255, 255, 255, 255, 255, 255, 255, 255, 255,
    255, 255, 255, 255, 255, 255, 255, 255, 255, 255, 255, 255, 255, 255, 255, 255,
    255, 255, 255, 255, 255, 255, 255, 255, 255, 255, 255, 255, 255, 255, 255, 255,
    255, 255, 255, 255, 255, 255, 255, 255, 255, 255, 255, 255, 255, 255, 255, 255,
    255, 255, 255, 255, 255, 255, 255, 255, 255, 255, 255, 255, 255, 255, 255, 255,
];

/// What a digit in either case stands for.
pub(crate) fn value(octet: u8) -> Option<u8>
    ensures { MatchOption result (is_digit (to_ascii_lowercase octet) ≡ false)
        (λ v. (v < 32) × (digit v ≡ to_ascii_lowercase octet)) }
{
    let value = VALUES[octet as usize];
    if value < 32 { Some(value) } else { None }
}
