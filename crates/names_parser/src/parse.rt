//! Values that are read from a fixed number of octets (RFC 1035, 2.3.2: numbers with the highest
//! octet first).

ghost use Rattle.std.specs.Prelude.{◌≡◌, ℕ, List, [], ◌∷◌, slice_index};
ghost use Rattle.std.specs.Int.{w8, w16, w32, w64, from_be_bytes, cast_signed};
ghost use Rattle.std.specs.Net.Addr.{ipv4_octets, ipv6_segments, segments_of};
ghost use Rattle.names_parser.specs.Reader.{Takes};

use crate::error::ParseError;
use crate::parser::Parser;
use std::net::{Ipv4Addr, Ipv6Addr};

/// A value of a fixed number of octets that can be read.
pub trait Parse: Sized {
    /// How many octets it takes.
    ghost width: { ℕ };

    /// The octets are those of the value.
    ghost spells: { List ℕ → Self → Type 0 };

    /// Reads the next octets. The call is refused only where there are too few, and then it reads
    /// nothing.
    fn parse(parser: &mut Parser<'_>) -> Result<Self, ParseError>
        ensures { Takes width spells parser.old parser.new result };
}

impl<const N: usize> Parse for [u8; N] {
    ghost width = { N };

    ghost spells = { λ octets a. a ≡ octets };

    fn parse(parser: &mut Parser<'_>) -> Result<Self, ParseError> {
        let octets = parser.parse_octets(N)?;
        match <[u8; N]>::try_from(octets) {
            Ok(array) => Ok(array),
            Err(_) => unreachable!(),
        }
    }
}

impl Parse for u8 {
    ghost width = { 1 };

    ghost spells = { λ octets n. octets ≡ n ∷ [] };

    fn parse(parser: &mut Parser<'_>) -> Result<Self, ParseError> {
        let [octet] = <[u8; 1]>::parse(parser)?;
        Ok(octet)
    }
}

impl Parse for u16 {
    ghost width = { 2 };

    ghost spells = { λ octets n. n ≡ from_be_bytes w16 octets };

    fn parse(parser: &mut Parser<'_>) -> Result<Self, ParseError> {
        Ok(u16::from_be_bytes(<[u8; 2]>::parse(parser)?))
    }
}

impl Parse for u32 {
    ghost width = { 4 };

    ghost spells = { λ octets n. n ≡ from_be_bytes w32 octets };

    fn parse(parser: &mut Parser<'_>) -> Result<Self, ParseError> {
        Ok(u32::from_be_bytes(<[u8; 4]>::parse(parser)?))
    }
}

impl Parse for u64 {
    ghost width = { 8 };

    ghost spells = { λ octets n. n ≡ from_be_bytes w64 octets };

    fn parse(parser: &mut Parser<'_>) -> Result<Self, ParseError> {
        Ok(u64::from_be_bytes(<[u8; 8]>::parse(parser)?))
    }
}

impl Parse for i8 {
    ghost width = { 1 };

    ghost spells = { λ octets n. n ≡ cast_signed w8 (slice_index octets 0) };

    fn parse(parser: &mut Parser<'_>) -> Result<Self, ParseError> {
        Ok(i8::from_be_bytes(<[u8; 1]>::parse(parser)?))
    }
}

impl Parse for i16 {
    ghost width = { 2 };

    ghost spells = { λ octets n. n ≡ cast_signed w16 (from_be_bytes w16 octets) };

    fn parse(parser: &mut Parser<'_>) -> Result<Self, ParseError> {
        Ok(i16::from_be_bytes(<[u8; 2]>::parse(parser)?))
    }
}

impl Parse for i32 {
    ghost width = { 4 };

    ghost spells = { λ octets n. n ≡ cast_signed w32 (from_be_bytes w32 octets) };

    fn parse(parser: &mut Parser<'_>) -> Result<Self, ParseError> {
        Ok(i32::from_be_bytes(<[u8; 4]>::parse(parser)?))
    }
}

impl Parse for i64 {
    ghost width = { 8 };

    ghost spells = { λ octets n. n ≡ cast_signed w64 (from_be_bytes w64 octets) };

    fn parse(parser: &mut Parser<'_>) -> Result<Self, ParseError> {
        Ok(i64::from_be_bytes(<[u8; 8]>::parse(parser)?))
    }
}

impl Parse for Ipv4Addr {
    ghost width = { 4 };

    ghost spells = { λ octets a. ipv4_octets a ≡ octets };

    fn parse(parser: &mut Parser<'_>) -> Result<Self, ParseError> {
        Ok(Ipv4Addr::from_octets(<[u8; 4]>::parse(parser)?))
    }
}

impl Parse for Ipv6Addr {
    ghost width = { 16 };

    ghost spells = { λ octets a. ipv6_segments a ≡ segments_of octets };

    fn parse(parser: &mut Parser<'_>) -> Result<Self, ParseError> {
        Ok(Ipv6Addr::from_octets(<[u8; 16]>::parse(parser)?))
    }
}
