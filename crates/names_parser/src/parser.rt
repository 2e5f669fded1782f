//! Octets that are read from front to back.

ghost use Rattle.std.specs.Prelude.{◌≡◌, ◌+◌, ◌-◌, ◌≤◌, length, IsOk, ◌↔◌, OnOk, OnErr, IfOk};
ghost use Rattle.std.specs.Prelude.{IfErr};
ghost use Rattle.names_parser.specs.Reader.{Takes, moved};

use crate::error::ParseError;
use std::marker::Model;

/// The octets of a message, the place of the next one that is read, and where reading ends: at the
/// message's end, or before it where only a part is read.
#[derive(Debug, Drop)]
pub struct Parser<'a> {
    octets: &'a [u8],
    pos: usize,
    end: usize,
}

impl<'a> Model for Parser<'a> {
    ghost use Rattle.std.specs.Prelude.{length, ◌≤◌};
    ghost use Rattle.names_parser.specs.Reader.{Reader};

    ghost Value = { Reader };

    ghost view = { λ p. record { octets = p.octets.now; place = p.pos; end = p.end } };

    ghost invariant = { λ p. (p.pos ≤ p.end) × (p.end ≤ length p.octets.now) };
}

impl<'a> Parser<'a> {
    /// The octets from their front on.
    pub fn from_ref(octets: &'a [u8]) -> Self
        ensures { result ≡ record { octets = octets.now; place = 0; end = length octets.now } }
    {
        Parser {
            octets,
            pos: 0,
            end: octets.len(),
        }
    }

    /// All octets of the message: those that are read too, and those behind the end.
    pub fn as_slice(&self) -> &'a [u8]
        ensures octets { result.now ≡ self.now.octets }
        ensures place { self.now.place ≤ self.now.end }
        ensures end { self.now.end ≤ length self.now.octets }
    {
        self.octets
    }

    /// The place of the next octet.
    pub fn pos(&self) -> usize
        ensures { result ≡ self.now.place }
    {
        self.pos
    }

    /// How many octets are left.
    pub fn remaining(&self) -> usize
        ensures { result ≡ self.now.end - self.now.place }
    {
        self.end - self.pos
    }

    /// Goes to a place before the end, or to the end.
    pub fn seek(&mut self, pos: usize) -> Result<(), ParseError>
        ensures ok { OnOk result (self.new ≡ record self.old { place = pos }) }
        ensures err { OnErr result (self.new ≡ self.old) }
        ensures inside { IsOk result ↔ (pos ≤ self.old.end) }
        ensures fault { IfErr result (λ e. e ≡ ParseError.ShortInput) }
    {
        if pos > self.end {
            return Err(ParseError::ShortInput);
        }
        self.pos = pos;
        Ok(())
    }

    /// Passes over the next `len` octets.
    pub fn advance(&mut self, len: usize) -> Result<(), ParseError>
        ensures { Takes len (λ _ _. Unit {0}) self.old self.new result }
    {
        if len > self.remaining() {
            return Err(ParseError::ShortInput);
        }
        self.pos += len;
        Ok(())
    }

    /// The next `len` octets.
    pub fn parse_octets(&mut self, len: usize) -> Result<&'a [u8], ParseError>
        ensures taken { Takes len (λ octets s. s.now ≡ octets) self.old self.new result }
        ensures all { IfOk result (λ s. length s.now ≡ len) }
    {
        let (octets, pos) = (self.octets, self.pos);
        self.advance(len)?;
        Ok(&octets[pos..pos + len])
    }

    /// A parser of the next `len` octets alone, over the whole message. This parser goes behind
    /// them.
    pub fn parse_parser(&mut self, len: usize) -> Result<Parser<'a>, ParseError>
        ensures { Takes len (λ _ p. p ≡ record self.old { end = self.old.place + len })
            self.old self.new result }
    {
        let (octets, pos) = (self.octets, self.pos);
        self.advance(len)?;
        Ok(Parser {
            octets,
            pos,
            end: pos + len,
        })
    }
}
