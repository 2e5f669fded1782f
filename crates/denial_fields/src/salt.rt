//! Salts of hashed names (RFC 5155, 3.1.5).

ghost use Rattle.std.specs.Prelude.{◌≡◌, ◌↔◌, ◌≤◌, ◌++◌, [], length, Some, IsOk, IfOk, IfErr, OnOk};
ghost use Rattle.std.specs.Prelude.{OnErr};
ghost use Rattle.std.specs.Ordering.{nat_cmp};
ghost use Rattle.std.specs.Cmp.Lexicographic.{slice_cmp};
ghost use Rattle.names_wire.specs.Room.{LeavesRoom};
ghost use Rattle.names_rdata.specs.Reading.{ReadsPart};
ghost use Rattle.denial_fields.specs.Counted.{counted, counted_part};
ghost use Rattle.denial_fields.specs.Texts.{salt_text, ReadsSalt};

use crate::counted::{compose_counted, parse_counted};
use crate::error::{Nsec3SaltError, Nsec3SaltFromStrError};
use hex::FromHexError;
use names_parser::error::ParseError;
use names_parser::parser::Parser;
use names_rdata::canonical::CanonicalOrd;
use names_rdata::digits::HexDigits;
use names_rdata::octets::FieldOctets;
use names_wire::builder::{OctetsBuilder, ShortBuf};
use names_wire::octets::Octets;
use std::alloc::Global;
use std::cmp::Ordering;
use std::fmt;
use std::marker::Model;

/// What names are hashed with: at most 255 octets. A contract sees the octets.
#[derive(Drop)]
#[derive_where(PartialEq, Eq, PartialOrd, Ord, Hash)]
pub struct Nsec3Salt<Octs: Octets> {
    octets: FieldOctets<Octs>,
}

impl<Octs: Octets> Model for Nsec3Salt<Octs> {
    ghost use Rattle.std.specs.Prelude.{List, ℕ, ◌≤◌, length};

    ghost Value = { List ℕ };

    ghost view = { λ s. s.octets };

    ghost inverse = { λ octets. record { octets = octets } };

    ghost invariant = { λ s. length s.octets ≤ 255 };
}

impl<Octs: Octets> Nsec3Salt<Octs> {
    /// The most octets that a salt has.
    pub const MAX_LEN: usize = 255;

    /// The salt of the octets. More than 255 octets are refused, and dropped.
    pub fn from_octets(octets: Octs) -> Result<Self, Nsec3SaltError>
    where
        Octs: Drop,
        ensures ok { IfOk result (λ s. s ≡ Octs.bytes octets) }
        ensures accepts { IsOk result ↔ (length (Octs.bytes octets) ≤ 255) }
    {
        if octets.as_slice().len() > 255 {
            return Err(Nsec3SaltError);
        }
        Ok(Nsec3Salt {
            octets: FieldOctets::new(octets),
        })
    }

    pub fn as_slice(&self) -> &[u8]
        ensures value { result.now ≡ self.now }
        ensures few { length result.now ≤ 255 }
    {
        self.octets.as_slice()
    }

    pub fn into_octets(self) -> Octs
        ensures { Octs.bytes result ≡ self }
    {
        self.octets.into_octets()
    }

    /// Appends the octets behind their number. A refused call leaves the target as it was.
    pub fn compose<B: OctetsBuilder>(&self, target: &mut B) -> Result<(), ShortBuf>
        ensures ok { OnOk result (B.bytes target.new ≡ B.bytes target.old ++ counted self.now) }
        ensures err { OnErr result (B.bytes target.new ≡ B.bytes target.old) }
        ensures full { OnErr result (B.lacks_room target.old (length (counted self.now))) }
        ensures left { let n = length (counted self.now) in
            OnOk result (LeavesRoom B.lacks_room target.old target.new n) }
    {
        compose_counted(self.as_slice(), target)
    }
}

impl<'a> Nsec3Salt<&'a [u8]> {
    /// The salt of the octets. More than 255 octets are refused.
    pub fn from_slice(octets: &'a [u8]) -> Result<Self, Nsec3SaltError>
        ensures ok { IfOk result (λ s. s ≡ octets.now) }
        ensures accepts { IsOk result ↔ (length octets.now ≤ 255) }
    {
        Nsec3Salt::from_octets(octets)
    }

    /// Reads a salt behind its length. A refused call leaves the parser where it was.
    pub fn parse(parser: &mut Parser<'a>) -> Result<Self, ParseError>
        ensures read { ReadsPart counted_part (λ s. counted s) parser.old parser.new result }
        ensures unchanged { OnErr result (parser.new ≡ parser.old) }
    {
        let octets = parse_counted(parser)?;
        Ok(Nsec3Salt {
            octets: FieldOctets::new(octets),
        })
    }
}

impl Nsec3Salt<Vec<u8>> {
    /// The salt of no octets.
    pub fn empty(alloc: Global) -> Self
        ensures { result ≡ [] }
    {
        Nsec3Salt {
            octets: FieldOctets::new(Vec::new(alloc)),
        }
    }

    /// Reads a salt as it is printed, digits in either case. An empty text is the empty salt too.
    pub fn from_str(alloc: Global, text: &str) -> Result<Self, Nsec3SaltFromStrError>
        ensures { ReadsSalt text.now result }
    {
        if text == "-" {
            return Ok(Nsec3Salt::empty(alloc));
        }
        match hex::decode(alloc, text) {
            Ok(octets) => match Nsec3Salt::from_octets(octets) {
                Ok(salt) => Ok(salt),
                Err(error) => Err(Nsec3SaltFromStrError::Nsec3SaltError(error)),
            },
            Err(FromHexError::OutOfMemory) => Err(Nsec3SaltFromStrError::Memory),
            Err(error) => Err(Nsec3SaltFromStrError::DecodeError(error)),
        }
    }
}

/// The order of the octets behind their number (RFC 4034, 6.3).
impl<Octs: Octets> CanonicalOrd for Nsec3Salt<Octs> {
    ghost canonical = { λ a b. slice_cmp nat_cmp (counted a) (counted b) };

    fn canonical_cmp(&self, other: &Self) -> Ordering {
        let (octets, others) = (self.as_slice(), other.as_slice());
        octets.len().cmp(&others.len()).then(octets.cmp(others))
    }
}

/// The salt in lower-case hexadecimal; the empty salt as `-` (RFC 5155, 3.3).
impl<Octs: Octets> fmt::Display for Nsec3Salt<Octs> {
    ghost output = { λ s. Some (salt_text s) };

    fn fmt<W: fmt::Write>(&self, f: &mut fmt::Formatter<W>) -> fmt::Result {
        let octets = self.as_slice();
        if octets.is_empty() {
            return write!(f, "-");
        }
        write!(f, "{}", HexDigits(octets))
    }
}
