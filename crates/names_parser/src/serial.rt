//! Serial numbers (RFC 1982).

ghost use Rattle.std.specs.Fmt.{decimal};
ghost use Rattle.std.specs.Prelude.{◌≡◌, Some, ◌≤◌, ◌++◌, length, OnOk, OnErr};
ghost use Rattle.std.specs.Int.{w32, from_be_bytes, to_be_bytes};
ghost use Rattle.std.specs.Ordering.{nat_cmp};
ghost use Rattle.names_wire.specs.Serial.{serial_le};
ghost use Rattle.names_wire.specs.Room.{LeavesRoom};
ghost use Rattle.names_parser.specs.Reader.{Takes};
ghost use Rattle.names_parser.specs.Serials.{serial_add, serial_cmp};

use crate::compose::Compose;
use crate::error::ParseError;
use crate::parse::Parse;
use crate::parser::Parser;
use names_wire::builder::{OctetsBuilder, ShortBuf};
use std::cmp::Ordering;
use std::fmt;
use std::num::ParseIntError;
use std::str::FromStr;

/// A serial number: 32 bits that go round. One is before another where the way up to it is less
/// than 2^31 (RFC 1982, 3).
#[derive(Clone, Copy, Debug, PartialEq, Eq, Hash)]
pub struct Serial(pub u32);

impl Serial {
    /// The octets that a serial number takes.
    pub const COMPOSE_LEN: u16 = 4;

    /// The number of four octets, the highest first.
    pub fn from_be_bytes(bytes: [u8; 4]) -> Self
        ensures { result.0 ≡ from_be_bytes w32 bytes }
    {
        Serial(u32::from_be_bytes(bytes))
    }

    pub fn into_int(self) -> u32
        ensures { result ≡ self.0 }
    {
        self.0
    }

    /// The number that is `other` further round the circle. `other` is at most 2^31 - 1 (RFC 1982,
    /// 3.1).
    pub fn add(self, other: u32) -> Self
        requires { other ≤ 2147483647 }
        ensures { result.0 ≡ serial_add self.0 other }
    {
        Serial(self.0.wrapping_add(other))
    }

    /// Whether this number equals the other or is less than half the circle before it (RFC 1982,
    /// 3.2).
    pub fn is_at_or_before(&self, other: &Self) -> bool
        ensures { result ≡ serial_le self.now.0 other.now.0 }
    {
        other.0.wrapping_sub(self.0) < 0x8000_0000
    }

    /// Compares two serial numbers. Two numbers that are 2^31 apart have no order (RFC 1982, 3.2).
    pub fn partial_cmp(&self, other: &Self) -> Option<Ordering>
        ensures { result ≡ serial_cmp self.now.0 other.now.0 }
    {
        match (self.is_at_or_before(other), other.is_at_or_before(self)) {
            (true, true) => Some(Ordering::Equal),
            (true, false) => Some(Ordering::Less),
            (false, true) => Some(Ordering::Greater),
            (false, false) => None,
        }
    }

    /// The plain order of the numbers, and so of their octets (RFC 4034, 6.3).
    pub fn canonical_cmp(&self, other: &Self) -> Ordering
        ensures { result ≡ nat_cmp self.now.0 other.now.0 }
    {
        self.0.cmp(&other.0)
    }

    /// The number of the next four octets. A refused call reads nothing.
    pub fn parse(parser: &mut Parser<'_>) -> Result<Self, ParseError>
        ensures { Takes 4 (λ octets n. n.0 ≡ from_be_bytes w32 octets)
            parser.old parser.new result }
    {
        Ok(Serial(<u32 as Parse>::parse(parser)?))
    }

    /// Appends the four octets. A refused call leaves the target as it was.
    pub fn compose<B: OctetsBuilder>(&self, target: &mut B) -> Result<(), ShortBuf>
        ensures ok { let octets = to_be_bytes w32 self.now.0 in
            OnOk result (B.bytes target.new ≡ B.bytes target.old ++ octets) }
        ensures err { OnErr result (B.bytes target.new ≡ B.bytes target.old) }
        ensures full { OnErr result (B.lacks_room target.old 4) }
        ensures left { OnOk result (LeavesRoom B.lacks_room target.old target.new 4) }
    {
        self.0.compose(target)
    }
}

impl From<u32> for Serial {
    ghost from_gives = { λ n s. s.0 ≡ n };

    fn from(number: u32) -> Serial {
        Serial(number)
    }
}

impl From<Serial> for u32 {
    ghost from_gives = { λ s n. n ≡ s.0 };

    fn from(serial: Serial) -> u32 {
        serial.0
    }
}

impl FromStr for Serial {
    ghost use Rattle.names_parser.specs.SerialText.{ReadsSerial};

    type Err = ParseIntError;

    ghost from_str_gives = { ReadsSerial };

    fn from_str(text: &str) -> Result<Self, ParseIntError> {
        Ok(Serial(u32::from_str(text)?))
    }
}

impl fmt::Display for Serial {
    ghost output = { λ s. Some (decimal s.0) };

    fn fmt<W: fmt::Write>(&self, f: &mut fmt::Formatter<W>) -> fmt::Result {
        write!(f, "{}", self.0)
    }
}
