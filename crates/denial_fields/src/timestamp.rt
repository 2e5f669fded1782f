//! Times of signatures (RFC 4034, 3.1.5).

ghost use Rattle.std.specs.Fmt.{decimal};
ghost use Rattle.std.specs.Prelude.{◌≡◌, ◌≤◌, ◌^◌, ◌++◌, ℕ, Some, IfSome, IsNone, OnOk, OnErr};
ghost use Rattle.std.specs.Prelude.{length};
ghost use Rattle.std.specs.Int.{w32, from_be_bytes, to_be_bytes};
ghost use Rattle.std.specs.Ordering.{nat_cmp};
ghost use Rattle.definitions.specs.Serial.{serial_le};
ghost use Rattle.names_wire.specs.Room.{LeavesRoom};
ghost use Rattle.names_parser.specs.Reader.{Takes};
ghost use Rattle.names_parser.specs.Serials.{serial_cmp};
ghost use Rattle.denial_fields.specs.Times.{IsTimeNear};

use crate::error::IllegalSignatureTime;
use names_parser::error::ParseError;
use names_parser::parser::Parser;
use names_parser::serial::Serial;
use names_rdata::canonical::CanonicalOrd;
use names_wire::builder::{OctetsBuilder, ShortBuf};
use std::cmp::Ordering;
use std::fmt;
use std::marker::Model;
use std::str::FromStr;

/// A time in seconds since the beginning of 1970, modulo 2^32. A contract sees the seconds.
#[derive(Clone, Copy, Debug, PartialEq, Eq, Hash)]
pub struct Timestamp {
    seconds: u32,
}

impl Model for Timestamp {
    ghost use Rattle.std.specs.Prelude.{ℕ};

    ghost Value = { ℕ };

    ghost view = { λ t. t.seconds };

    ghost inverse = { λ t. record { seconds = t } };
}

impl Timestamp {
    /// The octets that a time takes.
    pub const COMPOSE_LEN: u16 = 4;

    pub fn into_int(self) -> u32
        ensures { result ≡ self }
    {
        self.seconds
    }

    /// The time in seconds since 1970 that lies less than 2^31 seconds from a reference, or exactly
    /// 2^31 before it. Where that would lie before 1970, it is the seconds as they are. `None`
    /// where the time does not fit in 64 bits.
    pub fn to_system_time(self, reference: u64) -> Option<u64>
        ensures near { IfSome result (IsTimeNear self reference) }
        ensures past { IsNone result → (time : ℕ) → IsTimeNear self reference time → 2 ^ 64 ≤ time }
    {
        let low = reference % 0x1_0000_0000;
        let ahead = (u64::from(self.seconds) + 0x1_0000_0000 - low) % 0x1_0000_0000;
        if ahead < 0x8000_0000 {
            return reference.checked_add(ahead);
        }
        let behind = 0x1_0000_0000 - ahead;
        if behind <= reference {
            Some(reference - behind)
        } else {
            Some(u64::from(self.seconds))
        }
    }

    /// Whether this time equals the other or is less than half the circle before it, as serial
    /// numbers (RFC 4034, 3.1.5).
    pub fn is_at_or_before(&self, other: &Self) -> bool
        ensures { result ≡ serial_le self.now other.now }
    {
        Serial(self.seconds).is_at_or_before(&Serial(other.seconds))
    }

    /// Compares two times as serial numbers. Two times that are 2^31 seconds apart have no order.
    pub fn partial_cmp(&self, other: &Self) -> Option<Ordering>
        ensures { result ≡ serial_cmp self.now other.now }
    {
        Serial(self.seconds).partial_cmp(&Serial(other.seconds))
    }

    /// The time of the next four octets. A refused call reads nothing.
    pub fn parse(parser: &mut Parser<'_>) -> Result<Self, ParseError>
        ensures { Takes 4 (λ octets t. t ≡ from_be_bytes w32 octets) parser.old parser.new result }
    {
        let serial = Serial::parse(parser)?;
        Ok(Timestamp { seconds: serial.0 })
    }

    /// Appends the four octets. A refused call leaves the target as it was.
    pub fn compose<B: OctetsBuilder>(&self, target: &mut B) -> Result<(), ShortBuf>
        ensures ok { let octets = to_be_bytes w32 self.now in
            OnOk result (B.bytes target.new ≡ B.bytes target.old ++ octets) }
        ensures err { OnErr result (B.bytes target.new ≡ B.bytes target.old) }
        ensures full { OnErr result (B.lacks_room target.old 4) }
        ensures left { OnOk result (LeavesRoom B.lacks_room target.old target.new 4) }
    {
        Serial(self.seconds).compose(target)
    }
}

/// The plain order of the numbers, which is that of their octets (RFC 4034, 6.3).
impl CanonicalOrd for Timestamp {
    ghost canonical = { nat_cmp };

    fn canonical_cmp(&self, other: &Self) -> Ordering {
        self.seconds.cmp(&other.seconds)
    }
}

impl From<u32> for Timestamp {
    ghost from_gives = { λ n t. t ≡ n };

    fn from(seconds: u32) -> Timestamp {
        Timestamp { seconds }
    }
}

/// Reads the seconds as a number of 32 bits in decimal.
impl FromStr for Timestamp {
    ghost use Rattle.std.specs.Str.Parse.{ParsesUnsigned};

    type Err = IllegalSignatureTime;

    ghost from_str_gives = { ParsesUnsigned 32 10 };

    fn from_str(text: &str) -> Result<Self, IllegalSignatureTime> {
        match u32::from_str(text) {
            Ok(seconds) => Ok(Timestamp { seconds }),
            Err(_) => Err(IllegalSignatureTime),
        }
    }
}

/// The seconds in decimal.
impl fmt::Display for Timestamp {
    ghost output = { λ t. Some (decimal t) };

    fn fmt<W: fmt::Write>(&self, f: &mut fmt::Formatter<W>) -> fmt::Result {
        write!(f, "{}", self.seconds)
    }
}
