//! Record types.

ghost use Rattle.std.specs.Prelude.{◌≡◌, Some};
ghost use Rattle.numbers.specs.Types.{type_text};

use std::fmt;
use std::marker::Model;

/// A record type (RFC 1035, 3.2.2). A contract sees its number.
#[derive(Clone, Copy, Debug, PartialEq, Eq, PartialOrd, Ord, Hash)]
pub struct Rtype {
    number: u16,
}

impl Model for Rtype {
    ghost use Rattle.std.specs.Prelude.{ℕ};

    ghost Value = { ℕ };

    ghost view = { λ n. n.number };

    ghost inverse = { λ n. record { number = n } };
}

impl Rtype {
    /// An IPv4 address (RFC 1035, 3.4.1).
    pub const A: Rtype = Rtype { number: 1 };
    /// A name server (RFC 1035, 3.3.11).
    pub const NS: Rtype = Rtype { number: 2 };
    /// An alias (RFC 1035, 3.3.1).
    pub const CNAME: Rtype = Rtype { number: 5 };
    /// The start of a zone (RFC 1035, 3.3.13).
    pub const SOA: Rtype = Rtype { number: 6 };
    /// A mail exchange (RFC 1035, 3.3.9).
    pub const MX: Rtype = Rtype { number: 15 };
    /// Text (RFC 1035, 3.3.14).
    pub const TXT: Rtype = Rtype { number: 16 };
    /// An alias of a subtree (RFC 6672).
    pub const DNAME: Rtype = Rtype { number: 39 };
    /// A pseudo record of EDNS (RFC 6891).
    pub const OPT: Rtype = Rtype { number: 41 };
    /// A digest of a delegated key (RFC 4034, 5).
    pub const DS: Rtype = Rtype { number: 43 };
    /// A signature (RFC 4034, 3).
    pub const RRSIG: Rtype = Rtype { number: 46 };
    /// A link of the chain of names (RFC 4034, 4).
    pub const NSEC: Rtype = Rtype { number: 47 };
    /// A key of the zone (RFC 4034, 2).
    pub const DNSKEY: Rtype = Rtype { number: 48 };
    /// A link of the chain of hashed names (RFC 5155, 3).
    pub const NSEC3: Rtype = Rtype { number: 50 };
    /// What names are hashed with (RFC 5155, 4).
    pub const NSEC3PARAM: Rtype = Rtype { number: 51 };

    pub fn from_int(number: u16) -> Self
        ensures { result ≡ number }
    {
        Rtype { number }
    }

    pub fn to_int(self) -> u16
        ensures { result ≡ self }
    {
        self.number
    }
}

/// The name of the type, or `TYPE` and the number (RFC 3597, 5).
impl fmt::Display for Rtype {
    ghost output = { λ n. Some (type_text n) };

    fn fmt<W: fmt::Write>(&self, f: &mut fmt::Formatter<W>) -> fmt::Result {
        match self.number {
            1 => write!(f, "A"),
            2 => write!(f, "NS"),
            5 => write!(f, "CNAME"),
            6 => write!(f, "SOA"),
            15 => write!(f, "MX"),
            16 => write!(f, "TXT"),
            39 => write!(f, "DNAME"),
            41 => write!(f, "OPT"),
            43 => write!(f, "DS"),
            46 => write!(f, "RRSIG"),
            47 => write!(f, "NSEC"),
            48 => write!(f, "DNSKEY"),
            50 => write!(f, "NSEC3"),
            51 => write!(f, "NSEC3PARAM"),
            number => write!(f, "TYPE{number}"),
        }
    }
}
