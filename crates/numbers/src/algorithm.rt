//! The numbers of algorithms: of keys and their signatures, and of digests of keys.

ghost use Rattle.std.specs.Fmt.{decimal};
ghost use Rattle.std.specs.Prelude.{◌≡◌, Some};

use std::fmt;
use std::marker::Model;

/// An algorithm of keys and signatures (RFC 4034, A.1). A contract sees its number.
#[derive(Clone, Copy, Debug, PartialEq, Eq, PartialOrd, Ord, Hash)]
pub struct SecurityAlgorithm {
    number: u8,
}

impl Model for SecurityAlgorithm {
    ghost use Rattle.std.specs.Prelude.{ℕ};

    ghost Value = { ℕ };

    ghost view = { λ n. n.number };

    ghost inverse = { λ n. record { number = n } };
}

impl SecurityAlgorithm {
    /// ECDSA on the curve P-256 with SHA-256 (RFC 6605).
    pub const ECDSAP256SHA256: SecurityAlgorithm = SecurityAlgorithm { number: 13 };

    pub fn from_int(number: u8) -> Self
        ensures { result ≡ number }
    {
        SecurityAlgorithm { number }
    }

    pub fn to_int(self) -> u8
        ensures { result ≡ self }
    {
        self.number
    }
}

/// The number in decimal.
impl fmt::Display for SecurityAlgorithm {
    ghost output = { λ n. Some (decimal n) };

    fn fmt<W: fmt::Write>(&self, f: &mut fmt::Formatter<W>) -> fmt::Result {
        write!(f, "{}", self.number)
    }
}

/// An algorithm of digests of keys (RFC 4034, A.2). A contract sees its number.
#[derive(Clone, Copy, Debug, PartialEq, Eq, PartialOrd, Ord, Hash)]
pub struct DigestAlgorithm {
    number: u8,
}

impl Model for DigestAlgorithm {
    ghost use Rattle.std.specs.Prelude.{ℕ};

    ghost Value = { ℕ };

    ghost view = { λ n. n.number };

    ghost inverse = { λ n. record { number = n } };
}

impl DigestAlgorithm {
    /// SHA-256 (RFC 4509).
    pub const SHA256: DigestAlgorithm = DigestAlgorithm { number: 2 };

    pub fn from_int(number: u8) -> Self
        ensures { result ≡ number }
    {
        DigestAlgorithm { number }
    }

    pub fn to_int(self) -> u8
        ensures { result ≡ self }
    {
        self.number
    }
}

/// The number in decimal.
impl fmt::Display for DigestAlgorithm {
    ghost output = { λ n. Some (decimal n) };

    fn fmt<W: fmt::Write>(&self, f: &mut fmt::Formatter<W>) -> fmt::Result {
        write!(f, "{}", self.number)
    }
}
