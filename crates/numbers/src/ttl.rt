//! Times to live.

ghost use Rattle.std.specs.Fmt.{decimal};
ghost use Rattle.std.specs.Prelude.{◌≡◌, Some};

use std::fmt;
use std::marker::Model;

/// How long a record may be kept, in seconds (RFC 2181, 8). A contract sees the seconds.
#[derive(Clone, Copy, Debug, PartialEq, Eq, PartialOrd, Ord, Hash)]
pub struct Ttl {
    secs: u32,
}

impl Model for Ttl {
    ghost use Rattle.std.specs.Prelude.{ℕ};

    ghost Value = { ℕ };

    ghost view = { λ n. n.secs };

    ghost inverse = { λ n. record { secs = n } };
}

impl Ttl {
    pub fn from_secs(secs: u32) -> Self
        ensures { result ≡ secs }
    {
        Ttl { secs }
    }

    pub fn as_secs(self) -> u32
        ensures { result ≡ self }
    {
        self.secs
    }
}

/// The seconds in decimal.
impl fmt::Display for Ttl {
    ghost output = { λ n. Some (decimal n) };

    fn fmt<W: fmt::Write>(&self, f: &mut fmt::Formatter<W>) -> fmt::Result {
        write!(f, "{}", self.secs)
    }
}
