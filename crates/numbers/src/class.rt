//! Classes of records.

ghost use Rattle.std.specs.Prelude.{◌≡◌, Some};
ghost use Rattle.numbers.specs.Classes.{class_text};

use std::fmt;
use std::marker::Model;

/// A class (RFC 1035, 3.2.4). A contract sees its number.
#[derive(Clone, Copy, Debug, PartialEq, Eq, PartialOrd, Ord, Hash)]
pub struct Class {
    number: u16,
}

impl Model for Class {
    ghost use Rattle.std.specs.Prelude.{ℕ};

    ghost Value = { ℕ };

    ghost view = { λ n. n.number };

    ghost inverse = { λ n. record { number = n } };
}

impl Class {
    /// The Internet.
    pub const IN: Class = Class { number: 1 };

    pub fn from_int(number: u16) -> Self
        ensures { result ≡ number }
    {
        Class { number }
    }

    pub fn to_int(self) -> u16
        ensures { result ≡ self }
    {
        self.number
    }
}

/// The name of the class, or `CLASS` and the number (RFC 3597, 5).
impl fmt::Display for Class {
    ghost output = { λ n. Some (class_text n) };

    fn fmt<W: fmt::Write>(&self, f: &mut fmt::Formatter<W>) -> fmt::Result {
        match self.number {
            1 => write!(f, "IN"),
            number => write!(f, "CLASS{number}"),
        }
    }
}
