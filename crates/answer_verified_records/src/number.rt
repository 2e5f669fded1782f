//! Numbers of records.

ghost use Rattle.std.specs.Prelude.{◌≡◌};

use std::marker::Model;

/// The number of a record in a message, counted from 0 over the answer, the authority and the
/// additional section in the order of the message (RFC 1035, 4.1). Records of any type count,
/// signatures and OPT too. A contract sees the number.
///
/// A record has its number in each message that holds the same records in the same order, however
/// names are compressed there: also where a message was put in canonical form.
#[derive(Clone, Copy, Debug, PartialEq, Eq)]
pub struct RecordNumber {
    number: u32,
}

impl Model for RecordNumber {
    ghost use Rattle.std.specs.Prelude.{ℕ};

    ghost Value = { ℕ };

    ghost view = { λ n. n.number };

    ghost inverse = { λ n. record { number = n } };
}

impl RecordNumber {
    pub(crate) fn new(number: u32) -> Self
        ensures { result ≡ number }
    {
        RecordNumber { number }
    }

    pub fn to_int(self) -> u32
        ensures { result ≡ self }
    {
        self.number
    }
}
