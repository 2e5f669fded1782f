//! Laws of names and data that were written. Each is a function without a parameter, whose contract
//! is the law.

ghost use Rattle.std.specs.Prelude.{ℕ, List, ◌≤◌, length};
ghost use Rattle.names_rdata.specs.Reading.{limited, rest_part};
ghost use Rattle.names_rdata.specs.ReadBack.{NamesAreReadBack, IsReadBack};

/// A name in wire form is read as that name wherever it stands in a message, and ends behind its
/// octets.
pub fn names_are_read_back()
    ensures { NamesAreReadBack }
{}

/// Data of a type that is not known are read as the octets that were written (RFC 3597, 3).
pub fn unknown_data_are_read_back()
    ensures { (octets : List ℕ) → length octets ≤ 65535 → IsReadBack (limited rest_part) octets }
{}
