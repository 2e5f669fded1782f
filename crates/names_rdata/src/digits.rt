//! Octets as text without memory: hexadecimal in lower case (RFC 4648, 8).

ghost use Rattle.std.specs.Prelude.{◌≡◌, ◌≤◌, Some};
ghost use Rattle.names_rdata.specs.Unknown.{hex, hex_digit};

use std::fmt;

/// Octets that print as hexadecimal: two digits each, the upper half first.
#[derive(Clone, Copy, Debug, Drop)]
pub struct HexDigits<'a>(pub &'a [u8]);

impl<'a> fmt::Display for HexDigits<'a> {
    ghost output = { λ d. Some (hex d.0.now) };

    fn fmt<W: fmt::Write>(&self, f: &mut fmt::Formatter<W>) -> fmt::Result {
        for &octet in self.0 {
            write!(f, "{}{}", hex_digit(octet / 16), hex_digit(octet % 16))?;
        }
        Ok(())
    }
}

/// A digit of hexadecimal, in lower case.
fn hex_digit(value: u8) -> char
    requires { value ≤ 15 }
    ensures { result ≡ hex_digit value }
{
    if value < 10 {
        (b'0' + value) as char
    } else {
        (b'a' - 10 + value) as char
    }
}

/// Octets that print as a blank and hexadecimal; an empty slice prints as nothing.
#[derive(Clone, Copy, Debug, Drop)]
pub struct HexField<'a>(pub &'a [u8]);

impl<'a> fmt::Display for HexField<'a> {
    ghost use Rattle.names_rdata.specs.Unknown.{hex_field};

    ghost output = { λ d. Some (hex_field d.0.now) };

    fn fmt<W: fmt::Write>(&self, f: &mut fmt::Formatter<W>) -> fmt::Result {
        if self.0.is_empty() {
            return Ok(());
        }
        write!(f, " {}", HexDigits(self.0))
    }
}
