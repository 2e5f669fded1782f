//! Octets as base64 text, printed without memory (RFC 4648, 4).

ghost use Rattle.std.specs.Prelude.{Some};

use base64::display::Base64Display;
use base64::engine::general_purpose::STANDARD;
use std::fmt;

/// Octets that print as a blank and base64; an empty slice prints as nothing.
#[derive(Clone, Copy, Debug, Drop)]
pub struct Base64Field<'a>(pub &'a [u8]);

impl<'a> fmt::Display for Base64Field<'a> {
    ghost use Rattle.denial_fields.specs.Fields.{base64_field};

    ghost output = { λ d. Some (base64_field d.0.now) };

    fn fmt<W: fmt::Write>(&self, f: &mut fmt::Formatter<W>) -> fmt::Result {
        if self.0.is_empty() {
            return Ok(());
        }
        write!(f, " {}", Base64Display::new(self.0, &STANDARD))
    }
}
