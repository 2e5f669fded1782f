//! Labels as text.

ghost use Rattle.std.specs.Prelude.{◌≡◌, Some, IfSome};
ghost use Rattle.std.specs.List.{list_all};
ghost use Rattle.definitions.specs.Text.{text_of_label};
ghost use Rattle.names_wire.specs.Label.{octets_of};
ghost use Rattle.names_wire.specs.Symbols.{is_plain};

use crate::label::Label;
use crate::symbol::Symbol;
use std::{fmt, str};

/// The octets as one text, where each octet is printed as itself.
#[tactic(auto, using(crate::proofs::PlainText::plain_label))]
fn plain_text(octets: &[u8]) -> Option<&str>
    ensures { IfSome result (λ text. text.now ≡ text_of_label octets.now) }
{
    if !is_plain_text(octets) {
        return None;
    }
    match str::from_utf8(octets) {
        Ok(text) => Some(text),
        Err(_) => None,
    }
}

/// Whether each octet is printed as itself.
fn is_plain_text(octets: &[u8]) -> bool
    ensures { result ≡ list_all is_plain octets.now }
{
    octets.iter().all(|octet| is_plain(*octet))
}

/// Whether an octet is printed as itself.
fn is_plain(octet: u8) -> bool
    ensures { result ≡ is_plain octet }
{
    !matches!(octet, b' ' | b'.' | b'\\') && matches!(octet, 0x20..=0x7e)
}

/// Prints the octets as symbols: the text of the label in a name, and nothing for the root's label.
impl<'a> fmt::Display for Label<'a> {
    ghost output = { λ label. Some (text_of_label (octets_of label)) };

    fn fmt<W: fmt::Write>(&self, f: &mut fmt::Formatter<W>) -> fmt::Result {
        if let Some(text) = plain_text(self.as_slice()) {
            return write!(f, "{text}");
        }
        for octet in self.as_slice() {
            write!(f, "{}", Symbol::from_octet(*octet))?;
        }
        Ok(())
    }
}
