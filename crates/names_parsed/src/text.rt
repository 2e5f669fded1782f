//! Names in messages as text (RFC 1035, 5.1).

ghost use Rattle.std.specs.Prelude.{◌≡◌, Some};
ghost use Rattle.definitions.specs.Text.{text_of_name};
ghost use Rattle.names_parsed.specs.Parsed.{parsed_name};

use crate::parsed::ParsedName;
use names_labels::text::NameText;
use std::fmt;

/// The last dot is left out; the root is a dot.
impl<'a> fmt::Display for ParsedName<'a> {
    ghost output = { λ n. Some (text_of_name (parsed_name n)) };

    fn fmt<W: fmt::Write>(&self, f: &mut fmt::Formatter<W>) -> fmt::Result {
        if self.is_root() {
            return f.write_str(".");
        }
        let mut text = NameText::new();
        let mut labels = self.relative_labels();
        while let Some(label) = labels.next() {
            text.push_label(label);
        }
        f.write_str(text.without_last_dot())
    }
}

/// The text of `Display`.
impl<'a> fmt::Debug for ParsedName<'a> {
    fn fmt<W: fmt::Write>(&self, f: &mut fmt::Formatter<W>) -> fmt::Result {
        fmt::Display::fmt(self, f)
    }
}
