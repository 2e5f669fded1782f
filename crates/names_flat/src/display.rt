//! Names as text (RFC 1035, 5.1). The last dot is left out; the root is a dot.

ghost use Rattle.std.specs.Prelude.{Some};
ghost use Rattle.definitions.specs.Text.{text_of_name, text_of_relative};

use crate::name::Name;
use crate::relative::RelativeName;
use names_labels::text::write_labels;
use names_wire::octets::Octets;
use std::fmt;

impl<Octs: Octets> fmt::Display for Name<Octs> {
    ghost output = { λ n. Some (text_of_name n) };

    fn fmt<W: fmt::Write>(&self, f: &mut fmt::Formatter<W>) -> fmt::Result {
        if self.is_root() {
            return f.write_str(".");
        }
        write_labels(f, self.relative_run())
    }
}

impl<Octs: Octets> fmt::Display for RelativeName<Octs> {
    ghost output = { λ n. Some (text_of_relative n) };

    fn fmt<W: fmt::Write>(&self, f: &mut fmt::Formatter<W>) -> fmt::Result {
        if self.is_empty() {
            return Ok(());
        }
        write_labels(f, self.run())
    }
}
