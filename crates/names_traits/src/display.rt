//! Absolute names as text with the last dot (RFC 1035, 5.1).

ghost use Rattle.std.specs.Prelude.{◌≡◌, Some};
ghost use Rattle.definitions.specs.Text.{dotted_text_of_name};

use names_labels::text::NameText;
use names_labels::traits::{Absolute, Labels, ToLabelIter};
use std::fmt;
use std::marker::Model;

/// An absolute name that is printed with its last dot.
#[derive(Drop)]
pub struct DisplayWithDot<'a, N: Absolute> {
    name: &'a N,
}

impl<'a, N: Absolute> Model for DisplayWithDot<'a, N> {
    ghost use Rattle.std.specs.Prelude.{List, ℕ};

    ghost Value = { List (List ℕ) };

    ghost view = { λ d. N.name d.name.now };
}

impl<'a, N: Absolute> DisplayWithDot<'a, N> {
    pub(crate) fn new(name: &'a N) -> Self
        ensures { result ≡ N.name name.now }
    {
        DisplayWithDot { name }
    }
}

impl<'a, N: Absolute> fmt::Display for DisplayWithDot<'a, N> {
    ghost output = { λ n. Some (dotted_text_of_name n) };

    fn fmt<W: fmt::Write>(&self, f: &mut fmt::Formatter<W>) -> fmt::Result {
        let (count, mut labels) = (self.name.label_count(), self.name.iter_labels());
        if count == 1 {
            return f.write_str(".");
        }
        let mut text = NameText::new();
        for _ in 1..count {
            if let Some(label) = labels.next() {
                text.push_label(label);
            }
        }
        f.write_str(text.as_str())
    }
}
