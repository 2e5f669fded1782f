//! Which parts the data of each type have.

ghost use Rattle.std.specs.Prelude.{◌≡◌, ◌==◌, find, option_map};
ghost use Rattle.master_file_data.specs.Layouts.{parts_of};

use names_rdata::rtype::Rtype;

/// A part of data.
#[derive(Clone, Copy, Debug, PartialEq, Eq)]
pub enum Part {
    Name,
    /// A name, written in lower case, in which it is signed (RFC 4034, 6.2).
    LowerName,
    Number8,
    Number16,
    Number32,
    Seconds,
    Algorithm,
    Certificate,
    Ipv4,
    Ipv6,
    Eui48,
    Eui64,
    /// A text behind its length (RFC 1035, 3.3).
    Text,
    /// A text of letters and digits behind its length (RFC 8659, 4.1).
    Tag,
    /// A text without its length, at the end of data.
    Value,
    /// The same of one octet or more.
    SomeValue,
    Salt,
    /// All fields that are left, of which there are some.
    Texts,
    Hexadecimal,
    Base64,
    /// All fields that are left, maybe none.
    Types,
    Prefixes,
    Location,
    Parameters,
}

use Part::{
    Algorithm, Base64, Certificate, Hexadecimal, LowerName, Name, Number8, Number16, Number32,
    Seconds, Text,
};

/// The parts of data, by type.
const LAYOUTS: [(u16, &[Part]); 36] = [
    (1, &[Part::Ipv4]),
    (2, &[Name]),
    (5, &[LowerName]),
    (
        6,
        &[Name, Name, Number32, Seconds, Seconds, Seconds, Seconds],
    ),
    (12, &[LowerName]),
    (13, &[Text, Text]),
    (15, &[Number16, LowerName]),
    (16, &[Part::Texts]),
    (17, &[LowerName, LowerName]),
    (18, &[Number16, LowerName]),
    (28, &[Part::Ipv6]),
    (29, &[Part::Location]),
    (33, &[Number16, Number16, Number16, LowerName]),
    (35, &[Number16, Number16, Text, Text, Text, LowerName]),
    (36, &[Number16, LowerName]),
    (37, &[Certificate, Number16, Algorithm, Base64]),
    (39, &[LowerName]),
    (42, &[Part::Prefixes]),
    (43, &[Number16, Algorithm, Number8, Hexadecimal]),
    (44, &[Number8, Number8, Hexadecimal]),
    (48, &[Number16, Number8, Algorithm, Base64]),
    (51, &[Number8, Number8, Number16, Part::Salt]),
    (52, &[Number8, Number8, Number8, Hexadecimal]),
    (53, &[Number8, Number8, Number8, Hexadecimal]),
    (59, &[Number16, Algorithm, Number8, Hexadecimal]),
    (60, &[Number16, Number8, Algorithm, Base64]),
    (61, &[Base64]),
    (62, &[Number32, Number16, Part::Types]),
    (63, &[Number32, Number8, Number8, Hexadecimal]),
    (64, &[Number16, Name, Part::Parameters]),
    (65, &[Number16, Name, Part::Parameters]),
    (99, &[Part::Texts]),
    (108, &[Part::Eui48]),
    (109, &[Part::Eui64]),
    (256, &[Number16, Number16, Part::SomeValue]),
    (257, &[Number8, Part::Tag, Part::Value]),
];

/// The parts of data of a type, if it has a text form that is read.
pub(crate) fn parts_of(rtype: Rtype) -> Option<&'static [Part]>
    ensures { option_map (λ ps. ps.now) result ≡ parts_of rtype }
{
    parts_in(&LAYOUTS, rtype.to_int())
}

/// The parts in the first row of a table that is of a number.
fn parts_in<'p>(layouts: &[(u16, &'p [Part])], number: u16) -> Option<&'p [Part]>
    ensures { let found = find (λ l. l.0 == number) layouts.now in
        option_map (λ ps. ps.now) result ≡ option_map (λ l. l.1.now) found }
{
    match layouts.iter().find(|layout| layout.0 == number) {
        Some((_, parts)) => Some(parts),
        None => None,
    }
}
