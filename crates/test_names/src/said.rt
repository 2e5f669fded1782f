//! What is said of labels, names and what was made of them.

use names::{Label, Name, Octets, RelativeName};
use std::fmt::Display;
use test_lines::Line;

/// The name that octets spell; the root where they spell none.
pub fn flat<'a>(line: &mut Line<'_>, octets: &'a [u8]) -> Name<&'a [u8]> {
    let made = Name::from_slice(octets);
    line.check(made.is_ok());
    made.unwrap_or(Name::root_ref())
}

/// The relative name that octets spell; the empty one where they spell none.
pub fn relative_flat<'a>(line: &mut Line<'_>, octets: &'a [u8]) -> RelativeName<&'a [u8]> {
    let made = RelativeName::from_slice(octets);
    line.check(made.is_ok());
    made.unwrap_or(RelativeName::empty_ref())
}

/// The octets of a label, if there is one.
pub fn label(line: &mut Line<'_>, label: Option<Label<'_>>) {
    match label {
        Some(label) => line.hex(label.as_slice()),
        None => line.say("none"),
    }
}

/// The octets of a name, or why it was not made.
pub fn name<O: Octets + Drop, E: Display + Drop>(line: &mut Line<'_>, made: Result<Name<O>, E>) {
    match made {
        Ok(name) => line.hex(name.as_slice()),
        Err(error) => line.value(&error),
    }
}

/// The octets of a relative name, or why it was not made.
pub fn relative<O: Octets + Drop, E: Display + Drop>(
    line: &mut Line<'_>,
    made: Result<RelativeName<O>, E>,
) {
    match made {
        Ok(name) => line.hex(name.as_slice()),
        Err(error) => line.value(&error),
    }
}

/// A value, or why there is none.
pub fn value<V: Display + Drop, E: Display + Drop>(line: &mut Line<'_>, made: Result<V, E>) {
    match made {
        Ok(value) => line.value(&value),
        Err(error) => line.value(&error),
    }
}

/// Leaves no answer unless a name was made of these octets.
pub fn check_name<O: Octets + Drop, E: Drop>(
    line: &mut Line<'_>,
    made: Result<Name<O>, E>,
    octets: &[u8],
) {
    match made {
        Ok(name) => line.check(name.as_slice() == octets),
        Err(_) => line.lose(),
    }
}

/// Leaves no answer unless a relative name was made of these octets.
pub fn check_relative<O: Octets + Drop, E: Drop>(
    line: &mut Line<'_>,
    made: Result<RelativeName<O>, E>,
    octets: &[u8],
) {
    match made {
        Ok(name) => line.check(name.as_slice() == octets),
        Err(_) => line.lose(),
    }
}
