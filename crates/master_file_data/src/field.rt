//! Fields of an entry, and names in them.

ghost use Rattle.std.specs.Prelude.{◌≡◌, Some, IfOk, option_map};
ghost use Rattle.std.specs.Str.{chars as chars_of};
ghost use Rattle.definitions.specs.Text.{name_of_text};
ghost use Rattle.master_file_data.specs.Fields.{IsBelow, IsNameOf, is_absolute};

use crate::fault::DataFault;
use names_flat::name::Name;
use names_flat::text_error::FromStrError;
use names_traits::to_name::ToName;
use std::alloc::Global;

/// A field of an entry, with its escapes as they are written.
#[derive(Debug, Drop)]
pub struct Field {
    pub text: String,
    pub is_quoted: bool,
    /// Whether no blank stands between it and the field before.
    pub is_joined: bool,
}

/// What relative names stand below, if anything.
pub type Origin<'a> = Option<&'a Name<Vec<u8>>>;

/// A name: absolute behind a last dot, else below the origin; `@` is the origin (RFC 1035, 5.1).
pub fn name_of(
    alloc: Global,
    field: &Field,
    origin: Option<&Name<Vec<u8>>>,
) -> Result<Name<Vec<u8>>, DataFault>
    ensures { let o = option_map (λ n. n.now) origin.entry in
        IfOk result (λ n. IsNameOf o field.now n) }
{
    let text = field.text.as_str();
    if field.is_quoted {
        return Err(DataFault::Name);
    }
    if is_absolute(text) {
        return name_from(alloc, text);
    }
    match origin {
        Some(origin) => name_below(alloc, text, origin),
        None => Err(DataFault::NoOrigin),
    }
}

/// The name of a text below an origin; `@` is the origin.
fn name_below(alloc: Global, text: &str, origin: &Name<Vec<u8>>) -> Result<Name<Vec<u8>>, DataFault>
    ensures { IfOk result (λ n. IsBelow text.now n origin.now) }
{
    if let [b'@'] = text.as_bytes() {
        return origin.to_vec(alloc).map_err(|_| DataFault::Memory);
    }
    let below = if origin.is_root() {
        format!(in alloc; "{text}.")?
    } else {
        let origin = origin.fmt_with_dot();
        format!(in alloc; "{text}.{origin}")?
    };
    name_from(alloc, &below)
}

/// Whether a dot ends a text that is not escaped.
fn is_absolute(text: &str) -> bool
    ensures { result ≡ is_absolute text.now }
{
    let (mut is_escaped, mut ends) = (false, false);
    for octet in text.as_bytes() {
        ends = *octet == b'.' && !is_escaped;
        is_escaped = *octet == b'\\' && !is_escaped;
    }
    ends
}

/// The name that a text spells.
pub fn name_from(alloc: Global, text: &str) -> Result<Name<Vec<u8>>, DataFault>
    ensures { IfOk result (λ n. name_of_text (chars_of text.now) ≡ Some n) }
{
    match Name::vec_from_str(alloc, text) {
        Ok(name) => Ok(name),
        Err(FromStrError::ShortBuf) => Err(DataFault::Memory),
        Err(_) => Err(DataFault::Name),
    }
}
