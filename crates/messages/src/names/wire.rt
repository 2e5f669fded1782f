//! Names as wire octets (RFC 1035, 3.1).
ghost use Rattle.std.specs.Prelude.{◌≡◌, ◌≤◌, IfOk, IfSome, length};
ghost use Rattle.std.specs.Option.{option_map};
ghost use Rattle.std.specs.Result.{result_ok};
ghost use Rattle.messages.specs.Message.{owner_at};
ghost use Rattle.messages.specs.NameOctets.{name_of_octets};
ghost use Rattle.messages.specs.View.{named};

use crate::names::Name;
use names_parsed::parsed::ParsedName;
use names_parser::parser::Parser;
use names_traits::to_name::ToName;
use std::alloc::{AllocError, Global};
use std::borrow::CowSlice;

/// The name that all of the octets spell, without pointers (RFC 1035, 3.1). `None` where they spell
/// none.
pub fn name_from_octets(alloc: Global, octets: &[u8]) -> Result<Option<Name<Vec<u8>>>, AllocError>
    ensures { IfOk result (λ name. name ≡ name_of_octets octets.now) }
{
    match name_at_place(alloc, octets, 0)? {
        Some((name, end)) if end == octets.len() => Ok(Some(name)),
        _ => Ok(None),
    }
}

/// The name that stands at a place of octets, without pointers, and the place behind it. `None`
/// where no name stands there.
pub fn name_at_place(
    alloc: Global,
    octets: &[u8],
    start: usize,
) -> Result<Option<(Name<Vec<u8>>, usize)>, AllocError>
    ensures exact { let read = result_ok (owner_at 0 octets.now start) in
        IfOk result (λ place. option_map (λ r. named r.0 r.1) place ≡ read) }
    ensures inside { IfOk result (λ place. IfSome place (λ r. r.1 ≤ length octets.now)) }
{
    let mut parser = Parser::from_ref(octets);
    let Ok(()) = parser.seek(start) else {
        return Ok(None);
    };
    let Ok(name) = ParsedName::parse(&mut parser) else {
        return Ok(None);
    };
    if name.is_compressed() {
        return Ok(None);
    }
    let flat = copy_name(alloc, &name)?;
    Ok(Some((flat, parser.pos())))
}

/// The name with the same spelling, copied to octets of its own.
pub fn copy_name<N: ToName>(alloc: Global, name: &N) -> Result<Name<Vec<u8>>, AllocError>
    ensures { IfOk result (λ n. n ≡ N.name name.now) }
{
    name.to_vec(alloc).map_err(|_| AllocError)
}

/// The name with the same spelling, over its own octets where they stand in a row, and otherwise
/// over a copy.
pub fn cow_name<N: ToName>(alloc: Global, name: &N) -> Result<Name<CowSlice<'_, u8>>, AllocError>
    ensures { IfOk result (λ n. n ≡ N.name name.now) }
{
    name.to_cow(alloc).map_err(|_| AllocError)
}
