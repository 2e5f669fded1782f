//! Names in lower case.
ghost use Rattle.std.specs.Prelude.{◌≡◌, IfOk};
ghost use Rattle.definitions.specs.Name.{low};

use messages::names::{Name, copy_name};
use std::alloc::{AllocError, Global};

/// The name in lower case (RFC 4034, 6.2).
pub(crate) fn canonical_name(
    alloc: Global,
    name: &Name<Vec<u8>>,
) -> Result<Name<Vec<u8>>, AllocError>
    ensures { IfOk result (λ n. n ≡ low name.now) }
{
    let mut name = copy_name(alloc, name)?;
    name.make_canonical();
    Ok(name)
}
