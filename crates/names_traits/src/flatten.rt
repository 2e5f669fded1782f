//! Names copied into octets of their own.

ghost use Rattle.std.specs.Prelude.{◌≡◌, IfOk};

use crate::to_name::ToName;
use crate::to_relative::ToRelativeName;
use names_flat::name::Name;
use names_flat::relative::RelativeName;
use names_wire::builder::ShortBuf;
use names_wire::octets::Octets;
use std::alloc::Global;

/// A name that can be copied into flat octets of its own.
pub trait FlattenInto<Target>: Sized {
    /// The target is the same name.
    ghost is_flat: { Self → Target → Type 0 };

    /// Copies the name into the target. The call is refused only for lack of memory.
    fn try_flatten_into(self, alloc: Global) -> Result<Target, ShortBuf>
        ensures { IfOk result (is_flat self) };

    /// Copies the name into the target. The call is refused only for lack of memory.
    fn flatten_into(self, alloc: Global) -> Result<Target, ShortBuf>
        ensures { IfOk result (is_flat self) }
    {
        self.try_flatten_into(alloc)
    }
}

impl<Octs: Octets + Drop> FlattenInto<Name<Vec<u8>>> for Name<Octs> {
    ghost is_flat = { λ n m. m ≡ n };

    fn try_flatten_into(self, alloc: Global) -> Result<Name<Vec<u8>>, ShortBuf> {
        self.to_vec(alloc)
    }
}

impl<Octs: Octets + Drop> FlattenInto<RelativeName<Vec<u8>>> for RelativeName<Octs> {
    ghost is_flat = { λ n m. m ≡ n };

    fn try_flatten_into(self, alloc: Global) -> Result<RelativeName<Vec<u8>>, ShortBuf> {
        self.to_relative_name(alloc)
    }
}
