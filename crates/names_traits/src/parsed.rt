//! Names in messages have what any two names have in common.

ghost use Rattle.std.specs.Prelude.{◌≡◌};
ghost use Rattle.names_parsed.specs.Parsed.{parsed_name};
ghost use Rattle.names_traits.specs.Chains.{absolute_end};

use crate::chain::ChainEnd;
use crate::flatten::FlattenInto;
use crate::to_name::ToName;
use names_flat::name::Name;
use names_labels::traits::ToLabelIter;
use names_parsed::parsed::ParsedName;
use names_wire::builder::ShortBuf;
use std::alloc::Global;

impl<'a> ToName for ParsedName<'a> {}

impl<'a> ChainEnd for ParsedName<'a> {
    ghost ends = { λ n. absolute_end (parsed_name n) };

    fn len_before_root(&self) -> u16 {
        self.compose_len() - 1
    }
}

impl<'a> FlattenInto<Name<Vec<u8>>> for ParsedName<'a> {
    ghost is_flat = { λ n m. m ≡ parsed_name n };

    fn try_flatten_into(self, alloc: Global) -> Result<Name<Vec<u8>>, ShortBuf> {
        self.to_vec(alloc)
    }
}
