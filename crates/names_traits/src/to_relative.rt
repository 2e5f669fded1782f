//! What any two relative names have in common, however they are kept.

ghost use Rattle.std.specs.Prelude.{◌≡◌, ◌↔◌, ◌+◌, ◌<◌, ◌==◌, [], length, IfOk, IsErr};
ghost use Rattle.names_labels.specs.Flat.{spelled};
ghost use Rattle.definitions.specs.Name.{low, same, name_cmp};

use crate::chain::{Chain, ChainEnd, LongChainError};
use names_flat::builder::{Finish, NameBuilder};
use names_flat::name::Name;
use names_flat::relative::RelativeName;
use names_labels::order::labels_cmp;
pub use names_labels::traits::Relative;
use names_labels::traits::labels_eq;
use names_wire::builder::ShortBuf;
use names_wire::octets::Octets;
use std::alloc::Global;
use std::borrow::CowSlice;
use std::cmp::Ordering;

/// A relative name, however it is kept.
pub trait ToRelativeName: Relative {
    /// Whether the names are the same up to ASCII case (RFC 4343, 3).
    fn name_eq<N: Relative>(&self, other: &N) -> bool
        ensures { result ≡ same (Self.labels self.now) (N.labels other.now) }
    {
        labels_eq(self, other)
    }

    /// Canonical order: labels from the right, in lower case; an absent label comes first (RFC
    /// 4034, 6.1).
    fn name_cmp<N: Relative>(&self, other: &N) -> Ordering
        ensures { result ≡ name_cmp (Self.labels self.now) (N.labels other.now) }
    {
        labels_cmp(self, other)
    }

    /// Whether there is no label.
    fn is_empty(&self) -> bool
        ensures { result ≡ (length (Self.labels self.now) == 0) }
    {
        self.label_count() == 0
    }

    /// The name copied to octets of its own. The call is refused only for lack of memory.
    fn to_vec(&self, alloc: Global) -> Result<RelativeName<Vec<u8>>, ShortBuf>
        ensures { IfOk result (λ n. n ≡ Self.labels self.now) }
    {
        let mut builder = NameBuilder::new(alloc);
        match builder.append_name(self) {
            Ok(()) => Ok(builder.finish()),
            Err(_) => Err(ShortBuf),
        }
    }

    /// The name copied to octets of its own.
    fn to_relative_name(&self, alloc: Global) -> Result<RelativeName<Vec<u8>>, ShortBuf>
        ensures { IfOk result (λ n. n ≡ Self.labels self.now) }
    {
        self.to_vec(alloc)
    }

    /// The name copied to octets of its own.
    fn try_to_relative_name(&self, alloc: Global) -> Result<RelativeName<Vec<u8>>, ShortBuf>
        ensures { IfOk result (λ n. n ≡ Self.labels self.now) }
    {
        self.to_vec(alloc)
    }

    /// The name copied to octets of its own, ASCII letters lowered (RFC 4034, 6.2).
    fn to_canonical_relative_name(&self, alloc: Global) -> Result<RelativeName<Vec<u8>>, ShortBuf>
        ensures { IfOk result (λ n. n ≡ low (Self.labels self.now)) }
    {
        match self.to_vec(alloc) {
            Ok(mut name) => {
                name.make_canonical();
                Ok(name)
            }
            Err(error) => Err(error),
        }
    }

    /// The name copied to octets of its own, ASCII letters lowered (RFC 4034, 6.2).
    fn try_to_canonical_relative_name(
        &self,
        alloc: Global,
    ) -> Result<RelativeName<Vec<u8>>, ShortBuf>
        ensures { IfOk result (λ n. n ≡ low (Self.labels self.now)) }
    {
        self.to_canonical_relative_name(alloc)
    }

    /// The name in front of another: at most 254 octets before the root's.
    fn chain<N: ChainEnd>(self, suffix: N) -> Result<Chain<Self, N>, LongChainError>
    where
        Self: Sized + Drop,
        N: Drop,
        ensures ok { IfOk result (λ c. c ≡ record { left = Self.labels self; right = suffix }) }
        ensures long { IsErr result
            ↔ (254 < length (spelled (Self.labels self)) + length (spelled (N.name suffix))) }
    {
        Chain::new(self, suffix)
    }

    /// The name under the root. It takes no memory.
    fn chain_root(self) -> Chain<Self, Name<&'static [u8]>>
    where
        Self: Sized,
        ensures { result ≡ record { left = Self.labels self; right = [] } }
    {
        Chain::rooted(self)
    }

    /// The name over a copy of its octets. The type of the octets can also hold borrowed ones.
    fn to_cow(&self, alloc: Global) -> Result<RelativeName<CowSlice<'static, u8>>, ShortBuf>
        ensures { IfOk result (λ n. n ≡ Self.labels self.now) }
    {
        match self.to_vec(alloc) {
            Ok(name) => Ok(name.into_cow()),
            Err(error) => Err(error),
        }
    }
}

impl<Octs: Octets> ToRelativeName for RelativeName<Octs> {}
