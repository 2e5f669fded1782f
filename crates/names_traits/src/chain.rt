//! Names that stand one behind the other.

ghost use Rattle.std.specs.Prelude.{◌≡◌, ◌⊎◌, ◌↔◌, ◌+◌, ◌<◌, ◌++◌, ◌∷◌, [], length, refl, IfOk};
ghost use Rattle.std.specs.Prelude.{IsErr};
ghost use Rattle.names_labels.specs.Flat.{spelled};
ghost use Rattle.names_traits.specs.Chains.{absolute_end, relative_end, chain_end, chain_rooted};
ghost use Rattle.names_traits.specs.Chains.{chain_unrooted};

use crate::to_name::ToName;
use crate::to_relative::ToRelativeName;
use names_flat::name::Name;
use names_flat::relative::RelativeName;
use names_labels::traits::{Absolute, Labels, Relative, ToLabelIter};
use names_wire::label::Label;
use names_wire::octets::Octets;
use std::marker::Model;
use thiserror::Error;

/// A chain would have more than 254 octets before the root's.
#[derive(Clone, Copy, Debug, PartialEq, Eq, Error)]
#[error("long domain name")]
pub struct LongChainError;

/// What may stand at the end of a chain: an absolute name, or a relative one.
pub trait ChainEnd: ToLabelIter {
    /// How many octets the labels take in wire form, the root's left out.
    fn len_before_root(&self) -> u16
        ensures { result ≡ length (spelled (Self.name self.now)) };

    ghost ends: { (n : Self) → (Self.labels n ≡ Self.name n)
        ⊎ (Self.labels n ≡ Self.name n ++ [] ∷ []) };
}

impl<Octs: Octets> ChainEnd for Name<Octs> {
    ghost ends = { absolute_end };

    fn len_before_root(&self) -> u16 {
        self.compose_len() - 1
    }
}

impl<Octs: Octets> ChainEnd for RelativeName<Octs> {
    ghost ends = { relative_end };

    fn len_before_root(&self) -> u16 {
        self.compose_len()
    }
}

/// A relative name in front of another name, which may be absolute. It copies nothing.
#[derive(Drop)]
pub struct Chain<L: Relative, R: ChainEnd> {
    left: L,
    right: R,
}

/// The labels in front, and the name behind them.
impl<L: Relative, R: ChainEnd> Model for Chain<L, R> {
    ghost use Rattle.std.specs.Prelude.{◌+◌, ◌≤◌, length};
    ghost use Rattle.names_labels.specs.Flat.{spelled};
    ghost use Rattle.names_traits.specs.Chains.{Chained};

    ghost Value = { Chained R };

    ghost view = { λ c. record { left = L.labels c.left; right = c.right } };

    ghost invariant = { λ c.
        length (spelled (L.labels c.left)) + length (spelled (R.name c.right)) ≤ 254 };
}

impl<L: Relative, R: ChainEnd> Chain<L, R> {
    /// One name in front of another: at most 254 octets before the root's. Refused names are
    /// dropped.
    pub fn new(left: L, right: R) -> Result<Self, LongChainError>
    where
        L: Drop,
        R: Drop,
        ensures ok { IfOk result (λ c. c ≡ record { left = L.labels left; right = right }) }
        ensures long { IsErr result
            ↔ (254 < length (spelled (L.labels left)) + length (spelled (R.name right))) }
    {
        let _short = right.label_count();
        if left.compose_len() > 254 || left.compose_len() + right.len_before_root() > 254 {
            return Err(LongChainError);
        }
        Ok(Chain { left, right })
    }
}

impl<L: Relative> Chain<L, Name<&'static [u8]>> {
    /// The name under the root.
    pub(crate) fn rooted(left: L) -> Self
        ensures { result ≡ record { left = L.labels left; right = [] } }
    {
        let _count = left.label_count();
        Chain {
            left,
            right: Name::root_ref(),
        }
    }
}

impl<L: Relative, R: ChainEnd> Labels for Chain<L, R> {
    ghost use Rattle.std.specs.Prelude.{◌++◌};

    ghost labels = { λ c. c.left ++ R.labels c.right };

    ghost name = { λ c. c.left ++ R.name c.right };

    ghost reaches = { λ _ _ _. Unit {0} };

    fn label_count(&self) -> usize {
        self.left.label_count() + self.right.label_count()
    }

    fn label_at(&self, index: usize) -> Option<Label<'_>> {
        let count = self.left.label_count();
        if index < count {
            return self.left.label_at(index);
        }
        self.right.label_at(index - count)
    }

    fn label_place(&self, _: usize) -> usize {
        0
    }

    fn label_onward(&self, _: usize, index: usize) -> Option<(Label<'_>, usize)> {
        Some((self.label_at(index)?, 0))
    }
}

impl<L: Relative, R: ChainEnd> ToLabelIter for Chain<L, R> {}

impl<L: Relative, R: ChainEnd> ChainEnd for Chain<L, R> {
    ghost ends = { λ c. chain_end c.left (R.labels c.right) (R.name c.right) (R.ends c.right) };

    fn len_before_root(&self) -> u16 {
        self.left.compose_len() + self.right.len_before_root()
    }
}

impl<L: Relative, R: ChainEnd + Absolute> Absolute for Chain<L, R> {
    ghost rooted = { λ c.
        chain_rooted c.left (R.labels c.right) (R.name c.right) (R.rooted c.right) };
}

impl<L: Relative, R: ChainEnd + Relative> Relative for Chain<L, R> {
    ghost unrooted = { λ c.
        chain_unrooted c.left (R.labels c.right) (R.name c.right) (R.unrooted c.right) };
}

impl<L: Relative, R: ChainEnd + Absolute> ToName for Chain<L, R> {}

impl<L: Relative, R: ChainEnd + Relative> ToRelativeName for Chain<L, R> {}
