//! What any two absolute names have in common, however they are kept.

ghost use Rattle.std.specs.Prelude.{◌≡◌, ◌++◌, ◌∷◌, [], IfOk};
ghost use Rattle.std.specs.Ordering.{nat_cmp};
ghost use Rattle.std.specs.Cmp.Lexicographic.{slice_cmp};
ghost use Rattle.definitions.specs.Name.{low, wire, same, name_cmp};

use crate::display::DisplayWithDot;
use names_flat::builder::{Finish, NameBuilder};
use names_flat::name::Name;
use names_labels::order::{composed_cmp, lowercase_composed_cmp, name_cmp};
pub use names_labels::traits::Absolute;
use names_labels::traits::labels_eq;
use names_wire::builder::ShortBuf;
use names_wire::octets::Octets;
use std::alloc::Global;
use std::borrow::CowSlice;
use std::cmp::Ordering;

/// An absolute name, however it is kept.
pub trait ToName: Absolute {
    /// Whether the names are the same up to ASCII case (RFC 4343, 3).
    fn name_eq<N: Absolute>(&self, other: &N) -> bool
        ensures { result ≡ same (Self.name self.now) (N.name other.now) }
    {
        labels_eq(self, other)
    }

    /// Canonical order: labels from the root on, in lower case; an absent label comes first (RFC
    /// 4034, 6.1).
    fn name_cmp<N: Absolute>(&self, other: &N) -> Ordering
        ensures { result ≡ name_cmp (Self.name self.now) (N.name other.now) }
    {
        name_cmp(self, other)
    }

    /// The order of the octets in wire form.
    fn composed_cmp<N: Absolute>(&self, other: &N) -> Ordering
        ensures { let octets = wire (Self.name self.now) in
            result ≡ slice_cmp nat_cmp octets (wire (N.name other.now)) }
    {
        composed_cmp(self, other)
    }

    /// The order of the octets in wire form, with ASCII letters lowered.
    fn lowercase_composed_cmp<N: Absolute>(&self, other: &N) -> Ordering
        ensures { let octets = wire (low (Self.name self.now)) in
            result ≡ slice_cmp nat_cmp octets (wire (low (N.name other.now))) }
    {
        lowercase_composed_cmp(self, other)
    }

    /// The name to be printed with its last dot.
    fn fmt_with_dot(&self) -> DisplayWithDot<'_, Self>
    where
        Self: Sized,
        ensures { result ≡ Self.name self.now }
    {
        DisplayWithDot::new(self)
    }

    /// The name copied to octets of its own, ASCII letters lowered (RFC 4034, 6.2). The call is
    /// refused only for lack of memory.
    fn to_canonical_name(&self, alloc: Global) -> Result<Name<Vec<u8>>, ShortBuf>
        ensures { IfOk result (λ n. n ≡ low (Self.name self.now)) }
    {
        match self.to_vec(alloc) {
            Ok(mut name) => {
                name.make_canonical();
                Ok(name)
            }
            Err(error) => Err(error),
        }
    }

    /// The name copied to octets of its own, ASCII letters lowered (RFC 4034, 6.2).
    fn try_to_canonical_name(&self, alloc: Global) -> Result<Name<Vec<u8>>, ShortBuf>
        ensures { IfOk result (λ n. n ≡ low (Self.name self.now)) }
    {
        self.to_canonical_name(alloc)
    }

    /// The name copied to octets of its own.
    fn to_name(&self, alloc: Global) -> Result<Name<Vec<u8>>, ShortBuf>
        ensures { IfOk result (λ n. n ≡ Self.name self.now) }
    {
        self.to_vec(alloc)
    }

    /// The name copied to octets of its own.
    fn try_to_name(&self, alloc: Global) -> Result<Name<Vec<u8>>, ShortBuf>
        ensures { IfOk result (λ n. n ≡ Self.name self.now) }
    {
        self.to_vec(alloc)
    }

    /// The name over borrowed octets where its labels stand in a row, and otherwise over a copy.
    /// The call is refused only for lack of memory.
    fn to_cow(&self, alloc: Global) -> Result<Name<CowSlice<'_, u8>>, ShortBuf>
        ensures { IfOk result (λ n. n ≡ Self.name self.now) }
    {
        if let Some(row) = self.label_row() {
            return Ok(Name::borrowed(row));
        }
        match self.to_vec(alloc) {
            Ok(name) => Ok(name.into_cow()),
            Err(error) => Err(error),
        }
    }

    /// The name copied to octets of its own. The call is refused only for lack of memory.
    fn to_vec(&self, alloc: Global) -> Result<Name<Vec<u8>>, ShortBuf>
        ensures { IfOk result (λ n. n ≡ Self.name self.now) }
    {
        match self.label_row() {
            Some(row) => Name::copied(alloc, row).map_err(|_| ShortBuf),
            None => NameBuilder::new(alloc)
                .append_origin(self)
                .map_err(|_| ShortBuf),
        }
    }
}

impl<Octs: Octets> ToName for Name<Octs> {}

/// A borrowed name.
impl<N: ToName> ToName for &N {}
