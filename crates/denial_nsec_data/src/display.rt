//! Links as text (RFC 4034, 4.2; RFC 5155, 3.3).

ghost use Rattle.std.specs.Prelude.{Some};
ghost use Rattle.denial_nsec_data.specs.Bitmaps.{types_field};
ghost use Rattle.denial_nsec_data.specs.Hashed.{hash_field, nsec3_text};
ghost use Rattle.denial_nsec_data.specs.Nsec.{nsec_text};

use crate::nsec::Nsec;
use crate::nsec3::Nsec3;
use denial_bitmap::bitmap::RtypeBitmap;
use denial_fields::hash::OwnerHash;
use names_traits::to_name::ToName;
use names_wire::octets::Octets;
use std::fmt;

/// Types that print behind a blank; an empty set prints as nothing.
#[derive(Drop)]
struct TypesField<'a, Octs: Octets>(&'a RtypeBitmap<Octs>);

impl<'a, Octs: Octets> fmt::Display for TypesField<'a, Octs> {
    ghost output = { λ d. Some (types_field d.0.now) };

    fn fmt<W: fmt::Write>(&self, f: &mut fmt::Formatter<W>) -> fmt::Result {
        let bitmap = self.0;
        let mut types = bitmap.iter();
        if types.next().is_none() {
            return Ok(());
        }
        write!(f, " {}", bitmap)
    }
}

/// A hash that prints behind a blank; a hash of no octets prints as nothing.
#[derive(Drop)]
struct HashField<'a, Octs: Octets>(&'a OwnerHash<Octs>);

impl<'a, Octs: Octets> fmt::Display for HashField<'a, Octs> {
    ghost output = { λ d. Some (hash_field d.0.now) };

    fn fmt<W: fmt::Write>(&self, f: &mut fmt::Formatter<W>) -> fmt::Result {
        let hash = self.0;
        if hash.as_slice().is_empty() {
            return Ok(());
        }
        write!(f, " {}", hash)
    }
}

/// The next name as it is printed, and the types (RFC 4034, 4.2).
impl<Octs: Octets, N: ToName + fmt::Display> fmt::Display for Nsec<Octs, N> {
    ghost output = { nsec_text N.output };

    fn fmt<W: fmt::Write>(&self, f: &mut fmt::Formatter<W>) -> fmt::Result {
        write!(f, "{}{}", self.next_name(), TypesField(self.types()))
    }
}

/// Algorithm, flags and iterations in decimal, the salt, the next hash in base32hex and the types
/// (RFC 5155, 3.3).
impl<Octs: Octets> fmt::Display for Nsec3<Octs> {
    ghost output = { λ d. Some (nsec3_text d) };

    fn fmt<W: fmt::Write>(&self, f: &mut fmt::Formatter<W>) -> fmt::Result {
        write!(
            f,
            "{}{}{}",
            self.params(),
            HashField(self.next_owner()),
            TypesField(self.types())
        )
    }
}
