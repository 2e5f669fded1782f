//! Hashes of names (RFC 5155, 3.1.7).

ghost use Rattle.std.specs.Prelude.{◌≡◌, ◌↔◌, ◌≤◌, ◌++◌, length, Some, IsOk, IfOk, OnOk, OnErr};
ghost use Rattle.std.specs.Ordering.{nat_cmp};
ghost use Rattle.std.specs.Cmp.Lexicographic.{slice_cmp};
ghost use Rattle.definitions.specs.Base32hex.{base32hex};
ghost use Rattle.names_wire.specs.Room.{LeavesRoom};
ghost use Rattle.denial_fields.specs.Counted.{counted};
ghost use Rattle.denial_fields.specs.Texts.{ReadsHash};

use crate::counted::compose_counted;
use crate::error::{OwnerHashError, OwnerHashFromStrError};
use names_rdata::canonical::CanonicalOrd;
use names_rdata::octets::FieldOctets;
use names_wire::builder::{OctetsBuilder, ShortBuf};
use names_wire::octets::Octets;
use numbers::base32hex::digits::Base32hexDigits;
use numbers::base32hex::{self, DecodeError};
use std::alloc::Global;
use std::cmp::Ordering;
use std::fmt;
use std::marker::Model;

/// The hash of a name: at most 255 octets. A contract sees the octets.
#[derive(Drop)]
#[derive_where(PartialEq, Eq, PartialOrd, Ord, Hash)]
pub struct OwnerHash<Octs: Octets> {
    octets: FieldOctets<Octs>,
}

impl<Octs: Octets> Model for OwnerHash<Octs> {
    ghost use Rattle.std.specs.Prelude.{List, ℕ, ◌≤◌, length};

    ghost Value = { List ℕ };

    ghost view = { λ h. h.octets };

    ghost inverse = { λ octets. record { octets = octets } };

    ghost invariant = { λ h. length h.octets ≤ 255 };
}

impl<Octs: Octets> OwnerHash<Octs> {
    /// The most octets that a hash has.
    pub const MAX_LEN: usize = 255;

    /// The hash of the octets. More than 255 octets are refused, and dropped.
    pub fn from_octets(octets: Octs) -> Result<Self, OwnerHashError>
    where
        Octs: Drop,
        ensures ok { IfOk result (λ h. h ≡ Octs.bytes octets) }
        ensures accepts { IsOk result ↔ (length (Octs.bytes octets) ≤ 255) }
    {
        if octets.as_slice().len() > 255 {
            return Err(OwnerHashError);
        }
        Ok(OwnerHash {
            octets: FieldOctets::new(octets),
        })
    }

    pub fn as_slice(&self) -> &[u8]
        ensures value { result.now ≡ self.now }
        ensures few { length result.now ≤ 255 }
    {
        self.octets.as_slice()
    }

    pub fn into_octets(self) -> Octs
        ensures { Octs.bytes result ≡ self }
    {
        self.octets.into_octets()
    }

    /// Appends the octets behind their number. A refused call leaves the target as it was.
    pub fn compose<B: OctetsBuilder>(&self, target: &mut B) -> Result<(), ShortBuf>
        ensures ok { OnOk result (B.bytes target.new ≡ B.bytes target.old ++ counted self.now) }
        ensures err { OnErr result (B.bytes target.new ≡ B.bytes target.old) }
        ensures full { OnErr result (B.lacks_room target.old (length (counted self.now))) }
        ensures left { let n = length (counted self.now) in
            OnOk result (LeavesRoom B.lacks_room target.old target.new n) }
    {
        compose_counted(self.as_slice(), target)
    }
}

impl<'a> OwnerHash<&'a [u8]> {
    /// The hash of the octets. More than 255 octets are refused.
    pub fn from_slice(octets: &'a [u8]) -> Result<Self, OwnerHashError>
        ensures ok { IfOk result (λ h. h ≡ octets.now) }
        ensures accepts { IsOk result ↔ (length octets.now ≤ 255) }
    {
        OwnerHash::from_octets(octets)
    }
}

impl OwnerHash<Vec<u8>> {
    /// Reads a hash as it is printed, digits in either case.
    pub fn from_str(alloc: Global, text: &str) -> Result<Self, OwnerHashFromStrError>
        ensures { ReadsHash text.now result }
    {
        match base32hex::decode(alloc, text) {
            Ok(octets) => match OwnerHash::from_octets(octets) {
                Ok(hash) => Ok(hash),
                Err(error) => Err(OwnerHashFromStrError::OwnerHashError(error)),
            },
            Err(DecodeError::Memory) => Err(OwnerHashFromStrError::Memory),
            Err(error) => Err(OwnerHashFromStrError::DecodeError(error)),
        }
    }
}

/// The order of the octets behind their number (RFC 4034, 6.3).
impl<Octs: Octets> CanonicalOrd for OwnerHash<Octs> {
    ghost canonical = { λ a b. slice_cmp nat_cmp (counted a) (counted b) };

    fn canonical_cmp(&self, other: &Self) -> Ordering {
        let (octets, others) = (self.as_slice(), other.as_slice());
        octets.len().cmp(&others.len()).then(octets.cmp(others))
    }
}

/// The hash in base32hex (RFC 5155, 3.3).
impl<Octs: Octets> fmt::Display for OwnerHash<Octs> {
    ghost output = { λ h. Some (base32hex h) };

    fn fmt<W: fmt::Write>(&self, f: &mut fmt::Formatter<W>) -> fmt::Result {
        write!(f, "{}", Base32hexDigits(self.as_slice()))
    }
}
