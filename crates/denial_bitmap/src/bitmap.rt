//! Type bitmaps (RFC 4034, 4.1.2).

ghost use Rattle.std.specs.Prelude.{◌≡◌, ◌==◌, ◌≤◌, ◌↔◌, [], true, length, IfOk, IfErr, IsOk};
ghost use Rattle.std.specs.Prelude.{IsTrue};
ghost use Rattle.definitions.specs.Bitmap.{bitmap, is_bitmap, bitmap_has};
ghost use Rattle.denial_bitmap.specs.Faults.{BreaksOff};

use crate::builder::RtypeBitmapBuilder;
use crate::error::RtypeBitmapError;
use crate::window::{has_bit, split_window};
use names_rdata::octets::FieldOctets;
use names_wire::octets::Octets;
use numbers::rtype::Rtype;
use std::alloc::Global;
use std::marker::Model;

/// A set of types: windows, each a number, a length of 1 to 32, and that many octets, a bit for
/// each type. A contract sees the octets.
#[derive(Drop)]
#[derive_where(PartialEq, Eq, PartialOrd, Ord, Hash)]
pub struct RtypeBitmap<Octs: Octets> {
    octets: FieldOctets<Octs>,
}

impl<Octs: Octets> Model for RtypeBitmap<Octs> {
    ghost use Rattle.std.specs.Prelude.{◌≡◌, List, ℕ, true};
    ghost use Rattle.definitions.specs.Bitmap.{is_bitmap};

    ghost Value = { List ℕ };

    ghost view = { λ b. b.octets };

    ghost inverse = { λ octets. record { octets = octets } };

    ghost invariant = { λ b. is_bitmap b.octets ≡ true };
}

impl<Octs: Octets> RtypeBitmap<Octs> {
    /// The bitmap that the octets spell, its windows in any order. Octets that spell no bitmap are
    /// dropped.
    pub fn from_octets(octets: Octs) -> Result<Self, RtypeBitmapError>
    where
        Octs: Drop,
        ensures ok { IfOk result (λ b. b ≡ Octs.bytes octets) }
        ensures accepts { IsOk result ↔ (is_bitmap (Octs.bytes octets) ≡ true) }
        ensures refused { IfErr result (BreaksOff (Octs.bytes octets)) }
    {
        match check(octets.as_slice()) {
            Ok(()) => Ok(RtypeBitmap {
                octets: FieldOctets::new(octets),
            }),
            Err(error) => Err(error),
        }
    }

    /// The bitmap over octets that a builder made.
    pub(crate) fn of_built(octets: Octs) -> Self
        requires { is_bitmap (Octs.bytes octets) ≡ true }
        ensures { result ≡ Octs.bytes octets }
    {
        RtypeBitmap {
            octets: FieldOctets::new(octets),
        }
    }

    pub fn as_slice(&self) -> &[u8]
        ensures value { result.now ≡ self.now }
        ensures bitmap { is_bitmap result.now ≡ true }
    {
        self.octets.as_slice()
    }

    pub fn as_octets(&self) -> &Octs
        ensures { Octs.bytes result.now ≡ self.now }
    {
        self.octets.as_octets()
    }

    pub fn into_octets(self) -> Octs
        ensures { Octs.bytes result ≡ self }
    {
        self.octets.into_octets()
    }

    /// Whether the octets fit in record data: at most 65,535.
    pub fn fits_rdlen(&self) -> bool
        ensures { IsTrue result ↔ (length self.now ≤ 65535) }
    {
        self.as_slice().len() <= 65_535
    }

    /// How many octets the bitmap takes in record data.
    pub fn compose_len(&self) -> u16
        requires { length self.now ≤ 65535 }
        ensures { result ≡ length self.now }
    {
        self.as_slice().len() as u16
    }

    /// Whether there is no window.
    pub fn is_empty(&self) -> bool
        ensures { result ≡ (length self.now == 0) }
    {
        self.as_slice().is_empty()
    }

    /// Whether the set has a type: the first window of the type's number has its bit.
    pub fn contains(&self, rtype: Rtype) -> bool
        ensures { result ≡ bitmap_has self.now rtype }
    {
        contains(self.as_slice(), rtype)
    }
}

impl RtypeBitmap<Vec<u8>> {
    /// A builder of a bitmap, which holds no types yet.
    pub fn builder(alloc: Global) -> RtypeBitmapBuilder<Vec<u8>>
        ensures { result ≡ bitmap [] }
    {
        RtypeBitmapBuilder::new(alloc)
    }
}

/// Passes over the windows to the end, and refuses octets that are no window.
fn check(octets: &[u8]) -> Result<(), RtypeBitmapError>
    ensures accepts { IsOk result ↔ (is_bitmap octets.now ≡ true) }
    ensures refused { IfErr result (BreaksOff octets.now) }
{
    let mut rest = octets;
    while !rest.is_empty() {
        let (_, behind) = split_window(rest)?;
        rest = behind;
    }
    Ok(())
}

/// Whether the first window of a type's number has its bit.
fn contains(octets: &[u8], rtype: Rtype) -> bool
    requires { is_bitmap octets.now ≡ true }
    ensures { result ≡ bitmap_has octets.now rtype }
{
    let mut rest = octets;
    while let Ok((window, behind)) = split_window(rest) {
        if u16::from(window.number) == rtype.to_int() / 256 {
            return has_bit(window.octets, rtype.to_int());
        }
        rest = behind;
    }
    false
}
