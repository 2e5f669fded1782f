//! Values written in wire form (RFC 1035, 2.3.2: numbers with the highest octet first).

ghost use Rattle.std.specs.Prelude.{◌≡◌, ◌++◌, ◌∷◌, [], ℕ, List, length, OnOk, OnErr};
ghost use Rattle.std.specs.Int.{w8, w16, w32, w64, to_be_bytes, cast_unsigned};
ghost use Rattle.std.specs.Net.Addr.{ipv4_octets, ipv6_octets};
ghost use Rattle.names_wire.specs.Room.{LeavesRoom};

use names_wire::builder::{OctetsBuilder, ShortBuf};
use std::net::{Ipv4Addr, Ipv6Addr};

/// A value that can be appended to octets in wire form.
pub trait Compose {
    /// Its octets.
    ghost composed: { Self → List ℕ };

    /// Appends the octets. A refused call leaves the target as it was.
    fn compose<B: OctetsBuilder>(&self, target: &mut B) -> Result<(), ShortBuf>
        ensures ok { OnOk result (B.bytes target.new ≡ B.bytes target.old ++ composed self.now) }
        ensures err { OnErr result (B.bytes target.new ≡ B.bytes target.old) }
        ensures full { OnErr result (B.lacks_room target.old (length (composed self.now))) }
        ensures left { let n = length (composed self.now) in
            OnOk result (LeavesRoom B.lacks_room target.old target.new n) };
}

impl Compose for u8 {
    ghost composed = { λ n. n ∷ [] };

    fn compose<B: OctetsBuilder>(&self, target: &mut B) -> Result<(), ShortBuf> {
        target.append_slice(&[*self])
    }
}

impl Compose for u16 {
    ghost composed = { λ n. to_be_bytes w16 n };

    fn compose<B: OctetsBuilder>(&self, target: &mut B) -> Result<(), ShortBuf> {
        target.append_slice(&self.to_be_bytes())
    }
}

impl Compose for u32 {
    ghost composed = { λ n. to_be_bytes w32 n };

    fn compose<B: OctetsBuilder>(&self, target: &mut B) -> Result<(), ShortBuf> {
        target.append_slice(&self.to_be_bytes())
    }
}

impl Compose for u64 {
    ghost composed = { λ n. to_be_bytes w64 n };

    fn compose<B: OctetsBuilder>(&self, target: &mut B) -> Result<(), ShortBuf> {
        target.append_slice(&self.to_be_bytes())
    }
}

impl Compose for i8 {
    ghost composed = { λ n. cast_unsigned w8 n ∷ [] };

    fn compose<B: OctetsBuilder>(&self, target: &mut B) -> Result<(), ShortBuf> {
        target.append_slice(&self.to_be_bytes())
    }
}

impl Compose for i16 {
    ghost composed = { λ n. to_be_bytes w16 (cast_unsigned w16 n) };

    fn compose<B: OctetsBuilder>(&self, target: &mut B) -> Result<(), ShortBuf> {
        target.append_slice(&self.to_be_bytes())
    }
}

impl Compose for i32 {
    ghost composed = { λ n. to_be_bytes w32 (cast_unsigned w32 n) };

    fn compose<B: OctetsBuilder>(&self, target: &mut B) -> Result<(), ShortBuf> {
        target.append_slice(&self.to_be_bytes())
    }
}

impl Compose for i64 {
    ghost composed = { λ n. to_be_bytes w64 (cast_unsigned w64 n) };

    fn compose<B: OctetsBuilder>(&self, target: &mut B) -> Result<(), ShortBuf> {
        target.append_slice(&self.to_be_bytes())
    }
}

impl<const N: usize> Compose for [u8; N] {
    ghost composed = { λ a. a };

    fn compose<B: OctetsBuilder>(&self, target: &mut B) -> Result<(), ShortBuf> {
        target.append_slice(self)
    }
}

impl Compose for Ipv4Addr {
    ghost composed = { ipv4_octets };

    fn compose<B: OctetsBuilder>(&self, target: &mut B) -> Result<(), ShortBuf> {
        target.append_slice(&self.octets())
    }
}

impl Compose for Ipv6Addr {
    ghost composed = { ipv6_octets };

    fn compose<B: OctetsBuilder>(&self, target: &mut B) -> Result<(), ShortBuf> {
        target.append_slice(&self.octets())
    }
}

impl<T: Compose> Compose for &T {
    ghost composed = { λ v. T.composed v.now };

    fn compose<B: OctetsBuilder>(&self, target: &mut B) -> Result<(), ShortBuf> {
        (**self).compose(target)
    }
}
