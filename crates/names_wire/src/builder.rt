//! Octets that grow at their end.

ghost use Rattle.std.specs.Prelude.{◌≡◌, ℕ, List, ◌++◌, take, OnOk, OnErr, length, refl, ◌+◌, ◌<◌};
ghost use Rattle.std.specs.Prelude.{◌≤◌};
ghost use Rattle.std.specs.Borrow.{Lends, sem, Array, u8 as byte};
ghost use Rattle.std.specs.Vec.{with_items, vec_len, vec_capacity};
ghost use Rattle.arrayvec.specs.ArrayVec.{with_items as with_array_items};
ghost use Rattle.names_wire.specs.Refill.{refilled};
ghost use Rattle.names_wire.specs.Room.{LeavesRoom, more_is_lacked, takes_none};

use crate::octets::Octets;
use arrayvec::ArrayVec;
use thiserror::Error;

/// No room is left: a fixed buffer is full, or a growing one was refused memory.
#[derive(Clone, Copy, Debug, PartialEq, Eq, Error)]
#[error("buffer too short")]
pub struct ShortBuf;

/// A target that octets are appended to. A refused call leaves it as it was.
pub trait OctetsBuilder {
    ghost bytes: { Self → List ℕ };

    /// The builder has no room for this number of further octets: a fixed buffer is full, or a
    /// growing one needs more memory.
    ghost lacks_room: { Self → ℕ → Type 0 };

    /// The builder with its octets replaced by others of the same number.
    ghost with_bytes: { Self → List ℕ → Self };

    fn append_slice(&mut self, octets: &[u8]) -> Result<(), ShortBuf>
        ensures ok { OnOk result (bytes self.new ≡ bytes self.old ++ octets.now) }
        ensures err { OnErr result (bytes self.new ≡ bytes self.old) }
        ensures full { OnErr result (lacks_room self.old (length octets.now)) }
        ensures left { OnOk result (LeavesRoom lacks_room self.old self.new (length octets.now)) };

    /// Keeps the first octets, or all where there are no more than `len`.
    fn truncate(&mut self, len: usize)
        ensures { bytes self.new ≡ take len (bytes self.old) };

    fn as_slice(&self) -> &[u8]
        ensures { result.now ≡ bytes self.now };

    fn as_mut_slice(&mut self) -> &mut [u8]
        ensures* writes_back { sem 𝓛
            (Lends Self.row (Array byte 0) self.entry result (with_bytes self.entry.now)) }
        ensures value { result.now ≡ bytes self.old };

    ghost shows: { (b : Self) (xs : List ℕ) → length xs ≡ length (bytes b)
        → bytes (with_bytes b xs) ≡ xs };

    /// Room that is lacked for some octets is lacked for more.
    ghost grows: { (b : Self) (m n : ℕ) → m ≤ n → lacks_room b m → lacks_room b n };

    /// Octets in the place of others take no room.
    ghost stays: { (b : Self) (xs : List ℕ) (n : ℕ) → length xs ≡ length (bytes b)
        → lacks_room (with_bytes b xs) n → lacks_room b n };
}

impl OctetsBuilder for Vec<u8> {
    ghost bytes = { λ v. v.items };

    ghost lacks_room = { λ v n. vec_capacity v < vec_len v + n };

    ghost with_bytes = { with_items };

    ghost shows = { λ b xs h. refilled b.len b.items xs b.ok.0 h };

    ghost grows = { λ b m n h k. more_is_lacked (vec_capacity b) (vec_len b) m n h k };

    ghost stays = { λ b xs n h k. k };

    fn append_slice(&mut self, octets: &[u8]) -> Result<(), ShortBuf> {
        match self.extend_from_slice(octets) {
            Ok(()) => Ok(()),
            Err(_) => Err(ShortBuf),
        }
    }

    fn truncate(&mut self, len: usize) {
        Vec::truncate(self, len);
    }

    fn as_slice(&self) -> &[u8] {
        self.as_slice()
    }

    fn as_mut_slice(&mut self) -> &mut [u8] {
        self.as_mut_slice()
    }
}

impl<const N: usize> OctetsBuilder for ArrayVec<u8, N> {
    ghost bytes = { λ v. v.items };

    ghost lacks_room = { λ v n. N < length v.items + n };

    ghost with_bytes = { with_array_items };

    ghost shows = { λ b xs h. refilled (length b.items) b.items xs refl h };

    ghost grows = { λ b m n h k. more_is_lacked N (length b.items) m n h k };

    ghost stays = { λ b xs n h k. takes_none N n b.items xs (with_array_items b xs).items
        (refilled (length b.items) b.items xs refl h) h k };

    fn append_slice(&mut self, octets: &[u8]) -> Result<(), ShortBuf> {
        match self.try_extend_from_slice(octets) {
            Ok(()) => Ok(()),
            Err(_) => Err(ShortBuf),
        }
    }

    fn truncate(&mut self, len: usize) {
        ArrayVec::truncate(self, len);
    }

    fn as_slice(&self) -> &[u8] {
        self.as_slice()
    }

    fn as_mut_slice(&mut self) -> &mut [u8] {
        self.as_mut_slice()
    }
}

impl<B: OctetsBuilder> OctetsBuilder for &mut B {
    ghost bytes = { λ b. B.bytes b.now };

    ghost lacks_room = { λ b n. B.lacks_room b.now n };

    ghost with_bytes = { λ b xs. record b { now = B.with_bytes b.now xs } };

    ghost shows = { λ b xs h. B.shows b.now xs h };

    ghost grows = { λ b m n h k. B.grows b.now m n h k };

    ghost stays = { λ b xs n h k. B.stays b.now xs n h k };

    fn append_slice(&mut self, octets: &[u8]) -> Result<(), ShortBuf> {
        (**self).append_slice(octets)
    }

    fn truncate(&mut self, len: usize) {
        (**self).truncate(len)
    }

    fn as_slice(&self) -> &[u8] {
        (**self).as_slice()
    }

    fn as_mut_slice(&mut self) -> &mut [u8] {
        (**self).as_mut_slice()
    }
}

/// Octets that are a builder's own: what it grew is what is read.
pub trait BuiltOctets: Octets + OctetsBuilder {
    ghost kept: { (b : Self) → Self.Octets.bytes b ≡ Self.OctetsBuilder.bytes b };
}

impl BuiltOctets for Vec<u8> {
    ghost kept = { λ b. refl };
}

impl<const N: usize> BuiltOctets for ArrayVec<u8, N> {
    ghost kept = { λ b. refl };
}
