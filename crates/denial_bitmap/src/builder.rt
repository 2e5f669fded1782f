//! Building type bitmaps (RFC 4034, 4.1.2).

ghost use Rattle.std.specs.Prelude.{◌≡◌, ◌<◌, ◌≤◌, ◌+◌, ◌-◌, ◌%◌, ◌/◌, ◌++◌, ◌∷◌, [], ℕ, List};
ghost use Rattle.std.specs.Prelude.{length, take, drop, set, slice_index, OnOk, OnErr, max};
ghost use Rattle.definitions.specs.Bitmap.{bitmap};
ghost use Rattle.denial_bitmap.specs.Building.{IsBuilt, zeros, inserted, window_len, with_bit};
ghost use Rattle.denial_bitmap.specs.Building.{windows_before};
ghost use Rattle.denial_bitmap.specs.Padding.{roomy, IsPlaced};

use crate::bitmap::RtypeBitmap;
use names_wire::builder::{BuiltOctets, OctetsBuilder, ShortBuf};
use numbers::rtype::Rtype;
use std::alloc::Global;
use std::marker::Model;

/// A set of types under construction. Its octets are the bitmap of the types at all times. A
/// contract sees the octets.
#[derive(Drop)]
pub struct RtypeBitmapBuilder<B: BuiltOctets> {
    octets: B,
}

impl<B: BuiltOctets> Model for RtypeBitmapBuilder<B> {
    ghost use Rattle.std.specs.Prelude.{List, ℕ};
    ghost use Rattle.denial_bitmap.specs.Building.{IsBuilt};

    ghost Value = { List ℕ };

    ghost view = { λ b. B.OctetsBuilder.bytes b.octets };

    ghost invariant = { λ b. IsBuilt (B.OctetsBuilder.bytes b.octets) };
}

impl RtypeBitmapBuilder<Vec<u8>> {
    /// A builder of an empty set.
    pub fn new(alloc: Global) -> Self
        ensures { result ≡ bitmap [] }
    {
        RtypeBitmapBuilder::with_builder(Vec::new(alloc))
    }

    /// A builder of an empty set.
    pub fn new_vec(alloc: Global) -> Self
        ensures { result ≡ bitmap [] }
    {
        RtypeBitmapBuilder::new(alloc)
    }
}

impl<B: BuiltOctets> RtypeBitmapBuilder<B> {
    /// A builder of an empty set, over a target that holds no octets.
    pub fn with_builder(builder: B) -> Self
        requires { B.OctetsBuilder.bytes builder ≡ [] }
        ensures { result ≡ bitmap [] }
    {
        RtypeBitmapBuilder { octets: builder }
    }

    /// Adds a type, which may be there already. A refused call changes nothing.
    pub fn add(&mut self, rtype: Rtype) -> Result<(), ShortBuf>
        ensures ok { (ts : List ℕ) → self.old ≡ bitmap ts
            → OnOk result (self.new ≡ bitmap (rtype ∷ ts)) }
        ensures err { OnErr result (self.new ≡ self.old) }
    {
        let number = (rtype.to_int() / 256) as u8;
        let low = (rtype.to_int() % 256) as u8;
        let place = place_of(OctetsBuilder::as_slice(&self.octets), number);
        let needed = low / 8 + 1;
        make_room(&mut self.octets, place, number, needed)?;
        set_bit(&mut self.octets, place + 2 + usize::from(low / 8), low % 8);
        Ok(())
    }

    /// The bitmap of the types.
    pub fn finalize(self) -> RtypeBitmap<B>
        ensures bitmap { result ≡ self }
        ensures built { IsBuilt result }
    {
        RtypeBitmap::of_built(self.octets)
    }
}

/// How many octets the window of a number has at a place; 0 where another window or none stands
/// there.
fn window_len(octets: &[u8], place: usize, number: u8) -> u8
    requires { place ≤ length octets.now }
    ensures { result ≡ window_len number (drop place octets.now) }
{
    match &octets[place..] {
        [found, len, ..] if *found == number => *len,
        _ => 0,
    }
}

/// The place where the window of a number stands, or where it belongs.
fn place_of(octets: &[u8], number: u8) -> usize
    requires { IsBuilt octets.now }
    ensures value { (ts : List ℕ) → octets.now ≡ bitmap ts
        → result ≡ length (windows_before ts number) }
    ensures inside { result ≤ length octets.now }
{
    let mut place = 0;
    for lower in 0..number {
        let len = usize::from(window_len(octets, place, lower));
        if len > 0 {
            place += 2 + len;
        }
    }
    place
}

/// Inserts zeros between octets. A refused call leaves them as they were.
fn insert_zeros<B: OctetsBuilder>(octets: &mut B, place: usize, count: u8) -> Result<(), ShortBuf>
    requires inside { place ≤ length (B.bytes octets.old) }
    requires few { count ≤ 34 }
    ensures ok { OnOk result
        (B.bytes octets.new ≡ inserted (B.bytes octets.old) place (zeros count)) }
    ensures fits { OnOk result (length (B.bytes octets.new) < 9223372036854775808) }
    ensures err { OnErr result (B.bytes octets.new ≡ B.bytes octets.old) }
{
    let count = usize::from(count);
    octets.append_slice(&[0; 34][..count])?;
    octets.as_mut_slice()[place..].rotate_right(count);
    Ok(())
}

/// Writes one octet over another.
fn set_octet<B: OctetsBuilder>(octets: &mut B, place: usize, octet: u8)
    requires { place < length (B.bytes octets.old) }
    ensures { B.bytes octets.new ≡ set (B.bytes octets.old) place octet }
{
    octets.as_mut_slice()[place] = octet;
}

/// Makes the window of a number have at least `needed` octets. A refused call changes nothing.
fn make_room<B: OctetsBuilder>(
    octets: &mut B,
    place: usize,
    number: u8,
    needed: u8,
) -> Result<(), ShortBuf>
    requires built { (ts : List ℕ) × IsPlaced ts (B.bytes octets.old) place number }
    requires some { 0 < needed }
    requires few { needed ≤ 32 }
    ensures ok { (ts : List ℕ) → IsPlaced ts (B.bytes octets.old) place number
        → OnOk result (B.bytes octets.new ≡ roomy ts number needed) }
    ensures err { OnErr result (B.bytes octets.new ≡ B.bytes octets.old) }
{
    let len = window_len(octets.as_slice(), place, number);
    if needed <= len {
        return Ok(());
    }
    if len == 0 {
        return new_window(octets, place, number, needed);
    }
    longer_window(octets, place, len, needed)
}

/// Inserts a window of zeros between octets. A refused call leaves them as they were.
fn new_window<B: OctetsBuilder>(
    octets: &mut B,
    place: usize,
    number: u8,
    len: u8,
) -> Result<(), ShortBuf>
    requires inside { place ≤ length (B.bytes octets.old) }
    requires few { len ≤ 32 }
    ensures ok { let room = inserted (B.bytes octets.old) place (zeros (2 + len)) in
        OnOk result (B.bytes octets.new ≡ set (set room place number) (place + 1) len) }
    ensures err { OnErr result (B.bytes octets.new ≡ B.bytes octets.old) }
{
    insert_zeros(octets, place, 2 + len)?;
    set_octet(octets, place, number);
    set_octet(octets, place + 1, len);
    Ok(())
}

/// Appends zeros to the window at a place, up to a length. A refused call leaves the octets as they
/// were.
fn longer_window<B: OctetsBuilder>(
    octets: &mut B,
    place: usize,
    len: u8,
    needed: u8,
) -> Result<(), ShortBuf>
    requires inside { place + 2 + len ≤ length (B.bytes octets.old) }
    requires fits { length (B.bytes octets.old) < 9223372036854775808 }
    requires longer { len ≤ needed }
    requires few { needed ≤ 32 }
    ensures ok { let old = B.bytes octets.old in
        let room = inserted old (place + 2 + len) (zeros (needed - len)) in
        OnOk result (B.bytes octets.new ≡ set room (place + 1) needed) }
    ensures err { OnErr result (B.bytes octets.new ≡ B.bytes octets.old) }
{
    insert_zeros(octets, place + 2 + usize::from(len), needed - len)?;
    set_octet(octets, place + 1, needed);
    Ok(())
}

/// Sets a bit of an octet, the first of eight the highest.
fn set_bit<B: OctetsBuilder>(octets: &mut B, place: usize, bit: u8)
    requires inside { place < length (B.bytes octets.old) }
    requires bit { bit < 8 }
    ensures { let octet = slice_index (B.bytes octets.old) place in
        B.bytes octets.new ≡ set (B.bytes octets.old) place (with_bit octet bit) }
{
    let octet = with_bit(octets.as_slice()[place], bit);
    set_octet(octets, place, octet);
}

/// An octet with one more bit set.
fn with_bit(octet: u8, bit: u8) -> u8
    requires { bit < 8 }
    ensures { result ≡ with_bit octet bit }
{
    let worth = 128u8 >> bit;
    if octet / worth % 2 == 1 {
        octet
    } else {
        octet + worth
    }
}
