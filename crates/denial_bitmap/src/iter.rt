//! The types of a bitmap, one after another.

ghost use Rattle.std.specs.Prelude.{◌≡◌, ◌<◌, ◌≤◌, ◌+◌, ◌*◌, ◌∷◌, [], ℕ, length, IfSome, IfNone};
ghost use Rattle.std.specs.Iterator.{YieldsFirst, item_count};
ghost use Rattle.denial_bitmap.specs.Types.{bits_from, types_in};

use crate::bitmap::RtypeBitmap;
use crate::window::{Window, has_bit, split_window};
use names_wire::octets::Octets;
use numbers::rtype::Rtype;
use std::marker::Model;

/// The types of a bitmap, window by window as they stand, ascending in each. It takes no memory.
#[derive(Drop)]
pub struct RtypeBitmapIter<'a> {
    window: Window<'a>,
    /// The next bit of the window.
    bit: u16,
    /// The windows behind it.
    rest: &'a [u8],
}

/// The types that are left.
impl<'a> Model for RtypeBitmapIter<'a> {
    ghost use Rattle.std.specs.Prelude.{◌≡◌, ◌++◌, ◌≤◌, List, ℕ, length, true};
    ghost use Rattle.definitions.specs.Bitmap.{is_bitmap};
    ghost use Rattle.denial_bitmap.specs.Types.{types_from, types_in};

    ghost Value = { List ℕ };

    ghost view = { λ it. types_from it.window.number it.window.octets.now it.bit
        ++ types_in it.rest.now };

    ghost invariant = { λ it. (length it.window.octets.now ≤ 32) × (is_bitmap it.rest.now ≡ true) };
}

impl<Octs: Octets> RtypeBitmap<Octs> {
    /// The types, window by window as they stand, ascending in each: a built bitmap has each once,
    /// all ascending.
    pub fn iter(&self) -> RtypeBitmapIter<'_>
        ensures { result ≡ types_in self.now }
    {
        RtypeBitmapIter {
            window: Window {
                number: 0,
                octets: &[],
            },
            bit: 0,
            rest: self.as_slice(),
        }
    }
}

impl<'a> Iterator for RtypeBitmapIter<'a> {
    type Item = Rtype;

    ghost can_next = { λ _. Unit {0} };

    ghost next_gives = { YieldsFirst (λ types. types) };

    ghost remaining = { item_count (λ types. types) };

    fn next(&mut self) -> Option<Rtype> {
        loop {
            if let Some(bit) = first_bit(self.window.octets, self.bit) {
                self.bit = bit + 1;
                return Some(Rtype::from_int(u16::from(self.window.number) * 256 + bit));
            }
            let Ok((window, behind)) = split_window(self.rest) else {
                return None;
            };
            self.window = window;
            self.bit = 0;
            self.rest = behind;
        }
    }
}

/// The first bit that is set, from a place on.
fn first_bit(octets: &[u8], place: u16) -> Option<u16>
    requires { length octets.now ≤ 32 }
    ensures none { IfNone result (bits_from octets.now place ≡ []) }
    ensures some { IfSome result
        (λ k. bits_from octets.now place ≡ k ∷ bits_from octets.now (k + 1)) }
    ensures inside { IfSome result (λ k. k < 8 * length octets.now) }
{
    for bit in place..8 * octets.len() as u16 {
        if has_bit(octets, bit) {
            return Some(bit);
        }
    }
    None
}
