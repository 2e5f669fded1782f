//! Windows of a bitmap, one after another.

ghost use Rattle.std.specs.Prelude.{◌≡◌, ◌<◌, ◌≤◌, length, IfOk, IfErr, Some, None, ◌⊎◌};
ghost use Rattle.definitions.specs.Bitmap.{bit_in};
ghost use Rattle.definitions.specs.Windows.{split, first_window};
ghost use Rattle.denial_bitmap.specs.Faults.{BreaksOff};

use crate::error::RtypeBitmapError;

/// A window: its number, and its octets.
#[derive(Clone, Copy)]
pub(crate) struct Window<'a> {
    pub number: u8,
    pub octets: &'a [u8],
}

/// The window at the front of octets, and what is behind it.
pub(crate) fn split_window(octets: &[u8]) -> Result<(Window<'_>, &[u8]), RtypeBitmapError>
    ensures ok { IfOk result
        (λ w. first_window octets.now ≡ Some (split w.0.number w.0.octets.now w.1.now)) }
    ensures few { IfOk result (λ w. length w.0.octets.now ≤ 32) }
    ensures shorter { IfOk result (λ w. length w.1.now < length octets.now) }
    ensures none { IfErr result (λ _. first_window octets.now ≡ None) }
    ensures refused { IfErr result (λ e. (length octets.now ≡ 0) ⊎ BreaksOff octets.now e) }
{
    let [number, len, rest @ ..] = octets else {
        return Err(RtypeBitmapError::ShortInput);
    };
    let len = usize::from(*len);
    if len == 0 || len > 32 {
        return Err(RtypeBitmapError::BadRtypeBitmap);
    }
    if len > rest.len() {
        return Err(RtypeBitmapError::ShortInput);
    }
    let (octets, behind) = rest.split_at(len);
    Ok((
        Window {
            number: *number,
            octets,
        },
        behind,
    ))
}

/// Whether the bit of a type is set in the octets of its window, the first of eight the highest.
pub(crate) fn has_bit(octets: &[u8], rtype: u16) -> bool
    ensures { result ≡ bit_in octets.now rtype }
{
    let low = rtype % 256;
    match octets.get(usize::from(low / 8)) {
        None => false,
        Some(octet) => *octet >> (7 - low % 8) & 1 == 1,
    }
}
