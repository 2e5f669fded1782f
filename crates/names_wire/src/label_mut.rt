//! Labels whose octets are written in place.

ghost use Rattle.std.specs.Prelude.{◌≡◌, ◌≤◌, ◌↔◌, length, IfOk, IsOk, MatchResult, Ok, Err};
ghost use Rattle.std.specs.Str.{str_to_ascii_lowercase};
ghost use Rattle.names_wire.specs.Label.{octets_of, split};

use crate::label::{Label, LongLabelError, SplitLabelError};
use crate::owned::OwnedLabel;

/// A label, which borrows its octets and may change them.
#[derive(Drop)]
pub struct LabelMut<'a> {
    octets: &'a mut [u8],
    ghost short: { length octets.now ≤ 63 },
}

impl<'a> LabelMut<'a> {
    ghost use Rattle.names_wire.specs.Writable.{mut_octets, mut_name};

    /// The label of at most 63 octets. What is written through it stands in the slice at the end,
    /// and a caller's proof knows so.
    pub fn new(slice: &'a mut [u8]) -> LabelMut<'a>
        requires { length slice.old ≤ 63 }
        ensures same_octets { mut_name result ≡ slice.entry.ghost_name }
        ensures value { mut_octets result ≡ slice.old }
    {
        LabelMut { octets: slice }
    }

    /// The label of these octets. What is written through it is written in the slice, but no
    /// caller's proof knows so (see `new`).
    pub fn from_slice_mut(slice: &'a mut [u8]) -> Result<LabelMut<'a>, LongLabelError>
        ensures same_octets { IfOk result (λ label. mut_name label ≡ slice.entry.ghost_name) }
        ensures ok { IfOk result (λ label. mut_octets label ≡ slice.old) }
        ensures err { IsOk result ↔ (length slice.old ≤ 63) }
    {
        if slice.len() > Label::MAX_LEN {
            return Err(LongLabelError);
        }
        Ok(LabelMut::new(slice))
    }

    /// Splits the label in front, with its length octet, from what stands behind it.
    ///
    /// A pointer is refused and not followed. What is written through either part is written in the
    /// slice, but no caller's proof knows so (see `new`).
    pub fn split_from_mut(
        slice: &'a mut [u8],
    ) -> Result<(LabelMut<'a>, &'a mut [u8]), SplitLabelError>
        ensures { let is = split slice.old in
            MatchResult result (λ found. is ≡ Ok (mut_octets found.0, found.1.now))
            (λ e. is ≡ Err e) }
    {
        let len = Label::split_from(slice)?.0.len();
        let (front, rest) = slice.split_at_mut(len + 1);
        let (_, octets) = front.split_at_mut(1);
        Ok((LabelMut::new(octets), rest))
    }

    /// Lowers ASCII letters (RFC 4034, 6.2).
    pub fn make_canonical(&mut self)
        ensures same_octets { mut_name self.new ≡ mut_name self.old }
        ensures lowered { mut_octets self.new ≡ str_to_ascii_lowercase (mut_octets self.old) }
    {
        self.octets.make_ascii_lowercase();
    }

    pub fn as_label(&self) -> Label<'_>
        ensures { octets_of result ≡ mut_octets self.now }
    {
        Label::from_short(self.octets)
    }
}

/// A label that owns its octets, borrowed to be changed.
#[derive(Drop)]
pub struct OwnedLabelMut<'a> {
    label: &'a mut OwnedLabel,
}

impl OwnedLabel {
    ghost use Rattle.names_wire.specs.Owned.{owned_octets};
    ghost use Rattle.names_wire.specs.Writable.{owned_mut_octets, owned_mut_name};

    /// The label to be changed. What is written through it stands in the label at the end.
    pub fn as_label_mut(&mut self) -> OwnedLabelMut<'_>
        ensures same_label { owned_mut_name result ≡ self.entry.ghost_name }
        ensures value { owned_mut_octets result ≡ owned_octets self.old }
    {
        OwnedLabelMut { label: self }
    }
}

impl<'a> OwnedLabelMut<'a> {
    ghost use Rattle.names_wire.specs.Writable.{owned_mut_octets, owned_mut_name};

    /// Lowers ASCII letters (RFC 4034, 6.2).
    pub fn make_canonical(&mut self)
        ensures same_label { owned_mut_name self.new ≡ owned_mut_name self.old }
        ensures lowered { owned_mut_octets self.new
            ≡ str_to_ascii_lowercase (owned_mut_octets self.old) }
    {
        self.label.make_canonical();
    }

    pub fn as_label(&self) -> Label<'_>
        ensures { octets_of result ≡ owned_mut_octets self.now }
    {
        self.label.as_label()
    }
}
