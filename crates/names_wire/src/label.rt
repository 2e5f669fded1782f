//! Labels in wire form.

ghost use Rattle.std.specs.Prelude.{◌≡◌, ◌==◌, ◌≤◌, ◌↔◌, [], ◌∷◌, length, MatchResult, Ok, Err};
ghost use Rattle.std.specs.Prelude.{IfOk, IsOk, IsTrue, OnOk, OnErr, ◌++◌, ◌+◌};
ghost use Rattle.std.specs.Ordering.{nat_cmp};
ghost use Rattle.std.specs.Cmp.Lexicographic.{slice_cmp};

use crate::builder::{OctetsBuilder, ShortBuf};
use crate::labels::SliceLabelsIter;
use crate::owned::OwnedLabel;
use std::cmp::Ordering;
use thiserror::Error;

/// A label: up to 63 octets of a name, without their length octet (RFC 1035, 2.3.4 and 3.1).
///
/// The empty label is the root's. Labels compare and hash with ASCII letters lowered (RFC 4343).
#[derive(Clone, Copy)]
pub struct Label<'a> {
    octets: &'a [u8],
    ghost short: { length octets.now ≤ 63 },
}

/// A label has more than 63 octets.
#[derive(Clone, Copy, Debug, PartialEq, Eq, Error)]
#[error("long label")]
pub struct LongLabelError;

/// A first octet that is neither a length nor a pointer's (RFC 6891, 5).
#[derive(Clone, Copy, Debug, PartialEq, Eq, Error)]
pub enum LabelTypeError {
    #[error("undefined label type")]
    Undefined,
    #[error("unsupported label type 0x{0:02x}")]
    Extended(u8),
}

/// Why no label could be split off.
#[derive(Clone, Copy, Debug, PartialEq, Eq, Error)]
pub enum SplitLabelError {
    /// A pointer to this place (RFC 1035, 4.1.4).
    #[error("compressed label")]
    Pointer(u16),
    #[error("{0}")]
    BadType(LabelTypeError),
    #[error("unexpected end of input")]
    ShortInput,
}

impl<'a> Label<'a> {
    ghost use Rattle.names_wire.specs.Label.{octets_of, lowered, wire_label, split};
    ghost use Rattle.definitions.specs.Limits.{pointer_limit};
    ghost use Rattle.names_wire.specs.Room.{LeavesRoom};
    ghost use Rattle.names_wire.specs.Slices.{labels_along};

    /// The most octets that a label has.
    pub const MAX_LEN: usize = 63;

    /// The root's label, which is empty.
    pub fn root() -> Label<'static>
        ensures { octets_of result ≡ [] }
    {
        Label { octets: b"" }
    }

    /// The label `*`.
    pub fn wildcard() -> Label<'static>
        ensures { octets_of result ≡ 42 ∷ [] }
    {
        Label { octets: b"*" }
    }

    /// The label of these octets.
    pub fn from_slice(slice: &'a [u8]) -> Result<Label<'a>, LongLabelError>
        ensures ok { IfOk result (λ label. octets_of label ≡ slice.now) }
        ensures err { IsOk result ↔ (length slice.now ≤ 63) }
    {
        if slice.len() > Label::MAX_LEN {
            return Err(LongLabelError);
        }
        Ok(Label { octets: slice })
    }

    /// The label of at most 63 octets.
    pub fn from_short(octets: &'a [u8]) -> Label<'a>
        requires { length octets.now ≤ 63 }
        ensures { octets_of result ≡ octets.now }
    {
        Label { octets }
    }

    /// Splits the label in front, with its length octet, from what stands behind it.
    ///
    /// A pointer is refused and not followed.
    pub fn split_from(slice: &'a [u8]) -> Result<(Label<'a>, &'a [u8]), SplitLabelError>
        ensures { let is = split slice.now in
            MatchResult result (λ found. is ≡ Ok (octets_of found.0, found.1.now))
            (λ e. is ≡ Err e) }
    {
        let Some((&head, rest)) = slice.split_first() else {
            return Err(SplitLabelError::ShortInput);
        };
        match head {
            0..=0x3f => {
                let len = head as usize;
                if rest.len() < len {
                    return Err(SplitLabelError::ShortInput);
                }
                Ok((
                    Label {
                        octets: &rest[..len],
                    },
                    &rest[len..],
                ))
            }
            0x40..=0x7f => Err(SplitLabelError::BadType(LabelTypeError::Extended(head))),
            0x80..=0xbf => Err(SplitLabelError::BadType(LabelTypeError::Undefined)),
            _ => match rest.first() {
                Some(&low) => Err(SplitLabelError::Pointer(
                    (head as u16 - 0xc0) * 256 + low as u16,
                )),
                None => Err(SplitLabelError::ShortInput),
            },
        }
    }

    /// The labels of octets from a place on, through pointers: up to the root's label, or to what
    /// is no label.
    ///
    /// There are none where the place is not within the octets. At most 255 pointers are followed,
    /// each to a place before its own (RFC 1035, 4.1.4).
    pub fn iter_slice(slice: &'a [u8], start: usize) -> SliceLabelsIter<'a>
        ensures { result ≡ labels_along pointer_limit slice.now start }
    {
        SliceLabelsIter::new(slice, start)
    }

    /// The octets, without their length.
    pub fn as_slice(&self) -> &'a [u8]
        ensures value { result.now ≡ octets_of self.now }
        ensures short { length result.now ≤ 63 }
    {
        self.octets
    }

    /// The number of octets, at most 63.
    pub fn len(&self) -> usize
        ensures value { result ≡ length (octets_of self.now) }
        ensures short { result ≤ 63 }
    {
        self.octets.len()
    }

    pub fn is_empty(&self) -> bool
        ensures { result ≡ (length (octets_of self.now) == 0) }
    {
        self.octets.is_empty()
    }

    /// Whether the label is the root's, which is the empty label.
    pub fn is_root(&self) -> bool
        ensures { IsTrue result ↔ (octets_of self.now ≡ []) }
    {
        self.octets.is_empty()
    }

    /// Whether the label is `*`.
    pub fn is_wildcard(&self) -> bool
        ensures { IsTrue result ↔ (octets_of self.now ≡ 42 ∷ []) }
    {
        self.octets == b"*".as_slice()
    }

    /// Compares the labels as they stand in a message, each behind its length octet.
    pub fn composed_cmp(&self, other: &Label<'_>) -> Ordering
        ensures { let octets = wire_label (octets_of self.now) in
            result ≡ slice_cmp nat_cmp octets (wire_label (octets_of other.now)) }
    {
        match self.len().cmp(&other.len()) {
            Ordering::Equal => self.octets.cmp(other.octets),
            order => order,
        }
    }

    /// Compares the labels as they stand in a message, each behind its length octet, with ASCII
    /// letters lowered.
    pub fn lowercase_composed_cmp(&self, other: &Label<'_>) -> Ordering
        ensures { let octets = wire_label (lowered self.now) in
            result ≡ slice_cmp nat_cmp octets (wire_label (lowered other.now)) }
    {
        match self.len().cmp(&other.len()) {
            Ordering::Equal => self.cmp(other),
            order => order,
        }
    }

    /// Appends the octets behind their number. A refused call leaves the target as it was.
    pub fn compose<B: OctetsBuilder>(&self, target: &mut B) -> Result<(), ShortBuf>
        ensures ok { let more = wire_label (octets_of self.now) in
            OnOk result (B.bytes target.new ≡ B.bytes target.old ++ more) }
        ensures err { OnErr result (B.bytes target.new ≡ B.bytes target.old) }
        ensures full { OnErr result (B.lacks_room target.old (length (octets_of self.now) + 1)) }
        ensures left { let n = length (octets_of self.now) + 1 in
            OnOk result (LeavesRoom B.lacks_room target.old target.new n) }
    {
        target.append_slice(OwnedLabel::from_label(*self).as_wire_slice())
    }

    /// Appends the octets behind their number, ASCII letters lowered (RFC 4034, 6.2). A refused
    /// call leaves the target as it was.
    pub fn compose_canonical<B: OctetsBuilder>(&self, target: &mut B) -> Result<(), ShortBuf>
        ensures ok { let more = wire_label (lowered self.now) in
            OnOk result (B.bytes target.new ≡ B.bytes target.old ++ more) }
        ensures err { OnErr result (B.bytes target.new ≡ B.bytes target.old) }
        ensures full { OnErr result (B.lacks_room target.old (length (octets_of self.now) + 1)) }
        ensures left { let n = length (octets_of self.now) + 1 in
            OnOk result (LeavesRoom B.lacks_room target.old target.new n) }
    {
        let mut label = OwnedLabel::from_label(*self);
        label.make_canonical();
        target.append_slice(label.as_wire_slice())
    }
}
