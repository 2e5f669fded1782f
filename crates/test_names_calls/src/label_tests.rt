//! Labels that are written in place, and octets and builders of each kind.

ghost use Rattle.std.specs.Prelude.{◌≡◌, ◌≤◌, ◌<◌, ◌++◌, ◌-◌, take, drop, length};
ghost use Rattle.std.specs.Str.{str_to_ascii_lowercase};
ghost use Rattle.names_wire.specs.Owned.{owned_octets};

use arrayvec::ArrayVec;
use names_wire::builder::{OctetsBuilder, ShortBuf};
use names_wire::label::Label;
use names_wire::label_mut::LabelMut;
use names_wire::octets::Octets;
use names_wire::owned::OwnedLabel;
use std::alloc::AllocError;
use std::borrow::CowSlice;

/// Writes through a part of a slice, behind a length octet.
fn lowers_behind(octets: &mut [u8], len: usize)
    requires short { len ≤ 63 }
    requires within { len < length octets.old }
    ensures { let rest = drop 1 octets.old in let lower = str_to_ascii_lowercase (take len rest) in
        octets.new ≡ take 1 octets.old ++ (lower ++ drop len rest) }
{
    let (_, behind) = octets.split_at_mut(1);
    let (front, _) = behind.split_at_mut(len);
    let mut label = LabelMut::new(front);
    label.make_canonical();
}

/// Writes through a borrow of a label.
fn lowers_owned(label: &mut OwnedLabel)
    ensures { owned_octets label.new ≡ str_to_ascii_lowercase (owned_octets label.old) }
{
    label.as_label_mut().make_canonical();
}

#[test]
fn writes_in_place(rt: HostRuntime) {
    let mut octets = *b"\x03WwW\0";
    let Ok((mut label, _)) = LabelMut::split_from_mut(&mut octets) else {
        panic!(rt; "no label");
    };
    label.make_canonical();
    assert_eq!(rt; label.as_label().as_slice(), b"www".as_slice());
    let mut long = [b'a'; 64];
    assert!(rt; LabelMut::from_slice_mut(&mut long).is_err());
    let mut octets = *b"AbC";
    if let Ok(mut label) = LabelMut::from_slice_mut(&mut octets) {
        label.make_canonical();
    }
    assert_eq!(rt; octets.as_slice(), b"abc".as_slice());
    let mut octets = *b"\x03AbCD";
    lowers_behind(&mut octets, 3);
    assert_eq!(rt; octets.as_slice(), b"\x03abcD".as_slice());
    let mut owned = OwnedLabel::from_label(Label::wildcard());
    assert!(rt; owned.as_label_mut().as_label().is_wildcard());
    if let Ok(label) = Label::from_slice(b"AbC") {
        owned = OwnedLabel::from_label(label);
    }
    let mut copy = owned;
    copy.make_canonical();
    lowers_owned(&mut owned);
    assert_eq!(rt; owned.as_wire_slice(), b"\x03abc".as_slice());
    assert_eq!(rt; copy.as_wire_slice(), b"\x03abc".as_slice());
}

/// Through the bound alone.
fn fill<B: OctetsBuilder>(target: &mut B) -> Result<(), ShortBuf> {
    Label::wildcard().compose(target)?;
    Label::root().compose_canonical(target)
}

#[test]
fn builds(rt: HostRuntime) {
    let mut small: ArrayVec<u8, 4> = ArrayVec::new();
    assert_eq!(rt; fill(&mut &mut small), Ok(()));
    assert_eq!(rt; OctetsBuilder::as_slice(&small), b"\x01*\0".as_slice());
    assert_eq!(rt; Label::wildcard().compose(&mut small), Err(ShortBuf));
    assert_eq!(rt; OctetsBuilder::as_slice(&small), b"\x01*\0".as_slice());
    OctetsBuilder::truncate(&mut small, 2);
    OctetsBuilder::as_mut_slice(&mut small)[1] = b'+';
    assert_eq!(rt; OctetsBuilder::as_slice(&small), b"\x01+".as_slice());

    let mut grown: Vec<u8> = Vec::new(rt.alloc());
    assert_eq!(rt; fill(&mut grown), Ok(()));
    assert_eq!(rt; OctetsBuilder::as_slice(&grown), b"\x01*\0".as_slice());
}

/// Through the bound alone.
fn first_octet<O: Octets>(octets: &O) -> Option<u8> {
    octets.as_slice().first().copied()
}

#[test]
fn reads_octets(rt: HostRuntime) -> Result<(), AllocError> {
    let mut small: ArrayVec<u8, 4> = ArrayVec::new();
    assert_eq!(rt; OctetsBuilder::append_slice(&mut small, b"cd"), Ok(()));
    let owned = Vec::from_slice(rt.alloc(), b"ef")?;
    assert_eq!(rt; first_octet(&b"ab".as_slice()), Some(b'a'));
    assert_eq!(rt; first_octet(&small), Some(b'c'));
    assert_eq!(rt; first_octet(&owned), Some(b'e'));
    assert_eq!(rt;
        first_octet(&CowSlice::<u8>::Borrowed(b"gh".as_slice())),
        Some(b'g')
    );
    assert_eq!(rt; first_octet(&CowSlice::Owned(owned)), Some(b'e'));
    Ok(())
}
