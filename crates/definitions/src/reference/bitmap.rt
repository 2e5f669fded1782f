//! Sets of types: those of a chain's records, and reading a type bitmap (RFC 4034, 4.1.2).
ghost use Rattle.std.specs.Prelude.{◌≡◌, ◌<◌, ◌≤◌, true, false, length, vec_len, map, nat_eq, IfOk};
ghost use Rattle.std.specs.Prelude.{IfSome, if◌then◌else◌};
ghost use Rattle.std.specs.List.{list_any, flat_map};
ghost use Rattle.std.specs.Option.{option_map};
ghost use Rattle.definitions.specs.Bitmap.{is_bitmap, bitmap_has, bit_in, below, octet_of};
ghost use Rattle.definitions.specs.Bitmap.{before_last, trimmed, window_octets, window, bitmap};
ghost use Rattle.definitions.specs.Windows.{split, first_window, numbered};
ghost use Rattle.definitions.specs.ZoneChain.{types_among, nsec_types, nsec3_types};

use crate::reference::names::labels_eq;
use crate::reference::zone::{PlainRecord, PlainZone};
use crate::reference::{DNSKEY, DS, NS, NSEC, NSEC3PARAM, Octets, RRSIG};
use std::alloc::{AllocError, Global};

/// The window at the front, its number and its octets, and what is behind it; None where there is
/// none of 1 to 32 octets.
fn split_window(octets: &[u8]) -> Option<(u8, &[u8], &[u8])>
    ensures value { option_map (λ w. split w.0 w.1.now w.2.now) result ≡ first_window octets.now }
    ensures shorter { IfSome result (λ w. length w.2.now < length octets.now) }
{
    let (number, rest) = octets.split_first()?;
    let (len, rest) = rest.split_first()?;
    let len = *len as usize;
    if len < 1 || len > 32 || len > rest.len() {
        return None;
    }
    let (window, behind) = rest.split_at(len);
    Some((*number, window, behind))
}

/// Whether octets spell windows: each a number, a length of 1 to 32, and that many octets.
pub fn is_bitmap(octets: &[u8]) -> bool
    ensures { result ≡ is_bitmap octets.now }
{
    match split_window(octets) {
        None => octets.is_empty(),
        Some((_, _, behind)) => is_bitmap(behind),
    }
}

/// Whether a bitmap has a type: the first window of the type's number has its bit.
pub fn bitmap_has(octets: &[u8], rtype: u16) -> bool
    ensures { result ≡ bitmap_has octets.now rtype }
{
    let Some((number, window, behind)) = split_window(octets) else {
        return false;
    };
    if !is_bitmap(behind) {
        return false;
    }
    if u16::from(number) == rtype / 256 {
        return bit_in(window, rtype);
    }
    bitmap_has(behind, rtype)
}

/// The bit of a type in the octets of its window, the first of eight the highest.
fn bit_in(window: &[u8], rtype: u16) -> bool
    ensures { result ≡ bit_in window.now rtype }
{
    match window.get((rtype % 256 / 8) as usize) {
        None => false,
        Some(octet) => *octet >> (7 - rtype % 8) & 1 == 1,
    }
}

impl PlainZone {
    /// The types of an owner's NSEC record, with or without DNSKEY at the apex (RFC 4034, 4.1.2;
    /// RFC 4035, 2.3).
    pub fn nsec_types(
        &self,
        alloc: Global,
        dnskey: bool,
        owner: &[Octets],
    ) -> Result<Vec<u16>, AllocError>
        ensures { IfOk result (λ v. v.items ≡ nsec_types self.now dnskey owner.now) }
    {
        if self.is_delegation(owner) {
            let mut types = Vec::from_slice(alloc, &[NS])?;
            if self.has(owner, DS) {
                types.push(DS)?;
            }
            types.extend_from_slice(&[RRSIG, NSEC])?;
            return Ok(types);
        }
        let mut types = types_among(alloc, self.records(), owner)?;
        types.extend_from_slice(&[RRSIG, NSEC])?;
        if dnskey && labels_eq(owner, self.apex()) {
            types.push(DNSKEY)?;
        }
        Ok(types)
    }

    /// The types of a name's NSEC3 record, likewise; none at an empty non-terminal (RFC 5155, 7.1).
    pub fn nsec3_types(
        &self,
        alloc: Global,
        dnskey: bool,
        name: &[Octets],
    ) -> Result<Vec<u16>, AllocError>
        ensures { IfOk result (λ v. v.items ≡ nsec3_types self.now dnskey name.now) }
    {
        if self.is_delegation(name) {
            let mut types = Vec::from_slice(alloc, &[NS])?;
            if self.has(name, DS) {
                types.extend_from_slice(&[DS, RRSIG])?;
            }
            return Ok(types);
        }
        let mut types = types_among(alloc, self.records(), name)?;
        if types.is_empty() {
            return Ok(types);
        }
        types.push(RRSIG)?;
        if labels_eq(name, self.apex()) {
            if dnskey {
                types.push(DNSKEY)?;
            }
            types.push(NSEC3PARAM)?;
        }
        Ok(types)
    }
}

/// The types of a name among some records.
fn types_among(
    alloc: Global,
    records: &[PlainRecord],
    name: &[Octets],
) -> Result<Vec<u16>, AllocError>
    ensures { IfOk result (λ v. v.items ≡ types_among records.now name.now) }
{
    let mut types = Vec::new(alloc);
    for record in records {
        if labels_eq(record.owner(), name) {
            types.push(record.rtype())?;
        }
    }
    Ok(types)
}

/// The octets of a set of types, the windows ascending and without zeros at their ends (RFC 4034,
/// 4.1.2).
#[tactic(auto, unfolding(crate::specs::Bitmap::window_count))]
pub fn bitmap(alloc: Global, types: &[u16]) -> Result<Vec<u8>, AllocError>
    ensures { IfOk result (λ v. v.items ≡ bitmap types.now) }
{
    windows_below(alloc, types, 256)
}

/// The windows of lower numbers.
fn windows_below(alloc: Global, types: &[u16], count: u16) -> Result<Vec<u8>, AllocError>
    requires { count ≤ 256 }
    ensures { IfOk result (λ v. v.items ≡ flat_map (window types.now) (below count)) }
{
    let mut octets = Vec::new(alloc);
    for number in 0..count {
        let mut window = window(alloc, types, number)?;
        octets.append(&mut window)?;
    }
    Ok(octets)
}

/// A window, its number and its length before its octets; nothing where it is empty.
fn window(alloc: Global, types: &[u16], number: u16) -> Result<Vec<u8>, AllocError>
    requires { number < 256 }
    ensures { IfOk result (λ v. v.items ≡ window types.now number) }
{
    let octets = window_octets(alloc, types, number)?;
    with_number(alloc, number, octets)
}

/// Octets with a window's number and length before them; nothing where there are none.
fn with_number(alloc: Global, number: u16, octets: Vec<u8>) -> Result<Vec<u8>, AllocError>
    requires window { number < 256 }
    requires short { vec_len octets ≤ 32 }
    ensures { IfOk result (λ v. v.items ≡ numbered number octets.items) }
{
    let mut octets = octets;
    let mut window = Vec::new(alloc);
    if octets.is_empty() {
        return Ok(window);
    }
    window.push(number as u8)?;
    window.push(octets.len() as u8)?;
    window.append(&mut octets)?;
    Ok(window)
}

/// The octets of a window without the zeros at the end.
fn window_octets(alloc: Global, types: &[u16], number: u16) -> Result<Vec<u8>, AllocError>
    requires { number < 256 }
    ensures { IfOk result (λ v. v.items ≡ window_octets types.now number) }
{
    let mut octets = octets_below(alloc, types, number, 32)?;
    trim(&mut octets);
    Ok(octets)
}

/// The first `count` octets of a window.
fn octets_below(
    alloc: Global,
    types: &[u16],
    number: u16,
    count: u16,
) -> Result<Vec<u8>, AllocError>
    requires window { number < 256 }
    requires octets { count ≤ 32 }
    ensures { IfOk result (λ v. v.items ≡ map (octet_of types.now number) (below count)) }
{
    let mut octets = Vec::new(alloc);
    for place in 0..count {
        octets.push(octet_of(types, number, place))?;
    }
    Ok(octets)
}

/// One octet of a window, the first of eight types the highest bit.
#[tactic(auto, unfolding(crate::specs::Bitmap::octet_of))]
fn octet_of(types: &[u16], number: u16, place: u16) -> u8
    requires window { number < 256 }
    requires octet { place < 32 }
    ensures { result ≡ octet_of types.now number place }
{
    let first = number * 256 + place * 8;
    bit(types, first, 128)
        + bit(types, first + 1, 64)
        + bit(types, first + 2, 32)
        + bit(types, first + 3, 16)
        + bit(types, first + 4, 8)
        + bit(types, first + 5, 4)
        + bit(types, first + 6, 2)
        + bit(types, first + 7, 1)
}

/// What a type's bit is worth, if the set has the type.
fn bit(types: &[u16], rtype: u16, worth: u8) -> u8
    ensures value { result ≡ (if list_any (nat_eq rtype) types.now then worth else 0) }
    ensures most { result ≤ worth }
{
    if has_type(types, rtype) { worth } else { 0 }
}

fn has_type(types: &[u16], rtype: u16) -> bool
    ensures { result ≡ list_any (nat_eq rtype) types.now }
{
    types.iter().any(|t| rtype == *t)
}

/// Takes the zeros at the end off.
fn trim(octets: &mut Vec<u8>)
    ensures { octets.new.items ≡ trimmed octets.old.items }
{
    while ends_in_zero(octets) {
        octets.pop();
    }
}

/// Whether the last octet is zero.
fn ends_in_zero(octets: &[u8]) -> bool
    ensures zero { result ≡ true → trimmed (before_last octets.now) ≡ trimmed octets.now }
    ensures other { result ≡ false → trimmed octets.now ≡ octets.now }
    ensures some { result ≡ true → 0 < length octets.now }
{
    let Some((last, _)) = octets.split_last() else {
        return false;
    };
    *last == 0
}
