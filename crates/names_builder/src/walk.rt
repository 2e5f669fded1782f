//! Texts of names, read in one walk over their octets (RFC 1035, 5.1). The walk reports no faults:
//! a text that it does not read is left to the reader that goes symbol by symbol.

ghost use Rattle.std.specs.Prelude.{◌≡◌, ◌≢◌, ◌<◌, ◌≤◌, ◌∷◌, Bool, true, drop, length, IfOk};
ghost use Rattle.std.specs.Prelude.{IfSome};
ghost use Rattle.definitions.specs.Text.{is_digit};
ghost use Rattle.names_builder.specs.TextWalk.{ReadsOctet, WritesLabels, SpellsText};
ghost use Rattle.names_builder.specs.TextWalk.{SpellsRelativeText};

use std::alloc::{AllocError, Global};

/// The wire form of the name that a text spells. `None` for a text that spells none, for a lone
/// dot, and for a text of more than 254 characters.
pub fn text_octets(alloc: Global, text: &[u8]) -> Result<Option<Vec<u8>>, AllocError>
    ensures { IfOk result (λ o. IfSome o (λ v. SpellsText text.now v.items)) }
{
    if text.len() > 254 {
        return Ok(None);
    }
    let mut octets = [0; 255];
    let Some((mut end, last)) = write_labels(&mut octets, text) else {
        return Ok(None);
    };
    if last > 0 {
        octets[end] = 0;
        end += 1;
    }
    Ok(Some(Vec::from_slice(alloc, &octets[..end])?))
}

/// The labels of the relative name that a text spells, each behind its length. `None` for a text
/// that spells none, for an empty text, and for a text of more than 254 characters.
pub fn relative_octets(alloc: Global, text: &[u8]) -> Result<Option<Vec<u8>>, AllocError>
    ensures { IfOk result (λ o. IfSome o (λ v. SpellsRelativeText text.now v.items)) }
{
    if text.len() > 254 {
        return Ok(None);
    }
    let mut octets = [0; 255];
    match write_labels(&mut octets, text) {
        Some((end, last)) if last > 0 => Ok(Some(Vec::from_slice(alloc, &octets[..end])?)),
        _ => Ok(None),
    }
}

/// Writes the labels that a text spells, each behind its length, which stands where the dot before
/// its label would. Returns the place behind them and the length of the last label, which is 0
/// behind a last dot. `None` where the text spells no labels, or there is no room for them and the
/// root's octet.
fn write_labels(octets: &mut [u8], text: &[u8]) -> Option<(usize, usize)>
    requires room { length text.now < length octets.old }
    requires few { length octets.old ≤ 255 }
    ensures labels { IfSome result (λ w. WritesLabels text.now octets.new w.0 w.1) }
    ensures within { IfSome result (λ w. w.0 ≤ length octets.new) }
    ensures root { IfSome result (λ w. 0 < w.1 → w.0 < length octets.new) }
{
    let (mut head, mut place, mut at) = (0, 1, 0);
    while at < text.len() {
        let first = text[at];
        at += 1;
        octets[place] = first;
        // Most octets are small letters.
        if first < b']' || first > b'~' {
            if first == b'.' {
                let len = place - head - 1;
                if len == 0 || len > 63 {
                    return None;
                }
                octets[head] = len as u8;
                head = place;
            } else {
                let (octet, count) = octet_at(first, &text[at..], place > head + 1)?;
                octets[place] = octet;
                at += count;
            }
        }
        place += 1;
    }
    let last = place - head - 1;
    if place == 1 || last > 63 || (last > 0 && place >= octets.len()) {
        return None;
    }
    octets[head] = last as u8;
    Some((place, last))
}

/// The octet that a symbol adds to a label, and how many octets the symbol takes behind its first
/// one.
fn octet_at(first: u8, behind: &[u8], in_label: bool) -> Option<(u8, usize)>
    requires { first ≢ 46 }
    ensures symbol { IfSome result (λ r.
        ReadsOctet (first ∷ behind.now) in_label r.0 (drop r.1 behind.now)) }
    ensures within { IfSome result (λ r. r.1 ≤ length behind.now) }
{
    if first == b'\\' {
        return escaped(behind, in_label);
    }
    if first < b' ' || first > b'~' {
        return None;
    }
    Some((first, 0))
}

/// The octet that a symbol behind a backslash adds to a label, and how many octets it takes behind
/// the backslash.
fn escaped(text: &[u8], in_label: bool) -> Option<(u8, usize)>
    ensures symbol { IfSome result (λ r.
        ReadsOctet (92 ∷ text.now) in_label r.0 (drop r.1 text.now)) }
    ensures within { IfSome result (λ r. r.1 ≤ length text.now) }
{
    let (&first, behind) = text.split_first()?;
    if first.is_ascii_digit() {
        return Some((decimal(first, behind)?, 3));
    }
    if first < b' ' || first > b'~' {
        return None;
    }
    if first == b'[' && !in_label {
        return None;
    }
    Some((first, 1))
}

/// The octet that three digits spell: the first one, and two at the front of a text.
fn decimal(first: u8, text: &[u8]) -> Option<u8>
    requires { is_digit first ≡ true }
    ensures symbol { (in_label : Bool) → IfSome result (λ octet.
        ReadsOctet (92 ∷ first ∷ text.now) in_label octet (drop 2 text.now)) }
    ensures within { IfSome result (λ _. 2 ≤ length text.now) }
{
    let (&second, behind) = text.split_first()?;
    let (&third, _) = behind.split_first()?;
    if !second.is_ascii_digit() || !third.is_ascii_digit() {
        return None;
    }
    let value = u16::from(first - b'0') * 100
        + u16::from(second - b'0') * 10
        + u16::from(third - b'0');
    if value > 255 {
        return None;
    }
    Some(value as u8)
}
