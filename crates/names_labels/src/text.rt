//! The text of names (RFC 1035, 5.1), gathered so that it is written in one call.

ghost use Rattle.std.specs.Prelude.{◌≡◌, ◌+◌, ◌*◌, ◌-◌, ◌<◌, ◌≤◌, ◌++◌, ◌∷◌, [], Some, length};
ghost use Rattle.std.specs.Prelude.{take};
ghost use Rattle.std.specs.Str.{IsAscii};
ghost use Rattle.std.specs.Fmt.{DisplaysOnOk};
ghost use Rattle.names_wire.specs.Text.{text_of_octet, text_of_label, text_of_relative};
ghost use Rattle.names_labels.specs.Flat.{labels_in, IsRun};
ghost use Rattle.names_wire.specs.Label.{octets_of};
ghost use Rattle.names_wire.specs.Symbols.{is_plain};
ghost use Rattle.names_labels.specs.Dotted.{dotted};

use crate::flat::split_label;
use names_wire::label::Label;
use std::marker::Model;
use std::{fmt, str};

/// Characters of the labels of a name, with a dot behind each label: at most four for each octet.
#[derive(Drop)]
pub struct NameText {
    characters: [u8; 1024],
    len: usize,
}

impl Model for NameText {
    ghost use Rattle.std.specs.Prelude.{List, ℕ, ◌≤◌, take};
    ghost use Rattle.std.specs.Str.{IsAscii};

    ghost Value = { List ℕ };

    ghost view = { λ t. take t.len t.characters };

    ghost invariant = { λ t. (t.len ≤ 1024) × IsAscii (take t.len t.characters) };
}

impl NameText {
    /// No characters.
    pub fn new() -> NameText
        ensures { result ≡ [] }
    {
        NameText {
            characters: [0; 1024],
            len: 0,
        }
    }

    /// Appends a label and a dot.
    pub fn push_label(&mut self, label: Label<'_>)
        requires { length self.old + 4 * length (octets_of label) < 1024 }
        ensures { self.new ≡ self.old ++ (text_of_label (octets_of label.entry) ++ 46 ∷ []) }
    {
        self.len = write_label(&mut self.characters, self.len, label.as_slice());
    }

    /// The characters.
    pub fn as_str(&self) -> &str
        ensures { result.now ≡ self.now }
    {
        // Each character is an ASCII one.
        unsafe { str::from_utf8_unchecked(&self.characters[..self.len]) }
    }

    /// The characters but the last, which is a dot.
    pub fn without_last_dot(&self) -> &str
        requires { 0 < length self.now }
        ensures { result.now ≡ take (length self.now - 1) self.now }
    {
        without_last(&self.characters[..self.len])
    }
}

/// Characters but the last one.
fn without_last(characters: &[u8]) -> &str
    requires ascii { IsAscii characters.now }
    requires some { 0 < length characters.now }
    ensures { result.now ≡ take (length characters.now - 1) characters.now }
{
    unsafe { str::from_utf8_unchecked(&characters[..characters.len() - 1]) }
}

/// Writes the labels of a row with a dot between each two. Short names are gathered in a small
/// buffer, since a buffer is first filled with zeros.
pub fn write_labels<W: fmt::Write>(f: &mut fmt::Formatter<W>, run: &[u8]) -> fmt::Result
    requires run { IsRun run.now }
    requires short { length run.now ≤ 255 }
    requires some { 0 < length (labels_in run.now) }
    ensures { let text = text_of_relative (labels_in run.now) in
        DisplaysOnOk W.write_str_gives f.old result (Some text) f.new }
{
    if run.len() <= 48 {
        return write_labels_in::<192, W>(f, run);
    }
    write_labels_in::<1024, W>(f, run)
}

/// Writes the labels of a row with a dot between each two, through a buffer of `SIZE` characters.
fn write_labels_in<const SIZE: usize, W: fmt::Write>(
    f: &mut fmt::Formatter<W>,
    run: &[u8],
) -> fmt::Result
    requires run { IsRun run.now }
    requires room { 4 * length run.now ≤ SIZE }
    requires few { SIZE ≤ 1024 }
    requires some { 0 < length (labels_in run.now) }
    ensures { let text = text_of_relative (labels_in run.now) in
        DisplaysOnOk W.write_str_gives f.old result (Some text) f.new }
{
    let mut characters = [0; SIZE];
    let end = write_run(&mut characters, run);
    f.write_str(without_last(&characters[..end]))
}

/// Writes the labels of a row, with a dot behind each, and returns the place behind them.
fn write_run(characters: &mut [u8], run: &[u8]) -> usize
    requires run { IsRun run.now }
    requires room { 4 * length run.now ≤ length characters.old }
    ensures text { take result characters.new ≡ dotted (labels_in run.now) }
    ensures end { result ≡ length (dotted (labels_in run.now)) }
    ensures within { result ≤ length characters.new }
    ensures ascii { IsAscii (dotted (labels_in run.now)) }
{
    let (mut rest, mut end) = (run, 0);
    while let Some((label, behind)) = split_label(rest) {
        end = write_label(characters, end, label.as_slice());
        rest = behind;
    }
    end
}

/// Writes the text of a label and a dot from a place on, and returns the place behind it.
fn write_label(characters: &mut [u8], place: usize, label: &[u8]) -> usize
    requires { place + 4 * length label.now < length characters.old }
    ensures text { let text = text_of_label label.now ++ 46 ∷ [] in
        take result characters.new ≡ take place characters.old ++ text }
    ensures end { result ≡ place + (length (text_of_label label.now) + 1) }
    ensures within { result ≤ length characters.new }
    ensures ascii { IsAscii (text_of_label label.now ++ 46 ∷ []) }
{
    let end = write_octets(characters, place, label);
    write_character(characters, end, b'.');
    end + 1
}

/// Writes the text of the octets of a label from a place on, and returns the place behind it.
fn write_octets(characters: &mut [u8], place: usize, octets: &[u8]) -> usize
    requires { place + 4 * length octets.now ≤ length characters.old }
    ensures text { let text = text_of_label octets.now in
        take result characters.new ≡ take place characters.old ++ text }
    ensures end { result ≡ place + length (text_of_label octets.now) }
    ensures ascii { IsAscii (text_of_label octets.now) }
{
    let mut end = place;
    for octet in octets {
        end = write_octet(characters, end, *octet);
    }
    end
}

/// Writes the text of an octet from a place on, and returns the place behind it.
fn write_octet(characters: &mut [u8], place: usize, octet: u8) -> usize
    requires { place + 4 ≤ length characters.old }
    ensures text { take result characters.new ≡ take place characters.old ++ text_of_octet octet }
    ensures end { result ≡ place + length (text_of_octet octet) }
    ensures ascii { IsAscii (text_of_octet octet) }
{
    if is_plain(octet) {
        write_character(characters, place, octet);
        return place + 1;
    }
    write_character(characters, place, b'\\');
    if matches!(octet, b' ' | b'.' | b'\\') {
        write_character(characters, place + 1, octet);
        return place + 2;
    }
    let (tens, hundreds) = (octet / 10, octet / 100);
    write_character(characters, place + 1, b'0' + hundreds);
    write_character(characters, place + 2, b'0' + (tens - hundreds * 10));
    write_character(characters, place + 3, b'0' + (octet - tens * 10));
    place + 4
}

fn write_character(characters: &mut [u8], place: usize, character: u8)
    requires { place < length characters.old }
    ensures { take (place + 1) characters.new ≡ take place characters.old ++ character ∷ [] }
{
    characters[place] = character;
}

/// Whether an octet is printed as itself: any from `!` to `~` but the dot and the backslash. Small
/// letters are tested first, since most octets are small letters.
fn is_plain(octet: u8) -> bool
    ensures { result ≡ is_plain octet }
{
    matches!(octet, b']'..=b'~') || (matches!(octet, b'!'..=b'[') && octet != b'.')
}
