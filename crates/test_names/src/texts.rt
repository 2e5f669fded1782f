//! Texts of names, of labels and of symbols (RFC 1035, 5.1).

use crate::said;
use names::{LabelFromStrError, Name, OwnedLabel, RelativeName, Symbol};
use std::net::IpAddr;
use test_lines::Line;

/// The name of a text, and of its characters.
pub fn text(line: &mut Line<'_>) {
    let (alloc, text, mut again) = (line.alloc(), line.rest(1), line.aside(" "));
    said::name(line, Name::vec_from_str(alloc, text));
    said::name(&mut again, Name::from_chars(alloc, text.chars()));
    line.check_same(again);
}

/// The relative name of a text, and of its characters.
pub fn relative_text(line: &mut Line<'_>) {
    let (alloc, text, mut again) = (line.alloc(), line.rest(1), line.aside(" "));
    said::relative(line, RelativeName::vec_from_str(alloc, text));
    said::relative(&mut again, RelativeName::from_chars(alloc, text.chars()));
    line.check_same(again);
}

/// The label of a text, and of its characters.
pub fn label(line: &mut Line<'_>) {
    let (text, mut again) = (line.rest(1), line.aside(" "));
    label_read(line, text.parse());
    label_read(&mut again, OwnedLabel::from_chars(text.chars()));
    line.check_same(again);
}

/// The octets of a label, and its text when it is printed; or the fault of the text.
fn label_read(line: &mut Line<'_>, read: Result<OwnedLabel, LabelFromStrError>) {
    match read {
        Ok(label) => {
            line.hex(label.as_label().as_slice());
            line.value(&label);
        }
        Err(error) => line.value(&error),
    }
}

/// The name of symbols.
pub fn symbols(line: &mut Line<'_>) {
    let (alloc, text) = (line.alloc(), line.rest(1));
    let symbols = symbols_of(line, text);
    said::name(line, Name::from_symbols(alloc, symbols.into_iter()));
}

/// The octet of a character.
pub fn symbol(line: &mut Line<'_>) {
    match line.rest(1).chars().next() {
        Some(character) => said::value(line, Symbol::Char(character).into_octet()),
        None => line.lose(),
    }
}

/// The symbol of an octet.
pub fn octet(line: &mut Line<'_>) {
    let octet = line.u8_at(1);
    let symbol = Symbol::from_octet(octet);
    line.check(symbol.into_octet() == Ok(octet));
    line.value(&symbol);
}

/// The name for the reverse way, of an address.
pub fn address(line: &mut Line<'_>) {
    let alloc = line.alloc();
    match line.word(1).parse::<IpAddr>() {
        Ok(address) => said::value(line, Name::reverse_from_addr(alloc, address)),
        Err(_) => line.lose(),
    }
}

/// Symbols, joined by commas: a character, a character behind a backslash, or three digits behind
/// one.
pub fn symbols_of(line: &mut Line<'_>, text: &str) -> Vec<Symbol> {
    let mut symbols = Vec::new(line.alloc());
    for word in text.split(',') {
        let symbol = symbol_of(line, word);
        line.must(symbols.push(symbol));
    }
    symbols
}

fn symbol_of(line: &mut Line<'_>, word: &str) -> Symbol {
    let behind = word.strip_prefix('\\');
    match (behind, behind.unwrap_or(word).as_bytes().first()) {
        (None, _) => Symbol::Char(first_char(line, word)),
        (Some(_), None) => Symbol::Char('\\'),
        (Some(behind), Some(value)) => escaped(line, behind, *value),
    }
}

fn first_char(line: &mut Line<'_>, word: &str) -> char {
    match word.chars().next() {
        Some(character) => character,
        None => {
            line.lose();
            ' '
        }
    }
}

fn escaped(line: &mut Line<'_>, behind: &str, value: u8) -> Symbol {
    if behind.len() == 1 {
        Symbol::SimpleEscape(value)
    } else {
        Symbol::DecimalEscape(line.read_u8(behind))
    }
}
