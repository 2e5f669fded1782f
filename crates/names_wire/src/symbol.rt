//! Symbols, of which the text of names is made (RFC 1035, 5.1).

ghost use Rattle.std.specs.Prelude.{◌≡◌, ◌≢◌, false, ◌↔◌, ◌++◌, ℕ, List, [], ◌∷◌, true, IfOk};
ghost use Rattle.std.specs.Prelude.{IfErr, IfSome, IsOk, IsTrue, OnErr, OnOk, None, Some};
ghost use Rattle.definitions.specs.Text.{is_symbol, is_digit, octet, spelling, symbol_of_octet};
ghost use Rattle.definitions.specs.Text.{symbols_of, octet_at, Plain, Quoted};
ghost use Rattle.std.specs.Option.{option_map};
ghost use Rattle.std.specs.Result.{result_ok};
ghost use Rattle.names_wire.specs.Symbols.{symbol_of, Takes, written, ReadsAs, char_fault};
ghost use Rattle.names_wire.specs.Symbols.{is_begun, left_of};

use std::fmt;
use std::marker::Model;
use thiserror::Error;

/// A symbol: a character, a character behind a backslash, or an octet as three digits behind a
/// backslash.
///
/// Any value can be made, but only the printable characters from a blank to a tilde are symbols:
/// not a bare backslash, and no digit behind one.
#[derive(Clone, Copy, Debug, PartialEq, Eq)]
pub enum Symbol {
    Char(char),
    SimpleEscape(u8),
    DecimalEscape(u8),
}

/// Why characters spell no symbol.
#[derive(Clone, Copy, Debug, PartialEq, Eq, Error)]
pub enum SymbolCharsError {
    /// A character outside printable ASCII.
    #[error("bad symbol")]
    BadSymbol,
    /// What follows a backslash is no escape.
    #[error("bad escape")]
    BadEscape,
    /// The text ends within an escape.
    #[error("unexpected end of input")]
    ShortInput,
}

impl Symbol {
    /// The symbol that an octet of a label is printed as.
    pub fn from_octet(value: u8) -> Symbol
        ensures { symbol_of result ≡ symbol_of_octet value }
    {
        match value {
            b' ' | b'.' | b'\\' => Symbol::SimpleEscape(value),
            0x20..=0x7e => Symbol::Char(value as char),
            _ => Symbol::DecimalEscape(value),
        }
    }

    /// The octet that the symbol stands for, or `BadSymbol` where the value is no symbol.
    pub fn into_octet(self) -> Result<u8, SymbolCharsError>
        ensures ok { IfOk result (λ value. value ≡ octet (symbol_of self)) }
        ensures err { IsOk result ↔ (is_symbol (symbol_of self) ≡ true) }
        ensures kind { IfErr result (λ e. e ≡ SymbolCharsError.BadSymbol) }
    {
        match self {
            Symbol::Char(ch) if ch >= ' ' && ch <= '~' && ch != '\\' => Ok(ch as u8),
            Symbol::SimpleEscape(value)
                if value >= b' ' && value <= b'~' && !value.is_ascii_digit() => Ok(value),
            Symbol::DecimalEscape(value) => Ok(value),
            _ => Err(SymbolCharsError::BadSymbol),
        }
    }
}

/// The symbol as it is written. A value that is no symbol is written too, but no clause says how.
impl fmt::Display for Symbol {
    ghost output = { λ s. written (symbol_of s) };

    #[tactic(auto, using(std::proofs::lemmas::Fmt::decimal_digit))]
    fn fmt<W: fmt::Write>(&self, f: &mut fmt::Formatter<W>) -> fmt::Result {
        match *self {
            Symbol::Char(ch) => write!(f, "{ch}"),
            Symbol::SimpleEscape(value) => write!(f, "\\{}", value as char),
            Symbol::DecimalEscape(value) => {
                let (hundreds, tens, units) = (value / 100, value / 10 % 10, value % 10);
                write!(f, "\\{hundreds}{tens}{units}")
            }
        }
    }
}

/// What has been read of an unfinished symbol. A digit is kept as its character's code.
#[derive(Clone, Copy)]
enum Pending {
    Nothing,
    Backslash,
    OneDigit(u8),
    TwoDigits(u8, u8),
}

/// Reads symbols from characters that come one by one.
#[derive(Drop)]
pub struct SymbolReader {
    pending: Pending,
}

/// The characters of a symbol that isn't whole yet.
impl Model for SymbolReader {
    ghost use Rattle.std.specs.Prelude.{List, ℕ};
    ghost use Rattle.names_wire.specs.Pending.{pending_text, HasDigits};

    ghost Value = { List ℕ };

    ghost view = { λ reader. pending_text reader.pending };

    ghost invariant = { λ reader. HasDigits reader.pending };
}

impl SymbolReader {
    /// A reader in front of a text.
    pub fn new() -> SymbolReader
        ensures { result ≡ [] }
    {
        SymbolReader {
            pending: Pending::Nothing,
        }
    }

    /// Takes the next character, and returns the symbol that it completes, if it completes one.
    ///
    /// After an error the reader is as it was.
    pub fn push(&mut self, ch: char) -> Result<Option<Symbol>, SymbolCharsError>
        ensures read { IfOk result (Takes self.old ch self.new) }
        ensures valid { IfOk result (λ symbol.
            IfSome symbol (λ s. is_symbol (symbol_of s) ≡ true)) }
        ensures err { OnErr result ((rest : List ℕ)
            → symbols_of (self.old ++ ch ∷ rest) ≡ None) }
        ensures kind { IfErr result (λ e. e ≡ char_fault self.old) }
        ensures unchanged { OnErr result (self.new ≡ self.old) }
        ensures begun { is_begun self.new ≡ true }
        ensures left { let text = self.old ++ ch ∷ [] in
            IfOk result (λ symbol. self.new ≡ left_of symbol text) }
        ensures stops { OnErr result (is_begun (self.old ++ ch ∷ []) ≡ false) }
    {
        match self.pending {
            Pending::Nothing if ch == '\\' => {
                self.pending = Pending::Backslash;
                Ok(None)
            }
            Pending::Nothing => Ok(Some(plain(ch)?)),
            Pending::Backslash if ch.is_ascii_digit() => {
                self.pending = Pending::OneDigit(ch as u8);
                Ok(None)
            }
            Pending::Backslash => {
                let symbol = quoted(ch)?;
                self.pending = Pending::Nothing;
                Ok(Some(symbol))
            }
            Pending::OneDigit(first) => {
                self.pending = Pending::TwoDigits(first, digit(ch)?);
                Ok(None)
            }
            Pending::TwoDigits(first, second) => {
                let symbol = decimal(first, second, digit(ch)?)?;
                self.pending = Pending::Nothing;
                Ok(Some(symbol))
            }
        }
    }

    /// Ends the text, which is refused within an escape.
    pub fn finish(self) -> Result<(), SymbolCharsError>
        ensures ok { OnOk result (self ≡ []) }
        ensures err { OnErr result (symbols_of self ≡ None) }
        ensures kind { IfErr result (λ e. e ≡ SymbolCharsError.ShortInput) }
    {
        match self.pending {
            Pending::Nothing => Ok(()),
            _ => Err(SymbolCharsError::ShortInput),
        }
    }
}

/// A character that stands for itself.
fn plain(ch: char) -> Result<Symbol, SymbolCharsError>
    requires { ch ≢ 92 }
    ensures read { IfOk result (λ s. ReadsAs (ch ∷ []) s) }
    ensures valid { IfOk result (λ s. is_symbol (symbol_of s) ≡ true) }
    ensures err { OnErr result ((rest : List ℕ) → symbols_of (ch ∷ rest) ≡ None) }
    ensures kind { IfErr result (λ e. e ≡ SymbolCharsError.BadSymbol) }
{
    if ch < ' ' || ch > '~' {
        return Err(SymbolCharsError::BadSymbol);
    }
    Ok(Symbol::Char(ch))
}

/// A character behind a backslash.
fn quoted(ch: char) -> Result<Symbol, SymbolCharsError>
    requires { is_digit ch ≡ false }
    ensures read { IfOk result (λ s. ReadsAs (92 ∷ ch ∷ []) s) }
    ensures valid { IfOk result (λ s. is_symbol (symbol_of s) ≡ true) }
    ensures err { OnErr result ((rest : List ℕ) → symbols_of (92 ∷ ch ∷ rest) ≡ None) }
    ensures kind { IfErr result (λ e. e ≡ SymbolCharsError.BadEscape) }
{
    if ch < ' ' || ch > '~' {
        return Err(SymbolCharsError::BadEscape);
    }
    Ok(Symbol::SimpleEscape(ch as u8))
}

/// A digit, as its code.
fn digit(ch: char) -> Result<u8, SymbolCharsError>
    ensures ok { IfOk result (λ d. d ≡ ch) }
    ensures err { IsOk result ↔ (is_digit ch ≡ true) }
    ensures kind { IfErr result (λ e. e ≡ SymbolCharsError.BadEscape) }
{
    if !ch.is_ascii_digit() {
        return Err(SymbolCharsError::BadEscape);
    }
    Ok(ch as u8)
}

/// The octet that three digits behind a backslash spell.
fn decimal(first: u8, second: u8, third: u8) -> Result<Symbol, SymbolCharsError>
    requires first { is_digit first ≡ true }
    requires second { is_digit second ≡ true }
    requires third { is_digit third ≡ true }
    ensures read { IfOk result (λ s. ReadsAs (92 ∷ first ∷ second ∷ third ∷ []) s) }
    ensures valid { IfOk result (λ s. is_symbol (symbol_of s) ≡ true) }
    ensures err { OnErr result ((rest : List ℕ)
        → symbols_of (92 ∷ first ∷ second ∷ third ∷ rest) ≡ None) }
    ensures kind { IfErr result (λ e. e ≡ SymbolCharsError.BadEscape) }
{
    let value = (first - b'0') as u16 * 100 + (second - b'0') as u16 * 10 + (third - b'0') as u16;
    if value > 255 {
        return Err(SymbolCharsError::BadEscape);
    }
    Ok(Symbol::DecimalEscape(value as u8))
}
