//! Labels that own their octets.

ghost use Rattle.std.specs.Prelude.{◌≡◌, ◌≤◌, slice_index, ◌++◌, [], ◌∷◌, true, ℕ, List, Some};
ghost use Rattle.std.specs.Prelude.{None, IfOk, IfErr, OnOk, OnErr};
ghost use Rattle.std.specs.Str.{str_to_ascii_lowercase, chars};
ghost use Rattle.std.specs.Iterator.{IsFinite};
ghost use Rattle.definitions.specs.Text.{is_symbol, octet, label_of_text};
ghost use Rattle.names_wire.specs.Label.{octets_of, wire_label};
ghost use Rattle.names_wire.specs.Symbols.{symbol_of};
ghost use Rattle.names_wire.specs.Spelled.{CannotFollow, CharsSpell, SpellsNothing, in_turn};
ghost use Rattle.names_wire.specs.LabelFault.{named, FaultBehind, FirstFault};

use crate::label::Label;
use crate::symbol::{Symbol, SymbolCharsError, SymbolReader};
use std::str::FromStr;
use thiserror::Error;

/// Characters spell no label.
#[derive(Clone, Copy, Debug, PartialEq, Eq, Error)]
#[error("{0}")]
pub struct LabelFromStrError(LabelFault);

#[derive(Clone, Copy, Debug, PartialEq, Eq, Error)]
enum LabelFault {
    #[error("{0}")]
    Symbol(SymbolCharsError),
    #[error("a binary label")]
    BinaryLabel,
    #[error("a dot within a label")]
    Dot,
    #[error("an empty label")]
    EmptyLabel,
    #[error("long label")]
    LongLabel,
}

impl From<SymbolCharsError> for LabelFromStrError {
    ghost use Rattle.names_wire.specs.declared.owned.LabelFault.TheVariants.{Symbol as BadText};

    ghost from_gives = { λ p e. named e ≡ BadText p };

    fn from(error: SymbolCharsError) -> LabelFromStrError {
        LabelFromStrError(LabelFault::Symbol(error))
    }
}

/// A label that owns its octets. It takes no memory besides its own 64 octets.
#[derive(Clone, Copy)]
pub struct OwnedLabel {
    /// The length octet, the label's octets, and room.
    wire: [u8; 64],
    ghost short: { slice_index wire 0 ≤ 63 },
}

impl OwnedLabel {
    ghost use Rattle.names_wire.specs.Owned.{owned_octets};

    /// A copy of the label.
    pub fn from_label(label: Label<'_>) -> OwnedLabel
        ensures { owned_octets result ≡ octets_of label.entry }
    {
        let len = label.len();
        let mut wire = [0; 64];
        wire[0] = len as u8;
        wire[1..=len].copy_from_slice(label.as_slice());
        OwnedLabel { wire }
    }

    /// The label that the characters spell: 1 to 63 symbols without a dot that separates (RFC 1035,
    /// 5.1).
    ///
    /// Reading stops at the first character behind which no label can come. The digits of an escape
    /// are judged at the last one.
    pub fn from_chars<C: Iterator<Item = char> + Drop>(
        chars: C,
    ) -> Result<OwnedLabel, LabelFromStrError>
        requires can { C.can_next chars }
        requires ends { IsFinite (C.remaining chars) }
        ensures ok { let spell = CharsSpell C.next_gives chars label_of_text in
            IfOk result (λ label. spell (owned_octets label)) }
        ensures err { OnErr result (SpellsNothing C.next_gives chars label_of_text) }
        ensures fault { IfErr result (λ e. FirstFault C.next_gives chars (named e)) }
    {
        let mut reader = SymbolReader::new();
        let mut label = OwnedLabel::from_label(Label::root());
        for ch in chars {
            if let Some(symbol) = reader.push(ch)? {
                label.push(symbol)?;
            }
        }
        reader.finish()?;
        if label.as_label().is_root() {
            return Err(LabelFromStrError(LabelFault::EmptyLabel));
        }
        Ok(label)
    }

    /// Appends the octet of a symbol.
    fn push(&mut self, symbol: Symbol) -> Result<(), LabelFromStrError>
        requires { is_symbol (symbol_of symbol) ≡ true }
        ensures ok { let added = octet (symbol_of symbol) in
            OnOk result (owned_octets self.new ≡ owned_octets self.old ++ added ∷ []) }
        ensures fits { let cannot = CannotFollow (owned_octets self.old) (symbol_of symbol) in
            OnOk result (cannot → ⊥) }
        ensures err { OnErr result (CannotFollow (owned_octets self.old) (symbol_of symbol)) }
        ensures fault { let is = FaultBehind (owned_octets self.old) (symbol_of symbol) in
            IfErr result (λ e. is (named e)) }
        ensures unchanged { OnErr result (self.new ≡ self.old) }
    {
        let len = self.wire[0] as usize;
        match symbol {
            Symbol::Char('.') => return Err(LabelFromStrError(LabelFault::Dot)),
            Symbol::SimpleEscape(b'[') if len == 0 => {
                return Err(LabelFromStrError(LabelFault::BinaryLabel));
            }
            _ if len == Label::MAX_LEN => return Err(LabelFromStrError(LabelFault::LongLabel)),
            _ => {}
        }
        self.wire[len + 1] = symbol.into_octet()?;
        self.wire[0] += 1;
        Ok(())
    }

    /// Lowers ASCII letters, as the canonical form has them (RFC 4034, 6.2).
    pub fn make_canonical(&mut self)
        ensures { owned_octets self.new ≡ str_to_ascii_lowercase (owned_octets self.old) }
    {
        let len = self.wire[0] as usize;
        self.wire[1..=len].make_ascii_lowercase();
    }

    pub fn as_label(&self) -> Label<'_>
        ensures { octets_of result ≡ owned_octets self.now }
    {
        let len = self.wire[0] as usize;
        Label::from_short(&self.wire[1..=len])
    }

    /// The octets behind their number, as in a message.
    pub fn as_wire_slice(&self) -> &[u8]
        ensures { result.now ≡ wire_label (owned_octets self.now) }
    {
        let len = self.wire[0] as usize;
        &self.wire[..=len]
    }
}

/// The label that the text spells, as `from_chars` reads it.
impl FromStr for OwnedLabel {
    ghost use Rattle.names_wire.specs.Owned.{owned_octets};

    type Err = LabelFromStrError;

    ghost from_str_gives = { λ text result.
        IfOk result (λ label. label_of_text (chars text) ≡ Some (owned_octets label))
        × OnErr result (label_of_text (chars text) ≡ None)
        × IfErr result (λ e. FirstFault in_turn (chars text) (named e)) };

    fn from_str(text: &str) -> Result<OwnedLabel, LabelFromStrError> {
        OwnedLabel::from_chars(text.chars())
    }
}
