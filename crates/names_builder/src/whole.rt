//! Whole texts of names, read into builders (RFC 1035, 5.1).

ghost use Rattle.std.specs.Prelude.{◌≡◌, true, IfOk, IfErr, IfSome, IsErrOf};
ghost use Rattle.std.specs.Iterator.{IsFinite};
ghost use Rattle.definitions.specs.Text.{name_of_text, name_of_symbols, relative_of_text};
ghost use Rattle.names_wire.specs.Spelled.{CharsSpell, SpellsNothing};
ghost use Rattle.names_builder.specs.Fault.{fault_of, relative_fault_of};
ghost use Rattle.names_builder.specs.FromText.{NameFault, RelativeFault, SymbolsFault, is_text};
ghost use Rattle.names_builder.specs.FromText.{is_relative_text, SymbolsSpell, SymbolsSpellNothing};
ghost use Rattle.names_builder.specs.FromText.{SpellsAbsolute};
ghost use Rattle.names_builder.specs.Building.{all_labels};

use crate::builder::NameBuilder;
use crate::text::separates;
use crate::text_error::{FromStrError, PresentationError, RelativeFromStrError};
use names_wire::symbol::{Symbol, SymbolReader};
use std::alloc::Global;

/// A builder with the labels of the name that the symbols spell. A lone dot is the root; any other
/// name may leave its last dot out.
pub fn read_symbols<S: Iterator<Item = Symbol> + Drop>(
    alloc: Global,
    symbols: S,
) -> Result<NameBuilder<Vec<u8>>, FromStrError>
    requires can { S.can_next symbols }
    requires ends { IsFinite (S.remaining symbols) }
    ensures ok { let spell = SymbolsSpell S.next_gives symbols name_of_symbols in
        IfOk result (λ n. spell (all_labels n)) }
    ensures refused { IfErr result (λ e. is_text e ≡ true
        → SymbolsSpellNothing S.next_gives symbols name_of_symbols) }
    ensures fault { IfErr result (λ e. IfSome (fault_of e) (SymbolsFault S.next_gives symbols)) }
{
    let mut symbols = symbols;
    let Some(first) = symbols.next() else {
        return Err(FromStrError::Presentation(PresentationError::empty_label()));
    };
    if separates(first) {
        match symbols.next() {
            Some(_) => {
                return Err(FromStrError::Presentation(PresentationError::empty_label()));
            }
            None => return Ok(NameBuilder::new(alloc)),
        }
    }
    let mut builder = NameBuilder::new(alloc);
    builder.push_symbol(first)?;
    builder.add_symbols(symbols)?;
    Ok(builder)
}

/// A builder with the labels of the name that the characters spell, made with room for `room`
/// octets. A lone dot is the root; any other name may leave its last dot out.
///
/// Reading stops at the first character behind which no name can come.
pub fn read_chars<C: Iterator<Item = char> + Drop>(
    alloc: Global,
    room: usize,
    chars: C,
) -> Result<NameBuilder<Vec<u8>>, FromStrError>
    requires can { C.can_next chars }
    requires ends { IsFinite (C.remaining chars) }
    ensures ok { let spell = CharsSpell C.next_gives chars name_of_text in
        IfOk result (λ n. spell (all_labels n)) }
    ensures refused { IfErr result (λ e. is_text e ≡ true
        → SpellsNothing C.next_gives chars name_of_text) }
    ensures fault { IfErr result (λ e. IfSome (fault_of e) (NameFault C.next_gives chars)) }
{
    let mut chars = chars;
    let Some(first) = chars.next() else {
        return Err(FromStrError::Presentation(PresentationError::empty_label()));
    };
    if first == '.' {
        match chars.next() {
            Some(_) => {
                return Err(FromStrError::Presentation(PresentationError::empty_label()));
            }
            None => return Ok(NameBuilder::new(alloc)),
        }
    }
    let mut builder = NameBuilder::with_capacity(alloc, room)?;
    let mut reader = SymbolReader::new();
    builder.push_char(&mut reader, first)?;
    builder.append_text(reader, chars)?;
    Ok(builder)
}

/// A builder with the labels of the relative name that the characters spell, made with room for
/// `room` octets. Without characters it has no labels. A last dot is refused; a lone dot is refused
/// as an empty label.
pub fn read_relative<C: Iterator<Item = char> + Drop>(
    alloc: Global,
    room: usize,
    chars: C,
) -> Result<NameBuilder<Vec<u8>>, RelativeFromStrError>
    requires can { C.can_next chars }
    requires ends { IsFinite (C.remaining chars) }
    ensures ok { let spell = CharsSpell C.next_gives chars relative_of_text in
        IfOk result (λ n. spell (all_labels n)) }
    ensures refused { IfErr result (λ e. is_relative_text e ≡ true
        → SpellsNothing C.next_gives chars relative_of_text) }
    ensures fault { let is = RelativeFault C.next_gives chars in
        IfErr result (λ e. IfSome (relative_fault_of e) is) }
    ensures absolute { IsErrOf result RelativeFromStrError.AbsoluteName
        → SpellsAbsolute C.next_gives chars }
{
    let Ok(mut builder) = NameBuilder::with_capacity(alloc, room) else {
        return Err(RelativeFromStrError::FromStr(FromStrError::ShortBuf));
    };
    builder.append_chars(chars)?;
    if builder.in_label() || builder.is_empty() {
        Ok(builder)
    } else {
        Err(RelativeFromStrError::AbsoluteName)
    }
}
