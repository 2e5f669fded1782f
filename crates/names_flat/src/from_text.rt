//! Names read from text (RFC 1035, 5.1).

ghost use Rattle.std.specs.Prelude.{◌≡◌, ◌≤◌, true, None, Some, ℕ, List, IfOk, IfErr, IfSome};
ghost use Rattle.std.specs.Prelude.{IsErrOf};
ghost use Rattle.std.specs.Iterator.{IsFinite};
ghost use Rattle.std.specs.Str.{chars as chars_of};
ghost use Rattle.definitions.specs.Text.{name_of_text, name_of_symbols, relative_of_text};
ghost use Rattle.names_wire.specs.Spelled.{CharsSpell, SpellsNothing, in_turn};
ghost use Rattle.names_builder.specs.Fault.{fault_of, relative_fault_of};
ghost use Rattle.names_builder.specs.FromText.{is_text, is_relative_text, NameFault, RelativeFault};
ghost use Rattle.names_builder.specs.FromText.{SymbolsFault, SymbolsSpell, SymbolsSpellNothing};
ghost use Rattle.names_builder.specs.FromText.{IsAbsolute, SpellsAbsolute};

use crate::builder::Finish;
use crate::name::Name;
use crate::relative::RelativeName;
use names_builder::text_error::{FromStrError, RelativeFromStrError};
use names_builder::walk::{relative_octets, text_octets};
use names_builder::whole::{read_chars, read_relative, read_symbols};
use names_wire::symbol::Symbol;
use std::alloc::Global;

impl Name<Vec<u8>> {
    /// The name that the symbols spell. A lone dot is the root; any other name may leave its last
    /// dot out.
    pub fn from_symbols<S: Iterator<Item = Symbol> + Drop>(
        alloc: Global,
        symbols: S,
    ) -> Result<Self, FromStrError>
        requires can { S.can_next symbols }
        requires ends { IsFinite (S.remaining symbols) }
        ensures ok { IfOk result (λ n. SymbolsSpell S.next_gives symbols name_of_symbols n) }
        ensures refused { IfErr result (λ e. is_text e ≡ true
            → SymbolsSpellNothing S.next_gives symbols name_of_symbols) }
        ensures fault { let is = SymbolsFault S.next_gives symbols in
            IfErr result (λ e. IfSome (fault_of e) is) }
    {
        Ok(read_symbols(alloc, symbols)?.into_name()?)
    }

    /// The name that the characters spell. A lone dot is the root; any other name may leave its
    /// last dot out. Reading stops at the first character behind which no name can come.
    pub fn from_chars<C: Iterator<Item = char> + Drop>(
        alloc: Global,
        chars: C,
    ) -> Result<Self, FromStrError>
        requires can { C.can_next chars }
        requires ends { IsFinite (C.remaining chars) }
        ensures ok { let spell = CharsSpell C.next_gives chars name_of_text in
            IfOk result (λ n. spell n) }
        ensures refused { IfErr result (λ e. is_text e ≡ true
            → SpellsNothing C.next_gives chars name_of_text) }
        ensures fault { IfErr result (λ e. IfSome (fault_of e) (NameFault C.next_gives chars)) }
    {
        Name::read(alloc, 0, chars)
    }

    /// The name that the characters spell, made with room for `room` octets.
    fn read<C: Iterator<Item = char> + Drop>(
        alloc: Global,
        room: usize,
        chars: C,
    ) -> Result<Self, FromStrError>
        requires can { C.can_next chars }
        requires ends { IsFinite (C.remaining chars) }
        ensures ok { let spell = CharsSpell C.next_gives chars name_of_text in
            IfOk result (λ n. spell n) }
        ensures refused { IfErr result (λ e. is_text e ≡ true
            → SpellsNothing C.next_gives chars name_of_text) }
        ensures fault { IfErr result (λ e. IfSome (fault_of e) (NameFault C.next_gives chars)) }
    {
        Ok(read_chars(alloc, room, chars)?.into_name()?)
    }

    /// The name that the text spells, with the grammar of `from_chars`.
    pub fn vec_from_str(alloc: Global, text: &str) -> Result<Self, FromStrError>
        ensures ok { IfOk result (λ n. name_of_text (chars_of text.now) ≡ Some n) }
        ensures refused { IfErr result (λ e. is_text e ≡ true
            → name_of_text (chars_of text.now) ≡ None) }
        ensures fault { let is = NameFault in_turn (chars_of text.now) in
            IfErr result (λ e. IfSome (fault_of e) is) }
    {
        match Name::read_at_once(alloc, text)? {
            Some(name) => Ok(name),
            None => Name::read(alloc, room_for(text), text.chars()),
        }
    }

    /// The name that a text spells, read in one walk; `None` where it has to be read symbol by
    /// symbol.
    fn read_at_once(alloc: Global, text: &str) -> Result<Option<Self>, FromStrError>
        ensures ok { IfOk result (λ o.
            IfSome o (λ n. name_of_text (chars_of text.now) ≡ Some n)) }
        ensures err { IfErr result (λ e. e ≡ FromStrError.ShortBuf) }
    {
        match text_octets(alloc, text.as_bytes()) {
            Ok(Some(octets)) => Ok(Some(Name::of_octets(octets))),
            Ok(None) => Ok(None),
            Err(_) => Err(FromStrError::ShortBuf),
        }
    }
}

impl RelativeName<Vec<u8>> {
    /// The relative name that the characters spell; the empty name where there are none. A last dot
    /// is refused; a lone dot is refused as an empty label.
    pub fn from_chars<C: Iterator<Item = char> + Drop>(
        alloc: Global,
        chars: C,
    ) -> Result<Self, RelativeFromStrError>
        requires can { C.can_next chars }
        requires ends { IsFinite (C.remaining chars) }
        ensures ok { let spell = CharsSpell C.next_gives chars relative_of_text in
            IfOk result (λ n. spell n) }
        ensures refused { IfErr result (λ e. is_relative_text e ≡ true
            → SpellsNothing C.next_gives chars relative_of_text) }
        ensures fault { let is = RelativeFault C.next_gives chars in
            IfErr result (λ e. IfSome (relative_fault_of e) is) }
        ensures absolute { IsErrOf result RelativeFromStrError.AbsoluteName
            → SpellsAbsolute C.next_gives chars }
    {
        RelativeName::read(alloc, 0, chars)
    }

    /// The relative name that the characters spell, made with room for `room` octets.
    fn read<C: Iterator<Item = char> + Drop>(
        alloc: Global,
        room: usize,
        chars: C,
    ) -> Result<Self, RelativeFromStrError>
        requires can { C.can_next chars }
        requires ends { IsFinite (C.remaining chars) }
        ensures ok { let spell = CharsSpell C.next_gives chars relative_of_text in
            IfOk result (λ n. spell n) }
        ensures refused { IfErr result (λ e. is_relative_text e ≡ true
            → SpellsNothing C.next_gives chars relative_of_text) }
        ensures fault { let is = RelativeFault C.next_gives chars in
            IfErr result (λ e. IfSome (relative_fault_of e) is) }
        ensures absolute { IsErrOf result RelativeFromStrError.AbsoluteName
            → SpellsAbsolute C.next_gives chars }
    {
        Ok(read_relative(alloc, room, chars)?.finish())
    }

    /// The relative name that the text spells, with the grammar of `from_chars`.
    pub fn vec_from_str(alloc: Global, text: &str) -> Result<Self, RelativeFromStrError>
        ensures ok { IfOk result (λ n. relative_of_text (chars_of text.now) ≡ Some n) }
        ensures refused { IfErr result (λ e. is_relative_text e ≡ true
            → relative_of_text (chars_of text.now) ≡ None) }
        ensures fault { let is = RelativeFault in_turn (chars_of text.now) in
            IfErr result (λ e. IfSome (relative_fault_of e) is) }
        ensures absolute { IsErrOf result RelativeFromStrError.AbsoluteName
            → IsAbsolute (chars_of text.now) }
    {
        match RelativeName::read_at_once(alloc, text) {
            Ok(Some(name)) => Ok(name),
            Ok(None) => RelativeName::read(alloc, room_for(text), text.chars()),
            Err(error) => Err(RelativeFromStrError::FromStr(error)),
        }
    }

    /// The relative name that a text spells, read in one walk; `None` where it has to be read
    /// symbol by symbol.
    fn read_at_once(alloc: Global, text: &str) -> Result<Option<Self>, FromStrError>
        ensures ok { IfOk result (λ o.
            IfSome o (λ n. relative_of_text (chars_of text.now) ≡ Some n)) }
        ensures err { IfErr result (λ e. e ≡ FromStrError.ShortBuf) }
    {
        match relative_octets(alloc, text.as_bytes()) {
            Ok(Some(octets)) => Ok(Some(RelativeName::of_octets(octets))),
            Ok(None) => Ok(None),
            Err(_) => Err(FromStrError::ShortBuf),
        }
    }
}

/// The number of octets that a name of a text this long takes, at most that of the longest name
/// (RFC 1035, 2.3.4).
fn room_for(text: &str) -> usize
    ensures { result ≤ 255 }
{
    text.len().min(253) + 2
}
