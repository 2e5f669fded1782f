//! What a symbol of text adds to a name under construction.

ghost use Rattle.std.specs.Prelude.{◌≡◌, true, IfOk, IfErr, IfSome, IsTrue, OnErr, MatchOption};
ghost use Rattle.definitions.specs.Text.{is_dot};
ghost use Rattle.names_wire.specs.Symbols.{symbol_of};
ghost use Rattle.names_builder.specs.FromText.{GoesOn, CannotGoOn, is_text};
ghost use Rattle.names_builder.specs.Fault.{OctetFault, fault_of};

use crate::text_error::{FromStrError, PresentationError};
use names_wire::symbol::Symbol;

/// The octet that a symbol adds to a label, which is open or begins with it; `None` for a dot,
/// which ends a label.
pub(crate) fn octet_of(symbol: Symbol, in_label: bool) -> Result<Option<u8>, FromStrError>
    ensures ok { let s = symbol_of symbol in let ends = (is_dot s ≡ true) × IsTrue in_label in
        IfOk result (λ octet. MatchOption octet ends (GoesOn s in_label)) }
    ensures err { OnErr result (CannotGoOn (symbol_of symbol) in_label) }
    ensures text { IfErr result (λ e. is_text e ≡ true) }
    ensures fault { let is = OctetFault (symbol_of symbol) in_label in
        IfErr result (λ e. IfSome (fault_of e) is) }
{
    match symbol {
        Symbol::Char('.') if in_label => Ok(None),
        Symbol::Char('.') => Err(FromStrError::Presentation(PresentationError::empty_label())),
        Symbol::SimpleEscape(b'[') if !in_label => {
            Err(FromStrError::Presentation(PresentationError::binary_label()))
        }
        _ => Ok(Some(symbol.into_octet()?)),
    }
}

/// Whether a symbol is a dot that separates labels.
pub(crate) fn separates(symbol: Symbol) -> bool
    ensures { result ≡ is_dot (symbol_of symbol) }
{
    matches!(symbol, Symbol::Char('.'))
}
