//! Laws of labels. Each is a function without a parameter, whose contract is the law.

ghost use Rattle.std.specs.Prelude.{◌≡◌, ◌<◌, ℕ, List, Some};
ghost use Rattle.std.specs.List.{AllByRecursion};
ghost use Rattle.definitions.specs.Name.{IsLabel};
ghost use Rattle.definitions.specs.Text.{Symbol, Spells, label_of_text, symbols_of, text_of_label};
ghost use Rattle.names_wire.specs.Spelled.{in_turn};
ghost use Rattle.names_wire.specs.LabelFault.{FirstFault};
ghost use Rattle.names_wire.specs.Slices.{AlongNames};
ghost use Rattle.names_wire.specs.declared.owned.LabelFault.{LabelFault};

/// A printed label is read as the same octets (RFC 1035, 5.1).
pub fn printed_label_is_read_back()
    ensures { let are_octets = AllByRecursion (λ (b : ℕ). b < 256) in (l : List ℕ)
        → IsLabel l → are_octets l → label_of_text (text_of_label l) ≡ Some l }
{}

/// A text that is made of symbols is read as these symbols and as no others (RFC 1035, 5.1).
pub fn spelled_symbols_are_read()
    ensures { (text : List ℕ) (symbols : List Symbol)
        → Spells text symbols → symbols_of text ≡ Some symbols }
{}

/// The labels of octets from a place on, through pointers, end with the root's label exactly where
/// a name stands there, and are its labels (RFC 1035, 4.1.4).
pub fn labels_along_are_names()
    ensures { AlongNames }
{}

/// A text that is refused as a label has one fault.
pub fn refused_label_text_has_one_fault()
    ensures { (text : List ℕ) (f g : LabelFault)
        → FirstFault in_turn text f → FirstFault in_turn text g → f ≡ g }
{}
