//! Laws of the text of names. Each is a function without a parameter, whose contract is the law.

ghost use Rattle.std.specs.Prelude.{◌≡◌, ℕ, List};
ghost use Rattle.names_wire.specs.Spelled.{in_turn};
ghost use Rattle.names_builder.specs.FromText.{NameFault, RelativeFault, IsAbsolute};
ghost use Rattle.names_builder.specs.declared.text_error.Fault.{Fault};

/// A text that is refused as a name, or as a relative name, has one fault. A text that is refused
/// as a relative name for a fault spells no absolute name but the root: a lone dot has an empty
/// label.
pub fn refused_text_has_one_fault()
    ensures name { (text : List ℕ) (f g : Fault)
        → NameFault in_turn text f → NameFault in_turn text g → f ≡ g }
    ensures relative { (text : List ℕ) (f g : Fault)
        → RelativeFault in_turn text f → RelativeFault in_turn text g → f ≡ g }
    ensures absolute { (text : List ℕ) (f : Fault)
        → RelativeFault in_turn text f → IsAbsolute text → ⊥ }
{}
