//! Laws of sets of types. Each is a function without a parameter, whose contract is the law.

ghost use Rattle.denial_bitmap.specs.Laws.{GivesTypesInOrder, NoTypesNoOctets, TextsTellTypes};

pub use definitions::laws::{bitmap_spells_its_set, equal_bitmaps_are_equal_sets};

/// A built bitmap gives the types that were added, each once, ascending.
pub fn built_bitmap_gives_its_types()
    ensures { GivesTypesInOrder }
{}

/// The bitmap of no types has no octets.
pub fn no_types_are_no_octets()
    ensures { NoTypesNoOctets }
{}

/// The text of a built bitmap determines its types: bitmaps of different types have different
/// texts.
pub fn printed_bitmap_tells_its_types()
    ensures { TextsTellTypes }
{}
