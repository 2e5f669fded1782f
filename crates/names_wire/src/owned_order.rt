//! Labels that own their octets print, compare and hash as the labels that they hold.

ghost use Rattle.std.specs.Prelude.{◌≡◌, Some, refl};
ghost use Rattle.std.specs.Ordering.{nat_cmp};
ghost use Rattle.std.specs.Str.{bytes_eq};
ghost use Rattle.std.specs.Hash.{on_Alike, same_Alike};
ghost use Rattle.std.proofs.lemmas.Slice.Eq.{bytes_eq-Decides};
ghost use Rattle.std.specs.Cmp.{on_equiv, on_total, on_po, on_per, partial_equiv_from_equiv};
ghost use Rattle.std.specs.Cmp.Lexicographic.{slice_cmp, nat_list_eq_equiv, nat_list_cmp_total};
ghost use Rattle.std.specs.Cmp.Lexicographic.{texts_ties, texts_po};
ghost use Rattle.definitions.specs.Text.{text_of_label};
ghost use Rattle.names_wire.specs.Label.{octets_of, label_hash};
ghost use Rattle.names_wire.specs.Owned.{owned_octets, owned_lowered};

use crate::label::Label;
use crate::owned::OwnedLabel;
use std::cmp::Ordering;
use std::fmt;
use std::hash::{Hash, Hasher};

impl<'a> From<Label<'a>> for OwnedLabel {
    ghost from_gives = { λ label owned. owned_octets owned ≡ octets_of label };

    fn from(label: Label<'a>) -> OwnedLabel {
        OwnedLabel::from_label(label)
    }
}

impl fmt::Display for OwnedLabel {
    ghost output = { λ label. Some (text_of_label (owned_octets label)) };

    fn fmt<W: fmt::Write>(&self, f: &mut fmt::Formatter<W>) -> fmt::Result {
        self.as_label().fmt(f)
    }
}

impl PartialEq for OwnedLabel {
    ghost eq = { λ a b. bytes_eq (owned_lowered a) (owned_lowered b) };

    ghost laws = { on_per owned_lowered (partial_equiv_from_equiv nat_list_eq_equiv) };

    fn eq(&self, other: &Self) -> bool {
        self.as_label() == other.as_label()
    }
}

impl Eq for OwnedLabel {
    ghost laws = { on_equiv owned_lowered nat_list_eq_equiv };
}

impl PartialOrd for OwnedLabel {
    ghost partial_cmp = { λ a b. Some (slice_cmp nat_cmp (owned_lowered a) (owned_lowered b)) };

    ghost laws = { on_po owned_lowered texts_po };

    fn partial_cmp(&self, other: &Self) -> Option<Ordering> {
        Some(self.cmp(other))
    }
}

impl Ord for OwnedLabel {
    ghost cmp = { λ a b. slice_cmp nat_cmp (owned_lowered a) (owned_lowered b) };

    ghost total = { on_total owned_lowered nat_list_cmp_total };

    ghost matches_partial_cmp = { λ a b. refl };

    ghost matches_eq = { λ a b. texts_ties (owned_lowered a) (owned_lowered b) };

    fn cmp(&self, other: &Self) -> Ordering {
        self.as_label().cmp(&other.as_label())
    }
}

impl Hash for OwnedLabel {
    ghost hash_input = { λ label. label_hash (owned_lowered label) };

    ghost respects_eq = { (on_Alike owned_lowered (same_Alike label_hash bytes_eq-Decides)).fed };

    fn hash<H: Hasher>(&self, state: &mut H) {
        self.as_label().hash(state);
    }
}
