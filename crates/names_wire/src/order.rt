//! Labels compare and hash with ASCII letters lowered (RFC 4034, 6.1; RFC 4343, 3).

ghost use Rattle.std.specs.Prelude.{◌≡◌, ◌++◌, Some, refl, length};
ghost use Rattle.std.proofs.Common.{rules};
ghost use Rattle.std.specs.Ordering.{nat_cmp};
ghost use Rattle.std.specs.Str.{bytes_eq, str_to_ascii_lowercase};
ghost use Rattle.std.specs.List.{flat_map};
ghost use Rattle.std.specs.Hash.{on_Alike, same_Alike};
ghost use Rattle.std.proofs.lemmas.Slice.Eq.{bytes_eq-Decides};
ghost use Rattle.std.specs.Cmp.{on_equiv, on_total, on_po, on_per, partial_equiv_from_equiv};
ghost use Rattle.std.specs.Cmp.Lexicographic.{slice_cmp, nat_list_eq_equiv, nat_list_cmp_total};
ghost use Rattle.std.specs.Cmp.Lexicographic.{texts_ties, texts_po};
ghost use Rattle.names_wire.specs.Label.{octets_of, lowered, label_hash};

use crate::label::Label;
use std::cmp::Ordering;
use std::hash::{Hash, Hasher};

impl<'a> PartialEq for Label<'a> {
    ghost eq = { λ a b. bytes_eq (lowered a) (lowered b) };

    ghost laws = { on_per lowered (partial_equiv_from_equiv nat_list_eq_equiv) };

    fn eq(&self, other: &Self) -> bool {
        self.as_slice().eq_ignore_ascii_case(other.as_slice())
    }
}

impl<'a> Eq for Label<'a> {
    ghost laws = { on_equiv lowered nat_list_eq_equiv };
}

impl<'a> PartialOrd for Label<'a> {
    ghost partial_cmp = { λ a b. Some (slice_cmp nat_cmp (lowered a) (lowered b)) };

    ghost laws = { on_po lowered texts_po };

    fn partial_cmp(&self, other: &Self) -> Option<Ordering> {
        Some(self.cmp(other))
    }
}

impl<'a> Ord for Label<'a> {
    ghost cmp = { λ a b. slice_cmp nat_cmp (lowered a) (lowered b) };

    ghost total = { on_total lowered nat_list_cmp_total };

    ghost matches_partial_cmp = { λ a b. refl };

    ghost matches_eq = { λ a b. texts_ties (lowered a) (lowered b) };

    fn cmp(&self, other: &Self) -> Ordering {
        lowercase_cmp(self.as_slice(), other.as_slice())
    }
}

/// Compares octet by octet, with ASCII letters lowered; octets that are equal need no lowering.
pub(crate) fn lowercase_cmp(left: &[u8], right: &[u8]) -> Ordering
    ensures { let lower = str_to_ascii_lowercase in
        result ≡ slice_cmp nat_cmp (lower left.now) (lower right.now) }
{
    for (a, b) in left.iter().zip(right) {
        if a == b {
            continue;
        }
        match a.to_ascii_lowercase().cmp(&b.to_ascii_lowercase()) {
            Ordering::Equal => {}
            order => return order,
        }
    }
    left.len().cmp(&right.len())
}

/// The length, then each octet with ASCII letters lowered.
impl<'a> Hash for Label<'a> {
    ghost hash_input = { λ label. label_hash (lowered label) };

    ghost respects_eq = { (on_Alike lowered (same_Alike label_hash bytes_eq-Decides)).fed };

    fn hash<H: Hasher>(&self, state: &mut H) {
        state.write_u8(self.len() as u8);
        for octet in self.as_slice() {
            state.write_u8(octet.to_ascii_lowercase());
        }
    }
}
