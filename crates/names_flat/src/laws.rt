//! Laws of names. Each is a function without a parameter, whose contract is the law.

ghost use Rattle.std.specs.Prelude.{◌≡◌, IsTrue, false};
ghost use Rattle.std.specs.Ordering.{eq_by_cmp, is_gt};
ghost use Rattle.std.specs.Cmp.{IsEquivalence, IsTotalOrder};
ghost use Rattle.definitions.specs.Name.{Name, same, name_cmp, at_or_above};

/// Canonical order is total up to ASCII case, and two names are equal in it exactly where they are
/// the same.
pub fn canonical_order_is_total()
    ensures total { IsTotalOrder name_cmp }
    ensures same { IsEquivalence same }
    ensures equal { (m n : Name) → same m n ≡ eq_by_cmp name_cmp m n }
{}

/// The names at or below an apex are an interval of canonical order, which begins with the apex.
pub fn names_below_an_apex_are_an_interval()
    ensures first { (apex n : Name) → IsTrue (at_or_above apex n)
        → is_gt (name_cmp apex n) ≡ false }
    ensures between { let not_after = λ (m n : Name). is_gt (name_cmp m n) ≡ false in
        let above = λ (m n : Name). IsTrue (at_or_above m n) in (apex a n b : Name)
        → above apex a → above apex b → not_after a n → not_after n b → above apex n }
{}

pub use names_builder::laws::refused_text_has_one_fault;
pub use names_labels::laws::printed_name_is_read_back;
