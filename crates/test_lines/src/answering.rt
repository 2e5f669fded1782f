//! Words as they stand in an answer.

ghost use Rattle.std.specs.Prelude.{◌≡◌, codes, if◌then◌else◌};
ghost use Rattle.test_lines.specs.Words.{order_name};

use std::cmp::Ordering;

/// `yes` or `no`.
pub fn yes_or_no(is_so: bool) -> &'static str
    ensures { result.now ≡ (if is_so then codes "yes" else codes "no") }
{
    if is_so { "yes" } else { "no" }
}

/// `less`, `equal` or `greater`.
pub fn order_word(order: Ordering) -> &'static str
    ensures { result.now ≡ order_name order }
{
    match order {
        Ordering::Less => "less",
        Ordering::Equal => "equal",
        Ordering::Greater => "greater",
    }
}
