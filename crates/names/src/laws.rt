//! Laws of names and of numbers in wire form. Each is a function without a parameter, whose
//! contract is the law.

ghost use Rattle.std.specs.Prelude.{◌≡◌, ◌^◌, ◌<◌, ℕ};
ghost use Rattle.std.specs.Int.{w16, w32, w64, to_be_bytes, from_be_bytes};

pub use names_flat::laws::{canonical_order_is_total, names_below_an_apex_are_an_interval};
pub use names_parsed::laws::what_is_read_is_passed_over;
pub use names_rdata::laws::{names_are_read_back, unknown_data_are_read_back};

/// A composed number is read as the same number (RFC 1035, 2.3.2).
pub fn numbers_are_read_back()
    ensures sixteen { (n : ℕ) → n < 2 ^ 16 → from_be_bytes w16 (to_be_bytes w16 n) ≡ n }
    ensures thirty_two { (n : ℕ) → n < 2 ^ 32 → from_be_bytes w32 (to_be_bytes w32 n) ≡ n }
    ensures sixty_four { (n : ℕ) → n < 2 ^ 64 → from_be_bytes w64 (to_be_bytes w64 n) ≡ n }
{}
