//! Laws of names in messages. Each is a function without a parameter, whose contract is the law.

ghost use Rattle.std.specs.Prelude.{ℕ, List};
ghost use Rattle.definitions.specs.Name.{Name};
ghost use Rattle.names_parsed.specs.Standing.{Stands};
ghost use Rattle.names_parsed.specs.Passing.{CanPass};

/// Where a name is read it can be passed over, and both end at the same place (RFC 1035, 4.1.4).
pub fn what_is_read_is_passed_over()
    ensures { (m : List ℕ) (p e : ℕ) (n : Name) → Stands m p n e → CanPass m p e }
{}
