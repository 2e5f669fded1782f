//! The canonical order of record data (RFC 4034, 6.3).

ghost use Rattle.std.specs.Prelude.{◌≡◌};
ghost use Rattle.std.specs.Ordering.{is_lt, is_le, is_gt, is_ge};
ghost use Rattle.std.specs.declared.cmp.Ordering.{Ordering};

use std::cmp::Ordering;

/// What has a canonical order, by the octets of its canonical form.
pub trait CanonicalOrd {
    ghost canonical: { Self → Self → Ordering };

    fn canonical_cmp(&self, other: &Self) -> Ordering
        ensures { result ≡ canonical self.now other.now };

    fn canonical_lt(&self, other: &Self) -> bool
        ensures { result ≡ is_lt (canonical self.now other.now) }
    {
        self.canonical_cmp(other).is_lt()
    }

    fn canonical_le(&self, other: &Self) -> bool
        ensures { result ≡ is_le (canonical self.now other.now) }
    {
        self.canonical_cmp(other).is_le()
    }

    fn canonical_gt(&self, other: &Self) -> bool
        ensures { result ≡ is_gt (canonical self.now other.now) }
    {
        self.canonical_cmp(other).is_gt()
    }

    fn canonical_ge(&self, other: &Self) -> bool
        ensures { result ≡ is_ge (canonical self.now other.now) }
    {
        self.canonical_cmp(other).is_ge()
    }
}
