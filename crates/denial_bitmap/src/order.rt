//! The canonical order of bitmaps.

ghost use Rattle.std.specs.Ordering.{nat_cmp};
ghost use Rattle.std.specs.Cmp.Lexicographic.{slice_cmp};

use crate::bitmap::RtypeBitmap;
use names_rdata::canonical::CanonicalOrd;
use names_wire::octets::Octets;
use std::cmp::Ordering;

/// The order of the octets (RFC 4034, 6.3).
impl<Octs: Octets> CanonicalOrd for RtypeBitmap<Octs> {
    ghost canonical = { slice_cmp nat_cmp };

    fn canonical_cmp(&self, other: &Self) -> Ordering {
        self.cmp(other)
    }
}
