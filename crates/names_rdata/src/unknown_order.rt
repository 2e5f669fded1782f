//! Data of types that are not known compare and hash by their type and then by their octets.

ghost use Rattle.std.specs.Prelude.{◌≡◌, refl, Some};
ghost use Rattle.std.specs.Cmp.{partial_equiv_from_equiv};
ghost use Rattle.names_rdata.specs.Unknown.{opaque_eq, opaque_cmp, opaque_feed, opaque_equivalence};
ghost use Rattle.names_rdata.specs.Unknown.{opaque_total, opaque_ties, opaque_partial};
ghost use Rattle.names_rdata.specs.Unknown.{opaque_feed-same};

use crate::unknown::UnknownRecordData;
use names_wire::octets::Octets;
use std::cmp::Ordering;
use std::hash::{Hash, Hasher};

impl<Octs: Octets> PartialEq for UnknownRecordData<Octs> {
    ghost eq = { opaque_eq };

    ghost laws = { partial_equiv_from_equiv opaque_equivalence };

    fn eq(&self, other: &Self) -> bool {
        self.rtype() == other.rtype() && self.as_slice() == other.as_slice()
    }
}

impl<Octs: Octets> Eq for UnknownRecordData<Octs> {
    ghost laws = { opaque_equivalence };
}

impl<Octs: Octets> PartialOrd for UnknownRecordData<Octs> {
    ghost partial_cmp = { λ a b. Some (opaque_cmp a b) };

    ghost laws = { opaque_partial };

    fn partial_cmp(&self, other: &Self) -> Option<Ordering> {
        Some(self.cmp(other))
    }
}

impl<Octs: Octets> Ord for UnknownRecordData<Octs> {
    ghost cmp = { opaque_cmp };

    ghost total = { opaque_total };

    ghost matches_partial_cmp = { λ a b. refl };

    ghost matches_eq = { opaque_ties };

    fn cmp(&self, other: &Self) -> Ordering {
        self.rtype()
            .cmp(&other.rtype())
            .then(self.as_slice().cmp(other.as_slice()))
    }
}

impl<Octs: Octets> Hash for UnknownRecordData<Octs> {
    ghost hash_input = { opaque_feed };

    ghost respects_eq = { opaque_feed-same };

    fn hash<H: Hasher>(&self, state: &mut H) {
        self.rtype().hash(state);
        self.as_slice().hash(state);
    }
}
