//! Names in messages compare and hash with ASCII letters lowered, as flat ones do.

ghost use Rattle.std.specs.Prelude.{◌≡◌, refl, Some};
ghost use Rattle.std.specs.Cmp.{partial_equiv_from_equiv};
ghost use Rattle.names_parsed.specs.Orders.{parsed_same, parsed_cmp, parsed_feed, parsed_feed-same};
ghost use Rattle.names_parsed.specs.Orders.{parsed_equivalence, parsed_total, parsed_partial};
ghost use Rattle.names_parsed.specs.Orders.{parsed_ties};

use crate::parsed::ParsedName;
use names_labels::feed::feed_labels;
use names_labels::order::labels_cmp;
use names_labels::traits::labels_eq;
use std::cmp::Ordering;
use std::hash::{Hash, Hasher};

impl<'a> PartialEq for ParsedName<'a> {
    ghost eq = { parsed_same };

    ghost laws = { partial_equiv_from_equiv parsed_equivalence };

    fn eq(&self, other: &Self) -> bool {
        labels_eq(self, other)
    }
}

impl<'a> Eq for ParsedName<'a> {
    ghost laws = { parsed_equivalence };
}

impl<'a> PartialOrd for ParsedName<'a> {
    ghost partial_cmp = { λ a b. Some (parsed_cmp a b) };

    ghost laws = { parsed_partial };

    fn partial_cmp(&self, other: &Self) -> Option<Ordering> {
        Some(self.cmp(other))
    }
}

impl<'a> Ord for ParsedName<'a> {
    ghost cmp = { parsed_cmp };

    ghost total = { parsed_total };

    ghost matches_partial_cmp = { λ a b. refl };

    ghost matches_eq = { parsed_ties };

    fn cmp(&self, other: &Self) -> Ordering {
        labels_cmp(self, other)
    }
}

/// Feeds each label's length and lowered octets, the root's last, as a flat name does.
impl<'a> Hash for ParsedName<'a> {
    ghost hash_input = { parsed_feed };

    ghost respects_eq = { parsed_feed-same };

    fn hash<H: Hasher>(&self, state: &mut H) {
        feed_labels(self, state);
    }
}
