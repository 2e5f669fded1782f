//! Relative names of one type compare and hash with ASCII letters lowered.

ghost use Rattle.std.specs.Prelude.{◌≡◌, refl, Some};
ghost use Rattle.std.specs.Cmp.{partial_equiv_from_equiv};
ghost use Rattle.definitions.specs.Name.{same, name_cmp};
ghost use Rattle.names_labels.specs.Laws.{same_equivalence, name_cmp_total, name_cmp_partial};
ghost use Rattle.names_labels.specs.Laws.{name_cmp_ties};
ghost use Rattle.names_labels.specs.Feed.{labels_feed, labels_feed-same};

use crate::relative::RelativeName;
use names_labels::feed::feed_labels;
use names_labels::order::labels_cmp;
use names_labels::traits::labels_eq;
use names_wire::octets::Octets;
use std::cmp::Ordering;
use std::hash::{Hash, Hasher};

impl<Octs: Octets> PartialEq for RelativeName<Octs> {
    ghost eq = { same };

    ghost laws = { partial_equiv_from_equiv same_equivalence };

    fn eq(&self, other: &Self) -> bool {
        labels_eq(self, other)
    }
}

impl<Octs: Octets> Eq for RelativeName<Octs> {
    ghost laws = { same_equivalence };
}

impl<Octs: Octets> PartialOrd for RelativeName<Octs> {
    ghost partial_cmp = { λ a b. Some (name_cmp a b) };

    ghost laws = { name_cmp_partial };

    fn partial_cmp(&self, other: &Self) -> Option<Ordering> {
        Some(self.cmp(other))
    }
}

impl<Octs: Octets> Ord for RelativeName<Octs> {
    ghost cmp = { name_cmp };

    ghost total = { name_cmp_total };

    ghost matches_partial_cmp = { λ a b. refl };

    ghost matches_eq = { name_cmp_ties };

    fn cmp(&self, other: &Self) -> Ordering {
        labels_cmp(self, other)
    }
}

/// Feeds each label's length and lowered octets.
impl<Octs: Octets> Hash for RelativeName<Octs> {
    ghost hash_input = { labels_feed };

    ghost respects_eq = { labels_feed-same };

    fn hash<H: Hasher>(&self, state: &mut H) {
        feed_labels(self, state);
    }
}
