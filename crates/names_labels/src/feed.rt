//! What the labels of a name feed a hasher, however they are kept.

ghost use Rattle.std.specs.Prelude.{◌≡◌};
ghost use Rattle.std.specs.List.{fold};
ghost use Rattle.names_labels.specs.Feed.{labels_feed};

use crate::traits::ToLabelIter;
use std::hash::{Hash, Hasher};

/// Feeds each label's length and lowered octets.
pub fn feed_labels<N: ToLabelIter, H: Hasher>(name: &N, state: &mut H)
    ensures { state.new ≡ fold H.write state.old (labels_feed (N.labels name.now)) }
{
    let mut labels = name.iter_labels();
    while let Some(label) = labels.next() {
        label.hash(state);
    }
}
