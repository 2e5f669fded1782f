//! Labels that two names have in common at their ends.
ghost use Rattle.std.specs.Prelude.{◌≡◌, length};
ghost use Rattle.answer_judge_rules.specs.Enclosers.{shared};

use denial_nsec3_hash::wire_form::without_first;
use names_labels::traits::{Absolute, LabelIter, Labels, ToLabelIter};

/// How many labels a name has at its end that another has there too, the root's not counted. Both
/// are walked once.
pub(crate) fn shared_labels<A: Absolute, B: Absolute>(name: &A, other: &B) -> usize
    ensures { result ≡ shared (A.name name.now) (B.name other.now) }
{
    let (count, others) = (name.label_count(), other.label_count());
    let labels = without_first(name.iter_labels(), count.saturating_sub(others));
    let beside = without_first(other.iter_labels(), others.saturating_sub(count));
    shared_beside(count.min(others), labels, beside) - 1
}

/// How many of the last `count` labels of two names, the root's counted, are equal up to the first
/// from the end that differs.
fn shared_beside<A: Absolute, B: Absolute>(
    count: usize,
    labels: LabelIter<'_, A>,
    others: LabelIter<'_, B>,
) -> usize
    requires labels { count ≡ length labels }
    requires others { count ≡ length others }
    ensures { result ≡ shared labels.entry others.entry }
{
    let (mut labels, mut others) = (labels, others);
    let mut shared = 0;
    while let (Some(label), Some(other)) = (labels.next(), others.next()) {
        shared = if label == other { shared + 1 } else { 0 };
    }
    shared
}
