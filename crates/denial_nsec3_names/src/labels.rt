//! How far two names differ.

ghost use Rattle.std.specs.Prelude.{◌≡◌, ◌≤◌, length, IfSome};
ghost use Rattle.definitions.specs.Name.{low};
ghost use Rattle.names_labels.specs.Flat.{IsRun, labels_in};
ghost use Rattle.denial_nsec3_names.specs.Differing.{differing};
ghost use Rattle.denial_nsec3_names.specs.Walk.{fresh_count};

use denial_nsec3_hash::wire_form::without_first;
use names_labels::flat::split_label;
use names_labels::order::common_tail;
use names_labels::traits::{Absolute, LabelIter};

/// How many names among an owner and its ancestors are neither the name `before` nor an ancestor of
/// it.
pub(crate) fn fresh_labels<N: Absolute>(before: &N, owner: &N) -> usize
    ensures { result ≡ fresh_count (low (N.name before.now)) (low (N.name owner.now)) }
{
    if let (Some(run), Some(other)) = (owner.label_row(), before.label_row()) {
        if let Some(fresh) = fresh_beside(run, other) {
            return fresh;
        }
    }
    let (count, other) = (owner.label_count(), before.label_count());
    let longer = count.saturating_sub(other);
    let labels = without_first(owner.iter_labels(), longer);
    let others = without_first(before.iter_labels(), other.saturating_sub(count));
    longer + differing_labels(count.min(other), labels, others)
}

/// The number of labels up to the last one that differs from its counterpart, for two rows that
/// differ at most in their first labels. `None` for other rows.
fn fresh_beside(run: &[u8], other: &[u8]) -> Option<usize>
    requires run { IsRun run.now }
    requires other { IsRun other.now }
    ensures { let labels = labels_in run.now in let others = labels_in other.now in
        IfSome result (λ n. (length labels ≡ length others) × (n ≡ differing labels others)) }
{
    let (_label, behind) = split_label(run)?;
    let (_beside, rest) = split_label(other)?;
    let tail = common_tail(run, other);
    if behind.len() != rest.len() || tail < behind.len() {
        return None;
    }
    if run.len() != other.len() {
        return Some(1);
    }
    Some(if tail == run.len() { 0 } else { 1 })
}

/// The number of labels up to the last one that differs from its counterpart, among `count` labels
/// of both names.
fn differing_labels<A: Absolute, B: Absolute>(
    count: usize,
    labels: LabelIter<'_, A>,
    others: LabelIter<'_, B>,
) -> usize
    requires labels { count ≡ length labels }
    requires others { count ≡ length others }
    ensures value { result ≡ differing labels.entry others.entry }
    ensures few { result ≤ count }
{
    let (mut labels, mut others) = (labels, others);
    let (mut place, mut last) = (0, 0);
    while let Some(label) = labels.next() {
        let Some(other) = others.next() else {
            unreachable!()
        };
        place += 1;
        if label != other {
            last = place;
        }
    }
    last
}
