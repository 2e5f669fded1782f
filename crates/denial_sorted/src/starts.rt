//! The places at which groups of neighbours that are alike begin, updated as items are added and
//! removed.

ghost use Rattle.std.specs.Prelude.{◌≡◌, ◌++◌, ◌∷◌, [], ◌+◌, ◌<◌, ◌≤◌, length, map, take, drop};
ghost use Rattle.std.specs.Prelude.{vec_capacity, vec_len, nat_lt, true, false, IfOk};
ghost use Rattle.std.specs.List.{AllByRecursion};
ghost use Rattle.std.specs.List.Sorted.{IsPartitionPoint, IsPartitionedBy};
ghost use Rattle.denial_sorted.specs.Neighbour.{joins, moved};
ghost use Rattle.denial_rrsets.specs.Starts.{starts_in};

use denial_rrsets::runs::Alike;
use std::alloc::{AllocError, Global};

/// The places at which a group begins.
pub(crate) fn starts_of<T, K: Alike<T>>(
    alloc: Global,
    items: &[T],
) -> Result<Vec<usize>, AllocError>
    ensures { IfOk result (λ v. v.items ≡ starts_in K.alike items.now) }
{
    let mut starts = Vec::with_capacity(alloc, items.len())?;
    fill::<T, K>(&mut starts, items);
    starts.shrink_to_fit();
    Ok(starts)
}

/// Replaces the places in `starts` by those at which a group begins. There is room for them.
pub(crate) fn fill<T, K: Alike<T>>(starts: &mut Vec<usize>, items: &[T])
    requires { length (starts_in K.alike items.now) ≤ vec_capacity starts.old }
    ensures { starts.new.items ≡ starts_in K.alike items.now }
{
    starts.clear();
    let Some((first, behind)) = items.split_first() else {
        return;
    };
    push_within(starts, 0);
    let mut last = first;
    for (index, item) in behind.iter().enumerate() {
        if !K::are_alike(last, item) {
            push_within(starts, index + 1);
        }
        last = item;
    }
}

/// Adds a place, for which there is room.
fn push_within(starts: &mut Vec<usize>, place: usize)
    requires { vec_len starts.old < vec_capacity starts.old }
    ensures items { starts.new.items ≡ starts.old.items ++ place ∷ [] }
    ensures room { vec_capacity starts.old ≤ vec_capacity starts.new }
{
    if starts.push(place).is_err() {
        unreachable!()
    }
}

/// The neighbour that an inserted item belongs with.
#[derive(Clone, Copy, Debug, PartialEq, Eq)]
pub(crate) enum Neighbour {
    /// The item before it.
    Before,
    /// The item behind it, and not the item before it.
    Behind,
    Neither,
}

/// The neighbour that an item belongs with when it is inserted at a place.
pub(crate) fn neighbour_at<T, K: Alike<T>>(items: &[T], place: usize, item: &T) -> Neighbour
    ensures { result ≡ joins K.alike items.now place item.now }
{
    if place > 0 {
        if let Some(before) = items.get(place - 1) {
            if K::are_alike(before, item) {
                return Neighbour::Before;
            }
        }
    }
    match items.get(place) {
        Some(behind) if K::are_alike(item, behind) => Neighbour::Behind,
        _ => Neighbour::Neither,
    }
}

/// How many of ascending places are less than another.
pub(crate) fn count_before(starts: &[usize], place: usize) -> usize
    requires { IsPartitionedBy (λ s. nat_lt s place) starts.now }
    ensures bound { result ≤ length starts.now }
    ensures cut { IsPartitionPoint (λ s. nat_lt s place ≡ true) (λ s. nat_lt s place ≡ false)
        starts.now result }
{
    starts.partition_point(|start| *start < place)
}

/// Raises the places from an index on by one. The place of the item that was inserted before them
/// is added or kept, unless the item belongs with the one before it. There is room for one more
/// place.
pub(crate) fn move_behind(starts: &mut Vec<usize>, at: usize, place: usize, neighbour: Neighbour)
    requires room { vec_len starts.old < vec_capacity starts.old }
    requires within { at ≤ length starts.old.items }
    requires some { neighbour ≡ Neighbour.Behind → at < length starts.old.items }
    requires few { AllByRecursion (λ s. s < usize.MAX) starts.old.items }
    ensures { let old = starts.old.items in
        starts.new.items ≡ moved neighbour place (take at old) (drop at old) }
{
    raise_from(starts, at);
    match neighbour {
        Neighbour::Before => {}
        Neighbour::Behind => starts[at] = place,
        Neighbour::Neither => {
            if starts.insert(at, place).is_err() {
                unreachable!()
            }
        }
    }
}

/// Raises each place from an index on by one.
fn raise_from(starts: &mut Vec<usize>, at: usize)
    requires within { at ≤ length starts.old.items }
    requires few { AllByRecursion (λ s. s < usize.MAX) starts.old.items }
    ensures items { starts.new.items
        ≡ take at starts.old.items ++ map (λ s. s + 1) (drop at starts.old.items) }
    ensures room { vec_capacity starts.old ≤ vec_capacity starts.new }
{
    raise(&mut starts[at..]);
}

/// Raises each place by one.
fn raise(places: &mut [usize])
    requires { AllByRecursion (λ p. p < usize.MAX) places.old }
    ensures { places.new ≡ map (λ p. p + 1) places.old }
{
    for at in 0..places.len() {
        places[at] += 1;
    }
}
