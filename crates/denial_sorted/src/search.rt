//! The records of a class and an owner, found by the places at which owners begin.

ghost use Rattle.std.specs.Prelude.{◌≡◌, ◌<◌, ◌≤◌, slice_index_or, IfSome};
ghost use Rattle.std.specs.List.{AllByRecursion};
ghost use Rattle.std.specs.List.Sorted.{IsStrictlySortedBy};
ghost use Rattle.plain.specs.Records.{record_canonical_cmp};
ghost use Rattle.denial_rrsets.specs.Groups.{of_one_owner};
ghost use Rattle.denial_sorted.specs.Owned.{is_before, is_owned};
ghost use Rattle.denial_sorted.specs.Spans.{AreBounds, IsParting, IsSpan};
ghost use Rattle.denial_rrsets.specs.Starts.{starts_in};

use names_rdata::canonical::CanonicalOrd;
use names_rdata::data::RecordData;
use names_traits::to_name::ToName;
use plain::Class;
use plain::record::Record;
use std::cmp::Ordering;

/// Items from a place up to another.
#[derive(Clone, Copy, Debug, Drop)]
pub(crate) struct Span {
    pub(crate) start: usize,
    pub(crate) end: usize,
}

/// Where the records of a class and an owner stand.
pub(crate) fn span_of<N: ToName, D: RecordData + CanonicalOrd, O: ToName>(
    records: &[Record<N, D>],
    starts: &[usize],
    class: Class,
    owner: &O,
) -> Option<Span>
    requires order { let by = record_canonical_cmp N.name D.type_of D.canonical in
        IsStrictlySortedBy by records.now }
    requires starts { starts.now ≡ starts_in (of_one_owner N.name) records.now }
    ensures { IsSpan (is_owned N.name class (O.name owner.now)) records.now result }
{
    span_by(records, starts, class, owner, usize::MAX)
}

/// Where the records of a class and an owner stand, with a guess of how many owners come before. A
/// guess beyond the number of owners is ignored.
pub(crate) fn span_by<N: ToName, D: RecordData + CanonicalOrd, O: ToName>(
    records: &[Record<N, D>],
    starts: &[usize],
    class: Class,
    owner: &O,
    guess: usize,
) -> Option<Span>
    requires order { let by = record_canonical_cmp N.name D.type_of D.canonical in
        IsStrictlySortedBy by records.now }
    requires starts { starts.now ≡ starts_in (of_one_owner N.name) records.now }
    ensures { IsSpan (is_owned N.name class (O.name owner.now)) records.now result }
{
    let at = count_before(records, starts, class, owner, guess);
    if at >= starts.len() {
        return None;
    }
    let start = starts[at];
    if !is_owned(&records[start], class, owner) {
        return None;
    }
    let end = place_or(starts, at + 1, records.len());
    Some(Span { start, end })
}

/// The place at an index, or that of the end.
fn place_or(starts: &[usize], at: usize, end: usize) -> usize
    ensures { result ≡ slice_index_or starts.now at end }
{
    match starts.get(at) {
        Some(place) => *place,
        None => end,
    }
}

/// Whether a record is of a class and an owner.
fn is_owned<N: ToName, D, O: ToName>(rr: &Record<N, D>, class: Class, owner: &O) -> bool
    ensures { result ≡ is_owned N.name class (O.name owner.now) rr.now }
{
    rr.class() == class && rr.owner().name_eq(owner)
}

/// How many owners come before a class and an owner, with a guess. Where the guess is too high, the
/// search moves down from it in steps that double until it is past the place. Then, and where the
/// guess is too low, the rest is searched by halves.
fn count_before<N: ToName, D: RecordData + CanonicalOrd, O: ToName>(
    records: &[Record<N, D>],
    starts: &[usize],
    class: Class,
    owner: &O,
    guess: usize,
) -> usize
    requires order { let by = record_canonical_cmp N.name D.type_of D.canonical in
        IsStrictlySortedBy by records.now }
    requires starts { starts.now ≡ starts_in (of_one_owner N.name) records.now }
    ensures { let before = is_before N.name class (O.name owner.now) in
        IsParting before starts.now records.now result }
{
    let (mut low, mut high) = bounds_by(records, starts, class, owner, guess);
    let mut step = if high == guess { 1 } else { usize::MAX };
    while low < high {
        let middle = probe(low, high, step);
        if is_before(&records[starts[middle]], class, owner) {
            low = middle + 1;
        } else {
            high = middle;
            step = step.saturating_mul(2);
        }
    }
    low
}

/// The least and the greatest number of owners that can come before, as the owner at the guessed
/// index shows.
fn bounds_by<N: ToName, D: RecordData + CanonicalOrd, O: ToName>(
    records: &[Record<N, D>],
    starts: &[usize],
    class: Class,
    owner: &O,
    guess: usize,
) -> (usize, usize)
    requires order { let by = record_canonical_cmp N.name D.type_of D.canonical in
        IsStrictlySortedBy by records.now }
    requires starts { starts.now ≡ starts_in (of_one_owner N.name) records.now }
    ensures { let before = is_before N.name class (O.name owner.now) in
        AreBounds before starts.now records.now result.0 result.1 }
{
    if guess >= starts.len() {
        return (0, starts.len());
    }
    if is_before(&records[starts[guess]], class, owner) {
        return (guess + 1, starts.len());
    }
    (0, guess)
}

/// An index within bounds: one step below the upper bound, or half way where that is nearer.
fn probe(low: usize, high: usize, step: usize) -> usize
    requires some { low < high }
    requires step { 0 < step }
    ensures from { low ≤ result }
    ensures below { result < high }
{
    let left = high - low;
    high - step.min(left - left / 2)
}

/// Whether a record is of a lesser class, or of this class and an owner that comes before.
fn is_before<N: ToName, D, O: ToName>(rr: &Record<N, D>, class: Class, owner: &O) -> bool
    ensures { result ≡ is_before N.name class (O.name owner.now) rr.now }
{
    match rr.class().cmp(&class) {
        Ordering::Less => true,
        Ordering::Equal => rr.owner().name_cmp(owner).is_lt(),
        Ordering::Greater => false,
    }
}

/// The class of all records, where they have one class.
pub(crate) fn only_class<N: ToName, D: RecordData + CanonicalOrd>(
    records: &[Record<N, D>],
) -> Option<Class>
    requires { let by = record_canonical_cmp N.name D.type_of D.canonical in
        IsStrictlySortedBy by records.now }
    ensures { IfSome result (λ c. AllByRecursion (λ r. r.class ≡ c) records.now) }
{
    let first = records.first()?;
    let last = records.last()?;
    if first.class() == last.class() {
        Some(first.class())
    } else {
        None
    }
}
