//! The names between which a name stands in canonical order, and what these tell of its ancestors.
ghost use Rattle.std.specs.Prelude.{◌≡◌, ◌≤◌, ℕ, List, length, true, false};
ghost use Rattle.std.specs.List.{list_any};
ghost use Rattle.std.specs.List.Sorted.{IsPartitionPoint};
ghost use Rattle.definitions.specs.Covering.{before};
ghost use Rattle.std.specs.Ordering.{is_le};
ghost use Rattle.definitions.specs.Name.{at_or_above, name_cmp, same, strictly_above};
ghost use Rattle.answer_zone_records.specs.Near.{AreRising, IsNameAt, is_below, is_strictly_below};
ghost use Rattle.answer_zone_records.specs.Near.{owns, shows};

use messages::names::{Name, ToName, is_above, is_at_or_above};
use messages::record::ZoneRecord;

/// What stands among others in the order of their names.
pub trait Named {
    ghost name_of: { Self → List (List ℕ) };

    /// The name.
    fn name(&self) -> &Name<Vec<u8>>
        ensures { result.now ≡ name_of self.now };
}

impl Named for Name<Vec<u8>> {
    ghost name_of = { λ n. n };

    fn name(&self) -> &Name<Vec<u8>> {
        self
    }
}

/// A record by its owner.
impl Named for ZoneRecord {
    ghost name_of = { λ r. r.owner };

    fn name(&self) -> &Name<Vec<u8>> {
        self.owner()
    }
}

/// Where a name stands among others: the last one before it, and the first from it on. What is
/// below a name stands directly behind it, so an ancestor has something at or below it exactly
/// where one of these two is.
#[derive(Drop)]
pub struct Neighbours<'a> {
    before: Option<&'a Name<Vec<u8>>>,
    from: Option<&'a Name<Vec<u8>>>,
    /// How many of the others come before the name.
    place: usize,
}

impl Neighbours<'_> {
    /// Where the name stands, or would stand, among the others.
    pub fn place(&self) -> usize
        ensures { result ≡ self.now.place }
    {
        self.place
    }

    /// Whether one of them is at or below a name.
    pub fn shows<O: ToName>(&self, ancestor: &O) -> bool
        ensures { result ≡ shows self.now (O.name ancestor.now) }
    {
        is_below(self.before, ancestor) || is_below(self.from, ancestor)
    }

    /// Whether the name itself is among the others.
    pub fn owns<O: ToName>(&self, name: &O) -> bool
        ensures { result ≡ owns self.now (O.name name.now) }
    {
        match self.from {
            Some(from) => from.name_eq(name),
            None => false,
        }
    }
}

/// Whether a name, if there is one, is at or below another.
fn is_below<O: ToName>(name: Option<&Name<Vec<u8>>>, ancestor: &O) -> bool
    ensures { result ≡ is_below name.entry (O.name ancestor.now) }
{
    match name {
        Some(name) => is_at_or_above(ancestor, name),
        None => false,
    }
}

/// The neighbours of a name among others, by binary search. It takes no memory.
pub fn neighbours_of<'a, T: Named>(items: &'a [T], name: &Name<Vec<u8>>) -> Neighbours<'a>
    requires { AreRising T.name_of items.now }
    ensures shows { (a : List (List ℕ)) → at_or_above a name.now ≡ true
        → list_any (λ x. at_or_above a (T.name_of x)) items.now ≡ shows result a }
    ensures owns { list_any (λ x. same (T.name_of x) name.now) items.now ≡ owns result name.now }
    ensures place { let is = λ (x : T). before (T.name_of x) name.now in
        IsPartitionPoint (λ x. is x ≡ true) (λ x. is x ≡ false) items.now result.place }
    ensures bound { result.place ≤ length items.now }
{
    let place = place_of(items, name);
    let before = if place > 0 {
        name_at(items, place - 1)
    } else {
        None
    };
    Neighbours {
        before,
        from: name_at(items, place),
        place,
    }
}

/// The name of the item at a place, if there is one.
fn name_at<T: Named>(items: &[T], place: usize) -> Option<&Name<Vec<u8>>>
    ensures { IsNameAt T.name_of items.now place result }
{
    match items.get(place) {
        Some(item) => Some(item.name()),
        None => None,
    }
}

/// How many of some items come before a name.
fn place_of<T: Named>(items: &[T], name: &Name<Vec<u8>>) -> usize
    requires { AreRising T.name_of items.now }
    ensures cut { let is = λ (x : T). before (T.name_of x) name.now in
        IsPartitionPoint (λ x. is x ≡ true) (λ x. is x ≡ false) items.now result }
    ensures bound { result ≤ length items.now }
{
    items.partition_point(|item| item.name().name_cmp(name).is_lt())
}

/// Whether one of some items is below a name, by binary search. What is below a name stands
/// directly behind it. It takes no memory.
pub fn has_below<T: Named>(items: &[T], name: &Name<Vec<u8>>) -> bool
    requires { AreRising T.name_of items.now }
    ensures { result ≡ list_any (λ x. strictly_above name.now (T.name_of x)) items.now }
{
    is_strictly_below(name_at(items, place_behind(items, name)), name)
}

/// Whether a name, if there is one, is below another.
fn is_strictly_below(name: Option<&Name<Vec<u8>>>, ancestor: &Name<Vec<u8>>) -> bool
    ensures { result ≡ is_strictly_below name.entry ancestor.now }
{
    match name {
        Some(name) => is_above(ancestor, name),
        None => false,
    }
}

/// How many of some items do not come behind a name.
fn place_behind<T: Named>(items: &[T], name: &Name<Vec<u8>>) -> usize
    requires { AreRising T.name_of items.now }
    ensures cut { let is = λ (x : T). is_le (name_cmp (T.name_of x) name.now) in
        IsPartitionPoint (λ x. is x ≡ true) (λ x. is x ≡ false) items.now result }
    ensures bound { result ≤ length items.now }
{
    items.partition_point(|item| item.name().name_cmp(name).is_le())
}
