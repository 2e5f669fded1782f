//! How records are put in order.

ghost use Rattle.std.specs.Prelude.{◌≡◌, OnOk, OnErr};
ghost use Rattle.std.specs.List.Sorted.{IsPermutation, IsSortedByClosure, IsStableByClosure};

use plain::record::Record;
use std::alloc::AllocError;
use std::cmp::Ordering;

/// A stable sort of records by a comparison that the caller passes.
pub trait Sorter {
    /// Sorts the records; records that compare equal keep their order. Where memory runs out, the
    /// records stay as they were.
    fn sort_by<N, D, F: Fn(&Record<N, D>, &Record<N, D>) -> Ordering>(
        records: &mut Vec<Record<N, D>>,
        compare: F,
    ) -> Result<(), AllocError>
        requires { F.IsAlwaysCallable compare }
        ensures same { IsPermutation records.old.items records.new.items }
        ensures sorted { OnOk result (IsSortedByClosure F.FnMut compare records.new.items) }
        ensures stable { IsStableByClosure F.FnMut compare records.old.items records.new.items }
        ensures err { OnErr result (records.new.items ≡ records.old.items) };
}

/// The standard library's stable sort.
#[derive(Clone, Copy, Debug, Drop)]
pub struct DefaultSorter;

impl Sorter for DefaultSorter {
    fn sort_by<N, D, F: Fn(&Record<N, D>, &Record<N, D>) -> Ordering>(
        records: &mut Vec<Record<N, D>>,
        compare: F,
    ) -> Result<(), AllocError> {
        records.sort_by(compare)
    }
}
