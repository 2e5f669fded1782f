//! Owners and RRsets split off records, by the places at which owners begin where these are known.

ghost use Rattle.std.specs.Prelude.{◌≡◌, ◌≤◌, ◌∷◌, [], drop, if◌then◌else◌, IfSome, MatchOption};
ghost use Rattle.std.specs.Prelude.{Some};
ghost use Rattle.denial_rrsets.specs.Ends.{AreEnds, first_count};
ghost use Rattle.denial_rrsets.specs.Groups.{IsGroup, groups, of_one_owner, of_one_set};
ghost use Rattle.denial_rrsets.specs.Slices.{items_of};

use crate::runs::{ByOwner, BySet, ByType, split_group};
use crate::slices::SliceRefsOrOwned;
use names_rdata::data::RecordData;
use names_traits::to_name::ToName;
use plain::record::Record;

/// Where the owners of some records end: the places at which owners begin, behind the first owner
/// of these records. The records are the last ones of `count` records.
#[derive(Clone, Copy, Debug, Drop)]
pub struct Ends<'a> {
    later: &'a [usize],
    count: usize,
}

impl<'a> Ends<'a> {
    /// The ends for all of `count` records, from the places at which their owners begin.
    pub fn new(starts: &'a [usize], count: usize) -> Self
        ensures later { result.later.now ≡ drop 1 starts.now }
        ensures count { result.count ≡ count }
    {
        let later = match starts.split_first() {
            Some((_, later)) => later,
            None => starts,
        };
        Ends { later, count }
    }

    /// How many of the `left` records that are left belong to the first owner.
    fn first_count(self, left: usize) -> usize
        requires few { left ≤ self.count }
        ensures { result ≡ first_count self.entry.later.now self.entry.count left }
    {
        match self.later.first() {
            Some(end) => end.saturating_sub(self.count - left),
            None => left,
        }
    }

    /// The ends of what is left behind some records of the first owner, which may be all of its
    /// records.
    fn left(self, are_all: bool) -> Self
        ensures later { result.later.now
            ≡ (if are_all then drop 1 self.entry.later.now else self.entry.later.now) }
        ensures count { result.count ≡ self.entry.count }
    {
        if are_all { self.behind() } else { self }
    }

    /// The ends of what is left behind the first owner's records.
    fn behind(self) -> Self
        ensures later { result.later.now ≡ drop 1 self.entry.later.now }
        ensures count { result.count ≡ self.entry.count }
    {
        Ends::new(self.later, self.count)
    }
}

/// The first group of records, and those behind it.
#[derive(Drop)]
pub struct Parts<'a, N, D> {
    pub group: SliceRefsOrOwned<'a, Record<N, D>>,
    pub behind: SliceRefsOrOwned<'a, Record<N, D>>,
    pub ends: Option<Ends<'a>>,
}

/// The records of the first owner, and those behind them.
pub(crate) fn split_owner<'a, N: ToName, D: RecordData>(
    slice: SliceRefsOrOwned<'a, Record<N, D>>,
    ends: Option<Ends<'a>>,
) -> Option<Parts<'a, N, D>>
    requires { AreEnds N.name ends (items_of slice) }
    ensures group { IfSome result (λ p. IsGroup (of_one_owner N.name) (items_of p.group)) }
    ensures parts { let owners = groups (of_one_owner N.name) in
        MatchOption result (items_of slice.entry ≡ [])
        (λ p. owners (items_of slice.entry) ≡ items_of p.group ∷ owners (items_of p.behind)) }
    ensures ends { IfSome result (λ p. AreEnds N.name p.ends (items_of p.behind)) }
{
    match ends {
        Some(ends) => split_owner_at(slice, ends),
        None => {
            let (group, behind) = split_group::<Record<N, D>, ByOwner>(slice)?;
            Some(Parts {
                group,
                behind,
                ends: None,
            })
        }
    }
}

/// Splits off the records of the first owner, by the places at which owners begin.
fn split_owner_at<'a, N: ToName, D: RecordData>(
    slice: SliceRefsOrOwned<'a, Record<N, D>>,
    ends: Ends<'a>,
) -> Option<Parts<'a, N, D>>
    requires { AreEnds N.name (Some ends) (items_of slice) }
    ensures group { IfSome result (λ p. IsGroup (of_one_owner N.name) (items_of p.group)) }
    ensures parts { let owners = groups (of_one_owner N.name) in
        MatchOption result (items_of slice.entry ≡ [])
        (λ p. owners (items_of slice.entry) ≡ items_of p.group ∷ owners (items_of p.behind)) }
    ensures ends { IfSome result (λ p. AreEnds N.name p.ends (items_of p.behind)) }
{
    let left = slice.len();
    if left == 0 {
        return None;
    }
    let (group, behind) = slice.split_at(ends.first_count(left));
    Some(Parts {
        group,
        behind,
        ends: Some(ends.behind()),
    })
}

/// The records of the first owner and type, and those behind them.
pub fn split_set<'a, N: ToName, D: RecordData>(
    slice: SliceRefsOrOwned<'a, Record<N, D>>,
    ends: Option<Ends<'a>>,
) -> Option<Parts<'a, N, D>>
    requires { AreEnds N.name ends (items_of slice) }
    ensures group { IfSome result (λ p. IsGroup (of_one_set N.name D.type_of) (items_of p.group)) }
    ensures parts { let sets = groups (of_one_set N.name D.type_of) in
        MatchOption result (items_of slice.entry ≡ [])
        (λ p. sets (items_of slice.entry) ≡ items_of p.group ∷ sets (items_of p.behind)) }
    ensures ends { IfSome result (λ p. AreEnds N.name p.ends (items_of p.behind)) }
{
    match ends {
        Some(ends) => split_set_at(slice, ends),
        None => {
            let (group, behind) = split_group::<Record<N, D>, BySet>(slice)?;
            Some(Parts {
                group,
                behind,
                ends: None,
            })
        }
    }
}

/// Splits off the records of the first owner and type, by the places at which owners begin. Only
/// types are compared.
fn split_set_at<'a, N: ToName, D: RecordData>(
    slice: SliceRefsOrOwned<'a, Record<N, D>>,
    ends: Ends<'a>,
) -> Option<Parts<'a, N, D>>
    requires { AreEnds N.name (Some ends) (items_of slice) }
    ensures group { IfSome result (λ p. IsGroup (of_one_set N.name D.type_of) (items_of p.group)) }
    ensures parts { let sets = groups (of_one_set N.name D.type_of) in
        MatchOption result (items_of slice.entry ≡ [])
        (λ p. sets (items_of slice.entry) ≡ items_of p.group ∷ sets (items_of p.behind)) }
    ensures ends { IfSome result (λ p. AreEnds N.name p.ends (items_of p.behind)) }
{
    let left = slice.len();
    if left == 0 {
        return None;
    }
    let owned = ends.first_count(left);
    let (owner, _behind) = slice.split_at(owned);
    let Some((set, _others)) = split_group::<Record<N, D>, ByType>(owner) else {
        return None;
    };
    let count = set.len();
    let (group, behind) = slice.split_at(count);
    Some(Parts {
        group,
        behind,
        ends: Some(ends.left(count == owned)),
    })
}
