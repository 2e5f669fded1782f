//! Items in groups of neighbours that are alike.

ghost use Rattle.std.specs.Prelude.{◌≡◌, ◌<◌, ◌∷◌, [], Bool, IfSome, MatchOption, length};
ghost use Rattle.std.specs.Cmp.{IsEquivalence};
ghost use Rattle.denial_rrsets.specs.Groups.{IsGroup, groups, of_one_owner, of_one_set};
ghost use Rattle.denial_rrsets.specs.Groups.{of_one_type};
ghost use Rattle.denial_rrsets.specs.Slices.{items_of};

use crate::rows::names_eq;
use crate::slices::SliceRefsOrOwned;
use names_rdata::data::RecordData;
use names_traits::to_name::ToName;
use plain::record::Record;

/// When two items are of one group.
pub trait Alike<T> {
    ghost alike: { T → T → Bool };

    fn are_alike(a: &T, b: &T) -> bool
        ensures { result ≡ alike a.now b.now };

    ghost equivalence: { IsEquivalence alike };
}

/// Records of one owner and class.
pub struct ByOwner;

impl<N: ToName, D: RecordData> Alike<Record<N, D>> for ByOwner {
    ghost use Rattle.denial_rrsets.specs.GroupLaws.{one_owner_equivalence};

    ghost alike = { of_one_owner N.name };

    ghost equivalence = { one_owner_equivalence N.name };

    fn are_alike(a: &Record<N, D>, b: &Record<N, D>) -> bool {
        a.class() == b.class() && names_eq(a.owner(), b.owner())
    }
}

/// Records of one owner, class and type.
pub struct BySet;

impl<N: ToName, D: RecordData> Alike<Record<N, D>> for BySet {
    ghost use Rattle.denial_rrsets.specs.GroupLaws.{one_set_equivalence};

    ghost alike = { of_one_set N.name D.type_of };

    ghost equivalence = { one_set_equivalence N.name D.type_of };

    fn are_alike(a: &Record<N, D>, b: &Record<N, D>) -> bool {
        a.rtype() == b.rtype() && a.class() == b.class() && names_eq(a.owner(), b.owner())
    }
}

/// Records of one type, whatever their owners.
pub(crate) struct ByType;

impl<N: ToName, D: RecordData> Alike<Record<N, D>> for ByType {
    ghost use Rattle.denial_rrsets.specs.GroupLaws.{one_type_equivalence};

    ghost alike = { of_one_type D.type_of };

    ghost equivalence = { one_type_equivalence D.type_of };

    fn are_alike(a: &Record<N, D>, b: &Record<N, D>) -> bool {
        a.rtype() == b.rtype()
    }
}

/// The first group, and what is behind it.
pub fn split_group<'a, T, K: Alike<T>>(
    slice: SliceRefsOrOwned<'a, T>,
) -> Option<(SliceRefsOrOwned<'a, T>, SliceRefsOrOwned<'a, T>)>
    ensures group { IfSome result (λ p. IsGroup K.alike (items_of p.0)) }
    ensures parts { MatchOption result (items_of slice.entry ≡ [])
        (λ p. let rest = groups K.alike (items_of p.1) in
        groups K.alike (items_of slice.entry) ≡ items_of p.0 ∷ rest) }
{
    let _count = slice.len();
    let Some(mut last) = slice.get(0) else {
        return None;
    };
    let mut place = 0;
    while let Some(item) = slice.get(place + 1) {
        if !K::are_alike(last, item) {
            break;
        }
        last = item;
        place += 1;
    }
    Some(slice.split_at(place + 1))
}
