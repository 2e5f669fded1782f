//! What the types of a record of a chain say where it stands, by names or by hashes (RFC 6840, 4.1
//! and 4.3).
ghost use Rattle.std.specs.Prelude.{◌≡◌};
ghost use Rattle.std.specs.Option.{option_map};
ghost use Rattle.denial_laws.specs.NsecRules.{is_cut, lacks, star_lacks, at_name};
ghost use Rattle.denial_laws.specs.NsecRules.{has_nxname, is_bare, has_more};
ghost use Rattle.answer_judge_rules.specs.Rules.{verdict_of};

use crate::verdict::Verdict;
use denial_bitmap::bitmap::RtypeBitmap;
use messages::names::{Name, ToName};
use names_rdata::rtype::Rtype;

/// The type by which a signer says that there is no such name (RFC 9824, 2).
const NXNAME: u16 = 128;

/// Whether they have NXNAME.
pub(crate) fn has_nxname(types: &RtypeBitmap<&[u8]>) -> bool
    ensures { result ≡ has_nxname types.now }
{
    types.contains(Rtype::from_int(NXNAME))
}

/// Whether they are RRSIG and NSEC at most: those of an owner that a signer made up for a question
/// (RFC 4470, 3). An owner of a chain has others (RFC 4035, 2.3).
fn is_bare(types: &RtypeBitmap<&[u8]>) -> bool
    ensures { result ≡ is_bare types.now }
{
    let octets = types.as_slice();
    octets == [0u8; 0].as_slice()
        || octets == [0u8, 6, 0, 0, 0, 0, 0, 1].as_slice()
        || octets == [0u8, 6, 0, 0, 0, 0, 0, 2].as_slice()
        || octets == [0u8, 6, 0, 0, 0, 0, 0, 3].as_slice()
}

/// Whether they are those of a name that exists.
///
/// An owner that was made up, taken for one that exists, would hide the wildcard that stands for it
/// and for what is below it (RFC 4470, 3).
pub(crate) fn has_more(types: &RtypeBitmap<&[u8]>) -> bool
    ensures { result ≡ has_more types.now }
{
    !is_bare(types) && !has_nxname(types)
}

/// Whether they prove that a type is missing: they have neither the type nor CNAME.
///
/// An alias answers for all types: taken as proof, its record would hide where it leads (RFC 6840,
/// 4.3).
fn lacks(types: &RtypeBitmap<&[u8]>, rtype: Rtype) -> bool
    ensures { result ≡ lacks types.now rtype }
{
    !types.contains(rtype) && !types.contains(Rtype::CNAME)
}

/// Whether they prove that a type is missing, if they stand at a wildcard: those of a delegation
/// prove it of DS alone.
///
/// A delegation's record is of the parent's side: taken as proof, it would deny types that the
/// child holds (RFC 6840, 4.1).
pub(crate) fn star_lacks(types: &RtypeBitmap<&[u8]>, rtype: Rtype) -> bool
    ensures { result ≡ star_lacks types.now rtype }
{
    lacks(types, rtype) && (rtype == Rtype::DS || !types.contains(Rtype::NS))
}

/// Whether they are those of a delegation, if they stand at a name: NS below the apex.
pub(crate) fn is_cut<N: ToName>(types: &RtypeBitmap<&[u8]>, apex: &Name<Vec<u8>>, owner: &N) -> bool
    ensures { result ≡ is_cut apex.now (N.name owner.now) types.now }
{
    types.contains(Rtype::NS) && !owner.name_eq(apex)
}

/// What they say of the name where they stand.
///
/// At a delegation the parent tells of DS alone: its record, replayed, would deny what the child
/// holds (RFC 6840, 4.1).
pub(crate) fn at_name<N: ToName>(
    types: &RtypeBitmap<&[u8]>,
    apex: &Name<Vec<u8>>,
    name: &N,
    rtype: Rtype,
) -> Option<Verdict>
    ensures { option_map verdict_of result ≡ at_name apex.now (N.name name.now) rtype types.now }
{
    if is_cut(types, apex, name) && rtype != Rtype::DS {
        return Some(Verdict::Delegated);
    }
    if lacks(types, rtype) {
        Some(Verdict::NoType)
    } else {
        None
    }
}
