//! Whether the signatures of an answer are of one moment (RFC 4034, 3.1.5).
ghost use Rattle.std.specs.Prelude.{◌≡◌};
ghost use Rattle.std.specs.List.{filter_map, list_any};
ghost use Rattle.denial_laws.specs.NsecRules.{first_some};
ghost use Rattle.answer_judge_facts.specs.Times.{are_unlike};
ghost use Rattle.answer_judge_facts.specs.Marked.{is_unlike, times_by};

use crate::groups::{Signed, SignedRrset};

/// Whether the signatures that verified some groups are not all of one inception and one
/// expiration.
///
/// Where each answer is signed as one, groups of unlike times are of more than one, and maybe of
/// two versions of the zone: together they would prove what neither version says.
pub fn are_unlike(groups: &[SignedRrset]) -> bool
    ensures { result ≡ are_unlike (filter_map times_by groups.now) }
{
    match first_signed(groups) {
        None => false,
        Some(first) => are_beside(&first, groups),
    }
}

/// Whether a signature of other times verified one of some groups.
fn are_beside(first: &Signed, groups: &[SignedRrset]) -> bool
    ensures { result ≡ list_any (is_unlike first.now) groups.now }
{
    groups.iter().any(|group| is_unlike(first, group))
}

/// What the signature says of the first group that is verified.
fn first_signed(groups: &[SignedRrset]) -> Option<Signed>
    ensures { result ≡ first_some (λ g. g.verified) groups.now }
{
    for group in groups {
        if let Some(signed) = group.verified {
            return Some(signed);
        }
    }
    None
}

/// Whether a signature of other times verified a group.
fn is_unlike(first: &Signed, group: &SignedRrset) -> bool
    ensures { result ≡ is_unlike first.now group.now }
{
    match &group.verified {
        None => false,
        Some(signed) => {
            signed.inception != first.inception || signed.expiration != first.expiration
        }
    }
}
