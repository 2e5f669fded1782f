//! Judging with a scheme and a hasher alone.
ghost use Rattle.std.specs.Prelude.{◌≡◌, ◌<◌};
ghost use Rattle.definitions.specs.Limits.{pointer_limit};
ghost use Rattle.answer_scheme.specs.Answers.{answers_by};
ghost use Rattle.answer_judge.specs.Meeting.{JudgesSo};
ghost use Rattle.answer_judge.specs.Lasts.{LastsSo};

use crate::case::Case;
use crate::verdict::{Judgement, Refused};
use answer_scheme::counting::SchemeChecks;
use answer_scheme::scheme::Scheme;
use denial_nsec3_hash::hasher::Nsec3Hasher;
use std::alloc::Global;
use std::marker::Brand;
use std::sync::ledger::{Blank, Ledger};

/// Judges as [`Case::judge`] does, for callers who have a scheme and a hasher and need no counts
/// but those of the answer.
pub fn judge_with<S: Scheme, H: Nsec3Hasher>(
    alloc: Global,
    scheme: &S,
    hasher: &H,
    case: &Case,
) -> Result<Judgement, Refused>
    ensures judgement { let a = answers_by S.verifies S.digest_of H.hash_of scheme.now hasher.now in
        JudgesSo pointer_limit a case.now result }
    ensures lasts { let a = answers_by S.verifies S.digest_of H.hash_of scheme.now hasher.now in
        LastsSo pointer_limit a case.now result }
{
    counted::<S, H, Brand, Brand>(alloc, scheme, hasher, Blank::new(1), Blank::new(1), case)
}

/// A judgement whose calls are counted from 0 on.
fn counted<S: Scheme, H: Nsec3Hasher, L: Ledger, M: Ledger>(
    alloc: Global,
    scheme: &S,
    hasher: &H,
    first: Blank,
    second: Blank,
    case: &Case,
) -> Result<Judgement, Refused>
    requires name { first.name ≡ L.name }
    requires parts { first.parts ≡ L.parts }
    requires some { 0 < L.parts }
    requires second_name { second.name ≡ M.name }
    requires second_parts { second.parts ≡ M.parts }
    requires second_some { 0 < M.parts }
    ensures judgement { let a = answers_by S.verifies S.digest_of H.hash_of scheme.now hasher.now in
        JudgesSo pointer_limit a case.now result }
    ensures lasts { let a = answers_by S.verifies S.digest_of H.hash_of scheme.now hasher.now in
        LastsSo pointer_limit a case.now result }
{
    let mut checks = SchemeChecks::<S, H, L, M>::new(scheme, hasher, first, second);
    case.judge(alloc, &mut checks)
}
