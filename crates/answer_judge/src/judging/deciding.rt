//! What verified facts prove, beside signatures of one moment and links that were hashed alike and
//! within a limit.
ghost use Rattle.std.specs.Prelude.{◌≡◌, ◌≤◌, ◌+◌, not, IfErr, None};
ghost use Rattle.std.specs.List.{list_any};
ghost use Rattle.answer_scheme.specs.Answers.{NoneVerified};
ghost use Rattle.answer_judge.specs.Judging.{RefusesFirst, hash_bound};
ghost use Rattle.answer_judge.specs.Judged.{are_alike, are_mixed, are_over, judged_facts};
ghost use Rattle.answer_judge.specs.Judged.{judged_proof, said, AnswersAs};
ghost use Rattle.answer_judge.specs.Due.{hashes_of_facts, hashes_of_proof, Counts};

use crate::case::Case;
use crate::verdict::{Refusal, Verdict};
use answer_judge_facts::facts::Proof;
use answer_judge_rules::asked::Asked;
use answer_judge_rules::decide::{Facts, HashLink, decide};
use answer_scheme::checks::Checks;
use std::alloc::Global;

/// The verdict of an answer's proof, and how many names are hashed for it.
///
/// Where signatures must be of one moment, those of unlike times are refused before anything is
/// hashed.
pub(crate) fn judge_proof<C: Checks>(
    alloc: Global,
    case: &Case,
    proof: Proof,
    checks: &mut C,
    hashes: &mut u32,
) -> Result<Verdict, Refusal>
    requires { hashes.old ≡ 0 }
    ensures exact { let a = C.answers checks.old in
        let judged = judged_proof a case.now proof.entry.facts proof.entry.has_unlike_times in
        AnswersAs (said result) judged }
    ensures hash_counts { let a = C.answers checks.old in
        let due = hashes_of_proof a case.now proof.entry.facts proof.entry.has_unlike_times in
        Counts (said result) hashes.new due }
    ensures hash_bound { hashes.new ≤ hash_bound case.now }
    ensures hashed { C.hashed checks.new ≡ C.hashed checks.old + hashes.new }
    ensures refusal { IfErr result (λ e. RefusesFirst e None) }
    ensures verified { C.verified checks.new ≡ C.verified checks.old }
    ensures none { NoneVerified C.agrees C.asked_only checks.old checks.new }
    ensures same { C.answers checks.new ≡ C.answers checks.old }
{
    if case.one_moment && proof.has_unlike_times {
        return Err(Refusal::MixedVersions);
    }
    judge_facts(alloc, case, proof.facts, checks, hashes)
}

/// The verdict that facts prove, and how many names are hashed for it.
fn judge_facts<C: Checks>(
    alloc: Global,
    case: &Case,
    facts: Facts,
    checks: &mut C,
    hashes: &mut u32,
) -> Result<Verdict, Refusal>
    requires { hashes.old ≡ 0 }
    ensures exact { let a = C.answers checks.old in
        AnswersAs (said result) (judged_facts a case.now facts.entry) }
    ensures hash_counts { let a = C.answers checks.old in
        Counts (said result) hashes.new (hashes_of_facts a case.now facts.entry) }
    ensures hash_bound { hashes.new ≤ hash_bound case.now }
    ensures hashed { C.hashed checks.new ≡ C.hashed checks.old + hashes.new }
    ensures refusal { IfErr result (λ e. RefusesFirst e None) }
    ensures verified { C.verified checks.new ≡ C.verified checks.old }
    ensures none { NoneVerified C.agrees C.asked_only checks.old checks.new }
    ensures same { C.answers checks.new ≡ C.answers checks.old }
{
    if are_mixed(facts.hash_links()) {
        return Err(Refusal::MixedNsec3Parameters);
    }
    if are_over(facts.hash_links(), case.limit) {
        return Err(Refusal::IterationsOverLimit);
    }
    let question = case.question;
    let asked = Asked {
        apex: case.apex,
        name: &question.name,
        rtype: question.rtype,
    };
    let verdict = decide(alloc, &asked, facts, checks, hashes)?;
    verdict.ok_or(Refusal::NotProven)
}

/// Whether two links were hashed alike.
fn are_alike(a: &HashLink, b: &HashLink) -> bool
    ensures { result ≡ are_alike a.now b.now }
{
    a.iterations() == b.iterations() && a.salt() == b.salt()
}

/// Whether links were hashed in unlike ways.
///
/// Records of another chain, mixed in, would deny a name by a hash that it does not have there
/// (RFC 5155, 8.2).
fn are_mixed(links: &[HashLink]) -> bool
    ensures { result ≡ are_mixed links.now }
{
    match links.split_first() {
        None => false,
        Some((first, others)) => are_unlike(first, others),
    }
}

/// Whether some links were hashed otherwise than one.
fn are_unlike(first: &HashLink, others: &[HashLink]) -> bool
    ensures { result ≡ list_any (λ l. not (are_alike first.now l)) others.now }
{
    others.iter().any(|link| !are_alike(first, link))
}

/// Whether a link asks for more iterations than a limit.
///
/// A zone that asks for endless hashing would otherwise wear a judge out (RFC 5155, 10.3; RFC 9276,
/// 3.2).
fn are_over(links: &[HashLink], limit: u16) -> bool
    ensures { result ≡ are_over limit links.now }
{
    links.iter().any(|link| limit < link.iterations())
}
