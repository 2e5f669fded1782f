//! Whether a walk that would go on has been as much work as a caller allows.
ghost use Rattle.std.specs.Prelude.{◌≡◌, ◌*◌, nat_lt, sum_by};
ghost use Rattle.evidence_laws.specs.Counted.{saturated};
ghost use Rattle.resolution_octets.specs.Working.{calls_of, entry_calls, goes_on, goes_too_far};
ghost use Rattle.resolution_octets.specs.Working.{is_too_much, most_work};

use answer_judge_octets::CheckedSignature;
use resolution_walk::{Ending, Evidence, Walk};

/// How much work all calls of a walk may be where a caller says no number.
const MOST_WORK: u64 = 6_000_000;

/// For how many calls a signature stands that fails.
const FAILED: u64 = 16;

/// Whether a walk would go on, and its calls so far may have been more work than is allowed.
///
/// Each call judges all messages anew. A caller that hands in what was wanted gets one more message
/// or signature by each call at least, and an honest answer has no signature that fails.
pub(crate) fn goes_too_far(most: u64, evidence: &Evidence, walk: &Walk) -> bool
    ensures { result ≡ goes_too_far most evidence.now walk.now }
{
    goes_on(&walk.ending) && is_too_much(most, calls_of(evidence), walk.counts.work)
}

/// Whether messages or signatures are wanted.
fn goes_on(ending: &Ending) -> bool
    ensures { result ≡ goes_on ending.now }
{
    matches!(ending, Ending::Asks(_) | Ending::Wants(_))
}

/// Whether so many calls of so much work are more than is allowed.
fn is_too_much(most: u64, calls: u64, work: u64) -> bool
    ensures { result ≡ is_too_much most calls work }
{
    match calls.checked_mul(work) {
        Some(all) => all > most_work(most),
        None => true,
    }
}

fn most_work(number: u64) -> u64
    ensures { result ≡ most_work number }
{
    if number == 0 { MOST_WORK } else { number }
}

/// For how many calls evidence stands at most.
fn calls_of(evidence: &Evidence) -> u64
    ensures { result ≡ calls_of evidence.now }
{
    let messages = evidence.messages.len() as u64;
    messages.saturating_add(entries_calls(evidence.table))
}

fn entries_calls(table: &[CheckedSignature]) -> u64
    ensures { result ≡ saturated (sum_by entry_calls table.now) }
{
    let mut calls: u64 = 0;
    for entry in table {
        calls = calls.saturating_add(entry_calls(entry));
    }
    calls
}

fn entry_calls(entry: &CheckedSignature) -> u64
    ensures { result ≡ entry_calls entry.now }
{
    if entry.passes { 1 } else { FAILED }
}
