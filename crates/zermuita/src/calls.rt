//! The calls of the library, each with a hasher that is lent.
ghost use Rattle.std.specs.Prelude.{◌≡◌, ◌<◌};
ghost use Rattle.answer_judge_octets.specs.Hashed.{CountsReport, hash_bound};
ghost use Rattle.answer_judge_octets.specs.Replying.{AnswersNumber, number_of};
ghost use Rattle.answer_judge_octets.specs.declared.reply.ReplyCode.TheVariants.{OutOfMemory};
ghost use Rattle.resolution_octets.specs.Hashed.{CountsReport as CountsWalk};
ghost use Rattle.resolution_octets.specs.Replying.{AnswersWalk};

use crate::hasher::CountedHasher;
use answer_hasher::NameHasher;
use answer_judge_octets::{OctetCase, Report, judge_octets};
use resolution_octets::{OctetEvidence, resolve_octets};
use std::alloc::Global;
use std::sync::ledger::{Blank, Ledger};

/// Judges as [`judge_octets`] does, and gives the number of its code.
pub fn judge_case<H: NameHasher>(
    alloc: Global,
    case: &OctetCase,
    out: &mut [u8],
    report: &mut Report,
    hasher: &mut H,
) -> u32
    ensures answers { AnswersNumber case.now out.old out.new report.old report.new result }
    ensures hashed { let ran_out = result ≡ number_of OutOfMemory in let most = hash_bound case.now in
        let hashes = CountsReport most ran_out report.old report.new in
        hashes (H.hashed hasher.old) (H.hashed hasher.new) }
{
    judge_octets(alloc, case, out, report, hasher).number()
}

/// Walks as [`resolve_octets`] does, and gives the number of its code.
pub fn resolve_evidence<H: NameHasher>(
    alloc: Global,
    evidence: &OctetEvidence,
    out: &mut [u8],
    report: &mut Report,
    hasher: &mut H,
) -> u32
    ensures answers { AnswersWalk evidence.now out.old out.new report.old report.new result }
    ensures hashed { let ran_out = result ≡ number_of OutOfMemory in
        let hashes = CountsWalk ran_out report.old report.new in
        hashes (H.hashed hasher.old) (H.hashed hasher.new) }
{
    resolve_octets(alloc, evidence, out, report, hasher).number()
}

/// Judges with a hasher of its own, whose count begins at 0.
pub(crate) fn judge_counted<N: Ledger>(
    alloc: Global,
    case: &OctetCase,
    out: &mut [u8],
    report: &mut Report,
    blank: Blank,
) -> u32
    requires name { blank.name ≡ N.name }
    requires parts { blank.parts ≡ N.parts }
    requires some { 0 < N.parts }
    ensures { AnswersNumber case.now out.old out.new report.old report.new result }
{
    let before = *report;
    let mut hasher = CountedHasher::<N>::new(blank);
    let number = judge_case(alloc, case, out, report, &mut hasher);
    hasher.end(before, report, number);
    number
}

/// Walks with a hasher of its own, whose count begins at 0.
pub(crate) fn resolve_counted<N: Ledger>(
    alloc: Global,
    evidence: &OctetEvidence,
    out: &mut [u8],
    report: &mut Report,
    blank: Blank,
) -> u32
    requires name { blank.name ≡ N.name }
    requires parts { blank.parts ≡ N.parts }
    requires some { 0 < N.parts }
    ensures { AnswersWalk evidence.now out.old out.new report.old report.new result }
{
    let before = *report;
    let mut hasher = CountedHasher::<N>::new(blank);
    let number = resolve_evidence(alloc, evidence, out, report, &mut hasher);
    hasher.end(before, report, number);
    number
}
