//! What a message tells.
ghost use Rattle.std.specs.Prelude.{◌≡◌};
ghost use Rattle.answer_findings.specs.Lasts.{least, least_of};
ghost use Rattle.resolution_step.specs.Counted.{no_counts, plus};
ghost use Rattle.resolution_step.specs.Told.{told};

use answer_findings::{Ask, DataList, Lead, Refusal, Validity, Verdict};
use denial_data::Ds;
use messages::names::Name;

/// What a message of a zone tells of a question.
#[derive(Debug, Drop)]
pub enum Step {
    /// The zone has the name, and this is its verdict.
    Answer(Verdict),
    /// The name is an alias.
    Leads(Lead),
    /// The zone delegates the name here, with these DS records of known algorithms and digests. The
    /// name of the delegation is in lower case.
    Down {
        cut: Name<Vec<u8>>,
        ds: Vec<Ds<Vec<u8>>>,
    },
    /// The zone delegates the name here, and has no DS record of a known algorithm and digest: what
    /// is below is insecure (RFC 4035, 5.2). The name of the delegation is in lower case. With it
    /// come the data of the DS records that it has; none where it has no DS record.
    Unsigned {
        cut: Name<Vec<u8>>,
        ds: DataList,
    },
    /// Opt-out leaves the name open: it is insecure (RFC 5155, 6).
    LeftOpen,
    /// No delegation is at the name or above it.
    NoCut,
    /// No delegation is at the name or above it, nor at any name below it: the name does not exist,
    /// or it is below a DNAME.
    NoneBelow,
    /// The message tells none of this: why it was refused, or none where it says something else.
    Untold(Option<Refusal>),
    /// The table does not have these signatures.
    Asks(Vec<Ask>),
}

/// What a message tells, how long that lasts, and what was counted for it: where signatures are
/// asked for, of verifications and hashes those of the judgements that were made before.
#[derive(Debug, Drop)]
pub struct JudgedStep {
    pub step: Step,
    /// The least of what it rests on; none where nothing is found.
    pub validity: Option<Validity>,
    pub counts: Counts,
}

/// How often was verified and hashed, and how much work the messages were that were searched.
#[derive(Clone, Copy, Debug, PartialEq, Eq)]
pub struct Counts {
    pub verifications: u64,
    pub hashes: u64,
    /// For each search that of both messages: a label of a record's owner counts one, a record
    /// eight, NSEC and NSEC3 records with their labels 32 times, and 32 octets one.
    pub work: u64,
}

impl Counts {
    /// Nothing was searched.
    pub fn none() -> Counts
        ensures { result ≡ no_counts }
    {
        Counts {
            verifications: 0,
            hashes: 0,
            work: 0,
        }
    }

    /// These and others. A sum that 64 bits do not hold is the last number that they do.
    pub fn plus(self, other: Counts) -> Counts
        ensures { result ≡ plus self other }
    {
        Counts {
            verifications: self.verifications.saturating_add(other.verifications),
            hashes: self.hashes.saturating_add(other.hashes),
            work: self.work.saturating_add(other.work),
        }
    }
}

/// A step that lasts so long, and was counted so.
pub(crate) fn lasts(step: Step, validity: Option<Validity>, counts: Counts) -> JudgedStep
    ensures step { told result.step ≡ told step }
    ensures validity { result.validity ≡ validity }
    ensures counts { result.counts ≡ counts }
{
    JudgedStep {
        step,
        validity,
        counts,
    }
}

/// How long what rests on both lasts, where they say it.
pub fn least_of(one: Option<Validity>, other: Option<Validity>) -> Option<Validity>
    ensures { result ≡ least_of one other }
{
    match (one, other) {
        (Some(one), Some(other)) => Some(least(one, other)),
        (Some(one), None) => Some(one),
        (None, other) => other,
    }
}

fn least(one: Validity, other: Validity) -> Validity
    ensures { result ≡ least one other }
{
    Validity {
        ttl: one.ttl.min(other.ttl),
        seconds: one.seconds.min(other.seconds),
    }
}
