//! What a judge answers.
ghost use Rattle.std.specs.Prelude.{◌≡◌};
ghost use Rattle.answer_judge.specs.declared.verdict.Refusal.TheVariants.{Memory};

pub use answer_judge_facts::validity::Validity;
pub use answer_judge_rules::verdict::{DataList, Verdict};
use denial_nsec3_hash::hasher::HashError;
use std::alloc::AllocError;
use thiserror::Error;

/// Why a judge gives no verdict, in the order in which it is sought, but for the last two: `Memory`
/// comes wherever a growth was refused, and `MixedVersions` is sought before the chain's
/// parameters.
#[derive(Clone, Copy, Debug, PartialEq, Eq, Drop, Error)]
pub enum Refusal {
    /// The name is not at or below the apex, the class is not IN, or the type is not judged.
    #[error("question is not allowed")]
    QuestionNotAllowed,
    /// The DNSKEY answer is not a message.
    #[error("DNSKEY answer is not a message")]
    BadDnskeyMessage,
    /// The zone answer is not a message.
    #[error("zone answer is not a message")]
    BadAnswerMessage,
    /// A message answers another question.
    #[error("a message answers another question")]
    QuestionMismatch,
    /// Two unlike keys have one tag.
    #[error("two unlike keys have one tag")]
    EqualTags,
    /// No key that a DS record names signs the keys.
    #[error("no trusted key signs the keys")]
    NoTrustedKey,
    /// The chain's records were hashed in unlike ways.
    #[error("NSEC3 records of unlike parameters")]
    MixedNsec3Parameters,
    /// The chain's iterations are over the limit.
    #[error("iterations are over the limit")]
    IterationsOverLimit,
    /// A name was not hashed.
    #[error("a name was not hashed")]
    HashFailed,
    /// The records prove no verdict.
    #[error("the records prove no verdict")]
    NotProven,
    #[error("out of memory")]
    Memory,
    /// The signatures by which the answer is verified are not all of one inception and one
    /// expiration.
    #[error("signatures of unlike times")]
    MixedVersions,
}

impl From<AllocError> for Refusal {
    ghost from_gives = { λ _ r. r ≡ Memory };

    fn from(_e: AllocError) -> Refusal {
        Refusal::Memory
    }
}

impl From<HashError> for Refusal {
    ghost use Rattle.answer_judge.specs.HashRefusal.{refusal_of};

    ghost from_gives = { λ e r. r ≡ refusal_of e };

    fn from(error: HashError) -> Refusal {
        match error {
            HashError::Failed => Refusal::HashFailed,
            HashError::Memory => Refusal::Memory,
        }
    }
}

/// A verdict, and how often `verify` and `hash` were called.
#[derive(Debug, Drop)]
pub struct Judgement {
    pub verdict: Verdict,
    pub verifications: u32,
    pub hashes: u32,
    /// How long the verdict lasts. Beside an empty DS set nothing is verified, and nothing says how
    /// long that lasts.
    pub validity: Option<Validity>,
}

/// A refusal, and how often `verify` and `hash` were called.
#[derive(Clone, Copy, Debug, Drop)]
pub struct Refused {
    pub refusal: Refusal,
    pub verifications: u32,
    pub hashes: u32,
}
