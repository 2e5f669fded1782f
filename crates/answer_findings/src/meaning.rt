//! What is found.
use answer_judge_table::{Ask, DataList, Refusal, Validity, Verdict};
use answer_terms::redirection::Lead;
use messages::names::Name;

/// What an answer is found to say.
#[derive(Debug, Drop)]
pub enum Meaning {
    /// What the judge says, and nothing beyond it.
    Verdict(Verdict),
    /// The name is at or below a delegation: the topmost one, where the message proves which.
    Delegated(Option<Name<Vec<u8>>>),
    /// The name exists and has no DS record; whether the zone delegates it.
    NoDs(bool),
    /// The name has a CNAME record, which leads to this name.
    Alias(Name<Vec<u8>>),
    /// A wildcard with a CNAME record stands for the name, and leads to this name.
    WildcardAlias(Name<Vec<u8>>),
    /// Opt-out leaves the name open: the answer has a CNAME of a wildcard for it, which stands for
    /// the name only where no insecure delegation is there.
    LeftOpen,
    /// A DNAME record stands above the name.
    Dname { owner: Name<Vec<u8>>, leads: Lead },
    /// The zone has these DS records at a name at or above the question's.
    Referral { cut: Name<Vec<u8>>, ds: DataList },
}

/// What comes of a search.
#[derive(Debug, Drop)]
pub enum AnswerOutcome {
    /// What is found, how long that lasts, and how often was verified and hashed for it.
    Means {
        meaning: Meaning,
        /// The least of the judgements that it rests on; beside an empty DS set nothing says it.
        validity: Option<Validity>,
        verifications: u64,
        hashes: u64,
    },
    /// Why nothing is found, and how often was verified and hashed for that.
    Refused {
        refusal: Refusal,
        verifications: u64,
        hashes: u64,
    },
    /// The table does not have these signatures: with them in it the search goes on. How often was
    /// verified and hashed by the judgements that were made before.
    Asks {
        asks: Vec<Ask>,
        verifications: u64,
        hashes: u64,
    },
}
