//! Where a walk ends.
ghost use Rattle.std.specs.Prelude.{◌≡◌};
ghost use Rattle.resolution_walk.specs.Judged.{counts_of};

use denial_data::Ds;
use evidence_laws::{Ask, Counts, DataList, Lead, Refusal, Validity, Verdict};
use messages::names::Name;
use names_rdata::rtype::Rtype;

/// A message that is wanted: of which zone, and the answer to which question.
#[derive(Debug, Drop)]
pub struct Wanted {
    pub zone: Name<Vec<u8>>,
    pub name: Name<Vec<u8>>,
    pub rtype: Rtype,
}

/// Where a walk ends.
#[derive(Debug, Drop)]
pub enum Ending {
    /// The zone that has the name says this verdict.
    Secure {
        zone: Name<Vec<u8>>,
        verdict: Verdict,
    },
    /// The name is an alias that leads to none: what a DNAME makes of it is too long.
    Leads(Lead),
    /// The delegation of this name has no DS record of a known algorithm and digest: what is below
    /// is insecure (RFC 4035, 5.2). These are the data of the DS records that it has.
    Unsigned {
        cut: Name<Vec<u8>>,
        ds: DataList,
    },
    /// Opt-out of this zone leaves the name open: it is insecure (RFC 5155, 6).
    LeftOpen(Name<Vec<u8>>),
    /// The zone's answer to this question tells nothing of the way: it is bogus, where it was
    /// refused, or another answer is wanted. The zone is judged by these DS records.
    Untold {
        zone: Name<Vec<u8>>,
        ds: Vec<Ds<Vec<u8>>>,
        name: Name<Vec<u8>>,
        rtype: Rtype,
        refusal: Option<Refusal>,
    },
    /// These signatures are wanted.
    Asks(Vec<Ask>),
    /// These messages are wanted.
    Wants(Vec<Wanted>),
    /// More delegations are on the way than the limit allows.
    TooManyCuts,
    /// More aliases are on the way than the limit allows.
    TooManyAliases,
    /// More messages are wanted, and the evidence has as many as the limit allows.
    TooManyMessages,
    /// The question is none of the anchor: its name is not at or below, or it is for DS there.
    Outside,
}

/// Where a zone's messages lead.
#[derive(Debug, Drop)]
pub(crate) enum Hop {
    /// Down to this zone, with these DS records.
    Down {
        zone: Name<Vec<u8>>,
        ds: Vec<Ds<Vec<u8>>>,
    },
    Ends(Ending),
}

/// No delegation is at the names between a zone and a question's name, as far as they were looked
/// at, with how often was verified and hashed so far.
#[derive(Clone, Copy, Debug, PartialEq, Eq)]
pub(crate) enum Uncut {
    /// One may be at a name further down.
    SoFar(Counts),
    /// None is further down, since a name does not exist.
    Throughout(Counts),
}

impl Uncut {
    /// How often was verified and hashed so far.
    pub(crate) fn counts(self) -> Counts
        ensures { result ≡ counts_of self }
    {
        match self {
            Uncut::SoFar(counts) => counts,
            Uncut::Throughout(counts) => counts,
        }
    }
}

/// Where a zone's messages lead, how long that lasts, and how often was verified and hashed so far.
#[derive(Debug, Drop)]
pub(crate) struct JudgedHop {
    pub(crate) hop: Hop,
    pub(crate) validity: Option<Validity>,
    pub(crate) counts: Counts,
}

/// Where the way of one name ends, how long that lasts, and how often was verified and hashed so
/// far.
#[derive(Debug, Drop)]
pub(crate) struct End {
    pub(crate) ending: Ending,
    pub(crate) validity: Option<Validity>,
    pub(crate) counts: Counts,
}

/// The name that an alias leads to, how long that lasts, and how often was verified and hashed so
/// far.
#[derive(Debug, Drop)]
pub(crate) struct Target {
    pub(crate) name: Name<Vec<u8>>,
    pub(crate) validity: Option<Validity>,
    pub(crate) counts: Counts,
}

/// Where a walk ends, and the names that aliases lead through on the way.
#[derive(Debug, Drop)]
pub struct Walk {
    pub ending: Ending,
    pub through: Vec<Name<Vec<u8>>>,
    /// How long what the walk says lasts: the least of all that it rests on, zone by zone and alias
    /// by alias. None where it says neither secure nor insecure.
    pub validity: Option<Validity>,
    /// How often was verified and hashed, in all judgements of the walk.
    pub counts: Counts,
}
