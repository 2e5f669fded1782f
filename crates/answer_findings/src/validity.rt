//! How long what is found lasts.
ghost use Rattle.std.specs.Prelude.{◌≡◌};
ghost use Rattle.answer_findings.specs.Lasts.{validity_by, validity_in, validity_of, validities_of};
ghost use Rattle.answer_findings.specs.Lasts.{least, least_of};
ghost use Rattle.answer_findings.specs.Seen.{seen};

use crate::meaning::Meaning;
use crate::side_judgements::{Judgements, SideJudgement};
use answer_judge_table::{Judgement, Refused, Validity};

/// How long the judgements of a search last, where they are made and say it.
#[derive(Clone, Copy, Debug)]
pub(crate) struct Validities {
    pub(crate) own: Option<Validity>,
    pub(crate) alias: Option<Validity>,
    pub(crate) ns: Option<Validity>,
    pub(crate) ds: Option<Validity>,
}

impl Validities {
    pub(crate) fn of_judgements(judgements: &Judgements) -> Self
        ensures { result ≡ validities_of judgements.now }
    {
        Validities {
            own: validity_of(&judgements.own),
            alias: validity_in(&judgements.alias),
            ns: validity_in(&judgements.ns),
            ds: validity_in(&judgements.ds),
        }
    }

    /// How long what is found lasts: as long as all judgements that it rests on.
    pub(crate) fn of_meaning(&self, meaning: &Meaning) -> Option<Validity>
        ensures { result ≡ validity_by self.now (seen meaning.now) }
    {
        match meaning {
            Meaning::Verdict(_) | Meaning::Delegated(None) => self.own,
            Meaning::Delegated(Some(_)) => least_of(least_of(self.own, self.ns), self.ds),
            Meaning::NoDs(_) => least_of(self.own, self.ns),
            Meaning::Alias(_) | Meaning::WildcardAlias(_) => self.alias,
            Meaning::LeftOpen | Meaning::Dname { .. } => self.alias,
            Meaning::Referral { .. } => self.ds,
        }
    }
}

fn validity_of(said: &Result<Judgement, Refused>) -> Option<Validity>
    ensures { result ≡ validity_of said.now }
{
    match said {
        Ok(judgement) => judgement.validity,
        Err(_) => None,
    }
}

fn validity_in(made: &Option<SideJudgement>) -> Option<Validity>
    ensures { result ≡ validity_in made.now }
{
    match made {
        Some(made) => validity_of(&made.said),
        None => None,
    }
}

/// The least of what two judgements say, where they say it.
fn least_of(one: Option<Validity>, other: Option<Validity>) -> Option<Validity>
    ensures { result ≡ least_of one other }
{
    match (one, other) {
        (Some(one), Some(other)) => Some(least(one, other)),
        (Some(one), None) => Some(one),
        (None, other) => other,
    }
}

fn least(one: Validity, other: Validity) -> Validity
    ensures { result ≡ least one other }
{
    Validity {
        ttl: one.ttl.min(other.ttl),
        seconds: one.seconds.min(other.seconds),
    }
}
