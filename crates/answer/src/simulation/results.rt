//! Outcomes of a run, and what was shown.
ghost use Rattle.std.specs.Prelude.{◌≡◌, ◌++◌, ◌∷◌, [], OnOk, length, slice_get};
ghost use Rattle.std.specs.Option.{option_map};
ghost use Rattle.answer.specs.Results.{octets_of, set_of};
ghost use Rattle.answer_laws.specs.Simulating.{OfParent, OfKeys, OfZone};
ghost use Rattle.messages.specs.Questions.{asked_of};

use answer_outcomes::outcome::Outcome;
use denial_data::Ds;
use messages::question::Question;
use std::alloc::{AllocError, Global};
use std::marker::Model;

/// A thing that was shown: the place of its outcome, and the question of a zone answer.
#[derive(Drop)]
enum Shown<'a> {
    OfParent(usize),
    OfKeys(usize),
    OfZone(&'a Question, usize),
}

/// A thing that was shown, as it is judged.
#[derive(Drop)]
pub(super) enum Thing<'a> {
    OfParent(&'a [Ds<Vec<u8>>]),
    OfKeys(&'a [u8]),
    OfZone(&'a Question, &'a [u8]),
}

/// The outcomes so far, and the things shown in order of place. A thing stands once, in its
/// outcome.
///
/// A call without memory ends the run, so nothing is said of what stands there behind it.
#[derive(Drop)]
pub(super) struct Results<'a> {
    outcomes: Vec<Outcome>,
    shown: Vec<Shown<'a>>,
}

impl<'a> Model for Results<'a> {
    ghost use Rattle.std.specs.List.{AllByRecursion};
    ghost use Rattle.answer.specs.Results.{Results, IsThere, results};

    ghost Value = { Results };

    ghost view = { λ r. results r.outcomes.items r.shown.items };

    ghost invariant = { λ r. AllByRecursion (IsThere r.outcomes.items) r.shown.items };
}

impl<'a> Results<'a> {
    ghost use Rattle.answer.specs.Running.{thing_of};

    /// Nothing so far.
    pub(super) fn new(alloc: Global) -> Self
        ensures { result ≡ record { outcomes = []; shown = [] } }
    {
        Results {
            outcomes: Vec::new(alloc),
            shown: Vec::new(alloc),
        }
    }

    /// The outcomes.
    pub(super) fn into_outcomes(self) -> Vec<Outcome>
        ensures { result.items ≡ self.entry.outcomes }
    {
        self.outcomes
    }

    /// Adds an outcome that shows nothing.
    pub(super) fn add(&mut self, outcome: Outcome) -> Result<(), AllocError>
        ensures { OnOk result (self.new ≡ record self.old {
          outcomes = self.old.outcomes ++ outcome ∷ [];
        }) }
    {
        self.outcomes.push(outcome)?;
        Ok(())
    }

    /// Shows a DS set at the next place.
    pub(super) fn show_ds(&mut self, set: Vec<Ds<Vec<u8>>>) -> Result<(), AllocError>
        ensures { OnOk result (self.new ≡ record {
          outcomes = self.old.outcomes ++ Outcome.Ds (length self.old.shown) set ∷ [];
          shown = self.old.shown ++ OfParent set.items ∷ [];
        }) }
    {
        let place = self.shown.len();
        let at = self.outcomes.len();
        self.outcomes.push(Outcome::Ds { place, set })?;
        self.shown.push(Shown::OfParent(at))?;
        Ok(())
    }

    /// Shows a DNSKEY answer at the next place.
    pub(super) fn show_keys(&mut self, octets: Vec<u8>) -> Result<(), AllocError>
        ensures { OnOk result (self.new ≡ record {
          outcomes = self.old.outcomes ++ Outcome.Message (length self.old.shown) octets ∷ [];
          shown = self.old.shown ++ OfKeys octets.items ∷ [];
        }) }
    {
        let place = self.shown.len();
        let at = self.outcomes.len();
        self.outcomes.push(Outcome::Message { place, octets })?;
        self.shown.push(Shown::OfKeys(at))?;
        Ok(())
    }

    /// Shows the zone's answer to a question at the next place.
    pub(super) fn show_answer(
        &mut self,
        question: &'a Question,
        octets: Vec<u8>,
    ) -> Result<(), AllocError>
        ensures { OnOk result (self.new ≡ record {
          outcomes = self.old.outcomes ++ Outcome.Message (length self.old.shown) octets ∷ [];
          shown = self.old.shown ++ OfZone (asked_of question.now) octets.items ∷ [];
        }) }
    {
        let place = self.shown.len();
        let at = self.outcomes.len();
        self.outcomes.push(Outcome::Message { place, octets })?;
        self.shown.push(Shown::OfZone(question, at))?;
        Ok(())
    }

    /// What was shown at a place.
    pub(super) fn thing(&self, place: usize) -> Option<Thing<'_>>
        ensures { option_map thing_of result ≡ slice_get self.now.shown place }
    {
        match self.shown.get(place)? {
            Shown::OfParent(at) => Some(Thing::OfParent(set_at(&self.outcomes, *at)?)),
            Shown::OfKeys(at) => Some(Thing::OfKeys(octets_at(&self.outcomes, *at)?)),
            Shown::OfZone(question, at) => {
                Some(Thing::OfZone(question, octets_at(&self.outcomes, *at)?))
            }
        }
    }
}

/// The DS set of the outcome at a place.
fn set_at(outcomes: &[Outcome], place: usize) -> Option<&[Ds<Vec<u8>>]>
    ensures { option_map (λ set. set.now) result ≡ set_of (slice_get outcomes.now place) }
{
    match outcomes.get(place) {
        Some(Outcome::Ds { set, .. }) => Some(set),
        _ => None,
    }
}

/// The octets of the message of the outcome at a place.
fn octets_at(outcomes: &[Outcome], place: usize) -> Option<&[u8]>
    ensures { option_map (λ octets. octets.now) result ≡ octets_of (slice_get outcomes.now place) }
{
    match outcomes.get(place) {
        Some(Outcome::Message { octets, .. }) => Some(octets),
        _ => None,
    }
}
