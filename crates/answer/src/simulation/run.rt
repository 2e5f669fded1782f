//! A run of events, one at a time.
ghost use Rattle.std.specs.Prelude.{◌≡◌, ◌≤◌, [], ℕ, OnOk, map, slice_get};
ghost use Rattle.definitions.specs.Limits.{pointer_limit};
ghost use Rattle.answer_events.specs.Events.{added_octets};
ghost use Rattle.answer_judge.specs.Meeting.{JudgesSo};
ghost use Rattle.messages.specs.HandedRr.{handed_of};
ghost use Rattle.messages.specs.Questions.{asked_of};
ghost use Rattle.messages.specs.WrittenLaws.{IsQuestion};
ghost use Rattle.answer.specs.Running.{sofar_in, world_in, Serves};
ghost use Rattle.answer_laws.specs.Simulating.{judge_input, JudgesThings, JudgesBytes, Replaces};

use crate::simulation::results::{Results, Thing};
use answer_events::event::{Act, Event};
use answer_judge::{Case, Judgement, Refused, judge_with};
use answer_outcomes::outcome::Outcome;
use answer_publisher::fault::ReplaceFault;
use answer_publisher::publishing::Publisher;
use answer_scheme::scheme::Scheme;
use answer_zone_records::copies::copy_records;
use answer_zone_records::fault::ZoneFault;
use denial_data::Ds;
use denial_nsec3_hash::hasher::Nsec3Hasher;
use keyset::UnixTime;
use messages::names::ZoneName;
use messages::question::Question;
use messages::record::ZoneRecord;
use std::alloc::{AllocError, Global};

/// A run so far: the publisher, and what came of the events.
#[derive(Drop)]
pub(super) struct Run<'a, S: Scheme, H: Nsec3Hasher> {
    alloc: Global,
    publisher: Publisher<'a, S, H>,
    limit: u16,
    results: Results<'a>,
}

impl<'a, S: Scheme, H: Nsec3Hasher> Run<'a, S, H> {
    /// A run at its beginning; the limit is the zone's.
    pub(super) fn new(alloc: Global, publisher: Publisher<'a, S, H>, limit: u16) -> Self
        ensures publisher { result.publisher ≡ publisher.entry }
        ensures limit { result.limit ≡ limit }
        ensures results { result.results ≡ record { outcomes = []; shown = [] } }
    {
        Run {
            alloc,
            publisher,
            limit,
            results: Results::new(alloc),
        }
    }

    /// The outcomes so far.
    pub(super) fn into_outcomes(self) -> Vec<Outcome>
        ensures { result.items ≡ self.entry.results.outcomes }
    {
        self.results.into_outcomes()
    }

    /// Adds what comes of one event.
    pub(super) fn serve(&mut self, event: &'a Event) -> Result<(), AllocError>
        requires key { added_octets event.now ≤ 65531 }
        requires limit { self.old.limit ≡ self.old.publisher.zone.limit }
        ensures step { let w = world_in S.signature_of S.verifies S.digest_of H.hash_of self.old in
            let e = event.now in
            OnOk result (Serves w self.old e.at e.act self.new) }
        ensures rest { let p = self.new.publisher in self.new ≡ record self.old {
          publisher = record self.old.publisher {
            zone = record self.old.publisher.zone { records = p.zone.records };
            keys = p.keys;
            latest = p.latest;
          };
          results = self.new.results;
        } }
    {
        match &event.act {
            Act::Key(call) => {
                let outcome = Outcome::Key(self.publisher.apply(call, &event.at));
                self.results.add(outcome)
            }
            Act::Replace(records) => {
                let outcome = Outcome::Replaced(self.replace(records, &event.at));
                self.results.add(outcome)
            }
            Act::ShowDs => self.show_ds(),
            Act::ShowCds => {
                let set = self.publisher.cds_set()?;
                self.results.add(Outcome::Cds(set))
            }
            Act::ShowCdnskey => {
                let set = self.publisher.cdnskey_set()?;
                self.results.add(Outcome::Cdnskey(set))
            }
            Act::ShowDnskey => self.show_dnskey(&event.at),
            Act::Ask(question) => self.ask(question, &event.at),
            Act::Judge { ds, dnskey, answer } => {
                let outcome = self.judge_shown(*ds, *dnskey, *answer, &event.at);
                self.results.add(outcome)
            }
            Act::JudgeBytes {
                ds,
                dnskey_bytes,
                answer_bytes,
                question,
            } => {
                let outcome = self.judge_bytes(
                    *ds,
                    dnskey_bytes,
                    answer_bytes,
                    question,
                    &event.at,
                );
                self.results.add(outcome)
            }
        }
    }

    /// Publishes copies of other records in the place of the zone's. Whether it is refused is known
    /// before any memory is taken, as far as that can be.
    fn replace(&mut self, records: &[ZoneRecord], at: &UnixTime) -> Result<(), ReplaceFault>
        ensures replaces { let s = self.old in
            let w = world_in S.signature_of S.verifies S.digest_of H.hash_of s in
            let rs = map handed_of records.now in
            Replaces w (sofar_in self.old) at.now rs result (sofar_in self.new) }
        ensures rest { self.new ≡ record self.old {
          publisher = record self.old.publisher {
            zone = record self.old.publisher.zone { records = self.new.publisher.zone.records };
          };
        } }
    {
        if let Some(fault) = self.publisher.refused_ahead(records, at) {
            return Err(fault);
        }
        let Ok(copies) = copy_records(self.alloc, records) else {
            return Err(ReplaceFault::Zone(ZoneFault::Memory));
        };
        self.publisher.replace_zone(copies, at)
    }

    /// Shows the DS set at the next place.
    fn show_ds(&mut self) -> Result<(), AllocError>
        ensures step { let w = world_in S.signature_of S.verifies S.digest_of H.hash_of self.old in
            OnOk result ((at : ℕ) → Serves w self.old at Act.ShowDs self.new) }
        ensures rest { self.new ≡ record self.old { results = self.new.results } }
    {
        let set = self.publisher.ds_set()?;
        self.results.show_ds(set)
    }

    /// Shows the DNSKEY answer at the next place.
    fn show_dnskey(&mut self, at: &UnixTime) -> Result<(), AllocError>
        ensures step { let w = world_in S.signature_of S.verifies S.digest_of H.hash_of self.old in
            OnOk result (Serves w self.old at.now Act.ShowDnskey self.new) }
        ensures rest { self.new ≡ record self.old { results = self.new.results } }
    {
        match self.publisher.dnskey_answer(at) {
            Err(fault) => self.results.add(Outcome::Refused(fault)),
            Ok(octets) => self.results.show_keys(octets),
        }
    }

    /// Shows the zone's answer to a question at the next place.
    fn ask(&mut self, question: &'a Question, at: &UnixTime) -> Result<(), AllocError>
        ensures step { let w = world_in S.signature_of S.verifies S.digest_of H.hash_of self.old in
            OnOk result (Serves w self.old at.now (Act.Ask question.now) self.new) }
        ensures rest { self.new ≡ record self.old {
          publisher = record self.old.publisher { latest = self.new.publisher.latest };
          results = self.new.results;
        } }
    {
        question.keeps();
        match self.publisher.answer(question, at) {
            Err(fault) => self.results.add(Outcome::Refused(fault)),
            Ok(octets) => self.results.show_answer(question, octets),
        }
    }

    /// Judges three things that were shown, for the question of the zone answer.
    fn judge_shown(&self, ds: usize, dnskey: usize, answer: usize, at: &UnixTime) -> Outcome
        requires { self.now.limit ≡ self.now.publisher.zone.limit }
        ensures { let w = world_in S.signature_of S.verifies S.digest_of H.hash_of self.now in
            let thing = slice_get (sofar_in self.now).shown in
            JudgesThings w at.now (thing ds) (thing dnskey) (thing answer) result }
    {
        match (
            self.results.thing(ds),
            self.results.thing(dnskey),
            self.results.thing(answer),
        ) {
            (
                Some(Thing::OfParent(ds)),
                Some(Thing::OfKeys(keys)),
                Some(Thing::OfZone(question, octets)),
            ) => { Outcome::Judged(self.judgement_of(ds, keys, octets, question, at)) }
            _ => Outcome::BadPlace,
        }
    }

    /// Judges any bytes beside a DS set that was shown.
    fn judge_bytes(
        &self,
        ds: usize,
        dnskey_bytes: &[u8],
        answer_bytes: &[u8],
        question: &Question,
        at: &UnixTime,
    ) -> Outcome
        requires { self.now.limit ≡ self.now.publisher.zone.limit }
        ensures judged { let s = self.now in
            let w = world_in S.signature_of S.verifies S.digest_of H.hash_of s in
            let asked = asked_of question.now in
            let thing = slice_get (sofar_in self.now).shown ds in
            JudgesBytes w at.now thing dnskey_bytes.now answer_bytes.now asked result }
        ensures question { IsQuestion (asked_of question.now) }
    {
        question.keeps();
        match self.results.thing(ds) {
            Some(Thing::OfParent(ds)) => {
                Outcome::Judged(self.judgement_of(ds, dnskey_bytes, answer_bytes, question, at))
            }
            _ => Outcome::BadPlace,
        }
    }

    /// What the judge says of things at a moment.
    fn judgement_of(
        &self,
        ds: &[Ds<Vec<u8>>],
        dnskey_bytes: &[u8],
        answer_bytes: &[u8],
        question: &Question,
        at: &UnixTime,
    ) -> Result<Judgement, Refused>
        requires { self.now.limit ≡ self.now.publisher.zone.limit }
        ensures { let w = world_in S.signature_of S.verifies S.digest_of H.hash_of self.now in
            let asked = asked_of question.now in
            let h = judge_input w ds.now dnskey_bytes.now answer_bytes.now asked at.now in
            JudgesSo pointer_limit w.answers h result }
    {
        let case = Case {
            apex: self.publisher.apex(),
            ds,
            dnskey: dnskey_bytes,
            answer: answer_bytes,
            question,
            moment: *at,
            limit: self.limit,
            one_moment: true,
            other_question: false,
        };
        judge_with(
            self.alloc,
            self.publisher.scheme(),
            self.publisher.hasher(),
            &case,
        )
    }
}
