//! Replacing the records of a zone that is published.
ghost use Rattle.std.specs.Prelude.{◌≡◌, ◌↔◌, true, map, IfErr, IsErrOf, OnErr, OnOk};
ghost use Rattle.std.specs.List.{AllByRecursion};
ghost use Rattle.messages.specs.Handed.{IsHanded};
ghost use Rattle.messages.specs.HandedRr.{handed_of};
ghost use Rattle.answer_terms.specs.Accepted.{IsAccepted};
ghost use Rattle.answer_terms.specs.Accepting.{sorted_records};
ghost use Rattle.answer_zone.specs.HashedZone.{accepted_zone};
ghost use Rattle.answer_publisher.specs.Replacing.{RefusesReplacement, is_too_soon, refused_ahead};

use crate::fault::ReplaceFault;
use crate::publishing::{Publisher, whole_second};
use answer_scheme::scheme::Scheme;
use denial_nsec3_hash::hasher::Nsec3Hasher;
use keyset::UnixTime;
use messages::record::ZoneRecord;

impl<'a, S: Scheme, H: Nsec3Hasher> Publisher<'a, S, H> {
    /// Publishes other records in the place of the zone's, at a moment. Its apex, chain and limit
    /// stay, and so do the keys, their rolls and what their references are bound to.
    ///
    /// Answers of one second are of one version of the zone, so that a judge who asks for
    /// signatures of one moment never takes records of two versions together: where an answer was
    /// given in the second of the moment, or in a later one, the call is refused. Otherwise it is
    /// refused as [`Publisher::new`] refuses these records. A refused call changes nothing.
    pub fn replace_zone(
        &mut self,
        records: Vec<ZoneRecord>,
        now: &UnixTime,
    ) -> Result<(), ReplaceFault>
        ensures soon { let soon = is_too_soon self.old.latest now.now in
            IsErrOf result ReplaceFault.TooSoon ↔ (soon ≡ true) }
        ensures replaced { let rs = map handed_of records.items in
            OnOk result (self.new ≡ record self.old {
              zone = record self.old.zone { records = sorted_records rs };
            }) }
        ensures accepted { let z = self.old.zone in let rs = map handed_of records.items in
            OnOk result (IsAccepted (H.hash_of z.hasher) z.apex z.mode z.limit rs) }
        ensures handed { OnOk result (AllByRecursion IsHanded (map handed_of records.items)) }
        ensures refused { OnErr result (self.new ≡ self.old) }
        ensures fault { let z = self.old.zone in let rs = map handed_of records.items in
            let refuses = RefusesReplacement (H.hash_of z.hasher) (accepted_zone z) in
            IfErr result (refuses self.old.latest now.now rs) }
    {
        if self.is_too_soon(now) {
            return Err(ReplaceFault::TooSoon);
        }
        Ok(self.zone.replace_records(self.alloc, records)?)
    }

    /// Why the zone's records would not be replaced by these at a moment, as far as that is known
    /// before any memory is taken: that it comes too soon, or a fault of the list by itself.
    pub fn refused_ahead(&self, records: &[ZoneRecord], now: &UnixTime) -> Option<ReplaceFault>
        ensures { let z = accepted_zone self.now.zone in let rs = map handed_of records.now in
            result ≡ refused_ahead z self.now.latest now.now rs }
    {
        if self.is_too_soon(now) {
            return Some(ReplaceFault::TooSoon);
        }
        match self.zone.fault_of_list(records) {
            Some(fault) => Some(ReplaceFault::Zone(fault)),
            None => None,
        }
    }

    /// Whether an answer was given in the second of a moment, or in a later one.
    pub(super) fn is_too_soon(&self, now: &UnixTime) -> bool
        ensures { result ≡ is_too_soon self.now.latest now.now }
    {
        match self.latest {
            None => false,
            Some(latest) => whole_second(now) <= latest,
        }
    }
}
