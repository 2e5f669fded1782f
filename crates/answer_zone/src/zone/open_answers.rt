//! Answers that opt-out leaves open (RFC 5155, 6, 7.2.2, 7.2.4, 7.2.5 and 7.2.7).
ghost use Rattle.std.specs.Prelude.{◌≡◌, [], ◌∷◌, ◌++◌, false, true, IfOk, OnOk};
ghost use Rattle.definitions.specs.Name.{low};
ghost use Rattle.definitions.specs.Zone.{has};
ghost use Rattle.definitions.specs.ZoneChain.{optout_of};
ghost use Rattle.denial_laws.specs.OwnFacts.{open_spoken};
ghost use Rattle.answer_terms.specs.GroupView.{Adds};
ghost use Rattle.answer_terms.specs.Served.{expanded, proofs_of, soa, unsigned_ns};
ghost use Rattle.answer_zone_records.specs.OwnedRecords.{owned_by};
ghost use Rattle.answer_zone.specs.HashedZone.{HashesEach, served_by};
ghost use Rattle.answer_zone.specs.Placed.{IsCutRecords, IsNear};
ghost use Rattle.answer_zone.specs.ZoneAnswers.{Holds, Replies};
ghost use Rattle.answer_zone.specs.Questions.{AnswersItself, IsPlain, LeavesOpen, zone_of};

use crate::zone::ZoneRecords;
use crate::zone::answers::{AUTHORITATIVE, NO_SUCH_NAME, REFERRAL, ZoneAnswer};
use crate::zone::asked::Asked;
use answer_zone_records::group::RrGroup;
use answer_zone_records::near::Neighbours;
use answer_zone_records::owned::{Cut, Owned};
use denial_nsec3_hash::hasher::{HashError, Nsec3Hasher};
use messages::names::Name;
use names_rdata::rtype::Rtype;
use std::alloc::Global;

impl<'h, H: Nsec3Hasher> ZoneRecords<'h, H> {
    /// The answer where opt-out leaves a name open: what stands there without a signature, or the
    /// wildcard's RRset, or the SOA record, with the records that match the closest encloser of the
    /// chain and cover the next closer name. Where the name does not exist and no wildcard's RRset
    /// is given, the record that matches or covers the wildcard under that encloser stands there
    /// too (RFC 5155, 7.2.2 and 7.2.5).
    pub(super) fn open_answer(
        &self,
        alloc: Global,
        name: &Name<Vec<u8>>,
        near: &Neighbours<'_>,
        rtype: Rtype,
    ) -> Result<ZoneAnswer, HashError>
        requires plain { IsPlain rtype }
        requires near { IsNear name.now self.now.records near.now }
        requires open { LeavesOpen self.now name.now true }
        ensures { Replies H.hash_of self.now name.now rtype result }
    {
        match self.asked(name, near, rtype) {
            Asked::Away(cut) => self.open_referral(alloc, name, near, &cut),
            Asked::Here(_) => self.open_own_answer(alloc, name, near, rtype),
        }
    }

    /// A referral to a delegation that the chain leaves out: its name servers without signatures.
    fn open_referral(
        &self,
        alloc: Global,
        name: &Name<Vec<u8>>,
        near: &Neighbours<'_>,
        cut: &Cut<'_>,
    ) -> Result<ZoneAnswer, HashError>
        requires near { IsNear name.now self.now.records near.now }
        requires opted { optout_of self.now.mode ≡ true }
        requires delegation { has (zone_of self.now) (low cut.now.name.now) 2 ≡ true }
        requires records { IsCutRecords self.now.records cut.now }
        ensures answer { let s = served_by H.hash_of self.now in
            let said = open_spoken s.zone s.mode (low name.now) false in
            let c = low cut.now.name.now in
            IfOk result (Holds 32768 [] (unsigned_ns s c ++ proofs_of s said)) }
        ensures hashed { let hash = H.hash_of self.now.hasher in let mode = self.now.mode in
            let z = zone_of self.now in
            HashesEach hash mode (open_spoken z mode (low name.now) false) result }
    {
        let mut authority = self.name_servers(alloc, cut)?;
        self.push_open_proofs(alloc, &mut authority, name, near, false)?;
        Ok(ZoneAnswer {
            flags: REFERRAL,
            answer: Vec::new(alloc),
            authority,
        })
    }

    /// The answer where no delegation refers away. The RRset asked for is not there: its owner
    /// would be kept.
    fn open_own_answer(
        &self,
        alloc: Global,
        name: &Name<Vec<u8>>,
        near: &Neighbours<'_>,
        rtype: Rtype,
    ) -> Result<ZoneAnswer, HashError>
        requires plain { IsPlain rtype }
        requires near { IsNear name.now self.now.records near.now }
        requires open { LeavesOpen self.now name.now true }
        requires own { AnswersItself self.now name.now rtype }
        ensures { Replies H.hash_of self.now name.now rtype result }
    {
        self.keeps();
        if self.stands(name, near) {
            return self.open_missing(alloc, AUTHORITATIVE, name, near, false);
        }
        let star = self.closest_wildcard(alloc, name, near)?;
        let wild = self.owned(&star);
        if !self.expands(name, &star, &wild) {
            return self.open_missing(alloc, NO_SUCH_NAME, name, near, true);
        }
        if wild.has(rtype) {
            return self.open_expanded(alloc, name, near, &star, &wild, rtype);
        }
        self.open_missing(alloc, AUTHORITATIVE, name, near, true)
    }

    /// The SOA record, and what shows that opt-out leaves the name open, with the wildcard or
    /// without it.
    fn open_missing(
        &self,
        alloc: Global,
        flags: u16,
        name: &Name<Vec<u8>>,
        near: &Neighbours<'_>,
        star: bool,
    ) -> Result<ZoneAnswer, HashError>
        requires near { IsNear name.now self.now.records near.now }
        requires opted { optout_of self.now.mode ≡ true }
        ensures answer { let s = served_by H.hash_of self.now in
            let said = open_spoken s.zone s.mode (low name.now) star in
            IfOk result (Holds flags [] (soa s ∷ proofs_of s said)) }
        ensures hashed { let hash = H.hash_of self.now.hasher in let mode = self.now.mode in
            let z = zone_of self.now in
            HashesEach hash mode (open_spoken z mode (low name.now) star) result }
    {
        let mut authority = self.soa_alone(alloc)?;
        self.push_open_proofs(alloc, &mut authority, name, near, star)?;
        Ok(ZoneAnswer {
            flags,
            answer: Vec::new(alloc),
            authority,
        })
    }

    /// The RRset of a wildcard under the name asked for, and what shows that opt-out leaves the
    /// name open.
    fn open_expanded(
        &self,
        alloc: Global,
        name: &Name<Vec<u8>>,
        near: &Neighbours<'_>,
        star: &Name<Vec<u8>>,
        wild: &Owned<'_>,
        rtype: Rtype,
    ) -> Result<ZoneAnswer, HashError>
        requires plain { IsPlain rtype }
        requires near { IsNear name.now self.now.records near.now }
        requires opted { optout_of self.now.mode ≡ true }
        requires owned { wild.now ≡ owned_by star.now self.now.records }
        ensures answer { let s = served_by H.hash_of self.now in
            let said = open_spoken s.zone s.mode (low name.now) false in
            let there = expanded s (low star.now) name.now rtype in
            IfOk result (Holds 33792 there (proofs_of s said)) }
        ensures hashed { let hash = H.hash_of self.now.hasher in let mode = self.now.mode in
            let z = zone_of self.now in
            HashesEach hash mode (open_spoken z mode (low name.now) false) result }
    {
        let mut authority = Vec::new(alloc);
        self.push_open_proofs(alloc, &mut authority, name, near, false)?;
        Ok(ZoneAnswer {
            flags: AUTHORITATIVE,
            answer: self.under_name(alloc, name, star, wild, rtype)?,
            authority,
        })
    }

    /// Adds the records of the chain that match the closest kept ancestor of a name and cover the
    /// next closer name, and, where that is asked for, the one that matches or covers the wildcard
    /// under that ancestor.
    fn push_open_proofs(
        &self,
        alloc: Global,
        groups: &mut Vec<RrGroup>,
        name: &Name<Vec<u8>>,
        near: &Neighbours<'_>,
        star: bool,
    ) -> Result<(), HashError>
        requires near { IsNear name.now self.now.records near.now }
        requires opted { optout_of self.now.mode ≡ true }
        ensures adds { let s = served_by H.hash_of self.now in
            let said = open_spoken s.zone s.mode (low name.now) star in
            OnOk result (Adds groups.old.items groups.new.items (proofs_of s said)) }
        ensures hashed { let hash = H.hash_of self.now.hasher in let mode = self.now.mode in
            let z = zone_of self.now in
            HashesEach hash mode (open_spoken z mode (low name.now) star) result }
    {
        let around = self.around(alloc, name, near)?;
        if star {
            let names = [&around.encloser, &around.closer, &around.star];
            return self.push_proofs(alloc, groups, &names);
        }
        self.push_proofs(alloc, groups, &[&around.encloser, &around.closer])
    }
}
