//! The RRsets of an answer.
ghost use Rattle.std.specs.Prelude.{◌≡◌, [], ◌∷◌, ◌++◌, ◌&&◌, None, true, false, map, IfErr, IfOk};
ghost use Rattle.std.specs.Prelude.{OnOk};
ghost use Rattle.std.specs.List.{AllZip};
ghost use Rattle.definitions.specs.Name.{at_or_above, low};
ghost use Rattle.definitions.specs.Zone.{NoName, StarRecords, cut_above, exists, has};
ghost use Rattle.definitions.specs.ZoneChain.{optout_of};
ghost use Rattle.denial_laws.specs.OwnFacts.{spoken};
ghost use Rattle.denial_laws.specs.Truth.{concerned};
ghost use Rattle.answer_terms.specs.GroupView.{Adds, Presents};
ghost use Rattle.answer_terms.specs.HashedLinks.{hashed_said_of};
ghost use Rattle.answer_terms.specs.Hashing.{hash_in};
ghost use Rattle.answer_terms.specs.Links.{said_of};
ghost use Rattle.answer_terms.specs.Served.{chain_ttl, expanded, if_any, proofs_of, rrset, soa};
ghost use Rattle.answer_terms.specs.Served.{under, unsigned_ns};
ghost use Rattle.answer_zone.specs.Around.{IsAround};
ghost use Rattle.answer_zone_records.specs.OwnedRecords.{owned_by};
ghost use Rattle.answer_zone_records.specs.Round.{IsCircle, IsRound};
ghost use Rattle.answer_zone.specs.Placed.{IsCutRecords, IsNear};
ghost use Rattle.answer_zone_records.specs.GroupRecords.{rrset_from};
ghost use Rattle.answer_zone.specs.HashedZone.{HashesEach, IsHashFailure, served_by};
ghost use Rattle.answer_zone.specs.ZoneAnswers.{Holds, Replies};
ghost use Rattle.answer_zone.specs.Questions.{AnswersItself, IsPlain, LeavesOpen, zone_of};

use crate::zone::ZoneRecords;
use crate::zone::around::Around;
use crate::zone::asked::Asked;
use answer_terms::mode::Mode;
use answer_zone_records::chain::{ChainLink, push_links};
use answer_zone_records::chains::Chain;
use answer_zone_records::group::RrGroup;
use answer_zone_records::hash_chain::{HashedLink, push_hashed_links};
use answer_zone_records::near::Neighbours;
use answer_zone_records::owned::{Cut, Owned};
use denial_nsec3_hash::hasher::{HashError, Nsec3Hasher};
use messages::names::{Name, ToName, ZoneName, copy_name, is_at_or_above};
use names_rdata::rtype::Rtype;
use std::alloc::{AllocError, Global};

/// The flags of a response, authoritative (RFC 1035, 4.1.1).
pub const AUTHORITATIVE: u16 = 0x8400;

/// The flags of one that says that no such name exists.
pub(super) const NO_SUCH_NAME: u16 = 0x8403;

/// The flags of a referral, which is not authoritative (RFC 4035, 3.1.4).
pub(super) const REFERRAL: u16 = 0x8000;

/// What a zone answers: the flags of the message, and the RRsets of its two sections in order.
#[derive(Drop)]
pub struct ZoneAnswer {
    pub flags: u16,
    pub answer: Vec<RrGroup>,
    pub authority: Vec<RrGroup>,
}

impl<'h, H: Nsec3Hasher> ZoneRecords<'h, H> {
    /// The answer to a question: the RRset asked for, its own or a wildcard's, or the SOA record,
    /// or a referral, with the records of the chain that prove it (RFC 4035, 3.1; RFC 5155, 7.2).
    /// The type is none of those that the chain has. The hasher has a hash for each name that the
    /// proof speaks of. It fails where memory does, or where the hasher fails on such a name: the
    /// question's name, what stands above it up to the apex, or a wildcard under these.
    pub fn answer_to(
        &self,
        alloc: Global,
        name: &Name<Vec<u8>>,
        rtype: Rtype,
    ) -> Result<ZoneAnswer, HashError>
        requires { IsPlain rtype }
        ensures replies { Replies H.hash_of self.now name.now rtype result }
        ensures concerned { let hash = H.hash_of self.now.hasher in
            at_or_above self.now.apex name.now ≡ true
            → IfErr result (IsHashFailure hash self.now.mode
            (concerned (low self.now.apex) (low name.now))) }
    {
        self.keeps();
        let near = self.near(name);
        if self.leaves_open(name, &near) {
            self.open_answer(alloc, name, &near, rtype)
        } else {
            self.told_answer(alloc, name, &near, rtype)
        }
    }

    /// The answer where opt-out leaves nothing open: a referral at or below a delegation, otherwise
    /// the zone's own.
    fn told_answer(
        &self,
        alloc: Global,
        name: &Name<Vec<u8>>,
        near: &Neighbours<'_>,
        rtype: Rtype,
    ) -> Result<ZoneAnswer, HashError>
        requires plain { IsPlain rtype }
        requires near { IsNear name.now self.now.records near.now }
        requires told { LeavesOpen self.now name.now false }
        ensures { Replies H.hash_of self.now name.now rtype result }
    {
        match self.asked(name, near, rtype) {
            Asked::Away(cut) => self.referral(alloc, &cut),
            Asked::Here(owned) => self.own_answer(alloc, name, near, &owned, rtype),
        }
    }

    /// A referral: the name servers of a delegation without signatures, its DS records if it has
    /// any, and its record of the chain, which shows whether it has (RFC 4035, 3.1.4; RFC 5155,
    /// 7.2.7).
    fn referral(&self, alloc: Global, cut: &Cut<'_>) -> Result<ZoneAnswer, HashError>
        requires delegation { has (zone_of self.now) (low cut.now.name.now) 2 ≡ true }
        requires records { IsCutRecords self.now.records cut.now }
        ensures answer { let s = served_by H.hash_of self.now in let c = low cut.now.name.now in
            let proofs = proofs_of s (c ∷ []) in
            IfOk result (Holds 32768 [] (unsigned_ns s c ++ if_any s c 43 ++ proofs)) }
        ensures hashed { let hash = H.hash_of self.now.hasher in
            HashesEach hash self.now.mode (low cut.now.name.now ∷ []) result }
    {
        let mut authority = self.name_servers(alloc, cut)?;
        self.push_ds(alloc, &mut authority, cut)?;
        self.push_proofs(alloc, &mut authority, &[cut.name])?;
        Ok(ZoneAnswer {
            flags: REFERRAL,
            answer: Vec::new(alloc),
            authority,
        })
    }

    /// The name servers of a delegation, without signatures (RFC 4035, 2.2).
    pub(super) fn name_servers(
        &self,
        alloc: Global,
        cut: &Cut<'_>,
    ) -> Result<Vec<RrGroup>, AllocError>
        requires delegation { has (zone_of self.now) (low cut.now.name.now) 2 ≡ true }
        requires records { IsCutRecords self.now.records cut.now }
        ensures { let s = served_by H.hash_of self.now in
            IfOk result (λ v. AllZip Presents v.items (unsigned_ns s (low cut.now.name.now))) }
    {
        let mut groups = Vec::new(alloc);
        let servers = self.spelled_rrset(alloc, cut.name, &cut.owned, Rtype::NS)?;
        groups.push(servers.unsigned())?;
        Ok(groups)
    }

    /// Adds the DS records of a delegation, if it has any.
    fn push_ds(
        &self,
        alloc: Global,
        groups: &mut Vec<RrGroup>,
        cut: &Cut<'_>,
    ) -> Result<(), AllocError>
        requires { IsCutRecords self.now.records cut.now }
        ensures { let s = served_by H.hash_of self.now in let c = low cut.now.name.now in
            OnOk result (Adds groups.old.items groups.new.items (if_any s c 43)) }
    {
        if !cut.owned.has(Rtype::DS) {
            return Ok(());
        }
        groups.push(self.spelled_rrset(alloc, cut.name, &cut.owned, Rtype::DS)?)?;
        Ok(())
    }

    /// The answer where no delegation refers away: the RRset asked for, or the record of the chain
    /// that matches or covers a name without it (RFC 4035, 3.1.1 and 3.1.3.1; RFC 5155, 7.2.3).
    fn own_answer(
        &self,
        alloc: Global,
        name: &Name<Vec<u8>>,
        near: &Neighbours<'_>,
        owned: &Owned<'_>,
        rtype: Rtype,
    ) -> Result<ZoneAnswer, HashError>
        requires plain { IsPlain rtype }
        requires near { IsNear name.now self.now.records near.now }
        requires owned { owned.now ≡ owned_by name.now self.now.records }
        requires told { LeavesOpen self.now name.now false }
        requires own { AnswersItself self.now name.now rtype }
        ensures { Replies H.hash_of self.now name.now rtype result }
    {
        self.keeps();
        if owned.has(rtype) {
            return Ok(self.found(alloc, name, owned, rtype)?);
        }
        if self.stands(name, near) {
            return self.missing(alloc, AUTHORITATIVE, &[name]);
        }
        self.answer_without_name(alloc, name, near, rtype)
    }

    /// The answer for a name that does not exist: that of the wildcard under its closest encloser,
    /// with the record that covers the name or the next closer one, or that there is no such name
    /// (RFC 4035, 3.1.3.2 to 3.1.3.4; RFC 5155, 7.2.2, 7.2.5 and 7.2.6).
    fn answer_without_name(
        &self,
        alloc: Global,
        name: &Name<Vec<u8>>,
        near: &Neighbours<'_>,
        rtype: Rtype,
    ) -> Result<ZoneAnswer, HashError>
        requires plain { IsPlain rtype }
        requires near { IsNear name.now self.now.records near.now }
        requires told { LeavesOpen self.now name.now false }
        requires own { AnswersItself self.now name.now rtype }
        requires gone { exists (zone_of self.now) (low name.now) ≡ false }
        ensures { Replies H.hash_of self.now name.now rtype result }
    {
        self.keeps();
        let around = self.around(alloc, name, near)?;
        let wild = self.owned(&around.star);
        if !self.expands(name, &around.star, &wild) {
            return self.denied(alloc, NO_SUCH_NAME, name, &around);
        }
        if wild.has(rtype) {
            return self.expanded(alloc, name, &around, &wild, rtype);
        }
        self.denied(alloc, AUTHORITATIVE, name, &around)
    }

    /// Whether a wildcard name above which no delegation stands exists, and the name is one of the
    /// zone.
    pub(super) fn expands(
        &self,
        name: &Name<Vec<u8>>,
        star: &Name<Vec<u8>>,
        wild: &Owned<'_>,
    ) -> bool
        requires owned { wild.now ≡ owned_by star.now self.now.records }
        requires uncut { let z = zone_of self.now in
            at_or_above self.now.apex name.now ≡ true → cut_above z (low star.now) ≡ None }
        ensures { result ≡ (at_or_above self.now.apex name.now
            && exists (zone_of self.now) (low star.now)) }
    {
        is_at_or_above(&self.apex, name) && self.stands_with(star, wild)
    }

    /// The RRset asked for, and nothing else.
    fn found(
        &self,
        alloc: Global,
        name: &Name<Vec<u8>>,
        owned: &Owned<'_>,
        rtype: Rtype,
    ) -> Result<ZoneAnswer, AllocError>
        requires plain { IsPlain rtype }
        requires owned { owned.now ≡ owned_by name.now self.now.records }
        ensures { let s = served_by H.hash_of self.now in
            IfOk result (Holds 33792 (under name.now (rrset s (low name.now) rtype) ∷ []) []) }
    {
        Ok(ZoneAnswer {
            flags: AUTHORITATIVE,
            answer: self.under_name(alloc, name, name, owned, rtype)?,
            authority: Vec::new(alloc),
        })
    }

    /// The RRset of a wildcard under the name asked for, and the record of the chain that covers
    /// that name, or the next closer name: the name itself does not exist (RFC 4035, 3.1.3.3;
    /// RFC 5155, 7.2.6).
    fn expanded(
        &self,
        alloc: Global,
        name: &Name<Vec<u8>>,
        around: &Around,
        wild: &Owned<'_>,
        rtype: Rtype,
    ) -> Result<ZoneAnswer, HashError>
        requires plain { IsPlain rtype }
        requires owned { wild.now ≡ owned_by around.now.star self.now.records }
        requires around { let z = zone_of self.now in
            IsAround z (optout_of self.now.mode) (low name.now) around.now }
        ensures answer { let s = served_by H.hash_of self.now in let q = low name.now in
            let star = low around.now.star in
            let said = spoken s.zone s.mode q (StarRecords []) (StarRecords []) in
            IfOk result (Holds 33792 (expanded s star name.now rtype) (proofs_of s said)) }
        ensures hashed { let hash = H.hash_of self.now.hasher in let mode = self.now.mode in
            let z = zone_of self.now in
            let said = spoken z mode (low name.now) (StarRecords []) (StarRecords []) in
            HashesEach hash mode said result }
    {
        let covered = self.covered_name(name, around);
        let mut authority = Vec::new(alloc);
        self.push_proofs(alloc, &mut authority, &[covered])?;
        Ok(ZoneAnswer {
            flags: AUTHORITATIVE,
            answer: self.under_name(alloc, name, &around.star, wild, rtype)?,
            authority,
        })
    }

    /// The name that an expanded wildcard's proof covers: the question's, or the next closer one.
    fn covered_name<'n>(&self, name: &'n Name<Vec<u8>>, around: &'n Around) -> &'n Name<Vec<u8>>
        requires around { let z = zone_of self.now in
            IsAround z (optout_of self.now.mode) (low name.now) around.now }
        ensures { let z = zone_of self.now in
            let said = spoken z self.now.mode (low name.now) (StarRecords []) (StarRecords []) in
            low result.now ∷ [] ≡ said }
    {
        match &self.mode {
            Mode::Nsec => name,
            Mode::Nsec3 { .. } => &around.closer,
        }
    }

    /// The RRset of an owner and a type under the name asked for.
    pub(super) fn under_name(
        &self,
        alloc: Global,
        name: &Name<Vec<u8>>,
        source: &Name<Vec<u8>>,
        owned: &Owned<'_>,
        rtype: Rtype,
    ) -> Result<Vec<RrGroup>, AllocError>
        requires plain { IsPlain rtype }
        requires owned { owned.now ≡ owned_by source.now self.now.records }
        ensures { let s = served_by H.hash_of self.now in
            let there = rrset s (low source.now) rtype in
            IfOk result (λ v. AllZip Presents v.items (under name.now there ∷ [])) }
    {
        let mut groups = Vec::new(alloc);
        let owner = copy_name(alloc, name)?;
        groups.push(self.rrset(alloc, source, owned, owner, rtype, false)?)?;
        Ok(groups)
    }

    /// An answer that denies a name: the SOA record, and the records of the chain that match or
    /// cover the name and the wildcard, or its closest encloser, the next closer name and the
    /// wildcard (RFC 4035, 3.1.3.2; RFC 5155, 7.2.2).
    fn denied(
        &self,
        alloc: Global,
        flags: u16,
        name: &Name<Vec<u8>>,
        around: &Around,
    ) -> Result<ZoneAnswer, HashError>
        requires around { let z = zone_of self.now in
            IsAround z (optout_of self.now.mode) (low name.now) around.now }
        ensures answer { let s = served_by H.hash_of self.now in
            let said = spoken s.zone s.mode (low name.now) NoName NoName in
            IfOk result (Holds flags [] (soa s ∷ proofs_of s said)) }
        ensures hashed { let hash = H.hash_of self.now.hasher in let mode = self.now.mode in
            let z = zone_of self.now in
            let said = spoken z mode (low name.now) NoName NoName in
            HashesEach hash mode said result }
    {
        match &self.mode {
            Mode::Nsec => self.missing(alloc, flags, &[name, &around.star]),
            Mode::Nsec3 { .. } => {
                let names = [&around.encloser, &around.closer, &around.star];
                self.missing(alloc, flags, &names)
            }
        }
    }

    /// An answer without the RRset asked for: the SOA record, and the records of the chain that
    /// match or cover one of some names.
    pub(super) fn missing(
        &self,
        alloc: Global,
        flags: u16,
        names: &[&Name<Vec<u8>>],
    ) -> Result<ZoneAnswer, HashError>
        ensures answer { let s = served_by H.hash_of self.now in
            let qs = map (λ n. low n.now) names.now in
            IfOk result (Holds flags [] (soa s ∷ proofs_of s qs)) }
        ensures hashed { let hash = H.hash_of self.now.hasher in
            let qs = map (λ n. low n.now) names.now in
            HashesEach hash self.now.mode qs result }
    {
        Ok(ZoneAnswer {
            flags,
            answer: Vec::new(alloc),
            authority: self.denial(alloc, names)?,
        })
    }

    /// The SOA record, and the records of the chain that match or cover one of some names.
    fn denial(&self, alloc: Global, names: &[&Name<Vec<u8>>]) -> Result<Vec<RrGroup>, HashError>
        ensures answer { let s = served_by H.hash_of self.now in
            let qs = map (λ n. low n.now) names.now in
            IfOk result (λ gs. AllZip Presents gs.items (soa s ∷ proofs_of s qs)) }
        ensures hashed { let hash = H.hash_of self.now.hasher in
            let qs = map (λ n. low n.now) names.now in
            HashesEach hash self.now.mode qs result }
    {
        let mut groups = self.soa_alone(alloc)?;
        self.push_proofs(alloc, &mut groups, names)?;
        Ok(groups)
    }

    /// Adds the records of the chain that match or cover one of some names, in canonical order.
    pub(super) fn push_proofs(
        &self,
        alloc: Global,
        groups: &mut Vec<RrGroup>,
        names: &[&Name<Vec<u8>>],
    ) -> Result<(), HashError>
        ensures adds { let s = served_by H.hash_of self.now in
            let qs = map (λ n. low n.now) names.now in
            OnOk result (Adds groups.old.items groups.new.items (proofs_of s qs)) }
        ensures hashed { let hash = H.hash_of self.now.hasher in
            let qs = map (λ n. low n.now) names.now in
            HashesEach hash self.now.mode qs result }
    {
        match &self.chain {
            Chain::Names(links) => self.push_named_proofs(alloc, groups, links, names),
            Chain::Hashes(links) => self.push_hashed_proofs(alloc, groups, links, names),
        }
    }

    /// Adds those of NSEC records that match or cover one of some names.
    fn push_named_proofs(
        &self,
        alloc: Global,
        groups: &mut Vec<RrGroup>,
        links: &Vec<ChainLink>,
        names: &[&Name<Vec<u8>>],
    ) -> Result<(), HashError>
        requires { IsRound self.now.apex links.now.items }
        ensures adds { let ttl = chain_ttl self.now.apex self.now.records in
            let said = said_of self.now.apex ttl (map (λ n. low n.now) names.now) links.now.items in
            OnOk result (Adds groups.old.items groups.new.items said) }
        ensures failed { IfErr result (λ e. e ≡ HashError.Memory) }
    {
        push_links(alloc, groups, links, &self.apex, self.link_ttl, names)?;
        Ok(())
    }

    /// Adds those of NSEC3 records that match or cover one of some names, each of which is hashed
    /// once.
    fn push_hashed_proofs(
        &self,
        alloc: Global,
        groups: &mut Vec<RrGroup>,
        links: &Vec<HashedLink>,
        names: &[&Name<Vec<u8>>],
    ) -> Result<(), HashError>
        requires { IsCircle links.now.items }
        ensures adds { let ttl = chain_ttl self.now.apex self.now.records in
            let hash = hash_in (H.hash_of self.now.hasher) self.now.mode in
            let said = hashed_said_of ttl (map (λ n. hash n.now) names.now) links.now.items in
            OnOk result (Adds groups.old.items groups.new.items said) }
        ensures hashed { let hash = H.hash_of self.now.hasher in
            let qs = map (λ n. low n.now) names.now in
            HashesEach hash self.now.mode qs result }
    {
        let hashes = self.hashes_of(alloc, names)?;
        push_hashed_links(alloc, groups, links, self.link_ttl, &hashes)?;
        Ok(())
    }

    /// The hash of each of some names.
    fn hashes_of(&self, alloc: Global, names: &[&Name<Vec<u8>>]) -> Result<Vec<Vec<u8>>, HashError>
        ensures hashes { let hash = hash_in (H.hash_of self.now.hasher) self.now.mode in
            let hashes = map (λ n. hash n.now) names.now in
            IfOk result (λ v. map (λ h. h.items) v.items ≡ hashes) }
        ensures hashed { let hash = H.hash_of self.now.hasher in
            let qs = map (λ n. low n.now) names.now in
            HashesEach hash self.now.mode qs result }
    {
        let mut hashes = Vec::with_capacity(alloc, names.len())?;
        for name in names {
            let hash = match self.hash_of_name(alloc, name) {
                Ok(hash) => hash,
                Err(error) => return Err(error),
            };
            push_hash(&mut hashes, hash)?;
        }
        Ok(hashes)
    }

    /// The hash of a name, in lower case (RFC 5155, 5); of no octets where the chain is one of
    /// names.
    fn hash_of_name(&self, alloc: Global, name: &Name<Vec<u8>>) -> Result<Vec<u8>, HashError>
        ensures hash { let hash = hash_in (H.hash_of self.now.hasher) self.now.mode in
            IfOk result (λ h. h.items ≡ hash name.now) }
        ensures hashed { let hash = H.hash_of self.now.hasher in
            HashesEach hash self.now.mode (low name.now ∷ []) result }
    {
        match &self.mode {
            Mode::Nsec => Ok(Vec::new(alloc)),
            Mode::Nsec3 {
                iterations,
                salt,
                ..
            } => {
                let mut octets = Vec::new(alloc);
                name.compose_canonical(&mut octets)?;
                self.hasher
                    .hash(alloc, &octets, 1, *iterations, salt.as_slice())
            }
        }
    }

    /// The SOA record of the zone, and nothing else yet.
    pub(super) fn soa_alone(&self, alloc: Global) -> Result<Vec<RrGroup>, AllocError>
        ensures { let s = served_by H.hash_of self.now in
            IfOk result (λ v. AllZip Presents v.items (soa s ∷ [])) }
    {
        let mut groups = Vec::new(alloc);
        groups.push(self.soa(alloc)?)?;
        Ok(groups)
    }

    /// The SOA record of the zone, whose owner comes first.
    fn soa(&self, alloc: Global) -> Result<RrGroup, AllocError>
        ensures { let s = served_by H.hash_of self.now in
            IfOk result (λ g. Presents g (soa s)) }
    {
        self.spelled_rrset(
            alloc,
            &self.apex,
            &self.owned_from(&self.apex, 0),
            Rtype::SOA,
        )
    }

    /// An RRset that the zone has, its owner as spelled there.
    fn spelled_rrset(
        &self,
        alloc: Global,
        name: &Name<Vec<u8>>,
        owned: &Owned<'_>,
        rtype: Rtype,
    ) -> Result<RrGroup, AllocError>
        requires plain { IsPlain rtype }
        requires owned { owned.now ≡ owned_by name.now self.now.records }
        requires there { has (zone_of self.now) (low name.now) rtype ≡ true }
        ensures { let s = served_by H.hash_of self.now in
            IfOk result (λ g. Presents g (rrset s (low name.now) rtype)) }
    {
        let owner = match owned.first(rtype) {
            Some(rr) => rr.owner(),
            None => name,
        };
        self.rrset(alloc, name, owned, copy_name(alloc, owner)?, rtype, true)
    }

    /// The RRset of an owner and a type, written under another name, or each record as it spells
    /// its owner itself. Its label count is the owner's (RFC 4034, 3.1.3).
    fn rrset(
        &self,
        alloc: Global,
        source: &Name<Vec<u8>>,
        owned: &Owned<'_>,
        owner: Name<Vec<u8>>,
        rtype: Rtype,
        own: bool,
    ) -> Result<RrGroup, AllocError>
        requires { owned.now ≡ owned_by source.now self.now.records }
        ensures { IfOk result (λ g. Presents g
            (rrset_from own self.now.apex self.now.records source.now owner rtype)) }
    {
        self.keeps();
        let data = owned.rrset(alloc, rtype, own)?;
        let ttl = owned.ttl(rtype);
        let count = source.rrsig_label_count();
        Ok(RrGroup::new(owner, count, rtype, ttl, data.records, data.canonical, true))
    }
}

/// Adds a hash.
fn push_hash(hashes: &mut Vec<Vec<u8>>, hash: Vec<u8>) -> Result<(), HashError>
    ensures ok { OnOk result (hashes.new.items ≡ hashes.old.items ++ hash ∷ []) }
    ensures refused { IfErr result (λ e. e ≡ HashError.Memory) }
{
    if let Err(error) = hashes.push(hash) {
        return Err(AllocError::from(error).into());
    }
    Ok(())
}
