//! Whether a zone has what is asked for.
ghost use Rattle.std.specs.Prelude.{◌≡◌, false, IfOk};
ghost use Rattle.std.specs.List.{list_any};
ghost use Rattle.definitions.specs.Name.{low};
ghost use Rattle.definitions.specs.Zone.{exists, is_live};
ghost use Rattle.answer_terms.specs.Accepting.{is_alias};
ghost use Rattle.answer_terms.specs.ModeView.{mode_of};
ghost use Rattle.answer_zone.specs.Finding.{finds, links_names, redirecting, zone_redirects};
ghost use Rattle.answer_zone.specs.Placed.{IsNear};
ghost use Rattle.answer_zone.specs.Questions.{AnswersItself, zone_of};
ghost use Rattle.answer_zone_records.specs.OwnedRecords.{owned_by};

use crate::zone::ZoneRecords;
use crate::zone::asked::Asked;
use answer_terms::mode::Mode;
use answer_zone_records::near::Neighbours;
use answer_zone_records::owned::Owned;
use denial_nsec3_hash::hasher::Nsec3Hasher;
use messages::names::{Name, ToName, is_at_or_above};
use names_rdata::rtype::Rtype;
use std::alloc::{AllocError, Global};

impl<'h, H: Nsec3Hasher> ZoneRecords<'h, H> {
    /// Whether a record of the zone is an alias, a CNAME or a DNAME.
    pub fn has_aliases(&self) -> bool
        ensures { result ≡ list_any is_alias self.now.records }
    {
        self.has_aliases
    }

    /// The chain that the zone has: other records never change it.
    pub fn mode(&self) -> &Mode
        ensures { mode_of result.now ≡ self.now.mode }
    {
        &self.mode
    }

    /// Whether the zone's chain is one of names, NSEC, and not of hashes, NSEC3.
    pub fn links_names(&self) -> bool
        ensures { result ≡ links_names self.now.mode }
    {
        match &self.mode {
            Mode::Nsec => true,
            Mode::Nsec3 { .. } => false,
        }
    }

    /// Whether the answer to a question has the RRset that is asked for: the name's own, or that of
    /// the wildcard that stands for it (RFC 1034, 4.3.2). Nothing is hashed, and no RRset is made.
    pub fn finds(
        &self,
        alloc: Global,
        name: &Name<Vec<u8>>,
        rtype: Rtype,
    ) -> Result<bool, AllocError>
        ensures { IfOk result (λ b. b ≡ finds (zone_of self.now) name.now rtype) }
    {
        let near = self.near(name);
        match self.asked(name, &near, rtype) {
            Asked::Away(_cut) => Ok(false),
            Asked::Here(owned) => self.finds_here(alloc, name, &near, &owned, rtype),
        }
    }

    /// Whether the zone finds a type at a name that no delegation refers away: among the name's own
    /// records, or, where the name does not exist, among those of the wildcard that answers for it.
    fn finds_here(
        &self,
        alloc: Global,
        name: &Name<Vec<u8>>,
        near: &Neighbours<'_>,
        owned: &Owned<'_>,
        rtype: Rtype,
    ) -> Result<bool, AllocError>
        requires near { IsNear name.now self.now.records near.now }
        requires owned { owned.now ≡ owned_by name.now self.now.records }
        requires own { AnswersItself self.now name.now rtype }
        ensures { IfOk result (λ b. b ≡ finds (zone_of self.now) name.now rtype) }
    {
        self.keeps();
        if owned.has(rtype) {
            return Ok(true);
        }
        if self.stands(name, near) {
            return Ok(false);
        }
        self.finds_wild(alloc, name, near, rtype)
    }

    /// Whether the zone finds a type at a name that does not exist: among the records of the
    /// wildcard at the name's closest encloser (RFC 4592, 3.3).
    fn finds_wild(
        &self,
        alloc: Global,
        name: &Name<Vec<u8>>,
        near: &Neighbours<'_>,
        rtype: Rtype,
    ) -> Result<bool, AllocError>
        requires near { IsNear name.now self.now.records near.now }
        requires own { AnswersItself self.now name.now rtype }
        requires gone { exists (zone_of self.now) (low name.now) ≡ false }
        ensures { IfOk result (λ b. b ≡ finds (zone_of self.now) name.now rtype) }
    {
        self.keeps();
        let star = self.closest_wildcard(alloc, name, near)?;
        let wild = self.owned(&star);
        if !self.expands(name, &star, &wild) {
            return Ok(false);
        }
        if wild.has(rtype) {
            return Ok(true);
        }
        Ok(false)
    }

    /// The nearest name above a name at which a DNAME of the zone stands, which redirects it
    /// (RFC 6672, 2.3).
    pub fn redirecting(
        &self,
        alloc: Global,
        name: &Name<Vec<u8>>,
    ) -> Result<Option<Name<Vec<u8>>>, AllocError>
        ensures { IfOk result (λ o. o ≡ redirecting (zone_of self.now) name.now) }
    {
        let mut ancestors = name.iter_suffixes();
        let _itself = ancestors.next();
        while let Some(ancestor) = ancestors.next() {
            let Ok(owner) = ancestor.to_name(alloc) else {
                return Err(AllocError);
            };
            if self.redirects(&owner) {
                return Ok(Some(owner));
            }
        }
        Ok(None)
    }

    /// Whether a DNAME stands at a name, at or below the apex and below no delegation.
    fn redirects(&self, name: &Name<Vec<u8>>) -> bool
        ensures { result ≡ zone_redirects (zone_of self.now) (low name.now) }
    {
        self.has(name, Rtype::DNAME) && self.is_live(name)
    }

    /// Whether a name is at or below the apex, and below no delegation.
    fn is_live(&self, name: &Name<Vec<u8>>) -> bool
        ensures { result ≡ is_live (zone_of self.now) (low name.now) }
    {
        let near = self.near(name);
        is_at_or_above(&self.apex, name) && self.cut_above(name, &near).is_none()
    }
}
