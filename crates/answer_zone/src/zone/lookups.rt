//! What an accepted zone has at a name and a type, found by binary search.
ghost use Rattle.std.specs.Prelude.{◌≡◌, ◌&&◌, false, true, IfSome, IsNone, None, Some};
ghost use Rattle.std.specs.List.{list_any};
ghost use Rattle.definitions.specs.Name.{low, at_or_above};
ghost use Rattle.definitions.specs.Zone.{cut_above, has, exists};
ghost use Rattle.answer_terms.specs.Served.{ttl_among};
ghost use Rattle.answer_zone_records.specs.Near.{shows};
ghost use Rattle.answer_zone_records.specs.OwnedRecords.{owned_by};
ghost use Rattle.answer_zone.specs.Placed.{IsCutRecords, IsNear};
ghost use Rattle.answer_zone.specs.Questions.{zone_of};

use crate::zone::ZoneRecords;
use answer_zone_records::near::{Neighbours, neighbours_of};
use answer_zone_records::owned::{Cut, Owned};
use denial_nsec3_hash::hasher::Nsec3Hasher;
use messages::names::{Name, ToName, is_above, is_at_or_above};
use names_rdata::rtype::Rtype;
use plain::Ttl;

impl<'h, H: Nsec3Hasher> ZoneRecords<'h, H> {
    /// Whether a record of this owner and type stands in the zone.
    pub fn has(&self, name: &Name<Vec<u8>>, rtype: Rtype) -> bool
        ensures { result ≡ has (zone_of self.now) (low name.now) rtype }
    {
        self.owned(name).has(rtype)
    }

    /// Whether a name exists: an owner that is not below a delegation is at or below it (RFC 4592,
    /// 2.2).
    pub fn exists(&self, name: &Name<Vec<u8>>) -> bool
        ensures { result ≡ exists (zone_of self.now) (low name.now) }
    {
        let near = self.near(name);
        self.stands(name, &near) && self.cut_above(name, &near).is_none()
    }

    /// The TTL of an owner and a type, 0 where the zone has none.
    pub fn ttl_at(&self, name: &Name<Vec<u8>>, rtype: Rtype) -> Ttl
        ensures { result ≡ ttl_among self.now.records (low name.now) rtype }
    {
        self.owned(name).ttl(rtype)
    }

    /// The TTL of the SOA record, which the DNSKEY answer has too.
    pub fn soa_ttl(&self) -> Ttl
        ensures { result ≡ ttl_among self.now.records (low self.now.apex) 6 }
    {
        self.ttl_at(&self.apex, Rtype::SOA)
    }

    /// The records that a name owns.
    pub(super) fn owned<O: ToName>(&self, name: &O) -> Owned<'_>
        ensures { result ≡ owned_by (O.name name.now) self.now.records }
    {
        Owned::found(&self.records, name)
    }

    /// What a name owns. The search is short where these records stand at a place or not far before
    /// it.
    pub(super) fn owned_from<O: ToName>(&self, name: &O, place: usize) -> Owned<'_>
        ensures { result ≡ owned_by (O.name name.now) self.now.records }
    {
        Owned::found_near(&self.records, name, place)
    }

    /// What a name owns, by its neighbours: where the name is no owner nothing is sought.
    pub(super) fn owned_near(&self, name: &Name<Vec<u8>>, near: &Neighbours<'_>) -> Owned<'_>
        requires { IsNear name.now self.now.records near.now }
        ensures { result ≡ owned_by name.now self.now.records }
    {
        if near.owns(name) {
            self.owned_from(name, near.place())
        } else {
            Owned::none()
        }
    }

    /// The owners between which a name stands in canonical order.
    pub(super) fn near(&self, name: &Name<Vec<u8>>) -> Neighbours<'_>
        ensures { IsNear name.now self.now.records result }
    {
        neighbours_of(self.records.as_slice(), name)
    }

    /// Whether the name is at or below the apex, and an owner at or below the name.
    pub(super) fn stands(&self, name: &Name<Vec<u8>>, near: &Neighbours<'_>) -> bool
        requires { IsNear name.now self.now.records near.now }
        ensures { result ≡ (at_or_above self.now.apex name.now
            && list_any (λ r. at_or_above name.now r.owner) self.now.records) }
    {
        is_shown(&self.apex, near, name)
    }

    /// Whether a name exists, by the records that were found at it: where there are some nothing is
    /// sought.
    pub(super) fn stands_with(&self, name: &Name<Vec<u8>>, owned: &Owned<'_>) -> bool
        requires { owned.now ≡ owned_by name.now self.now.records }
        ensures { result ≡ (at_or_above self.now.apex name.now
            && list_any (λ r. at_or_above name.now r.owner) self.now.records) }
    {
        if owned.is_empty() {
            self.stands(name, &self.near(name))
        } else {
            is_at_or_above(&self.apex, name)
        }
    }

    /// The topmost delegation strictly above a name (RFC 1034, 4.2.1). An ancestor that neither
    /// neighbour of the name is at or below owns nothing.
    pub(super) fn cut_above(&self, name: &Name<Vec<u8>>, near: &Neighbours<'_>) -> Option<Cut<'_>>
        requires { IsNear name.now self.now.records near.now }
        ensures some { let z = zone_of self.now in
            IfSome result (λ c. (cut_above z (low name.now) ≡ Some (low c.name.now))
            × IsCutRecords self.now.records c) }
        ensures none { let z = zone_of self.now in
            IsNone result → cut_above z (low name.now) ≡ None }
    {
        let mut topmost = None;
        let mut ancestors = name.iter_suffixes();
        let _itself = ancestors.next();
        while let Some(ancestor) = ancestors.next() {
            if !is_above(&self.apex, &ancestor) {
                break;
            }
            if let Some(cut) = self.cut_at(&ancestor, near) {
                topmost = Some(cut);
            }
        }
        topmost
    }

    /// An ancestor of a name as a delegation, if an NS record stands there.
    fn cut_at<O: ToName>(&self, ancestor: &O, near: &Neighbours<'_>) -> Option<Cut<'_>>
        requires { shows near.now (O.name ancestor.now)
            ≡ list_any (λ r. at_or_above (O.name ancestor.now) r.owner) self.now.records }
        ensures some { let z = zone_of self.now in
            IfSome result (λ c. (has z (low (O.name ancestor.now)) 2 ≡ true)
            × (low c.name.now ≡ low (O.name ancestor.now)) × IsCutRecords self.now.records c) }
        ensures none { let z = zone_of self.now in
            IsNone result → has z (low (O.name ancestor.now)) 2 ≡ false }
    {
        if !near.shows(ancestor) {
            return None;
        }
        match self.owned_from(ancestor, near.place()).into_delegation() {
            Ok(cut) => Some(cut),
            Err(_) => None,
        }
    }
}

/// Whether a name is at or below an apex, and neighbours show an owner at or below the name.
pub(super) fn is_shown(apex: &Name<Vec<u8>>, near: &Neighbours<'_>, name: &Name<Vec<u8>>) -> bool
    ensures { result ≡ (at_or_above apex.now name.now && shows near.now name.now) }
{
    is_at_or_above(apex, name) && near.shows(name)
}
