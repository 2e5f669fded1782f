//! What links of a chain of hashes say of the hashes of names (RFC 5155, 8; RFC 6840, 4.1 and 4.3).
ghost use Rattle.std.specs.Prelude.{◌≡◌};
ghost use Rattle.std.specs.List.{list_any};
ghost use Rattle.std.specs.Option.{option_map};
ghost use Rattle.definitions.specs.Covering.{octets_before};
ghost use Rattle.denial_laws.specs.NsecRules.{first_some};
ghost use Rattle.denial_laws.specs.Nsec3Rules.{is_at, covers_hash, is_matched, at_hash, encloses};
ghost use Rattle.denial_laws.specs.Nsec3Rules.{cut_above, star_at, asks_star};
ghost use Rattle.answer_judge_rules.specs.Hashing.{opens, open_among};
ghost use Rattle.answer_judge_rules.specs.Rules.{verdict_of};

use crate::facts::HashLink;
use crate::types::{at_name, is_cut, star_lacks};
use crate::verdict::Verdict;
use messages::names::{Name, ToName};
use names_rdata::rtype::Rtype;

/// Whether octets come before others.
fn is_before(a: &[u8], b: &[u8]) -> bool
    ensures { result ≡ octets_before a.now b.now }
{
    a.cmp(b).is_lt()
}

impl<'a> HashLink<'a> {
    /// Whether it matches a name of a hash.
    fn is_at(&self, hash: &[u8]) -> bool
        ensures { result ≡ is_at hash.now self.now }
    {
        self.owner() == hash
    }

    /// Whether a hash lies strictly between owner and next hash, on a circle.
    ///
    /// The record is silent on both ends: their names exist, and a wider gap would deny them
    /// (RFC 5155, 3.1.7).
    fn covers(&self, hash: &[u8]) -> bool
        ensures { result ≡ covers_hash hash.now self.now }
    {
        let behind = is_before(self.owner(), hash);
        let before = is_before(hash, self.next());
        (behind && before) || (!is_before(self.owner(), self.next()) && (behind || before))
    }

    /// Whether it matches an ancestor of a name, without DNAME.
    ///
    /// What is below DNAME is redirected: taken as proof, its record would deny names that exist
    /// where it leads (RFC 5155, 8.3; RFC 6840, 4.1).
    fn encloses(&self, hash: &[u8]) -> bool
        ensures { result ≡ encloses hash.now self.now }
    {
        self.is_at(hash) && !self.types().contains(Rtype::DNAME)
    }

    /// What it says of the name that it matches.
    ///
    /// A link that matches another name says nothing of this one: replayed, it would deny what that
    /// name lacks (RFC 5155, 8.5).
    fn at_hash<N: ToName>(
        &self,
        apex: &Name<Vec<u8>>,
        name: &N,
        hash: &[u8],
        rtype: Rtype,
    ) -> Option<Verdict>
        ensures { option_map verdict_of result
            ≡ at_hash apex.now (N.name name.now) rtype hash.now self.now }
    {
        if self.is_at(hash) {
            at_name(self.types(), apex, name, rtype)
        } else {
            None
        }
    }

    /// Whether it matches a delegation above a name.
    ///
    /// What lies below it is the child zone's: as a closest encloser it would deny what is there
    /// (RFC 5155, 8.3; RFC 6840, 4.1).
    fn cut_above<N: ToName>(
        &self,
        apex: &Name<Vec<u8>>,
        ancestor: &N,
        hash: &[u8],
    ) -> Option<Verdict>
        ensures { option_map verdict_of result
            ≡ cut_above apex.now (N.name ancestor.now) hash.now self.now }
    {
        if self.encloses(hash) && is_cut(self.types(), apex, ancestor) {
            Some(Verdict::Delegated)
        } else {
            None
        }
    }

    /// What it says of a wildcard.
    ///
    /// Without a look at the wildcard a name that it stands for would pass for one that does not
    /// exist (RFC 5155, 8.4 and 8.7).
    fn star_at(&self, hash: &[u8], rtype: Rtype) -> Option<Verdict>
        ensures { option_map verdict_of result ≡ star_at hash.now rtype self.now }
    {
        if self.is_at(hash) {
            return if star_lacks(self.types(), rtype) {
                Some(Verdict::StarNoType)
            } else {
                None
            };
        }
        if self.covers(hash) {
            Some(Verdict::NoName)
        } else {
            None
        }
    }

    /// Whether it covers a hash under opt-out.
    ///
    /// A delegation that isn't signed may lie in such a gap: taken as proof, the record would deny
    /// it (RFC 5155, 6 and 12.2).
    fn opens(&self, hash: &[u8]) -> bool
        ensures { result ≡ opens hash.now self.now }
    {
        self.covers(hash) && self.opts_out()
    }
}

/// Whether some link matches a name of a hash.
pub(crate) fn is_matched(links: &[HashLink], hash: &[u8]) -> bool
    ensures { result ≡ is_matched links.now hash.now }
{
    links.iter().any(|link| link.is_at(hash))
}

/// Whether some link shows an encloser of a hash.
pub(crate) fn is_enclosed(links: &[HashLink], hash: &[u8]) -> bool
    ensures { result ≡ list_any (encloses hash.now) links.now }
{
    links.iter().any(|link| link.encloses(hash))
}

/// What the first link says that matches a name and tells of it.
pub(crate) fn first_at_hash<N: ToName>(
    apex: &Name<Vec<u8>>,
    links: &[HashLink],
    name: &N,
    hash: &[u8],
    rtype: Rtype,
) -> Option<Verdict>
    ensures { option_map verdict_of result
        ≡ first_some (at_hash apex.now (N.name name.now) rtype hash.now) links.now }
{
    for link in links {
        if let Some(verdict) = link.at_hash(apex, name, hash, rtype) {
            return Some(verdict);
        }
    }
    None
}

/// Whether a link matches a delegation above a name.
pub(crate) fn first_cut_above<N: ToName>(
    apex: &Name<Vec<u8>>,
    links: &[HashLink],
    ancestor: &N,
    hash: &[u8],
) -> Option<Verdict>
    ensures { option_map verdict_of result
        ≡ first_some (cut_above apex.now (N.name ancestor.now) hash.now) links.now }
{
    for link in links {
        if let Some(verdict) = link.cut_above(apex, ancestor, hash) {
            return Some(verdict);
        }
    }
    None
}

/// What the first link that tells of a wildcard says of it.
pub(crate) fn first_star_at(links: &[HashLink], hash: &[u8], rtype: Rtype) -> Option<Verdict>
    ensures { option_map verdict_of result ≡ first_some (star_at hash.now rtype) links.now }
{
    for link in links {
        if let Some(verdict) = link.star_at(hash, rtype) {
            return Some(verdict);
        }
    }
    None
}

/// Whether the first link that covers a hash does so without opt-out.
///
/// Taken as proof, a gap under opt-out would deny a delegation that isn't signed, and a missing gap
/// a name that exists (RFC 5155, 6 and 8.3).
pub(crate) fn is_denied(links: &[HashLink], hash: &[u8]) -> bool
    ensures { result ≡ asks_star hash.now links.now }
{
    for link in links {
        if link.covers(hash) {
            return !link.opts_out();
        }
    }
    false
}

/// Whether some link covers a hash under opt-out.
fn is_open(links: &[HashLink], hash: &[u8]) -> bool
    ensures { result ≡ list_any (opens hash.now) links.now }
{
    links.iter().any(|link| link.opens(hash))
}

/// What links prove of a next closer name that none denies: under opt-out what is there stays open.
///
/// Without such a gap nothing is proved: an encloser alone would deny names that exist below it
/// (RFC 5155, 8.3).
pub(crate) fn left_open(links: &[HashLink], hash: &[u8]) -> Option<Verdict>
    ensures { option_map verdict_of result ≡ open_among hash.now links.now }
{
    if is_open(links, hash) {
        Some(Verdict::Open)
    } else {
        None
    }
}
