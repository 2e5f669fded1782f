//! What NSEC records prove (RFC 4035, 5.4; RFC 4592; RFC 6840, 4.1 and 4.3).
ghost use Rattle.std.specs.Prelude.{◌≡◌, ◌&&◌, ◌||◌, not, drop, IfOk};
ghost use Rattle.std.specs.Option.{option_map};
ghost use Rattle.definitions.specs.Bitmap.{bitmap_has};
ghost use Rattle.definitions.specs.Name.{same, strictly_above};
ghost use Rattle.definitions.specs.Zone.{star_under};
ghost use Rattle.definitions.specs.Reference.{verdict_of};
ghost use Rattle.denial_laws.specs.NsecRules.{first_some, is_cut, lacks, star_lacks, at_name};
ghost use Rattle.denial_laws.specs.NsecRules.{has_nxname, is_bare, has_more, first_below};
ghost use Rattle.denial_laws.specs.NsecRules.{tells, shown_owner, shows, denies};
ghost use Rattle.denial_laws.specs.NsecRules.{at_owner, below_cut, redirects, link_covers, closest};
ghost use Rattle.denial_laws.specs.NsecRules.{at_star, covered, denied, encloses_at, expanded_by};
ghost use Rattle.denial_laws.specs.NsecRules.{expanded};

use crate::reference::facts::{PlainLink, PlainRrset};
use crate::reference::names::{star_under, strictly_above};
use definitions::reference::Octets;
use definitions::reference::bitmap::bitmap_has;
use definitions::reference::names::{at_or_above, covers, same};
use definitions::reference::verdict::PlainVerdict;
use std::alloc::{AllocError, Global};

const NS: u16 = 2;

const CNAME: u16 = 5;

const DNAME: u16 = 39;

const DS: u16 = 43;

const NXNAME: u16 = 128;

/// Whether a record's owner is a delegation.
pub(super) fn is_cut(apex: &[Octets], owner: &[Octets], bits: &[u8]) -> bool
    ensures { result ≡ is_cut apex.now owner.now bits.now }
{
    bitmap_has(bits, NS) && !same(owner, apex)
}

/// Whether a matching record proves that a type is missing.
fn lacks(bits: &[u8], rtype: u16) -> bool
    ensures { result ≡ lacks bits.now rtype }
{
    !bitmap_has(bits, rtype) && !bitmap_has(bits, CNAME)
}

/// Whether a wildcard's record proves that a type is missing there: a delegation's of DS alone,
/// since the rest is the child's.
pub(super) fn star_lacks(bits: &[u8], rtype: u16) -> bool
    ensures { result ≡ star_lacks bits.now rtype }
{
    lacks(bits, rtype) && (rtype == DS || !bitmap_has(bits, NS))
}

/// Whether a bitmap has NXNAME.
fn has_nxname(bits: &[u8]) -> bool
    ensures { result ≡ has_nxname bits.now }
{
    bitmap_has(bits, NXNAME)
}

/// Whether a bitmap has no types but RRSIG and NSEC.
fn is_bare(bits: &[u8]) -> bool
    ensures { result ≡ is_bare bits.now }
{
    bits == [0u8; 0].as_slice()
        || bits == [0u8, 6, 0, 0, 0, 0, 0, 1].as_slice()
        || bits == [0u8, 6, 0, 0, 0, 0, 0, 2].as_slice()
        || bits == [0u8, 6, 0, 0, 0, 0, 0, 3].as_slice()
}

/// Whether a bitmap has the types of a name that exists.
fn has_more(bits: &[u8]) -> bool
    ensures { result ≡ has_more bits.now }
{
    !is_bare(bits) && !has_nxname(bits)
}

/// Whether a name is the first of those below another.
fn is_first_below(name: &[Octets], other: &[Octets]) -> bool
    ensures { result ≡ same name.now (first_below other.now) }
{
    match name.split_first() {
        None => false,
        Some((label, parent)) => {
            label.as_slice().eq_ignore_ascii_case([0u8].as_slice()) && same(parent, other)
        },
    }
}

/// Whether a bitmap has DNAME.
pub(super) fn has_dname(bits: &[u8]) -> bool
    ensures { result ≡ bitmap_has bits.now 39 }
{
    bitmap_has(bits, DNAME)
}

/// What a record that matches the name says.
pub(super) fn at_name(
    apex: &[Octets],
    name: &[Octets],
    rtype: u16,
    bits: &[u8],
) -> Option<PlainVerdict>
    ensures { option_map verdict_of result ≡ at_name apex.now name.now rtype bits.now }
{
    if is_cut(apex, name, bits) && rtype != DS {
        return Some(PlainVerdict::Delegated);
    }
    if lacks(bits, rtype) {
        Some(PlainVerdict::NoType)
    } else {
        None
    }
}

impl PlainLink {
    fn denies(&self, name: &[Octets]) -> Option<PlainVerdict>
        ensures { option_map verdict_of result ≡ denies name.now self.now }
    {
        if same(&self.owner, name) && has_nxname(self.bits.as_slice()) {
            Some(PlainVerdict::NoName)
        } else {
            None
        }
    }

    /// Whether the record tells which types its owner has.
    fn tells(&self) -> bool
        ensures { result ≡ tells self.now }
    {
        has_more(self.bits.as_slice()) || is_first_below(&self.next, &self.owner)
    }

    fn at_owner(&self, apex: &[Octets], name: &[Octets], rtype: u16) -> Option<PlainVerdict>
        ensures { option_map verdict_of result ≡ at_owner apex.now name.now rtype self.now }
    {
        if same(&self.owner, name) && self.tells() {
            at_name(apex, name, rtype, self.bits.as_slice())
        } else {
            None
        }
    }

    /// Whether the record stands above the name and has DNAME.
    fn redirects(&self, name: &[Octets]) -> bool
        ensures { result ≡ redirects name.now self.now }
    {
        strictly_above(&self.owner, name) && has_dname(self.bits.as_slice())
    }

    fn below_cut(&self, apex: &[Octets], name: &[Octets]) -> Option<PlainVerdict>
        ensures { option_map verdict_of result ≡ below_cut apex.now name.now self.now }
    {
        let bits = self.bits.as_slice();
        if is_cut(apex, &self.owner, bits)
            && strictly_above(&self.owner, name)
            && !has_dname(bits)
        {
            Some(PlainVerdict::Delegated)
        } else {
            None
        }
    }

    fn covers(&self, apex: &[Octets], name: &[Octets]) -> bool
        ensures { result ≡ link_covers apex.now self.now name.now }
    {
        covers(apex, &self.owner, &self.next, name) && !self.redirects(name)
    }

    /// The name that the owner shows to exist: itself, or where it may be made up, its parent.
    fn shown_owner(&self) -> &[Octets]
        ensures { result.now ≡ shown_owner self.now }
    {
        if has_more(self.bits.as_slice()) {
            return &self.owner;
        }
        match self.owner.split_first() {
            None => &self.owner,
            Some((_, parent)) => parent,
        }
    }

    /// Whether the owner or the next name shows that an ancestor exists.
    fn shows(&self, ancestor: &[Octets]) -> bool
        ensures { result ≡ shows self.now ancestor.now }
    {
        at_or_above(ancestor, self.shown_owner()) || at_or_above(ancestor, &self.next)
    }

    /// The closest encloser that the record shows.
    fn closest<'a>(&self, name: &'a [Octets]) -> Option<&'a [Octets]>
        ensures { option_map (λ e. e.now) result ≡ closest self.now name.now }
    {
        let (_, parent) = name.split_first()?;
        if self.shows(parent) {
            Some(parent)
        } else {
            self.closest(parent)
        }
    }

    fn at_star(&self, apex: &[Octets], star: &[Octets], rtype: u16) -> Option<PlainVerdict>
        ensures { option_map verdict_of result ≡ at_star apex.now star.now rtype self.now }
    {
        if same(&self.owner, star) {
            let bits = self.bits.as_slice();
            return if star_lacks(bits, rtype) && has_more(bits) {
                Some(PlainVerdict::StarNoType)
            } else {
                None
            };
        }
        if !self.covers(apex, star) {
            return None;
        }
        Some(if strictly_above(star, &self.next) {
            PlainVerdict::StarNoType
        } else {
            PlainVerdict::NoName
        })
    }

    fn covered(
        &self,
        alloc: Global,
        apex: &[Octets],
        links: &[PlainLink],
        name: &[Octets],
        rtype: u16,
    ) -> Result<Option<PlainVerdict>, AllocError>
        ensures { IfOk result (λ v. option_map verdict_of v
            ≡ covered apex.now name.now rtype links.now self.now) }
    {
        if !self.covers(apex, name) {
            return Ok(None);
        }
        if strictly_above(name, &self.next) {
            return Ok(Some(PlainVerdict::NoType));
        }
        match self.closest(name) {
            None => Ok(None),
            Some(encloser) => {
                let star = star_under(alloc, encloser)?;
                Ok(first_at_star(apex, links, &star, rtype))
            },
        }
    }

    /// Whether the record covers the name, and the closest encloser that it shows has so many
    /// labels.
    fn encloses(&self, apex: &[Octets], name: &[Octets], labels: u8) -> bool
        ensures { result ≡ (link_covers apex.now self.now name.now
            && not (strictly_above name.now self.now.next)
            && encloses_at labels (closest self.now name.now)) }
    {
        self.covers(apex, name)
            && !strictly_above(name, &self.next)
            && self
                .closest(name)
                .is_some_and(|e| e.len() == usize::from(labels))
    }
}

fn first_at_star(
    apex: &[Octets],
    links: &[PlainLink],
    star: &[Octets],
    rtype: u16,
) -> Option<PlainVerdict>
    ensures { option_map verdict_of result
        ≡ first_some (at_star apex.now star.now rtype) links.now }
{
    let (link, rest) = links.split_first()?;
    match link.at_star(apex, star, rtype) {
        None => first_at_star(apex, rest, star, rtype),
        found => found,
    }
}

fn first_denying(links: &[PlainLink], name: &[Octets]) -> Option<PlainVerdict>
    ensures { option_map verdict_of result ≡ first_some (denies name.now) links.now }
{
    let (link, rest) = links.split_first()?;
    match link.denies(name) {
        None => first_denying(rest, name),
        found => found,
    }
}

fn first_at_owner(
    apex: &[Octets],
    links: &[PlainLink],
    name: &[Octets],
    rtype: u16,
) -> Option<PlainVerdict>
    ensures { option_map verdict_of result
        ≡ first_some (at_owner apex.now name.now rtype) links.now }
{
    let (link, rest) = links.split_first()?;
    match link.at_owner(apex, name, rtype) {
        None => first_at_owner(apex, rest, name, rtype),
        found => found,
    }
}

fn first_below_cut(apex: &[Octets], links: &[PlainLink], name: &[Octets]) -> Option<PlainVerdict>
    ensures { option_map verdict_of result ≡ first_some (below_cut apex.now name.now) links.now }
{
    let (link, rest) = links.split_first()?;
    match link.below_cut(apex, name) {
        None => first_below_cut(apex, rest, name),
        found => found,
    }
}

fn first_covered(
    alloc: Global,
    apex: &[Octets],
    all: &[PlainLink],
    links: &[PlainLink],
    name: &[Octets],
    rtype: u16,
) -> Result<Option<PlainVerdict>, AllocError>
    ensures { IfOk result (λ v. option_map verdict_of v
        ≡ first_some (covered apex.now name.now rtype all.now) links.now) }
{
    let Some((link, rest)) = links.split_first() else {
        return Ok(None);
    };
    match link.covered(alloc, apex, all, name, rtype)? {
        None => first_covered(alloc, apex, all, rest, name, rtype),
        found => Ok(found),
    }
}

/// Each rule is tried on the records in turn, before the next rule is.
pub(super) fn denied(
    alloc: Global,
    apex: &[Octets],
    links: &[PlainLink],
    name: &[Octets],
    rtype: u16,
) -> Result<Option<PlainVerdict>, AllocError>
    ensures { IfOk result (λ v. option_map verdict_of v
        ≡ denied apex.now name.now rtype links.now) }
{
    if let Some(verdict) = first_denying(links, name) {
        return Ok(Some(verdict));
    }
    if let Some(verdict) = first_at_owner(apex, links, name, rtype) {
        return Ok(Some(verdict));
    }
    if let Some(verdict) = first_below_cut(apex, links, name) {
        return Ok(Some(verdict));
    }
    first_covered(alloc, apex, links, links, name, rtype)
}

/// What a wildcard's RRset proves of a name.
pub(super) fn expanded(
    alloc: Global,
    apex: &[Octets],
    links: &[PlainLink],
    rrset: &PlainRrset,
    name: &[Octets],
) -> Result<Option<PlainVerdict>, AllocError>
    ensures { IfOk result (λ v. option_map verdict_of v
        ≡ expanded apex.now name.now rrset.now links.now) }
{
    let Some((link, rest)) = links.split_first() else {
        return Ok(None);
    };
    if link.encloses(apex, name, rrset.labels()) {
        return Ok(Some(PlainVerdict::StarRecords(rrset.copied(alloc)?)));
    }
    expanded(alloc, apex, rest, rrset, name)
}
