//! What NSEC3 records prove (RFC 5155, 8; RFC 6840, 4.1 and 4.3).
ghost use Rattle.std.specs.Prelude.{◌≡◌, IfOk, OnOk};
ghost use Rattle.std.specs.List.{list_any};
ghost use Rattle.std.specs.Option.{option_map};
ghost use Rattle.definitions.specs.Name.{low};
ghost use Rattle.definitions.specs.Reference.{verdict_of};
ghost use Rattle.denial_laws.specs.NsecRules.{first_some};
ghost use Rattle.denial_laws.specs.Nsec3Rules.{is_at, covers_hash, is_matched, at_hash, encloses};
ghost use Rattle.denial_laws.specs.Nsec3Rules.{cut_above, star_at, beyond, enclosed};
ghost use Rattle.denial_laws.specs.Nsec3Rules.{by_closest_encloser, hash_denied, last_labels};
ghost use Rattle.denial_laws.specs.Nsec3Rules.{hash_expanded_by, hash_expanded};

use crate::reference::facts::{NameHash, PlainHashLink, PlainRrset};
use crate::reference::linked::{at_name, has_dname, is_cut, star_lacks};
use crate::reference::names::star_under;
use definitions::reference::Octets;
use definitions::reference::names::{hash_covers, same};
use definitions::reference::verdict::PlainVerdict;
use std::alloc::{AllocError, Global};

impl PlainHashLink {
    fn is_at(&self, hash: &[u8]) -> bool
        ensures { result ≡ is_at hash.now self.now }
    {
        self.owner.as_slice() == hash
    }

    fn covers(&self, hash: &[u8]) -> bool
        ensures { result ≡ covers_hash hash.now self.now }
    {
        hash_covers(self.owner.as_slice(), self.next.as_slice(), hash)
    }

    fn encloses(&self, hash: &[u8]) -> bool
        ensures { result ≡ encloses hash.now self.now }
    {
        self.is_at(hash) && !has_dname(self.bits.as_slice())
    }

    fn at_hash(
        &self,
        apex: &[Octets],
        name: &[Octets],
        rtype: u16,
        hash: &[u8],
    ) -> Option<PlainVerdict>
        ensures { option_map verdict_of result ≡ at_hash apex.now name.now rtype hash.now self.now }
    {
        if self.is_at(hash) {
            at_name(apex, name, rtype, self.bits.as_slice())
        } else {
            None
        }
    }

    fn cut_above(&self, apex: &[Octets], ancestor: &[Octets], hash: &[u8]) -> Option<PlainVerdict>
        ensures { option_map verdict_of result ≡ cut_above apex.now ancestor.now hash.now self.now }
    {
        if self.encloses(hash) && is_cut(apex, ancestor, self.bits.as_slice()) {
            Some(PlainVerdict::Delegated)
        } else {
            None
        }
    }

    fn star_at(&self, hash: &[u8], rtype: u16) -> Option<PlainVerdict>
        ensures { option_map verdict_of result ≡ star_at hash.now rtype self.now }
    {
        if self.is_at(hash) {
            return if star_lacks(self.bits.as_slice(), rtype) {
                Some(PlainVerdict::StarNoType)
            } else {
                None
            };
        }
        if self.covers(hash) {
            Some(PlainVerdict::NoName)
        } else {
            None
        }
    }
}

fn is_matched(links: &[PlainHashLink], hash: &[u8]) -> bool
    ensures { result ≡ is_matched links.now hash.now }
{
    links.iter().any(|link| link.is_at(hash))
}

fn is_enclosed(links: &[PlainHashLink], hash: &[u8]) -> bool
    ensures { result ≡ list_any (encloses hash.now) links.now }
{
    links.iter().any(|link| link.encloses(hash))
}

fn first_at_hash(
    apex: &[Octets],
    links: &[PlainHashLink],
    name: &[Octets],
    rtype: u16,
    hash: &[u8],
) -> Option<PlainVerdict>
    ensures { option_map verdict_of result
        ≡ first_some (at_hash apex.now name.now rtype hash.now) links.now }
{
    let (link, rest) = links.split_first()?;
    match link.at_hash(apex, name, rtype, hash) {
        None => first_at_hash(apex, rest, name, rtype, hash),
        found => found,
    }
}

fn first_cut_above(
    apex: &[Octets],
    links: &[PlainHashLink],
    ancestor: &[Octets],
    hash: &[u8],
) -> Option<PlainVerdict>
    ensures { option_map verdict_of result
        ≡ first_some (cut_above apex.now ancestor.now hash.now) links.now }
{
    let (link, rest) = links.split_first()?;
    match link.cut_above(apex, ancestor, hash) {
        None => first_cut_above(apex, rest, ancestor, hash),
        found => found,
    }
}

fn first_star_at(links: &[PlainHashLink], hash: &[u8], rtype: u16) -> Option<PlainVerdict>
    ensures { option_map verdict_of result ≡ first_some (star_at hash.now rtype) links.now }
{
    let (link, rest) = links.split_first()?;
    match link.star_at(hash, rtype) {
        None => first_star_at(rest, hash, rtype),
        found => found,
    }
}

/// What the first record says that covers the next closer name, with the wildcard under its parent.
fn first_beyond<H: NameHash>(
    alloc: Global,
    hash: &H,
    all: &[PlainHashLink],
    links: &[PlainHashLink],
    encloser: &[Octets],
    closer: &[u8],
    rtype: u16,
) -> Result<Option<PlainVerdict>, AllocError>
    ensures { IfOk result (λ v. option_map verdict_of v
        ≡ first_some (beyond (H.hash_of hash.now) encloser.now rtype all.now closer.now)
        links.now) }
{
    let Some((link, rest)) = links.split_first() else {
        return Ok(None);
    };
    if link.covers(closer) {
        if link.parameters.opt_out {
            return Ok(Some(PlainVerdict::Open));
        }
        let star = star_under(alloc, encloser)?;
        let star = hash.hash(alloc, &star)?;
        if let Some(verdict) = first_star_at(all, star.as_slice(), rtype) {
            return Ok(Some(verdict));
        }
    }
    first_beyond(alloc, hash, all, rest, encloser, closer, rtype)
}

fn enclosed<H: NameHash>(
    alloc: Global,
    apex: &[Octets],
    hash: &H,
    links: &[PlainHashLink],
    closer: &[Octets],
    encloser: &[Octets],
    rtype: u16,
) -> Result<Option<PlainVerdict>, AllocError>
    ensures { IfOk result (λ v. option_map verdict_of v
        ≡ enclosed apex.now (H.hash_of hash.now) closer.now encloser.now rtype links.now) }
{
    let at = hash.hash(alloc, encloser)?;
    if let Some(verdict) = first_cut_above(apex, links, encloser, at.as_slice()) {
        return Ok(Some(verdict));
    }
    if !is_enclosed(links, at.as_slice()) {
        return Ok(None);
    }
    let closer = hash.hash(alloc, closer)?;
    first_beyond(
        alloc,
        hash,
        links,
        links,
        encloser,
        closer.as_slice(),
        rtype,
    )
}

fn by_closest_encloser<H: NameHash>(
    alloc: Global,
    apex: &[Octets],
    hash: &H,
    links: &[PlainHashLink],
    name: &[Octets],
    rtype: u16,
) -> Result<Option<PlainVerdict>, AllocError>
    ensures { IfOk result (λ v. option_map verdict_of v
        ≡ by_closest_encloser apex.now (H.hash_of hash.now) name.now rtype links.now) }
{
    let Some((_, parent)) = name.split_first() else {
        return Ok(None);
    };
    if same(name, apex) {
        return Ok(None);
    }
    let at = hash.hash(alloc, parent)?;
    if is_matched(links, at.as_slice()) {
        enclosed(alloc, apex, hash, links, name, parent, rtype)
    } else {
        by_closest_encloser(alloc, apex, hash, links, parent, rtype)
    }
}

/// What a record that matches the name says, or else records that enclose it.
pub(super) fn denied<H: NameHash>(
    alloc: Global,
    apex: &[Octets],
    hash: &H,
    links: &[PlainHashLink],
    name: &[Octets],
    rtype: u16,
) -> Result<Option<PlainVerdict>, AllocError>
    ensures { IfOk result (λ v. option_map verdict_of v
        ≡ hash_denied apex.now (H.hash_of hash.now) name.now rtype links.now) }
{
    let at = hash.hash(alloc, name)?;
    if is_matched(links, at.as_slice()) {
        Ok(first_at_hash(apex, links, name, rtype, at.as_slice()))
    } else {
        by_closest_encloser(alloc, apex, hash, links, name, rtype)
    }
}

/// The last labels of a name, so many.
fn last_labels(labels: usize, name: &[Octets]) -> &[Octets]
    ensures { result.now ≡ last_labels labels name.now }
{
    if labels < name.len() {
        &name[name.len() - labels..]
    } else {
        name
    }
}

/// What a wildcard's RRset proves of a name.
pub(super) fn expanded<H: NameHash>(
    alloc: Global,
    hash: &H,
    links: &[PlainHashLink],
    rrset: &PlainRrset,
    name: &[Octets],
) -> Result<Option<PlainVerdict>, AllocError>
    ensures { IfOk result (λ v. option_map verdict_of v
        ≡ hash_expanded (H.hash_of hash.now) name.now rrset.now links.now) }
{
    let closer = last_labels(usize::from(rrset.labels()) + 1, name);
    let closer = hash.hash(alloc, closer)?;
    first_expanding(alloc, links, rrset, closer.as_slice())
}

fn first_expanding(
    alloc: Global,
    links: &[PlainHashLink],
    rrset: &PlainRrset,
    closer: &[u8],
) -> Result<Option<PlainVerdict>, AllocError>
    ensures { IfOk result (λ v. option_map verdict_of v
        ≡ first_some (hash_expanded_by closer.now rrset.now) links.now) }
{
    let Some((link, rest)) = links.split_first() else {
        return Ok(None);
    };
    if !link.covers(closer) {
        return first_expanding(alloc, rest, rrset, closer);
    }
    if link.parameters.opt_out {
        return Ok(Some(PlainVerdict::Open));
    }
    Ok(Some(PlainVerdict::StarRecords(rrset.copied(alloc)?)))
}
