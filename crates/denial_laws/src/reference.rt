//! A plain and slow program that computes what facts prove, for tests to compare with. A name is a
//! slice of its labels, the leftmost first, without the root's.
ghost use Rattle.std.specs.Prelude.{◌≡◌, IfOk};
ghost use Rattle.std.specs.Option.{option_map};
ghost use Rattle.definitions.specs.Reference.{verdict_of};
ghost use Rattle.denial_laws.specs.Deciding.{decided, decided_inside, by_chain, by_wildcard};
ghost use Rattle.denial_laws.specs.Laws.{DecidesTruly};

use crate::reference::facts::{NameHash, PlainFacts, PlainRrset};
use definitions::reference::Octets;
use definitions::reference::names::at_or_above;
use definitions::reference::verdict::PlainVerdict;
use std::alloc::{AllocError, Global};

pub mod facts;
pub mod hashed;
pub mod linked;
mod names;

/// What facts prove of a name and a type, if anything: what each zone says of which they are true.
pub fn decided<H: NameHash>(
    alloc: Global,
    apex: &[Octets],
    hash: &H,
    facts: &PlainFacts,
    name: &[Octets],
    rtype: u16,
) -> Result<Option<PlainVerdict>, AllocError>
    ensures exact { IfOk result (λ v. option_map verdict_of v
        ≡ decided apex.now (H.hash_of hash.now) facts.now name.now rtype) }
    ensures truly { let hash = H.hash_of hash.now in IfOk result (λ v.
        DecidesTruly apex.now hash facts.now name.now rtype (option_map verdict_of v)) }
{
    by_rules(alloc, apex, hash, facts, name, rtype)
}

/// By the rules, which say nothing of names outside the zone.
fn by_rules<H: NameHash>(
    alloc: Global,
    apex: &[Octets],
    hash: &H,
    facts: &PlainFacts,
    name: &[Octets],
    rtype: u16,
) -> Result<Option<PlainVerdict>, AllocError>
    ensures { IfOk result (λ v. option_map verdict_of v
        ≡ decided apex.now (H.hash_of hash.now) facts.now name.now rtype) }
{
    if !at_or_above(apex, name) {
        return Ok(None);
    }
    match facts.rrset() {
        None => by_chain(alloc, apex, hash, facts, name, rtype),
        Some(rrset) => {
            if rrset.is_expanded(name) {
                by_wildcard(alloc, apex, hash, facts, rrset, name)
            } else {
                Ok(Some(PlainVerdict::Records(rrset.copied(alloc)?)))
            }
        },
    }
}

/// By NSEC3 records where there is one, otherwise by NSEC records.
fn by_chain<H: NameHash>(
    alloc: Global,
    apex: &[Octets],
    hash: &H,
    facts: &PlainFacts,
    name: &[Octets],
    rtype: u16,
) -> Result<Option<PlainVerdict>, AllocError>
    ensures { IfOk result (λ v. option_map verdict_of v
        ≡ by_chain apex.now (H.hash_of hash.now) facts.now name.now rtype) }
{
    if facts.hash_links().is_empty() {
        linked::denied(alloc, apex, facts.links(), name, rtype)
    } else {
        hashed::denied(alloc, apex, hash, facts.hash_links(), name, rtype)
    }
}

/// Likewise, of a wildcard's RRset.
fn by_wildcard<H: NameHash>(
    alloc: Global,
    apex: &[Octets],
    hash: &H,
    facts: &PlainFacts,
    rrset: &PlainRrset,
    name: &[Octets],
) -> Result<Option<PlainVerdict>, AllocError>
    ensures { IfOk result (λ v. option_map verdict_of v
        ≡ by_wildcard apex.now (H.hash_of hash.now) facts.now rrset.now name.now) }
{
    if facts.hash_links().is_empty() {
        linked::expanded(alloc, apex, facts.links(), rrset, name)
    } else {
        hashed::expanded(alloc, hash, facts.hash_links(), rrset, name)
    }
}
