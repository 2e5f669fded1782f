//! The records of a small zone's chain.

use crate::hash::Spelling;
use crate::labels::{copied, is_among};
use crate::small_zone::SmallZone;
use definitions::reference::Octets;
use definitions::reference::bitmap::bitmap;
use definitions::reference::names::name_cmp;
use definitions::reference::zone::PlainZone;
use denial_laws::reference::facts::{NameHash, PlainHashLink, PlainLink, PlainParameters};
use std::alloc::{AllocError, Global};

/// The kind of a chain.
#[derive(Clone, Copy, Debug, PartialEq, Eq)]
pub enum ChainKind {
    /// NSEC.
    Nsec,
    /// NSEC3 without opt-out.
    Nsec3,
    /// NSEC3 with opt-out, unsigned delegations left out.
    OptOut,
}

/// The names of an NSEC chain, in order.
pub fn nsec_names(alloc: Global, zone: &SmallZone) -> Result<Vec<Vec<Octets>>, AllocError> {
    let mut names = zone.kept_owners(alloc, false)?;
    names.sort_by(|a, b| name_cmp(a, b))?;
    Ok(names)
}

/// A name of an NSEC3 chain, and its hash.
#[derive(Debug, Drop)]
pub struct HashedName {
    name: Vec<Octets>,
    hash: Vec<u8>,
}

/// The names of an NSEC3 chain, in order of their hashes.
pub fn hashed_names(
    alloc: Global,
    zone: &SmallZone,
    opt_out: bool,
) -> Result<Vec<HashedName>, AllocError> {
    let mut names = Vec::new(alloc);
    for owner in &zone.kept_owners(alloc, opt_out)? {
        add_ancestors(alloc, &mut names, zone.apex().len(), owner)?;
    }
    let mut hashed = Vec::new(alloc);
    for name in names {
        let hash = Spelling.hash(alloc, &name)?;
        hashed.push(HashedName {
            name,
            hash: Vec::from_slice(alloc, hash.as_slice())?,
        })?;
    }
    hashed.sort_by(|a, b| a.hash.as_slice().cmp(b.hash.as_slice()))?;
    Ok(hashed)
}

/// Adds an owner and what it stands under, from so many labels on, each once.
fn add_ancestors(
    alloc: Global,
    names: &mut Vec<Vec<Octets>>,
    least: usize,
    owner: &[Octets],
) -> Result<(), AllocError> {
    if owner.len() < least {
        return Ok(());
    }
    if !is_among(names, owner) {
        names.push(copied(alloc, owner)?)?;
    }
    match owner.split_first() {
        None => Ok(()),
        Some((_, parent)) => add_ancestors(alloc, names, least, parent),
    }
}

/// The item behind another, the first behind the last.
fn behind<T>(items: &[T], index: usize) -> Option<&T> {
    match items.get(index.wrapping_add(1)) {
        None => items.first(),
        next => next,
    }
}

/// The NSEC record of one of the names.
pub fn link_at(
    alloc: Global,
    plain: &PlainZone,
    names: &[Vec<Octets>],
    index: usize,
) -> Result<Option<PlainLink>, AllocError> {
    let (Some(owner), Some(next)) = (names.get(index), behind(names, index)) else {
        return Ok(None);
    };
    let types = plain.nsec_types(alloc, true, owner)?;
    let bits = Octets::from_slice(alloc, &bitmap(alloc, &types)?)?;
    Ok(Some(PlainLink::new(copied(alloc, owner)?, copied(alloc, next)?, bits)))
}

/// The NSEC3 record of one of the names.
pub fn hash_link_at(
    alloc: Global,
    plain: &PlainZone,
    names: &[HashedName],
    opt_out: bool,
    index: usize,
) -> Result<Option<PlainHashLink>, AllocError> {
    let (Some(at), Some(next)) = (names.get(index), behind(names, index)) else {
        return Ok(None);
    };
    let types = plain.nsec3_types(alloc, true, &at.name)?;
    Ok(Some(PlainHashLink::new(
        Octets::from_slice(alloc, &at.hash)?,
        Octets::from_slice(alloc, &next.hash)?,
        Octets::from_slice(alloc, &bitmap(alloc, &types)?)?,
        PlainParameters {
            opt_out,
            iterations: 0,
            salt: Octets::from_slice(alloc, &[])?,
        },
    )))
}
