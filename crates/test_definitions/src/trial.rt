//! Every question of a small set, beside every small set of facts.

use crate::chain::{ChainKind, HashedName, hash_link_at, hashed_names, link_at, nsec_names};
use crate::hash::Spelling;
use crate::labels::{copied, under};
use crate::small_zone::SmallZone;
use definitions::reference::Octets;
use definitions::reference::verdict::PlainVerdict;
use definitions::reference::zone::PlainZone;
use denial_laws::reference::decided;
use denial_laws::reference::facts::{PlainFacts, PlainHashLink, PlainLink};
use std::alloc::{AllocError, Global};
use test_lines::Line;

/// The types that are asked for: A, NS, SOA and DS.
const TYPES: [u16; 4] = [1, 2, 6, 43];

/// The labels of the names that are asked for, under the apex.
const LABELS: [&str; 4] = ["a", "b", "x", "*"];

/// The most records of a chain that are tried.
const MOST: u32 = 12;

/// How many sets of facts were tried, proved a verdict, and proved what the zone does not say.
#[derive(Clone, Copy, Debug)]
struct Tally {
    sets: u32,
    proved: u32,
    unlike: u32,
}

impl Tally {
    /// The tally with one more set, and what it proved beside what the zone says: of an alias
    /// nothing.
    fn with(self, said: Option<&PlainVerdict>, found: Option<&PlainVerdict>) -> Tally {
        let proved = found.is_some();
        let unlike = found.is_some_and(|verdict| !said.is_some_and(|s| is_same(verdict, s)));
        Tally {
            sets: self.sets.wrapping_add(1),
            proved: self.proved.wrapping_add(u32::from(proved)),
            unlike: self.unlike.wrapping_add(u32::from(unlike)),
        }
    }
}

/// The records of a chain.
#[derive(Debug, Drop)]
enum Chain {
    Linked(Vec<Vec<Octets>>),
    Hashed(Vec<HashedName>, bool),
}

impl Chain {
    fn len(&self) -> usize {
        match self {
            Chain::Linked(names) => names.len(),
            Chain::Hashed(names, _) => names.len(),
        }
    }

    fn opts_out(&self) -> bool {
        matches!(self, Chain::Hashed(_, true))
    }
}

fn chain_of(alloc: Global, zone: &SmallZone, kind: ChainKind) -> Result<Chain, AllocError> {
    match kind {
        ChainKind::Nsec => Ok(Chain::Linked(nsec_names(alloc, zone)?)),
        ChainKind::Nsec3 => Ok(Chain::Hashed(hashed_names(alloc, zone, false)?, false)),
        ChainKind::OptOut => Ok(Chain::Hashed(hashed_names(alloc, zone, true)?, true)),
    }
}

/// Answers a line `cases`: how many sets of facts were tried, of at most so many records of a chain
/// and an RRset or none, how many of them proved a verdict, and how many of these verdicts the zone
/// does not say.
pub fn cases(line: &mut Line<'_>, zone: &SmallZone) {
    let (kind, size) = (kind_at(line, 1), line.u32_at(2));
    match tried(line.alloc(), zone, kind, size) {
        Ok(tally) => {
            line.say("sets");
            line.value(&tally.sets);
            line.say("proved");
            line.value(&tally.proved);
            line.say("unlike");
            line.value(&tally.unlike);
            line.mark("\n");
        }
        Err(_) => line.lose(),
    }
}

fn kind_at(line: &mut Line<'_>, place: usize) -> ChainKind {
    match line.word(place) {
        "nsec" => ChainKind::Nsec,
        "nsec3" => ChainKind::Nsec3,
        "nsec3optout" => ChainKind::OptOut,
        _ => {
            line.lose();
            ChainKind::Nsec
        }
    }
}

/// All questions, beside all sets of at most a number of records.
fn tried(alloc: Global, zone: &SmallZone, kind: ChainKind, size: u32) -> Result<Tally, AllocError> {
    let chain = chain_of(alloc, zone, kind)?;
    let mut tally = Tally {
        sets: 0,
        proved: 0,
        unlike: 0,
    };
    let trial = Trial {
        zone,
        plain: &zone.plain(alloc)?,
        chain: &chain,
        size,
    };
    for name in &questions(alloc, zone.apex())? {
        for rtype in TYPES {
            tally = trial.asked(alloc, name, rtype, tally)?;
        }
    }
    Ok(tally)
}

/// The names that are asked for: the apex, one and two labels under it, and a name outside.
fn questions(alloc: Global, apex: &[Octets]) -> Result<Vec<Vec<Octets>>, AllocError> {
    let mut names = Vec::new(alloc);
    names.push(copied(alloc, apex)?)?;
    for label in LABELS {
        let child = under(alloc, label.as_bytes(), apex)?;
        for below in LABELS {
            names.push(under(alloc, below.as_bytes(), &child)?)?;
        }
        names.push(child)?;
    }
    names.push(under(alloc, b"zzz", &[])?)?;
    Ok(names)
}

/// A zone and its chain, and how many of its records make a set.
#[derive(Clone, Copy)]
struct Trial<'a> {
    zone: &'a SmallZone,
    plain: &'a PlainZone,
    chain: &'a Chain,
    size: u32,
}

impl<'a> Trial<'a> {
    /// One question, with each RRset that the zone has signed for it and with none, beside all sets
    /// of records.
    fn asked(
        &self,
        alloc: Global,
        name: &[Octets],
        rtype: u16,
        tally: Tally,
    ) -> Result<Tally, AllocError> {
        let verdict = self
            .plain
            .verdict(alloc, self.chain.opts_out(), name, rtype)?;
        let said = if self.zone.is_alias(alloc, name, &verdict)? {
            None
        } else {
            Some(&verdict)
        };
        let mut tally = self.with_rrset(alloc, name, rtype, said, None, tally)?;
        for labels in 0..8u8 {
            if self.zone.signed(alloc, name, rtype, labels)?.is_some() {
                tally = self.with_rrset(alloc, name, rtype, said, Some(labels), tally)?;
            }
        }
        Ok(tally)
    }

    fn with_rrset(
        &self,
        alloc: Global,
        name: &[Octets],
        rtype: u16,
        said: Option<&PlainVerdict>,
        labels: Option<u8>,
        tally: Tally,
    ) -> Result<Tally, AllocError> {
        let mut tally = tally;
        let most = u32::try_from(self.chain.len()).unwrap_or(MOST).min(MOST);
        for set in 0..1u32 << most {
            if set.count_ones() <= self.size {
                let rrset = match labels {
                    None => None,
                    Some(labels) => self.zone.signed(alloc, name, rtype, labels)?,
                };
                let (links, hash_links) = self.chosen(alloc, set)?;
                let facts = PlainFacts::new(rrset, links, hash_links);
                let found = decided(alloc, self.zone.apex(), &Spelling, &facts, name, rtype)?;
                tally = tally.with(said, found.as_ref());
            }
        }
        Ok(tally)
    }

    /// The records of a set, one bit a record.
    fn chosen(
        &self,
        alloc: Global,
        set: u32,
    ) -> Result<(Vec<PlainLink>, Vec<PlainHashLink>), AllocError> {
        let (mut links, mut hash_links) = (Vec::new(alloc), Vec::new(alloc));
        for index in 0..MOST {
            if set >> index & 1 == 1 {
                self.choose(alloc, index as usize, &mut links, &mut hash_links)?;
            }
        }
        Ok((links, hash_links))
    }

    fn choose(
        &self,
        alloc: Global,
        index: usize,
        links: &mut Vec<PlainLink>,
        hash_links: &mut Vec<PlainHashLink>,
    ) -> Result<(), AllocError> {
        match self.chain {
            Chain::Linked(names) => {
                if let Some(link) = link_at(alloc, self.plain, names, index)? {
                    links.push(link)?;
                }
            },
            Chain::Hashed(names, opt_out) => {
                if let Some(link) = hash_link_at(alloc, self.plain, names, *opt_out, index)? {
                    hash_links.push(link)?;
                }
            },
        }
        Ok(())
    }
}

fn are_same(a: &[Octets], b: &[Octets]) -> bool {
    a.len() == b.len() && a.iter().zip(b).all(|(x, y)| x.as_slice() == y.as_slice())
}

fn is_same(a: &PlainVerdict, b: &PlainVerdict) -> bool {
    match (a, b) {
        (PlainVerdict::Records(a), PlainVerdict::Records(b)) => are_same(a, b),
        (PlainVerdict::StarRecords(a), PlainVerdict::StarRecords(b)) => are_same(a, b),
        (PlainVerdict::NoType, PlainVerdict::NoType) => true,
        (PlainVerdict::NoName, PlainVerdict::NoName) => true,
        (PlainVerdict::StarNoType, PlainVerdict::StarNoType) => true,
        (PlainVerdict::Delegated, PlainVerdict::Delegated) => true,
        (PlainVerdict::Open, PlainVerdict::Open) => true,
        _ => false,
    }
}
