//! A small zone: which of its owners are live and kept, and which RRsets it has signed.

use crate::labels::{copied, is_above, is_among, label_count, labels_at, last_labels, under};
use definitions::reference::Octets;
use definitions::reference::names::{at_or_above, same};
use definitions::reference::verdict::PlainVerdict;
use definitions::reference::zone::{PlainRecord, PlainZone};
use denial_laws::reference::facts::PlainRrset;
use std::alloc::{AllocError, Global};
use test_lines::Line;

const NS: u16 = 2;

const DS: u16 = 43;

const CNAME: u16 = 5;

const DNAME: u16 = 39;

/// A record, of whose data no more matters than whose they are: they spell the owner.
#[derive(Debug, Drop)]
struct SmallRecord {
    owner: Vec<Octets>,
    rtype: u16,
}

/// A zone.
#[derive(Debug, Drop)]
pub struct SmallZone {
    apex: Vec<Octets>,
    records: Vec<SmallRecord>,
}

impl SmallZone {
    /// A zone without records.
    pub fn new(alloc: Global) -> SmallZone {
        SmallZone {
            apex: Vec::new(alloc),
            records: Vec::new(alloc),
        }
    }

    /// Begins a zone without records.
    pub fn begin(&mut self, line: &mut Line<'_>) {
        self.apex = labels_at(line, 1);
        self.records.clear();
    }

    /// Adds a record.
    pub fn put(&mut self, line: &mut Line<'_>) {
        let record = SmallRecord {
            owner: labels_at(line, 1),
            rtype: line.u16_at(2),
        };
        line.must(self.records.push(record));
    }

    /// The apex.
    pub fn apex(&self) -> &[Octets] {
        &self.apex
    }

    /// The zone, as the definitions see it.
    pub fn plain(&self, alloc: Global) -> Result<PlainZone, AllocError> {
        let mut records = Vec::new(alloc);
        for record in &self.records {
            let bytes = spelled(alloc, &record.owner)?;
            records.push(PlainRecord::new(alloc, &record.owner, record.rtype, bytes)?)?;
        }
        PlainZone::new(alloc, &self.apex, records)
    }

    fn has(&self, name: &[Octets], rtype: u16) -> bool {
        self.records
            .iter()
            .any(|r| r.rtype == rtype && same(&r.owner, name))
    }

    fn is_delegation(&self, name: &[Octets]) -> bool {
        self.has(name, NS) && is_above(&self.apex, name)
    }

    fn is_below_delegation(&self, name: &[Octets]) -> bool {
        self.records.iter().any(|r| is_above(&r.owner, name) && self.is_delegation(&r.owner))
    }

    fn is_live(&self, name: &[Octets]) -> bool {
        at_or_above(&self.apex, name) && !self.is_below_delegation(name)
    }

    fn is_kept(&self, excluding: bool, name: &[Octets]) -> bool {
        let left_out = excluding && self.is_delegation(name) && !self.has(name, DS);
        self.is_live(name) && !left_out
    }

    fn exists(&self, name: &[Octets]) -> bool {
        let below = |r: &SmallRecord| self.is_live(&r.owner) && at_or_above(name, &r.owner);
        at_or_above(&self.apex, name) && self.records.iter().any(below)
    }

    fn is_redirected(&self, name: &[Octets]) -> bool {
        self.records.iter().any(|r| r.rtype == DNAME
            && is_above(&r.owner, name)
            && self.is_live(&r.owner))
    }

    /// Whether the wildcard under a missing name's closest encloser has CNAME.
    fn is_wildcard_alias(&self, alloc: Global, name: &[Octets]) -> Result<bool, AllocError> {
        match name.split_first() {
            None => Ok(false),
            Some((_, parent)) => {
                if self.exists(parent) {
                    Ok(self.has(&under(alloc, b"*", parent)?, CNAME))
                } else {
                    self.is_wildcard_alias(alloc, parent)
                }
            },
        }
    }

    /// Whether a name of this verdict is an alias: a DNAME stands above it, or where a type other
    /// than CNAME is missing, CNAME is there.
    pub fn is_alias(
        &self,
        alloc: Global,
        name: &[Octets],
        verdict: &PlainVerdict,
    ) -> Result<bool, AllocError> {
        if self.is_redirected(name) {
            return Ok(true);
        }
        match verdict {
            PlainVerdict::NoType => Ok(self.has(name, CNAME)),
            PlainVerdict::StarNoType => self.is_wildcard_alias(alloc, name),
            _ => Ok(false),
        }
    }

    /// The owners that a chain has records of, each once.
    pub fn kept_owners(
        &self,
        alloc: Global,
        excluding: bool,
    ) -> Result<Vec<Vec<Octets>>, AllocError> {
        let mut owners = Vec::new(alloc);
        for record in &self.records {
            if self.is_kept(excluding, &record.owner) && !is_among(&owners, &record.owner) {
                owners.push(copied(alloc, &record.owner)?)?;
            }
        }
        Ok(owners)
    }

    /// The RRset that the zone has signed for a question, with a number of labels, if it has one.
    pub fn signed(
        &self,
        alloc: Global,
        name: &[Octets],
        rtype: u16,
        labels: u8,
    ) -> Result<Option<PlainRrset>, AllocError> {
        let count = usize::from(labels);
        if count > label_count(name) {
            return Ok(None);
        }
        if count == label_count(name) {
            return self.signed_at(alloc, name, rtype, labels);
        }
        if count < self.apex.len() {
            return Ok(None);
        }
        let star = under(alloc, b"*", last_labels(name, count))?;
        self.signed_at(alloc, &star, rtype, labels)
    }

    fn signed_at(
        &self,
        alloc: Global,
        owner: &[Octets],
        rtype: u16,
        labels: u8,
    ) -> Result<Option<PlainRrset>, AllocError> {
        if !self.is_live(owner) || !self.has(owner, rtype) {
            return Ok(None);
        }
        if self.is_delegation(owner) && rtype != DS {
            return Ok(None);
        }
        let mut datas = Vec::new(alloc);
        datas.push(spelled(alloc, owner)?)?;
        Ok(Some(PlainRrset::new(datas, labels)))
    }
}

/// The octets of a name's labels, joined.
fn spelled(alloc: Global, name: &[Octets]) -> Result<Octets, AllocError> {
    let mut octets = Vec::new(alloc);
    for label in name {
        octets.extend_from_slice(label.as_slice())?;
        octets.push(b'.')?;
    }
    Octets::from_slice(alloc, &octets)
}
