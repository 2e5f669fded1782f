//! Facts: an RRset and the records of a chain, as they were verified.
ghost use Rattle.std.specs.Prelude.{◌≡◌, ℕ, ◌&&◌, List, IfOk, MatchOption, map};
ghost use Rattle.std.specs.Option.{option_map};
ghost use Rattle.definitions.specs.Name.{Name, low};
ghost use Rattle.denial_laws.specs.Facts.{is_expanded};

use crate::reference::names::label_count;
use definitions::reference::Octets;
use std::alloc::{AllocError, Global};
use std::marker::Model;

/// What hashes names, up to case (RFC 5155, 5).
pub trait NameHash {
    /// The hash of a name.
    ghost hash_of: { Self → List (List ℕ) → List ℕ };

    /// The hash of a name in lower case.
    fn hash(&self, alloc: Global, name: &[Octets]) -> Result<Octets, AllocError>
        ensures { IfOk result (λ h. h ≡ hash_of self.now (low name.now)) };
}

/// The RRset of the question: its data, ascending, and the label count of the signature that
/// verified it.
#[derive(Debug, Drop)]
pub struct PlainRrset {
    datas: Vec<Octets>,
    labels: u8,
}

impl Model for PlainRrset {
    ghost use Rattle.denial_laws.specs.Facts.{Rrset};

    ghost Value = { Rrset };

    ghost view = { λ r. record { datas = r.datas.items; labels = r.labels } };
}

impl PlainRrset {
    /// An RRset of its data and its label count.
    pub fn new(datas: Vec<Octets>, labels: u8) -> PlainRrset
        ensures { result ≡ record { datas = datas.items; labels = labels } }
    {
        PlainRrset { datas, labels }
    }

    /// Whether it is a wildcard's, expanded to a name.
    pub(super) fn is_expanded(&self, name: &[Octets]) -> bool
        ensures { result ≡ is_expanded self.now name.now }
    {
        usize::from(self.labels) < label_count(name)
    }

    /// The label count.
    pub(super) fn labels(&self) -> u8
        ensures { result ≡ self.now.labels }
    {
        self.labels
    }

    /// A copy of the data.
    pub(super) fn copied(&self, alloc: Global) -> Result<Vec<Octets>, AllocError>
        ensures { IfOk result (λ v. v.items ≡ self.now.datas) }
    {
        let mut copy = Vec::new(alloc);
        for octets in &self.datas {
            copy.push(Octets::from_slice(alloc, octets.as_slice())?)?;
        }
        Ok(copy)
    }
}

/// An NSEC record.
#[derive(Debug, Drop)]
pub struct PlainLink {
    pub(super) owner: Vec<Octets>,
    pub(super) next: Vec<Octets>,
    pub(super) bits: Octets,
}

impl Model for PlainLink {
    ghost use Rattle.denial_laws.specs.Facts.{Link};

    ghost Value = { Link };

    ghost view = { λ l. record { owner = l.owner.items; next = l.next.items; bits = l.bits } };
}

impl PlainLink {
    /// A record of its owner, the next name and the octets of its bitmap.
    pub fn new(owner: Vec<Octets>, next: Vec<Octets>, bits: Octets) -> PlainLink
        ensures { result ≡ record { owner = owner.items; next = next.items; bits = bits } }
    {
        PlainLink { owner, next, bits }
    }
}

/// How the names of an NSEC3 record are hashed, and whether it opts out (RFC 5155, 3.1).
#[derive(Debug, Drop)]
pub struct PlainParameters {
    pub opt_out: bool,
    pub iterations: u16,
    pub salt: Octets,
}

/// An NSEC3 record.
#[derive(Debug, Drop)]
pub struct PlainHashLink {
    pub(super) owner: Octets,
    pub(super) next: Octets,
    pub(super) bits: Octets,
    pub(super) parameters: PlainParameters,
}

impl Model for PlainHashLink {
    ghost use Rattle.denial_laws.specs.Facts.{HashLink};

    ghost Value = { HashLink };

    ghost view = { λ l. record {
      owner = l.owner;
      next = l.next;
      bits = l.bits;
      opt_out = l.parameters.opt_out;
      iterations = l.parameters.iterations;
      salt = l.parameters.salt;
    } };
}

impl PlainHashLink {
    /// A record of the hash of its owner, the next hash and the octets of its bitmap.
    pub fn new(
        owner: Octets,
        next: Octets,
        bits: Octets,
        parameters: PlainParameters,
    ) -> PlainHashLink
        ensures { result ≡ record {
          owner = owner;
          next = next;
          bits = bits;
          opt_out = parameters.opt_out;
          iterations = parameters.iterations;
          salt = parameters.salt;
        } }
    {
        PlainHashLink {
            owner,
            next,
            bits,
            parameters,
        }
    }
}

/// All that was verified, in the order of the message.
#[derive(Debug, Drop)]
pub struct PlainFacts {
    rrset: Option<PlainRrset>,
    links: Vec<PlainLink>,
    hash_links: Vec<PlainHashLink>,
}

impl Model for PlainFacts {
    ghost use Rattle.denial_laws.specs.Facts.{Facts};

    ghost Value = { Facts };

    ghost view = { λ f. record {
      rrset = f.rrset;
      links = f.links.items;
      hash_links = f.hash_links.items;
    } };
}

impl PlainFacts {
    /// Facts of an RRset, if any, and records of a chain.
    pub fn new(
        rrset: Option<PlainRrset>,
        links: Vec<PlainLink>,
        hash_links: Vec<PlainHashLink>,
    ) -> PlainFacts
        ensures { result ≡ record {
          rrset = rrset;
          links = links.items;
          hash_links = hash_links.items;
        } }
    {
        PlainFacts {
            rrset,
            links,
            hash_links,
        }
    }

    /// The RRset of the question.
    pub(super) fn rrset(&self) -> Option<&PlainRrset>
        ensures { option_map (λ r. r.now) result ≡ self.now.rrset }
    {
        self.rrset.as_ref()
    }

    /// The NSEC records.
    pub(super) fn links(&self) -> &[PlainLink]
        ensures { result.now ≡ self.now.links }
    {
        &self.links
    }

    /// The NSEC3 records.
    pub(super) fn hash_links(&self) -> &[PlainHashLink]
        ensures { result.now ≡ self.now.hash_links }
    {
        &self.hash_links
    }
}
