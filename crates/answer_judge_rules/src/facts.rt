//! What verified records tell: an RRset, links of the chain of names and links of the chain of
//! hashes.
ghost use Rattle.std.specs.Prelude.{◌≡◌, ◌==◌};
ghost use Rattle.definitions.specs.Bitmap.{bitmap_has};
ghost use Rattle.denial_laws.specs.Facts.{is_expanded};
ghost use Rattle.names_parsed.specs.Parsed.{parsed_name};

use crate::verdict::DataList;
use denial_bitmap::bitmap::RtypeBitmap;
use denial_nsec_data::nsec::Nsec;
use denial_nsec_data::nsec3::Nsec3;
use messages::names::{Name, ParsedName, ZoneName};
use names_rdata::rtype::Rtype;
use std::marker::Model;

/// The verified RRset of a question: its data and the label count of the first signature that
/// verified it (RFC 4034, 3.1.3).
#[derive(Debug, Drop)]
pub struct Rrset {
    pub(crate) items: DataList,
    pub(crate) labels: u8,
}

impl Model for Rrset {
    ghost use Rattle.denial_laws.specs.Facts.{Rrset};

    ghost Value = { Rrset };

    ghost view = { λ r. record { datas = r.items; labels = r.labels } };
}

impl Rrset {
    /// An RRset of its data and its label count.
    pub fn new(items: DataList, labels: u8) -> Self
        ensures { result ≡ record { datas = items; labels = labels } }
    {
        Rrset { items, labels }
    }

    /// Whether it is a wildcard's, expanded to a name: its signature counts fewer labels than the
    /// name has.
    ///
    /// Without the comparison a wildcard's data, replayed, would answer for a name that exists
    /// (RFC 4035, 5.3.4).
    pub(crate) fn is_expanded(&self, name: &Name<Vec<u8>>) -> bool
        ensures { result ≡ is_expanded self.now name.now }
    {
        self.labels < name.rrsig_label_count()
    }
}

/// A verified NSEC record (RFC 4034, 4), in place. A contract sees owner, next name and the octets
/// of its bitmap.
#[derive(Drop)]
pub struct NsecLink<'a> {
    pub(crate) owner: ParsedName<'a>,
    nsec: Nsec<&'a [u8], ParsedName<'a>>,
}

impl<'a> Model for NsecLink<'a> {
    ghost use Rattle.names_parsed.specs.Parsed.{parsed_name};
    ghost use Rattle.denial_laws.specs.Facts.{Link};

    ghost Value = { Link };

    ghost view = { λ l. record {
      owner = parsed_name l.owner;
      next = parsed_name l.nsec.next_name;
      bits = l.nsec.types;
    } };
}

impl<'a> NsecLink<'a> {
    /// A link of its owner and its data.
    pub fn new(owner: ParsedName<'a>, nsec: Nsec<&'a [u8], ParsedName<'a>>) -> Self
        ensures owner { result.owner ≡ parsed_name owner.entry }
        ensures next { result.next ≡ parsed_name nsec.entry.next_name }
        ensures types { result.bits ≡ nsec.entry.types }
    {
        NsecLink { owner, nsec }
    }

    /// The next name.
    pub(crate) fn next(&self) -> &ParsedName<'a>
        ensures { parsed_name result.now ≡ self.now.next }
    {
        self.nsec.next_name()
    }

    /// The types of the owner.
    pub(crate) fn types(&self) -> &RtypeBitmap<&'a [u8]>
        ensures { result.now ≡ self.now.bits }
    {
        self.nsec.types()
    }

    /// Whether the owner has records of a type.
    pub(crate) fn has(&self, rtype: Rtype) -> bool
        ensures { result ≡ bitmap_has self.now.bits rtype }
    {
        self.types().contains(rtype)
    }
}

/// A verified NSEC3 record (RFC 5155, 3), its data in place. A contract sees the hash that its
/// owner spells, the next hash, the octets of its bitmap, whether it opts out, and how it was
/// hashed.
#[derive(Drop)]
pub struct HashLink<'a> {
    owner: Vec<u8>,
    nsec3: Nsec3<&'a [u8]>,
}

impl<'a> Model for HashLink<'a> {
    ghost use Rattle.std.specs.Prelude.{◌==◌};
    ghost use Rattle.denial_laws.specs.Facts.{HashLink};

    ghost Value = { HashLink };

    ghost view = { λ l. record {
      owner = l.owner.items;
      next = l.nsec3.next_owner;
      bits = l.nsec3.types;
      opt_out = l.nsec3.params.flags == 1;
      iterations = l.nsec3.params.iterations;
      salt = l.nsec3.params.salt;
    } };
}

impl<'a> HashLink<'a> {
    /// A link of the hash that its owner spells and its data, whose algorithm is SHA-1 and whose
    /// flags are 0 or 1.
    pub fn new(owner: Vec<u8>, nsec3: Nsec3<&'a [u8]>) -> Self
        ensures owner { result.owner ≡ owner.items }
        ensures next { result.next ≡ nsec3.entry.next_owner }
        ensures types { result.bits ≡ nsec3.entry.types }
        ensures opt_out { result.opt_out ≡ (nsec3.entry.params.flags == 1) }
        ensures iterations { result.iterations ≡ nsec3.entry.params.iterations }
        ensures salt { result.salt ≡ nsec3.entry.params.salt }
    {
        HashLink { owner, nsec3 }
    }

    /// The hash that the owner spells.
    pub(crate) fn owner(&self) -> &[u8]
        ensures { result.now ≡ self.now.owner }
    {
        &self.owner
    }

    /// The next hash.
    pub(crate) fn next(&self) -> &[u8]
        ensures { result.now ≡ self.now.next }
    {
        self.nsec3.next_owner().as_slice()
    }

    /// The types of the name whose hash the owner is.
    pub(crate) fn types(&self) -> &RtypeBitmap<&'a [u8]>
        ensures { result.now ≡ self.now.bits }
    {
        self.nsec3.types()
    }

    /// Whether delegations that aren't signed may lie between owner and next hash (RFC 5155, 6).
    pub(crate) fn opts_out(&self) -> bool
        ensures { result ≡ self.now.opt_out }
    {
        self.nsec3.flags() == 1
    }

    /// How often a hash is hashed again.
    pub fn iterations(&self) -> u16
        ensures { result ≡ self.now.iterations }
    {
        self.nsec3.iterations()
    }

    /// What is hashed behind a name.
    pub fn salt(&self) -> &[u8]
        ensures { result.now ≡ self.now.salt }
    {
        self.nsec3.salt().as_slice()
    }
}

/// All that was verified of an answer: the RRset of the question, if any, and links of both chains
/// in the order of the message.
#[derive(Drop)]
pub struct Facts<'a> {
    pub(crate) rrset: Option<Rrset>,
    pub(crate) links: Vec<NsecLink<'a>>,
    pub(crate) hash_links: Vec<HashLink<'a>>,
}

impl<'a> Model for Facts<'a> {
    ghost use Rattle.denial_laws.specs.Facts.{Facts};

    ghost Value = { Facts };

    ghost view = { λ f. record {
      rrset = f.rrset;
      links = f.links.items;
      hash_links = f.hash_links.items;
    } };
}

impl<'a> Facts<'a> {
    /// Facts of an RRset, if any, and links of both chains.
    pub fn new(
        rrset: Option<Rrset>,
        links: Vec<NsecLink<'a>>,
        hash_links: Vec<HashLink<'a>>,
    ) -> Self
        ensures { result ≡ record {
          rrset = rrset;
          links = links.entry.items;
          hash_links = hash_links.entry.items;
        } }
    {
        Facts {
            rrset,
            links,
            hash_links,
        }
    }

    /// The links of the chain of hashes.
    pub fn hash_links(&self) -> &[HashLink<'a>]
        ensures { result.now ≡ self.now.hash_links }
    {
        &self.hash_links
    }
}
