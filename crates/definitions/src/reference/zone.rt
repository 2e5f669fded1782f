//! A zone, and which of its names exist.
ghost use Rattle.std.specs.Prelude.{◌≡◌, IfOk};
ghost use Rattle.std.specs.List.{list_any};
ghost use Rattle.std.specs.Option.{option_map};
ghost use Rattle.std.specs.Ordering.{nat_cmp};
ghost use Rattle.std.specs.Cmp.Lexicographic.{slice_cmp};
ghost use Rattle.definitions.specs.Name.{low, at_or_above};
ghost use Rattle.definitions.specs.Zone.{owner_of, apex_of, is_of, has, is_delegation, cut};
ghost use Rattle.definitions.specs.Zone.{cut_above, is_live, is_kept, kept_owners, kept, exists};
ghost use Rattle.definitions.specs.Zone.{ce, kept_cut_above};

use crate::reference::names::{at_or_above, labels_eq, lowered, strictly_above};
use crate::reference::{DS, NS, Octets};
use std::alloc::{AllocError, Global};
use std::marker::Model;

/// A record of a zone, its owner in lower case. A contract sees owner, type and data.
#[derive(Debug, Drop)]
pub struct PlainRecord {
    owner: Vec<Octets>,
    rtype: u16,
    bytes: Octets,
}

impl Model for PlainRecord {
    ghost use Rattle.std.specs.Prelude.{◌≡◌};
    ghost use Rattle.definitions.specs.Name.{low};
    ghost use Rattle.definitions.specs.ReferenceViews.{RecordView};

    ghost Value = { RecordView };

    ghost view = { λ r. record { spelled = r.owner.items; rtype = r.rtype; bytes = r.bytes } };

    ghost invariant = { λ r. low r.owner.items ≡ r.owner.items };
}

impl PlainRecord {
    /// A record; the owner may be in any case, the data are to be in canonical form.
    pub fn new(
        alloc: Global,
        owner: &[Octets],
        rtype: u16,
        bytes: Octets,
    ) -> Result<PlainRecord, AllocError>
        ensures { let spelled = low owner.now in
            IfOk result (λ r. r ≡ record { spelled = spelled; rtype = rtype; bytes = bytes }) }
    {
        let owner = lowered(alloc, owner)?;
        Ok(PlainRecord {
            owner,
            rtype,
            bytes,
        })
    }

    /// The owner, in lower case.
    pub(super) fn owner(&self) -> &[Octets]
        ensures { result.now ≡ owner_of self.now }
    {
        &self.owner
    }

    /// The number of the type.
    pub(super) fn rtype(&self) -> u16
        ensures { result ≡ self.now.rtype }
    {
        self.rtype
    }

    /// The data.
    pub(super) fn data(&self) -> &[u8]
        ensures { result.now ≡ self.now.bytes }
    {
        self.bytes.as_slice()
    }

    /// Whether the record has an owner and a type.
    pub(super) fn is_of(&self, name: &[Octets], rtype: u16) -> bool
        ensures { result ≡ is_of name.now rtype self.now }
    {
        labels_eq(self.owner(), name) && self.rtype == rtype
    }
}

/// A zone: its apex and its records, whose order and repetition mean nothing.
#[derive(Debug, Drop)]
pub struct PlainZone {
    apex: Vec<Octets>,
    records: Vec<PlainRecord>,
}

impl Model for PlainZone {
    ghost use Rattle.std.specs.Prelude.{◌≡◌};
    ghost use Rattle.definitions.specs.Name.{low};
    ghost use Rattle.definitions.specs.ReferenceViews.{ZoneView};

    ghost Value = { ZoneView };

    ghost view = { λ z. record { name = z.apex.items; records = z.records.items } };

    ghost invariant = { λ z. low z.apex.items ≡ z.apex.items };
}

impl PlainZone {
    /// A zone of records.
    pub fn new(
        alloc: Global,
        name: &[Octets],
        records: Vec<PlainRecord>,
    ) -> Result<PlainZone, AllocError>
        ensures { IfOk result (λ z. z ≡ record { name = low name.now; records = records.items }) }
    {
        let apex = lowered(alloc, name)?;
        Ok(PlainZone { apex, records })
    }

    /// The name of the zone, in lower case.
    pub(super) fn apex(&self) -> &[Octets]
        ensures { result.now ≡ apex_of self.now }
    {
        &self.apex
    }

    /// The records.
    pub(super) fn records(&self) -> &[PlainRecord]
        ensures { result.now ≡ self.now.records }
    {
        &self.records
    }

    /// Whether the zone has a record of a name and a type.
    pub(super) fn has(&self, name: &[Octets], rtype: u16) -> bool
        ensures { result ≡ has self.now name.now rtype }
    {
        any_of(&self.records, name, rtype)
    }

    /// Whether a name is delegated: NS strictly below the apex (RFC 1034, 4.2).
    pub(super) fn is_delegation(&self, name: &[Octets]) -> bool
        ensures { result ≡ is_delegation self.now name.now }
    {
        self.has(name, NS) && strictly_above(self.apex(), name)
    }

    /// The topmost delegation at or above a name.
    pub(super) fn cut<'a>(&self, name: &'a [Octets]) -> Option<&'a [Octets]>
        ensures { option_map (λ c. c.now) result ≡ cut self.now name.now }
    {
        let (_, parent) = name.split_first()?;
        match self.cut(parent) {
            Some(cut) => Some(cut),
            None => {
                if self.is_delegation(name) {
                    Some(name)
                } else {
                    None
                }
            },
        }
    }

    /// The topmost delegation strictly above a name.
    fn cut_above<'a>(&self, name: &'a [Octets]) -> Option<&'a [Octets]>
        ensures { option_map (λ c. c.now) result ≡ cut_above self.now name.now }
    {
        let (_, parent) = name.split_first()?;
        self.cut(parent)
    }

    /// Whether a name is at or below the apex, and not strictly below a delegation.
    fn is_live(&self, name: &[Octets]) -> bool
        ensures { result ≡ is_live self.now name.now }
    {
        at_or_above(self.apex(), name) && self.cut_above(name).is_none()
    }

    /// Whether a name is live; where they are excluded, a delegation without DS is left out (RFC
    /// 5155, 6).
    fn is_kept(&self, excluding: bool, name: &[Octets]) -> bool
        ensures { result ≡ is_kept self.now excluding name.now }
    {
        let left_out = excluding && self.is_delegation(name) && !self.has(name, DS);
        self.is_live(name) && !left_out
    }

    /// Whether a name is at or below the apex, and at or above a kept owner.
    pub(super) fn kept(&self, excluding: bool, name: &[Octets]) -> bool
        ensures { result ≡ kept self.now excluding name.now }
    {
        at_or_above(self.apex(), name) && self.has_kept_owner_below(excluding, name)
    }

    /// Whether a name is at or above a kept owner.
    fn has_kept_owner_below(&self, excluding: bool, name: &[Octets]) -> bool
        ensures { result ≡ list_any (at_or_above name.now) (kept_owners self.now excluding) }
    {
        for record in self.records() {
            if self.is_kept(excluding, record.owner()) && at_or_above(name, record.owner()) {
                return true;
            }
        }
        false
    }

    /// Whether a name exists, empty non-terminals too (RFC 4592, 2.2).
    pub fn exists(&self, name: &[Octets]) -> bool
        ensures { result ≡ exists self.now name.now }
    {
        self.kept(false, name)
    }

    /// The longest ancestor of a name that exists (RFC 4592, 3.3.1).
    pub(super) fn closest_encloser<'a>(&self, name: &'a [Octets]) -> Option<&'a [Octets]>
        ensures { option_map (λ e. e.now) result ≡ ce self.now name.now }
    {
        let (_, parent) = name.split_first()?;
        if self.exists(parent) {
            Some(parent)
        } else {
            self.closest_encloser(parent)
        }
    }

    /// Whether a kept delegation stands strictly above a name.
    pub(super) fn kept_cut_above(&self, excluding: bool, name: &[Octets]) -> bool
        ensures { result ≡ kept_cut_above self.now excluding name.now }
    {
        match name.split_first() {
            None => false,
            Some((_, parent)) => {
                (self.is_delegation(parent) && self.is_kept(excluding, parent))
                    || self.kept_cut_above(excluding, parent)
            },
        }
    }
}

fn any_of(records: &[PlainRecord], name: &[Octets], rtype: u16) -> bool
    ensures { result ≡ list_any (is_of name.now rtype) records.now }
{
    records.iter().any(|r| r.is_of(name, rtype))
}
