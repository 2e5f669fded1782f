//! Records (RFC 1035, 3.2.1).

ghost use Rattle.std.specs.Prelude.{◌≡◌, ◌++◌, length, take, OnOk, OnErr};
ghost use Rattle.names_wire.specs.Room.{LeavesRoom};
ghost use Rattle.plain.specs.Records.{head_octets, record_octets, record_canonical};

use names_labels::order::name_cmp;
use names_labels::traits::Absolute;
use names_rdata::canonical::CanonicalOrd;
use names_rdata::composer::{Composer, compose_canonical_name, or_undone};
use names_rdata::data::{ComposeRecordData, RecordData};
use names_rdata::rtype::Rtype;
use names_wire::builder::{OctetsBuilder, ShortBuf};
use numbers::class::Class;
use numbers::ttl::Ttl;
use std::cmp::Ordering;

/// A record: its owner, its class, its TTL, and its data, which determine the type. Records are
/// equal, ordered and hashed by owner, class and data, whatever their TTL.
#[derive(Clone, Copy, Debug, Drop)]
#[derive_where(PartialEq, Eq, PartialOrd, Ord, Hash; N, D)]
pub struct Record<N, D> {
    owner: N,
    class: Class,
    #[derive_where(skip(EqHashOrd))]
    ttl: Ttl,
    content: D,
}

impl<N, D> Record<N, D> {
    pub fn new(owner: N, class: Class, ttl: Ttl, content: D) -> Self
        ensures owner { result.owner ≡ owner }
        ensures class { result.class ≡ class }
        ensures ttl { result.ttl ≡ ttl }
        ensures content { result.content ≡ content }
    {
        Record {
            owner,
            class,
            ttl,
            content,
        }
    }

    pub fn owner(&self) -> &N
        ensures { result.now ≡ self.now.owner }
    {
        &self.owner
    }

    pub fn class(&self) -> Class
        ensures { result ≡ self.now.class }
    {
        self.class
    }

    pub fn ttl(&self) -> Ttl
        ensures { result ≡ self.now.ttl }
    {
        self.ttl
    }

    pub fn data(&self) -> &D
        ensures { result.now ≡ self.now.content }
    {
        &self.content
    }
}

impl<N, D: RecordData> Record<N, D> {
    /// The type, which is that of the data.
    pub fn rtype(&self) -> Rtype
        ensures { result ≡ D.type_of self.now.content }
    {
        self.content.rtype()
    }
}

impl<N: Absolute, D: ComposeRecordData> Record<N, D> {
    /// Appends the record in wire form. A refused call leaves the target as it was.
    pub fn compose<B: Composer>(&self, target: &mut B) -> Result<(), ShortBuf>
        ensures ok { let octets = record_octets N.name D.type_of D.rdata self.now in
            OnOk result (B.bytes target.new ≡ B.bytes target.old ++ octets) }
        ensures err { OnErr result (B.bytes target.new ≡ B.bytes target.old) }
        ensures full { let n = length (record_octets N.name D.type_of D.rdata self.now) in
            OnErr result (B.lacks_room target.old n) }
        ensures left { let n = length (record_octets N.name D.type_of D.rdata self.now) in
            OnOk result (LeavesRoom B.lacks_room target.old target.new n) }
    {
        let len = target.as_slice().len();
        let done = compose_fields(self, target);
        or_undone(target, len, done)
    }

    /// Appends the record in canonical form, with the TTL that it has (RFC 4034, 6.2). A refused
    /// call leaves the target as it was.
    pub fn compose_canonical<B: Composer>(&self, target: &mut B) -> Result<(), ShortBuf>
        ensures ok { let octets = record_canonical N.name D.type_of D.canonical_rdata self.now in
            OnOk result (B.bytes target.new ≡ B.bytes target.old ++ octets) }
        ensures err { OnErr result (B.bytes target.new ≡ B.bytes target.old) }
        ensures full { let octets = record_canonical N.name D.type_of D.canonical_rdata self.now in
            OnErr result (B.lacks_room target.old (length octets)) }
        ensures left { let octets = record_canonical N.name D.type_of D.canonical_rdata self.now in
            OnOk result (LeavesRoom B.lacks_room target.old target.new (length octets)) }
    {
        let len = target.as_slice().len();
        let done = compose_canonical_fields(self, target);
        or_undone(target, len, done)
    }
}

/// Type, class and TTL.
fn head<N, D: RecordData>(rr: &Record<N, D>) -> [u8; 8]
    ensures { result ≡ head_octets (D.type_of rr.now.content) rr.now.class rr.now.ttl }
{
    let [a, b] = rr.rtype().to_int().to_be_bytes();
    let [c, d] = rr.class.to_int().to_be_bytes();
    let [e, f, g, h] = rr.ttl.as_secs().to_be_bytes();
    [a, b, c, d, e, f, g, h]
}

/// Appends the fields. A refused call leaves the fields for which there was room.
fn compose_fields<N: Absolute, D: ComposeRecordData, B: Composer>(
    rr: &Record<N, D>,
    target: &mut B,
) -> Result<(), ShortBuf>
    ensures ok { let octets = record_octets N.name D.type_of D.rdata rr.now in
        OnOk result (B.bytes target.new ≡ B.bytes target.old ++ octets) }
    ensures err { let old = B.bytes target.old in
        OnErr result (take (length old) (B.bytes target.new) ≡ old) }
    ensures full { let n = length (record_octets N.name D.type_of D.rdata rr.now) in
        OnErr result (B.lacks_room target.old n) }
    ensures left { let n = length (record_octets N.name D.type_of D.rdata rr.now) in
        OnOk result (LeavesRoom B.lacks_room target.old target.new n) }
{
    target.append_compressed_name(&rr.owner)?;
    target.append_slice(&head(rr))?;
    rr.content.compose_len_rdata(target)
}

/// Appends the fields in canonical form. A refused call leaves the fields for which there was room.
fn compose_canonical_fields<N: Absolute, D: ComposeRecordData, B: Composer>(
    rr: &Record<N, D>,
    target: &mut B,
) -> Result<(), ShortBuf>
    ensures ok { let octets = record_canonical N.name D.type_of D.canonical_rdata rr.now in
        OnOk result (B.bytes target.new ≡ B.bytes target.old ++ octets) }
    ensures err { let old = B.bytes target.old in
        OnErr result (take (length old) (B.bytes target.new) ≡ old) }
    ensures full { let octets = record_canonical N.name D.type_of D.canonical_rdata rr.now in
        OnErr result (B.lacks_room target.old (length octets)) }
    ensures left { let octets = record_canonical N.name D.type_of D.canonical_rdata rr.now in
        OnOk result (LeavesRoom B.lacks_room target.old target.new (length octets)) }
{
    compose_canonical_name(&rr.owner, target)?;
    target.append_slice(&head(rr))?;
    rr.content.compose_canonical_len_rdata(target)
}

/// Compares class, owner, type and data; TTLs are ignored.
impl<N: Absolute, D: RecordData + CanonicalOrd> CanonicalOrd for Record<N, D> {
    ghost use Rattle.plain.specs.Records.{record_canonical_cmp};

    ghost canonical = { record_canonical_cmp N.name D.type_of D.canonical };

    fn canonical_cmp(&self, other: &Self) -> Ordering {
        let order = self.class.cmp(&other.class);
        if order.is_ne() {
            return order;
        }
        let order = name_cmp(&self.owner, &other.owner);
        if order.is_ne() {
            return order;
        }
        let order = self.rtype().cmp(&other.rtype());
        if order.is_ne() {
            return order;
        }
        self.content.canonical_cmp(&other.content)
    }
}
