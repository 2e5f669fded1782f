//! RRSIG data without the signature, over which the signature is made (RFC 4034, 3.1.8.1).

ghost use Rattle.std.specs.Prelude.{◌≡◌, ◌↔◌, ◌++◌, ◌≤◌, length, take, Some, IsOk, IfOk, OnOk};
ghost use Rattle.std.specs.Prelude.{OnErr};
ghost use Rattle.names_wire.specs.Room.{LeavesRoom};
ghost use Rattle.denial_data.specs.Protos.{numbers_with, numbers_octets, proto_octets};
ghost use Rattle.denial_data.specs.Protos.{proto_canonical};
ghost use Rattle.denial_data.specs.RrsigData.{rrsig_with, rrsig_len};

use crate::rrsig::Rrsig;
use denial_fields::ended::{number_16, number_32};
use denial_fields::timestamp::Timestamp;
use names_rdata::composer::{Composer, compose_canonical_name, compose_name, or_undone};
use names_rdata::long::LongRecordData;
use names_rdata::rtype::Rtype;
use names_traits::to_name::ToName;
use names_wire::builder::{OctetsBuilder, ShortBuf};
use names_wire::octets::Octets;
use numbers::algorithm::SecurityAlgorithm;
use numbers::ttl::Ttl;
use std::fmt;

/// The numbers of the data, in their order.
#[derive(Clone, Copy, Debug, PartialEq, Eq, PartialOrd, Ord, Hash)]
pub(crate) struct Numbers {
    pub type_covered: u16,
    pub algorithm: u8,
    pub labels: u8,
    pub original_ttl: u32,
    pub expiration: u32,
    pub inception: u32,
    pub key_tag: u16,
}

impl Numbers {
    #[tactic(auto, unfolding(crate::specs::Protos::numbers_octets))]
    pub(crate) fn octets(&self) -> [u8; 18]
        ensures { result ≡ numbers_octets self.now }
    {
        let [a, b] = self.type_covered.to_be_bytes();
        let [c, d, e, f] = self.original_ttl.to_be_bytes();
        let [g, h, i, j] = self.expiration.to_be_bytes();
        let [k, l, m, n] = self.inception.to_be_bytes();
        let [o, p] = self.key_tag.to_be_bytes();
        [
            a,
            b,
            self.algorithm,
            self.labels,
            c,
            d,
            e,
            f,
            g,
            h,
            i,
            j,
            k,
            l,
            m,
            n,
            o,
            p,
        ]
    }

    #[tactic(auto, unfolding(crate::specs::Protos::numbers_octets))]
    pub(crate) fn of_octets(octets: [u8; 18]) -> Self
        ensures { numbers_octets result ≡ octets }
    {
        let [
            a,
            b,
            algorithm,
            labels,
            c,
            d,
            e,
            f,
            g,
            h,
            i,
            j,
            k,
            l,
            m,
            n,
            o,
            p,
        ] = octets;
        Numbers {
            type_covered: number_16([a, b]),
            algorithm,
            labels,
            original_ttl: number_32([c, d, e, f]),
            expiration: number_32([g, h, i, j]),
            inception: number_32([k, l, m, n]),
            key_tag: number_16([o, p]),
        }
    }
}

/// The type's name and the numbers in decimal, a blank between.
impl fmt::Display for Numbers {
    ghost use Rattle.denial_data.specs.NumbersText.{numbers_text};

    ghost output = { λ n. Some (numbers_text n) };

    fn fmt<W: fmt::Write>(&self, f: &mut fmt::Formatter<W>) -> fmt::Result {
        let rtype = Rtype::from_int(self.type_covered);
        write!(
            f,
            "{} {} {} {}",
            rtype,
            self.algorithm,
            self.labels,
            Times(*self)
        )
    }
}

/// The last four of the numbers.
#[derive(Clone, Copy)]
struct Times(Numbers);

impl fmt::Display for Times {
    ghost use Rattle.denial_data.specs.NumbersText.{times_text};

    ghost output = { λ t. Some (times_text t.0) };

    fn fmt<W: fmt::Write>(&self, f: &mut fmt::Formatter<W>) -> fmt::Result {
        let numbers = self.0;
        write!(
            f,
            "{} {} {} {}",
            numbers.original_ttl, numbers.expiration, numbers.inception, numbers.key_tag
        )
    }
}

/// RRSIG data without the signature. They are equal, ordered and hashed by their numbers first and
/// then by their names.
#[derive(Clone, Copy, Debug, PartialEq, Eq, PartialOrd, Ord, Hash, Drop)]
pub struct ProtoRrsig<N> {
    pub(crate) numbers: Numbers,
    pub(crate) signer_name: N,
}

impl<N> ProtoRrsig<N> {
    /// The type covered, the algorithm of the key, the number of labels of the owner (without the
    /// root and a leading star), the original TTL, the expiration and the inception, the key tag
    /// and the signer's name.
    pub fn new(
        type_covered: Rtype,
        algorithm: SecurityAlgorithm,
        labels: u8,
        original_ttl: Ttl,
        expiration: Timestamp,
        inception: Timestamp,
        key_tag: u16,
        signer_name: N,
    ) -> Self
        ensures numbers { result.numbers ≡
            numbers_with type_covered algorithm labels original_ttl expiration inception key_tag }
        ensures signer_name { result.signer_name ≡ signer_name }
    {
        ProtoRrsig {
            numbers: Numbers {
                type_covered: type_covered.to_int(),
                algorithm: algorithm.to_int(),
                labels,
                original_ttl: original_ttl.as_secs(),
                expiration: expiration.into_int(),
                inception: inception.into_int(),
                key_tag,
            },
            signer_name,
        }
    }

    /// The type of the records that are signed.
    pub fn type_covered(&self) -> Rtype
        ensures { result ≡ self.now.numbers.type_covered }
    {
        Rtype::from_int(self.numbers.type_covered)
    }

    /// The number of labels of the owner, without the root and a leading star (RFC 4034, 3.1.3).
    pub fn labels(&self) -> u8
        ensures { result ≡ self.now.numbers.labels }
    {
        self.numbers.labels
    }

    /// The original TTL of the records that are signed.
    pub fn original_ttl(&self) -> Ttl
        ensures { result ≡ self.now.numbers.original_ttl }
    {
        Ttl::from_secs(self.numbers.original_ttl)
    }
}

impl<N: ToName> ProtoRrsig<N> {
    /// RRSIG data with this signature. More than 65,535 octets in all are refused, and dropped.
    pub fn into_rrsig<Octs: Octets + Drop>(
        self,
        signature: Octs,
    ) -> Result<Rrsig<Octs, N>, LongRecordData>
    where
        N: Drop,
        ensures ok { IfOk result (λ d. d ≡ rrsig_with self (Octs.bytes signature)) }
        ensures accepts { let len = rrsig_len N.name self.signer_name (Octs.bytes signature) in
            IsOk result ↔ (len ≤ 65535) }
    {
        Rrsig::from_parts(self, signature)
    }

    /// Appends the octets. A refused call leaves the target as it was.
    pub fn compose<B: Composer>(&self, target: &mut B) -> Result<(), ShortBuf>
        ensures ok { let octets = proto_octets N.name self.now in
            OnOk result (B.bytes target.new ≡ B.bytes target.old ++ octets) }
        ensures err { OnErr result (B.bytes target.new ≡ B.bytes target.old) }
        ensures full { let n = length (proto_octets N.name self.now) in
            OnErr result (B.lacks_room target.old n) }
        ensures left { let n = length (proto_octets N.name self.now) in
            OnOk result (LeavesRoom B.lacks_room target.old target.new n) }
    {
        let len = target.as_slice().len();
        let done = compose_fields(self, target);
        or_undone(target, len, done)
    }

    /// Appends the octets with the signer in lower case, as a signature is made over them
    /// (RFC 4034, 3.1.8.1). A refused call leaves the target as it was.
    pub fn compose_canonical<B: Composer>(&self, target: &mut B) -> Result<(), ShortBuf>
        ensures ok { let octets = proto_canonical N.name self.now in
            OnOk result (B.bytes target.new ≡ B.bytes target.old ++ octets) }
        ensures err { OnErr result (B.bytes target.new ≡ B.bytes target.old) }
        ensures full { let n = length (proto_canonical N.name self.now) in
            OnErr result (B.lacks_room target.old n) }
        ensures left { let n = length (proto_canonical N.name self.now) in
            OnOk result (LeavesRoom B.lacks_room target.old target.new n) }
    {
        let len = target.as_slice().len();
        let done = compose_canonical_fields(self, target);
        or_undone(target, len, done)
    }
}

/// Appends the fields. A refused call leaves the fields for which there was room.
pub(crate) fn compose_fields<N: ToName, B: Composer>(
    proto: &ProtoRrsig<N>,
    target: &mut B,
) -> Result<(), ShortBuf>
    ensures ok { let octets = proto_octets N.name proto.now in
        OnOk result (B.bytes target.new ≡ B.bytes target.old ++ octets) }
    ensures err { let old = B.bytes target.old in
        OnErr result (take (length old) (B.bytes target.new) ≡ old) }
    ensures full { OnErr result (B.lacks_room target.old (length (proto_octets N.name proto.now))) }
    ensures left { let n = length (proto_octets N.name proto.now) in
        OnOk result (LeavesRoom B.lacks_room target.old target.new n) }
{
    target.append_slice(&proto.numbers.octets())?;
    compose_name(&proto.signer_name, target)
}

/// Appends the fields in canonical form. A refused call leaves the fields for which there was room.
pub(crate) fn compose_canonical_fields<N: ToName, B: Composer>(
    proto: &ProtoRrsig<N>,
    target: &mut B,
) -> Result<(), ShortBuf>
    ensures ok { let octets = proto_canonical N.name proto.now in
        OnOk result (B.bytes target.new ≡ B.bytes target.old ++ octets) }
    ensures err { let old = B.bytes target.old in
        OnErr result (take (length old) (B.bytes target.new) ≡ old) }
    ensures full { let n = length (proto_canonical N.name proto.now) in
        OnErr result (B.lacks_room target.old n) }
    ensures left { let n = length (proto_canonical N.name proto.now) in
        OnOk result (LeavesRoom B.lacks_room target.old target.new n) }
{
    target.append_slice(&proto.numbers.octets())?;
    compose_canonical_name(&proto.signer_name, target)
}
