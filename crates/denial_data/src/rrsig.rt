//! Signatures (RFC 4034, 3).

ghost use Rattle.std.specs.Prelude.{◌≡◌, ◌↔◌, ◌+◌, ◌≤◌, ◌++◌, false, length, IsOk, IfOk, IsTrue};
ghost use Rattle.std.specs.Prelude.{OnOk, OnErr, take};
ghost use Rattle.std.specs.Ordering.{nat_cmp};
ghost use Rattle.std.specs.Cmp.Lexicographic.{slice_cmp};
ghost use Rattle.definitions.specs.Name.{IsName, wire};
ghost use Rattle.names_wire.specs.Room.{LeavesRoom};
ghost use Rattle.names_parsed.specs.Parsed.{parsed_name};
ghost use Rattle.names_rdata.specs.Reading.{ReadsData, ReadsPart, data_at};
ghost use Rattle.denial_data.specs.EqualData.{NumbersFit};
ghost use Rattle.denial_data.specs.Protos.{numbers_with};
ghost use Rattle.denial_data.specs.RrsigData.{rrsig_with, rrsig_len, rrsig_octets, rrsig_canonical};
ghost use Rattle.denial_data.specs.Signatures.{rrsig_part, signer_part, rrsig_text};

use crate::proto_rrsig::{Numbers, ProtoRrsig, compose_canonical_fields, compose_fields};
use denial_fields::digits::Base64Field;
use denial_fields::ended::cmp_ended;
use denial_fields::timestamp::Timestamp;
use names_labels::traits::{Labels, ToLabelIter};
use names_parsed::parsed::ParsedName;
use names_parser::error::ParseError;
use names_parser::parser::Parser;
use names_rdata::canonical::CanonicalOrd;
use names_rdata::composer::{Composer, or_undone};
use names_rdata::data::{ComposeRecordData, ParseRecordData, RecordData};
use names_rdata::long::LongRecordData;
use names_rdata::octets::FieldOctets;
use names_rdata::reading::{parse_array, parse_name, parse_rest};
use names_rdata::rtype::Rtype;
use names_traits::to_name::ToName;
use names_wire::builder::{OctetsBuilder, ShortBuf};
use names_wire::octets::Octets;
use numbers::algorithm::SecurityAlgorithm;
use numbers::ttl::Ttl;
use std::cmp::Ordering;
use std::fmt;
use std::marker::Model;

/// RRSIG data: the fields of a signature and the signature, at most 65,535 octets in all. RRSIG
/// data are equal, ordered and hashed by their numbers, then by their names, and then by the
/// signature.
#[derive(Drop)]
#[derive_where(PartialEq, Eq, PartialOrd, Ord, Hash; N)]
pub struct Rrsig<Octs: Octets, N: ToName> {
    proto: ProtoRrsig<N>,
    signature: FieldOctets<Octs>,
}

impl<Octs: Octets, N: ToName> Model for Rrsig<Octs, N> {
    ghost use Rattle.std.specs.Prelude.{◌≤◌, length};
    ghost use Rattle.denial_data.specs.RrsigData.{RrsigData, rrsig_with, rrsig_len};

    ghost Value = { RrsigData N };

    ghost view = { λ d. rrsig_with d.proto d.signature };

    ghost inverse = { λ d. record { proto = d.proto; signature = d.signature } };

    ghost invariant = { λ d. rrsig_len N.name d.proto.signer_name d.signature ≤ 65535 };
}

impl<Octs: Octets, N: ToName> Rrsig<Octs, N> {
    /// Data of these fields (`ProtoRrsig::new`) and of the signature. More than 65,535 octets in
    /// all are refused, and dropped.
    pub fn new(
        type_covered: Rtype,
        algorithm: SecurityAlgorithm,
        labels: u8,
        original_ttl: Ttl,
        expiration: Timestamp,
        inception: Timestamp,
        key_tag: u16,
        signer_name: N,
        signature: Octs,
    ) -> Result<Self, LongRecordData>
    where
        N: Drop,
        Octs: Drop,
        ensures numbers { IfOk result (λ d. d.proto.numbers ≡
            numbers_with type_covered algorithm labels original_ttl expiration inception key_tag) }
        ensures signer_name { IfOk result (λ d. d.proto.signer_name ≡ signer_name) }
        ensures signature { IfOk result (λ d. d.signature ≡ Octs.bytes signature) }
        ensures accepts { let len = rrsig_len N.name signer_name (Octs.bytes signature) in
            IsOk result ↔ (len ≤ 65535) }
    {
        let proto = ProtoRrsig::new(
            type_covered,
            algorithm,
            labels,
            original_ttl,
            expiration,
            inception,
            key_tag,
            signer_name,
        );
        Rrsig::from_parts(proto, signature)
    }

    /// Data that fit (`fits_rdlen`).
    pub fn new_unchecked(
        type_covered: Rtype,
        algorithm: SecurityAlgorithm,
        labels: u8,
        original_ttl: Ttl,
        expiration: Timestamp,
        inception: Timestamp,
        key_tag: u16,
        signer_name: N,
        signature: Octs,
    ) -> Self
        requires { rrsig_len N.name signer_name (Octs.bytes signature) ≤ 65535 }
        ensures numbers { result.proto.numbers ≡
            numbers_with type_covered algorithm labels original_ttl expiration inception key_tag }
        ensures signer_name { result.proto.signer_name ≡ signer_name }
        ensures signature { result.signature ≡ Octs.bytes signature }
    {
        Rrsig {
            proto: ProtoRrsig::new(
                type_covered,
                algorithm,
                labels,
                original_ttl,
                expiration,
                inception,
                key_tag,
                signer_name,
            ),
            signature: FieldOctets::new(signature),
        }
    }

    /// Data of the fields and the signature; refused where they are too long.
    pub(crate) fn from_parts(proto: ProtoRrsig<N>, signature: Octs) -> Result<Self, LongRecordData>
    where
        N: Drop,
        Octs: Drop,
        ensures ok { IfOk result (λ d. d ≡ rrsig_with proto (Octs.bytes signature)) }
        ensures accepts { let len = rrsig_len N.name proto.signer_name (Octs.bytes signature) in
            IsOk result ↔ (len ≤ 65535) }
    {
        if !Rrsig::fits_rdlen(&proto.signer_name, &signature) {
            return Err(LongRecordData);
        }
        Ok(Rrsig {
            proto,
            signature: FieldOctets::new(signature),
        })
    }

    /// Whether data of this signer and this signature have at most 65,535 octets.
    pub fn fits_rdlen(signer_name: &N, signature: &Octs) -> bool
        ensures { let len = rrsig_len N.name signer_name.now (Octs.bytes signature.now) in
            IsTrue result ↔ (len ≤ 65535) }
    {
        let _name = signer_name.label_count();
        let len = 18 + usize::from(signer_name.compose_len());
        LongRecordData::check_append_len(len, signature.as_slice().len()).is_ok()
    }

    /// How many octets the data take.
    fn len(&self) -> u16
        ensures { result ≡ rrsig_len N.name self.now.proto.signer_name self.now.signature }
    {
        let _name = self.proto.signer_name.label_count();
        let len = 18 + self.proto.signer_name.compose_len();
        len + self.signature.as_slice().len() as u16
    }

    /// The fields of the signature.
    pub fn proto(&self) -> &ProtoRrsig<N>
        ensures { result.now ≡ self.now.proto }
    {
        &self.proto
    }

    /// What all signatures keep, for callers whose proofs need it. It does nothing.
    pub fn keeps(&self)
        ensures numbers { NumbersFit self.now.proto.numbers }
        ensures signer { IsName (N.name self.now.proto.signer_name) }
    {
        let _type_and_tag = (self.type_covered().to_int(), self.key_tag());
        let _times = (self.expiration().into_int(), self.inception().into_int());
        let _ttl = self.original_ttl().as_secs();
        let _name = self.proto.signer_name.label_count();
    }

    /// The type of the records that are signed.
    pub fn type_covered(&self) -> Rtype
        ensures { result ≡ self.now.proto.numbers.type_covered }
    {
        Rtype::from_int(self.proto.numbers.type_covered)
    }

    pub fn algorithm(&self) -> SecurityAlgorithm
        ensures { result ≡ self.now.proto.numbers.algorithm }
    {
        SecurityAlgorithm::from_int(self.proto.numbers.algorithm)
    }

    /// The number of labels of the signed owner, without the root and a leading star (RFC 4034,
    /// 3.1.3).
    pub fn labels(&self) -> u8
        ensures { result ≡ self.now.proto.numbers.labels }
    {
        self.proto.numbers.labels
    }

    /// The TTL of the records that are signed.
    pub fn original_ttl(&self) -> Ttl
        ensures { result ≡ self.now.proto.numbers.original_ttl }
    {
        Ttl::from_secs(self.proto.numbers.original_ttl)
    }

    /// The last moment at which the signature holds.
    pub fn expiration(&self) -> Timestamp
        ensures { result ≡ self.now.proto.numbers.expiration }
    {
        Timestamp::from(self.proto.numbers.expiration)
    }

    /// The first moment at which the signature holds.
    pub fn inception(&self) -> Timestamp
        ensures { result ≡ self.now.proto.numbers.inception }
    {
        Timestamp::from(self.proto.numbers.inception)
    }

    /// The tag of the key (RFC 4034, B).
    pub fn key_tag(&self) -> u16
        ensures { result ≡ self.now.proto.numbers.key_tag }
    {
        self.proto.numbers.key_tag
    }

    /// The zone that the key belongs to.
    pub fn signer_name(&self) -> &N
        ensures { result.now ≡ self.now.proto.signer_name }
    {
        &self.proto.signer_name
    }

    pub fn signature(&self) -> &Octs
        ensures { Octs.bytes result.now ≡ self.now.signature }
    {
        self.signature.as_octets()
    }

    /// Replaces the signature. The new one has to fit (`fits_rdlen`).
    pub fn set_signature(&mut self, signature: Octs)
    where
        Octs: Drop,
        requires { rrsig_len N.name self.old.proto.signer_name (Octs.bytes signature) ≤ 65535 }
        ensures { self.new ≡ rrsig_with self.old.proto (Octs.bytes signature) }
    {
        self.signature = FieldOctets::new(signature);
    }
}

impl<'a> Rrsig<&'a [u8], ParsedName<'a>> {
    /// Reads the data up to the parser's end. A refused call leaves the parser where it was.
    pub fn parse(parser: &mut Parser<'a>) -> Result<Self, ParseError>
        ensures { let found = data_at rrsig_part parser.old in
            ReadsData found (rrsig_octets parsed_name) parser.old parser.new result }
    {
        let (_message, start) = (parser.as_slice(), parser.pos());
        match parse_fields(parser) {
            Ok(rrsig) => Ok(rrsig),
            Err(error) => {
                parser.seek(start)?;
                Err(error)
            }
        }
    }
}

/// Reads the signer and the signature.
fn parse_signer<'a>(parser: &mut Parser<'a>) -> Result<(ParsedName<'a>, &'a [u8]), ParseError>
    ensures { let old = parser.old in
        ReadsPart signer_part (λ s. wire (parsed_name s.0) ++ s.1.now) old parser.new result }
{
    let signer_name = parse_name(parser)?;
    let signature = parse_rest(parser)?;
    Ok((signer_name, signature))
}

fn parse_fields<'a>(parser: &mut Parser<'a>) -> Result<Rrsig<&'a [u8], ParsedName<'a>>, ParseError>
    ensures { ReadsPart rrsig_part (rrsig_octets parsed_name) parser.old parser.new result }
{
    let numbers = Numbers::of_octets(parse_array::<18>(parser)?);
    let (signer_name, signature) = parse_signer(parser)?;
    let proto = ProtoRrsig {
        numbers,
        signer_name,
    };
    Ok(Rrsig::from_parts(proto, signature)?)
}

impl<Octs: Octets, N: ToName> RecordData for Rrsig<Octs, N> {
    ghost use Rattle.denial_data.specs.SignatureLaws.{rrsig_as_long};

    ghost type_of = { λ _. 46 };

    ghost rdata = { rrsig_octets N.name };

    ghost canonical_rdata = { rrsig_canonical N.name };

    ghost as_long = { rrsig_as_long N.name };

    fn rtype(&self) -> Rtype {
        Rtype::RRSIG
    }
}

impl<Octs: Octets, N: ToName> ComposeRecordData for Rrsig<Octs, N> {
    ghost compressible = { λ d. false };

    fn rdlen(&self, _compress: bool) -> Option<u16> {
        Some(self.len())
    }

    fn compose_rdata<B: Composer>(&self, target: &mut B) -> Result<(), ShortBuf> {
        let len = target.as_slice().len();
        let done = compose_signed(self, target);
        or_undone(target, len, done)
    }

    fn compose_canonical_rdata<B: Composer>(&self, target: &mut B) -> Result<(), ShortBuf> {
        let len = target.as_slice().len();
        let done = compose_canonical_signed(self, target);
        or_undone(target, len, done)
    }
}

/// Appends the fields and the signature. A refused call leaves the parts for which there was room.
fn compose_signed<Octs: Octets, N: ToName, B: Composer>(
    rrsig: &Rrsig<Octs, N>,
    target: &mut B,
) -> Result<(), ShortBuf>
    ensures ok { let octets = rrsig_octets N.name rrsig.now in
        OnOk result (B.bytes target.new ≡ B.bytes target.old ++ octets) }
    ensures err { let old = B.bytes target.old in
        OnErr result (take (length old) (B.bytes target.new) ≡ old) }
    ensures full { OnErr result (B.lacks_room target.old (length (rrsig_octets N.name rrsig.now))) }
    ensures left { let n = length (rrsig_octets N.name rrsig.now) in
        OnOk result (LeavesRoom B.lacks_room target.old target.new n) }
{
    compose_fields(&rrsig.proto, target)?;
    target.append_slice(rrsig.signature.as_slice())
}

/// Appends the fields and the signature in canonical form. A refused call leaves the parts for
/// which there was room.
fn compose_canonical_signed<Octs: Octets, N: ToName, B: Composer>(
    rrsig: &Rrsig<Octs, N>,
    target: &mut B,
) -> Result<(), ShortBuf>
    ensures ok { let octets = rrsig_canonical N.name rrsig.now in
        OnOk result (B.bytes target.new ≡ B.bytes target.old ++ octets) }
    ensures err { let old = B.bytes target.old in
        OnErr result (take (length old) (B.bytes target.new) ≡ old) }
    ensures full { let n = length (rrsig_canonical N.name rrsig.now) in
        OnErr result (B.lacks_room target.old n) }
    ensures left { let n = length (rrsig_canonical N.name rrsig.now) in
        OnOk result (LeavesRoom B.lacks_room target.old target.new n) }
{
    compose_canonical_fields(&rrsig.proto, target)?;
    target.append_slice(rrsig.signature.as_slice())
}

impl<'a> ParseRecordData<'a> for Rrsig<&'a [u8], ParsedName<'a>> {
    ghost use Rattle.std.specs.Prelude.{nat_eq};

    ghost is_read = { λ t. nat_eq t 46 };

    ghost reading = { λ _ r. data_at rrsig_part r };

    fn parse_rdata(rtype: Rtype, parser: &mut Parser<'a>) -> Result<Option<Self>, ParseError> {
        if rtype != Rtype::RRSIG {
            return Ok(None);
        }
        Ok(Some(Rrsig::parse(parser)?))
    }
}

/// The order of the octets in canonical form (RFC 4034, 6.3).
impl<Octs: Octets, N: ToName> CanonicalOrd for Rrsig<Octs, N> {
    ghost canonical = { λ a b.
        slice_cmp nat_cmp (rrsig_canonical N.name a) (rrsig_canonical N.name b) };

    fn canonical_cmp(&self, other: &Self) -> Ordering {
        let (a, b) = (&self.proto, &other.proto);
        let _names = (a.signer_name.label_count(), b.signer_name.label_count());
        let order = a
            .numbers
            .octets()
            .as_slice()
            .cmp(b.numbers.octets().as_slice());
        let order = order.then(a.signer_name.lowercase_composed_cmp(&b.signer_name));
        order.then(self.signature.cmp(&other.signature))
    }
}

/// The type's name, the numbers in decimal, the signer as it is printed and the signature in base64
/// (RFC 4034, 3.2).
impl<Octs: Octets, N: ToName + fmt::Display> fmt::Display for Rrsig<Octs, N> {
    ghost output = { rrsig_text N.output };

    fn fmt<W: fmt::Write>(&self, f: &mut fmt::Formatter<W>) -> fmt::Result {
        write!(
            f,
            "{} {}{}",
            self.proto.numbers,
            self.proto.signer_name,
            Base64Field(self.signature.as_slice())
        )
    }
}
