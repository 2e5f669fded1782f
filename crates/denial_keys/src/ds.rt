//! Digests of delegated keys (RFC 4034, 5).

ghost use Rattle.std.specs.Prelude.{◌≡◌, ◌↔◌, ◌+◌, ◌≤◌, false, length, refl, Some, IsOk, IfOk};
ghost use Rattle.std.specs.Prelude.{IsTrue};
ghost use Rattle.std.specs.Ordering.{nat_cmp};
ghost use Rattle.std.specs.Cmp.Lexicographic.{slice_cmp};
ghost use Rattle.names_rdata.specs.Reading.{ReadsData, data_at};
ghost use Rattle.denial_fields.specs.Ended.{ended_part};
ghost use Rattle.denial_keys.specs.Keys.{ds_with, ds_data, ds_head, ds_text};

use denial_fields::ended::{cmp_ended, compose_ended, number_16, parse_ended};
use names_parser::error::ParseError;
use names_parser::parser::Parser;
use names_rdata::canonical::CanonicalOrd;
use names_rdata::composer::Composer;
use names_rdata::data::{ComposeRecordData, ParseRecordData, RecordData};
use names_rdata::digits::HexField;
use names_rdata::long::LongRecordData;
use names_rdata::octets::FieldOctets;
use names_rdata::rtype::Rtype;
use names_wire::builder::ShortBuf;
use names_wire::octets::Octets;
use numbers::algorithm::{DigestAlgorithm, SecurityAlgorithm};
use std::cmp::Ordering;
use std::fmt;
use std::marker::Model;

/// DS data: the tag and the algorithm of a key, the type of the digest and the digest, at most
/// 65,535 octets in all. DS data are equal, ordered and hashed by these fields.
#[derive(Drop)]
#[derive_where(PartialEq, Eq, PartialOrd, Ord, Hash)]
pub struct Ds<Octs: Octets> {
    key_tag: u16,
    algorithm: SecurityAlgorithm,
    digest_type: DigestAlgorithm,
    digest: FieldOctets<Octs>,
}

impl<Octs: Octets> Model for Ds<Octs> {
    ghost use Rattle.std.specs.Prelude.{◌+◌, ◌≤◌, length};
    ghost use Rattle.definitions.specs.Dnskey.{Ds as Digest};

    ghost Value = { Digest };

    ghost view = { λ d. record {
      tag = d.key_tag;
      algorithm = d.algorithm;
      digest_type = d.digest_type;
      digest = d.digest;
    } };

    ghost inverse = { λ d. record {
      key_tag = d.tag;
      algorithm = d.algorithm;
      digest_type = d.digest_type;
      digest = d.digest;
    } };

    ghost invariant = { λ d. 4 + length d.digest ≤ 65535 };
}

impl<Octs: Octets> Ds<Octs> {
    /// Data of a digest. More than 65,535 octets in all are refused, and the digest is dropped.
    pub fn new(
        key_tag: u16,
        algorithm: SecurityAlgorithm,
        digest_type: DigestAlgorithm,
        digest: Octs,
    ) -> Result<Self, LongRecordData>
    where
        Octs: Drop,
        ensures ok { let octets = Octs.bytes digest in
            IfOk result (λ d. d ≡ ds_with key_tag algorithm digest_type octets) }
        ensures accepts { IsOk result ↔ (4 + length (Octs.bytes digest) ≤ 65535) }
    {
        LongRecordData::check_append_len(4, digest.as_slice().len())?;
        Ok(Ds::new_unchecked(key_tag, algorithm, digest_type, digest))
    }

    /// Data of a digest that fits (`fits_rdlen`).
    pub fn new_unchecked(
        key_tag: u16,
        algorithm: SecurityAlgorithm,
        digest_type: DigestAlgorithm,
        digest: Octs,
    ) -> Self
        requires { 4 + length (Octs.bytes digest) ≤ 65535 }
        ensures { result ≡ ds_with key_tag algorithm digest_type (Octs.bytes digest) }
    {
        Ds {
            key_tag,
            algorithm,
            digest_type,
            digest: FieldOctets::new(digest),
        }
    }

    /// Whether data with this digest have at most 65,535 octets.
    pub fn fits_rdlen(digest: &Octs) -> bool
        ensures { IsTrue result ↔ (4 + length (Octs.bytes digest.now) ≤ 65535) }
    {
        LongRecordData::check_append_len(4, digest.as_slice().len()).is_ok()
    }

    /// The tag of the key (RFC 4034, B).
    pub fn key_tag(&self) -> u16
        ensures { result ≡ self.now.tag }
    {
        self.key_tag
    }

    pub fn algorithm(&self) -> SecurityAlgorithm
        ensures { result ≡ self.now.algorithm }
    {
        self.algorithm
    }

    pub fn digest_type(&self) -> DigestAlgorithm
        ensures { result ≡ self.now.digest_type }
    {
        self.digest_type
    }

    pub fn digest(&self) -> &Octs
        ensures { Octs.bytes result.now ≡ self.now.digest }
    {
        self.digest.as_octets()
    }

    pub fn into_digest(self) -> Octs
        ensures { Octs.bytes result ≡ self.digest }
    {
        self.digest.into_octets()
    }

    /// The octets before the digest.
    fn head(&self) -> [u8; 4]
        ensures { result ≡ ds_head self.now }
    {
        let [a, b] = self.key_tag.to_be_bytes();
        [a, b, self.algorithm.to_int(), self.digest_type.to_int()]
    }
}

impl<'a> Ds<&'a [u8]> {
    /// Reads the data up to the parser's end. A refused call leaves the parser where it was.
    pub fn parse(parser: &mut Parser<'a>) -> Result<Self, ParseError>
        ensures { let found = data_at ended_part parser.old in
            ReadsData found ds_data parser.old parser.new result }
    {
        let ([a, b, algorithm, digest_type], digest) = parse_ended(parser)?;
        Ok(Ds {
            key_tag: number_16([a, b]),
            algorithm: SecurityAlgorithm::from_int(algorithm),
            digest_type: DigestAlgorithm::from_int(digest_type),
            digest: FieldOctets::new(digest),
        })
    }
}

impl<Octs: Octets> RecordData for Ds<Octs> {
    ghost type_of = { λ _. 43 };

    ghost rdata = { ds_data };

    ghost canonical_rdata = { ds_data };

    ghost as_long = { λ d. refl };

    fn rtype(&self) -> Rtype {
        Rtype::DS
    }
}

impl<Octs: Octets> ComposeRecordData for Ds<Octs> {
    ghost compressible = { λ d. false };

    fn rdlen(&self, _compress: bool) -> Option<u16> {
        Some(4 + self.digest.as_slice().len() as u16)
    }

    fn compose_rdata<B: Composer>(&self, target: &mut B) -> Result<(), ShortBuf> {
        compose_ended(&self.head(), self.digest.as_slice(), target)
    }

    fn compose_canonical_rdata<B: Composer>(&self, target: &mut B) -> Result<(), ShortBuf> {
        self.compose_rdata(target)
    }
}

impl<'a> ParseRecordData<'a> for Ds<&'a [u8]> {
    ghost use Rattle.std.specs.Prelude.{nat_eq};

    ghost is_read = { λ t. nat_eq t 43 };

    ghost reading = { λ _ r. data_at ended_part r };

    fn parse_rdata(rtype: Rtype, parser: &mut Parser<'a>) -> Result<Option<Self>, ParseError> {
        if rtype != Rtype::DS {
            return Ok(None);
        }
        Ok(Some(Ds::parse(parser)?))
    }
}

/// The order of the octets (RFC 4034, 6.3).
impl<Octs: Octets> CanonicalOrd for Ds<Octs> {
    ghost canonical = { λ a b. slice_cmp nat_cmp (ds_data a) (ds_data b) };

    fn canonical_cmp(&self, other: &Self) -> Ordering {
        cmp_ended(
            &self.head(),
            self.digest.as_slice(),
            &other.head(),
            other.digest.as_slice(),
        )
    }
}

/// Tag, algorithm and type of the digest in decimal, and the digest in hexadecimal (RFC 4034, 5.3).
impl<Octs: Octets> fmt::Display for Ds<Octs> {
    ghost output = { λ d. Some (ds_text d) };

    fn fmt<W: fmt::Write>(&self, f: &mut fmt::Formatter<W>) -> fmt::Result {
        write!(
            f,
            "{} {} {}{}",
            self.key_tag,
            self.algorithm,
            self.digest_type,
            HexField(self.digest.as_slice())
        )
    }
}

/// The text of `Display`.
impl<Octs: Octets> fmt::Debug for Ds<Octs> {
    fn fmt<W: fmt::Write>(&self, f: &mut fmt::Formatter<W>) -> fmt::Result {
        fmt::Display::fmt(self, f)
    }
}
