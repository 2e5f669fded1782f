//! Keys of a zone (RFC 4034, 2).

ghost use Rattle.std.specs.Prelude.{◌≡◌, ◌↔◌, ◌+◌, ◌≤◌, ◌/◌, ◌%◌, ◌==◌, false, length, refl, Some};
ghost use Rattle.std.specs.Prelude.{IsOk, IfOk, IsTrue};
ghost use Rattle.std.specs.Ordering.{nat_cmp};
ghost use Rattle.std.specs.Cmp.Lexicographic.{slice_cmp};
ghost use Rattle.definitions.specs.Dnskey.{dnskey_data, key_tag};
ghost use Rattle.names_rdata.specs.Reading.{ReadsData, data_at};
ghost use Rattle.denial_fields.specs.Ended.{ended_part};
ghost use Rattle.denial_keys.specs.Keys.{dnskey_with, dnskey_head, dnskey_text};

use crate::key_tag::{rsamd5_tag, sum_of, tag_of_sum};
use denial_fields::digits::Base64Field;
use denial_fields::ended::{cmp_ended, compose_ended, number_16, parse_ended};
use names_parser::error::ParseError;
use names_parser::parser::Parser;
use names_rdata::canonical::CanonicalOrd;
use names_rdata::composer::Composer;
use names_rdata::data::{ComposeRecordData, ParseRecordData, RecordData};
use names_rdata::long::LongRecordData;
use names_rdata::octets::FieldOctets;
use names_rdata::rtype::Rtype;
use names_wire::builder::ShortBuf;
use names_wire::octets::Octets;
use numbers::algorithm::SecurityAlgorithm;
use std::cmp::Ordering;
use std::fmt;
use std::marker::Model;

/// DNSKEY data: flags, protocol, algorithm and key, at most 65,535 octets in all. DNSKEY data are
/// equal, ordered and hashed by these fields.
#[derive(Drop)]
#[derive_where(PartialEq, Eq, PartialOrd, Ord, Hash)]
pub struct Dnskey<Octs: Octets> {
    flags: u16,
    protocol: u8,
    algorithm: SecurityAlgorithm,
    public_key: FieldOctets<Octs>,
}

impl<Octs: Octets> Model for Dnskey<Octs> {
    ghost use Rattle.std.specs.Prelude.{◌+◌, ◌≤◌, length};
    ghost use Rattle.definitions.specs.Dnskey.{Dnskey as Key};

    ghost Value = { Key };

    ghost view = { λ d. record {
      flags = d.flags;
      protocol = d.protocol;
      algorithm = d.algorithm;
      octets = d.public_key;
    } };

    ghost inverse = { λ d. record {
      flags = d.flags;
      protocol = d.protocol;
      algorithm = d.algorithm;
      public_key = d.octets;
    } };

    ghost invariant = { λ d. 4 + length d.public_key ≤ 65535 };
}

impl<Octs: Octets> Dnskey<Octs> {
    /// Data of a key. More than 65,535 octets in all are refused, and the key is dropped.
    pub fn new(
        flags: u16,
        protocol: u8,
        algorithm: SecurityAlgorithm,
        public_key: Octs,
    ) -> Result<Self, LongRecordData>
    where
        Octs: Drop,
        ensures ok { let key = Octs.bytes public_key in
            IfOk result (λ d. d ≡ dnskey_with flags protocol algorithm key) }
        ensures accepts { IsOk result ↔ (4 + length (Octs.bytes public_key) ≤ 65535) }
    {
        LongRecordData::check_append_len(4, public_key.as_slice().len())?;
        Ok(Dnskey::new_unchecked(flags, protocol, algorithm, public_key))
    }

    /// Data of a key that fits (`fits_rdlen`).
    pub fn new_unchecked(
        flags: u16,
        protocol: u8,
        algorithm: SecurityAlgorithm,
        public_key: Octs,
    ) -> Self
        requires { 4 + length (Octs.bytes public_key) ≤ 65535 }
        ensures { result ≡ dnskey_with flags protocol algorithm (Octs.bytes public_key) }
    {
        Dnskey {
            flags,
            protocol,
            algorithm,
            public_key: FieldOctets::new(public_key),
        }
    }

    /// Whether data with this key have at most 65,535 octets.
    pub fn fits_rdlen(public_key: &Octs) -> bool
        ensures { IsTrue result ↔ (4 + length (Octs.bytes public_key.now) ≤ 65535) }
    {
        LongRecordData::check_append_len(4, public_key.as_slice().len()).is_ok()
    }

    pub fn flags(&self) -> u16
        ensures { result ≡ self.now.flags }
    {
        self.flags
    }

    pub fn protocol(&self) -> u8
        ensures { result ≡ self.now.protocol }
    {
        self.protocol
    }

    pub fn algorithm(&self) -> SecurityAlgorithm
        ensures { result ≡ self.now.algorithm }
    {
        self.algorithm
    }

    pub fn public_key(&self) -> &Octs
        ensures { Octs.bytes result.now ≡ self.now.octets }
    {
        self.public_key.as_octets()
    }

    pub fn into_public_key(self) -> Octs
        ensures { Octs.bytes result ≡ self.octets }
    {
        self.public_key.into_octets()
    }

    /// The data with the octets of the key converted to another type. The converted octets have to
    /// fit (`fits_rdlen`).
    pub fn convert<Other: Octets + From<Octs>>(self) -> Dnskey<Other>
        requires { (key : Octs) (other : Other) → Octs.bytes key ≡ self.octets
            → Other.from_gives key other → 4 + length (Other.bytes other) ≤ 65535 }
        ensures { (key : Octs) × (other : Other) × (Octs.bytes key ≡ self.octets)
            × Other.from_gives key other × (result ≡ record self { octets = Other.bytes other }) }
    {
        let Dnskey {
            flags,
            protocol,
            algorithm,
            public_key,
        } = self;
        Dnskey::new_unchecked(
            flags,
            protocol,
            algorithm,
            Other::from(public_key.into_octets()),
        )
    }

    /// Whether the key signs records of the zone: bit 7 (RFC 4034, 2.1.1).
    pub fn is_zone_key(&self) -> bool
        ensures { result ≡ (self.now.flags / 256 % 2 == 1) }
    {
        self.flags / 256 % 2 == 1
    }

    /// Whether the key is meant to be known to the parent: bit 15 (RFC 4034, 2.1.1).
    pub fn is_secure_entry_point(&self) -> bool
        ensures { result ≡ (self.now.flags % 2 == 1) }
    {
        self.flags % 2 == 1
    }

    /// Whether the key is revoked: bit 8 (RFC 5011, 3).
    pub fn is_revoked(&self) -> bool
        ensures { result ≡ (self.now.flags / 128 % 2 == 1) }
    {
        self.flags / 128 % 2 == 1
    }

    /// The key tag (RFC 4034, B).
    pub fn key_tag(&self) -> u16
        ensures { result ≡ key_tag self.now }
    {
        let key = self.public_key.as_slice();
        if self.algorithm.to_int() == 1 {
            return rsamd5_tag(key);
        }
        let head = u32::from(self.flags)
            + u32::from(self.protocol) * 256
            + u32::from(self.algorithm.to_int());
        tag_of_sum(sum_of(key).wrapping_add(head))
    }

    /// The octets before the key.
    fn head(&self) -> [u8; 4]
        ensures { result ≡ dnskey_head self.now }
    {
        let [a, b] = self.flags.to_be_bytes();
        [a, b, self.protocol, self.algorithm.to_int()]
    }
}

impl<'a> Dnskey<&'a [u8]> {
    /// Reads the data up to the parser's end. A refused call leaves the parser where it was.
    pub fn parse(parser: &mut Parser<'a>) -> Result<Self, ParseError>
        ensures { let found = data_at ended_part parser.old in
            ReadsData found dnskey_data parser.old parser.new result }
    {
        let ([a, b, protocol, algorithm], public_key) = parse_ended(parser)?;
        Ok(Dnskey {
            flags: number_16([a, b]),
            protocol,
            algorithm: SecurityAlgorithm::from_int(algorithm),
            public_key: FieldOctets::new(public_key),
        })
    }
}

impl<Octs: Octets> RecordData for Dnskey<Octs> {
    ghost type_of = { λ _. 48 };

    ghost rdata = { dnskey_data };

    ghost canonical_rdata = { dnskey_data };

    ghost as_long = { λ d. refl };

    fn rtype(&self) -> Rtype {
        Rtype::DNSKEY
    }
}

impl<Octs: Octets> ComposeRecordData for Dnskey<Octs> {
    ghost compressible = { λ d. false };

    fn rdlen(&self, _compress: bool) -> Option<u16> {
        Some(4 + self.public_key.as_slice().len() as u16)
    }

    fn compose_rdata<B: Composer>(&self, target: &mut B) -> Result<(), ShortBuf> {
        compose_ended(&self.head(), self.public_key.as_slice(), target)
    }

    fn compose_canonical_rdata<B: Composer>(&self, target: &mut B) -> Result<(), ShortBuf> {
        self.compose_rdata(target)
    }
}

impl<'a> ParseRecordData<'a> for Dnskey<&'a [u8]> {
    ghost use Rattle.std.specs.Prelude.{nat_eq};

    ghost is_read = { λ t. nat_eq t 48 };

    ghost reading = { λ _ r. data_at ended_part r };

    fn parse_rdata(rtype: Rtype, parser: &mut Parser<'a>) -> Result<Option<Self>, ParseError> {
        if rtype != Rtype::DNSKEY {
            return Ok(None);
        }
        Ok(Some(Dnskey::parse(parser)?))
    }
}

/// The order of the octets (RFC 4034, 6.3).
impl<Octs: Octets> CanonicalOrd for Dnskey<Octs> {
    ghost canonical = { λ a b. slice_cmp nat_cmp (dnskey_data a) (dnskey_data b) };

    fn canonical_cmp(&self, other: &Self) -> Ordering {
        cmp_ended(
            &self.head(),
            self.public_key.as_slice(),
            &other.head(),
            other.public_key.as_slice(),
        )
    }
}

/// Flags, protocol and algorithm in decimal, and the key in base64 (RFC 4034, 2.2).
impl<Octs: Octets> fmt::Display for Dnskey<Octs> {
    ghost output = { λ d. Some (dnskey_text d) };

    fn fmt<W: fmt::Write>(&self, f: &mut fmt::Formatter<W>) -> fmt::Result {
        write!(
            f,
            "{} {} {}{}",
            self.flags,
            self.protocol,
            self.algorithm,
            Base64Field(self.public_key.as_slice())
        )
    }
}

/// The text of `Display`.
impl<Octs: Octets> fmt::Debug for Dnskey<Octs> {
    fn fmt<W: fmt::Write>(&self, f: &mut fmt::Formatter<W>) -> fmt::Result {
        fmt::Display::fmt(self, f)
    }
}
