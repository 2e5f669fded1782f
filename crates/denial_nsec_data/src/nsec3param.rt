//! What the names of a chain are hashed with (RFC 5155, 4).

ghost use Rattle.std.specs.Prelude.{◌≡◌, ◌+◌, ◌≤◌, ◌++◌, ◌%◌, ◌==◌, false, length, refl, Some};
ghost use Rattle.std.specs.Prelude.{OnOk, OnErr, take};
ghost use Rattle.std.specs.Ordering.{nat_cmp};
ghost use Rattle.std.specs.Cmp.Lexicographic.{slice_cmp};
ghost use Rattle.names_wire.specs.Room.{LeavesRoom};
ghost use Rattle.names_rdata.specs.Reading.{ReadsData, ReadsPart, data_at};
ghost use Rattle.denial_nsec_data.specs.Hashed.{nsec3param_with, nsec3param_head};
ghost use Rattle.denial_nsec_data.specs.Hashed.{nsec3param_octets, nsec3param_part};
ghost use Rattle.denial_nsec_data.specs.Hashed.{nsec3param_text, with_opt_out};

use denial_fields::ended::number_16;
use denial_fields::salt::Nsec3Salt;
use names_parser::error::ParseError;
use names_parser::parser::Parser;
use names_rdata::canonical::CanonicalOrd;
use names_rdata::composer::{Composer, or_undone};
use names_rdata::data::{ComposeRecordData, ParseRecordData, RecordData};
use names_rdata::reading::{closed, parse_array};
use names_rdata::rtype::Rtype;
use names_wire::builder::{OctetsBuilder, ShortBuf};
use names_wire::octets::Octets;
use std::cmp::Ordering;
use std::fmt;
use std::marker::Model;

/// NSEC3PARAM data: algorithm, flags, iterations and salt. NSEC3PARAM data are equal, ordered and
/// hashed by these fields.
#[derive(Drop)]
#[derive_where(PartialEq, Eq, PartialOrd, Ord, Hash)]
pub struct Nsec3param<Octs: Octets> {
    hash_algorithm: u8,
    flags: u8,
    iterations: u16,
    salt: Nsec3Salt<Octs>,
}

impl<Octs: Octets> Model for Nsec3param<Octs> {
    ghost use Rattle.denial_nsec_data.specs.Hashed.{Nsec3paramData};

    ghost Value = { Nsec3paramData };

    ghost view = { λ d. record {
      algorithm = d.hash_algorithm;
      flags = d.flags;
      iterations = d.iterations;
      salt = d.salt;
    } };

    ghost inverse = { λ d. record {
      hash_algorithm = d.algorithm;
      flags = d.flags;
      iterations = d.iterations;
      salt = d.salt;
    } };
}

impl<Octs: Octets> Nsec3param<Octs> {
    /// Data of these fields; they are never too long.
    pub fn new(hash_algorithm: u8, flags: u8, iterations: u16, salt: Nsec3Salt<Octs>) -> Self
        ensures { result ≡ nsec3param_with hash_algorithm flags iterations salt }
    {
        Nsec3param {
            hash_algorithm,
            flags,
            iterations,
            salt,
        }
    }

    /// The number of the hash's algorithm: 1 is SHA-1 (RFC 5155, 11).
    pub fn hash_algorithm(&self) -> u8
        ensures { result ≡ self.now.algorithm }
    {
        self.hash_algorithm
    }

    pub fn flags(&self) -> u8
        ensures { result ≡ self.now.flags }
    {
        self.flags
    }

    /// Whether unsigned delegations may be left out: the lowest bit (RFC 5155, 3.1.2.1).
    pub fn opt_out_flag(&self) -> bool
        ensures { result ≡ (self.now.flags % 2 == 1) }
    {
        self.flags % 2 == 1
    }

    /// Sets the flag of opt-out.
    pub fn set_opt_out_flag(&mut self)
        ensures { self.new ≡ record self.old { flags = with_opt_out self.old.flags } }
    {
        if self.flags % 2 == 0 {
            self.flags += 1;
        }
    }

    /// The number of additional iterations of the hash.
    pub fn iterations(&self) -> u16
        ensures { result ≡ self.now.iterations }
    {
        self.iterations
    }

    pub fn salt(&self) -> &Nsec3Salt<Octs>
        ensures { result.now ≡ self.now.salt }
    {
        &self.salt
    }

    pub fn into_salt(self) -> Nsec3Salt<Octs>
        ensures { result ≡ self.salt }
    {
        self.salt
    }

    /// The octets before the salt.
    fn head(&self) -> [u8; 4]
        ensures { result ≡ nsec3param_head self.now }
    {
        let [a, b] = self.iterations.to_be_bytes();
        [self.hash_algorithm, self.flags, a, b]
    }
}

impl<'a> Nsec3param<&'a [u8]> {
    /// Reads the data up to the parser's end. A refused call leaves the parser where it was.
    pub fn parse(parser: &mut Parser<'a>) -> Result<Self, ParseError>
        ensures { let found = data_at nsec3param_part parser.old in
            ReadsData found nsec3param_octets parser.old parser.new result }
    {
        let (_message, start) = (parser.as_slice(), parser.pos());
        let found = parse_params(parser);
        closed(parser, start, found)
    }
}

/// Reads the parameters at the front of the data; more may stand behind them.
pub(crate) fn parse_params<'a>(parser: &mut Parser<'a>) -> Result<Nsec3param<&'a [u8]>, ParseError>
    ensures { ReadsPart nsec3param_part nsec3param_octets parser.old parser.new result }
{
    let [hash_algorithm, flags, a, b] = parse_array::<4>(parser)?;
    let salt = Nsec3Salt::parse(parser)?;
    Ok(Nsec3param::new(hash_algorithm, flags, number_16([a, b]), salt))
}

impl<Octs: Octets> RecordData for Nsec3param<Octs> {
    ghost type_of = { λ _. 51 };

    ghost rdata = { nsec3param_octets };

    ghost canonical_rdata = { nsec3param_octets };

    ghost as_long = { λ d. refl };

    fn rtype(&self) -> Rtype {
        Rtype::NSEC3PARAM
    }
}

impl<Octs: Octets> ComposeRecordData for Nsec3param<Octs> {
    ghost compressible = { λ d. false };

    fn rdlen(&self, _compress: bool) -> Option<u16> {
        Some(5 + self.salt.as_slice().len() as u16)
    }

    fn compose_rdata<B: Composer>(&self, target: &mut B) -> Result<(), ShortBuf> {
        let len = target.as_slice().len();
        let done = compose_params(self, target);
        or_undone(target, len, done)
    }

    fn compose_canonical_rdata<B: Composer>(&self, target: &mut B) -> Result<(), ShortBuf> {
        self.compose_rdata(target)
    }
}

/// Appends the fields. A refused call leaves the fields for which there was room.
pub(crate) fn compose_params<Octs: Octets, B: Composer>(
    params: &Nsec3param<Octs>,
    target: &mut B,
) -> Result<(), ShortBuf>
    ensures ok { let octets = nsec3param_octets params.now in
        OnOk result (B.bytes target.new ≡ B.bytes target.old ++ octets) }
    ensures err { let old = B.bytes target.old in
        OnErr result (take (length old) (B.bytes target.new) ≡ old) }
    ensures full { OnErr result (B.lacks_room target.old (length (nsec3param_octets params.now))) }
    ensures left { let n = length (nsec3param_octets params.now) in
        OnOk result (LeavesRoom B.lacks_room target.old target.new n) }
{
    target.append_slice(&params.head())?;
    params.salt.compose(target)
}

impl<'a> ParseRecordData<'a> for Nsec3param<&'a [u8]> {
    ghost use Rattle.std.specs.Prelude.{nat_eq};

    ghost is_read = { λ t. nat_eq t 51 };

    ghost reading = { λ _ r. data_at nsec3param_part r };

    fn parse_rdata(rtype: Rtype, parser: &mut Parser<'a>) -> Result<Option<Self>, ParseError> {
        if rtype != Rtype::NSEC3PARAM {
            return Ok(None);
        }
        Ok(Some(Nsec3param::parse(parser)?))
    }
}

/// The order of the octets (RFC 4034, 6.3).
impl<Octs: Octets> CanonicalOrd for Nsec3param<Octs> {
    ghost canonical = { λ a b. slice_cmp nat_cmp (nsec3param_octets a) (nsec3param_octets b) };

    fn canonical_cmp(&self, other: &Self) -> Ordering {
        let order = self.head().as_slice().cmp(other.head().as_slice());
        order.then(self.salt.canonical_cmp(&other.salt))
    }
}

/// Algorithm, flags and iterations in decimal, and the salt (RFC 5155, 4.3).
impl<Octs: Octets> fmt::Display for Nsec3param<Octs> {
    ghost output = { λ d. Some (nsec3param_text d) };

    fn fmt<W: fmt::Write>(&self, f: &mut fmt::Formatter<W>) -> fmt::Result {
        write!(
            f,
            "{} {} {} {}",
            self.hash_algorithm, self.flags, self.iterations, self.salt
        )
    }
}
