//! Links of the chain of hashed names (RFC 5155, 3).

ghost use Rattle.std.specs.Prelude.{◌≡◌, ◌↔◌, ◌+◌, ◌≤◌, ◌++◌, ◌%◌, ◌==◌, false, length, refl, IsOk};
ghost use Rattle.std.specs.Prelude.{IfOk, IsTrue, OnOk, OnErr, take};
ghost use Rattle.std.specs.Ordering.{nat_cmp};
ghost use Rattle.std.specs.Cmp.Lexicographic.{slice_cmp};
ghost use Rattle.names_wire.specs.Room.{LeavesRoom};
ghost use Rattle.names_rdata.specs.Reading.{ReadsData, ReadsPart, data_at};
ghost use Rattle.denial_fields.specs.Counted.{counted, counted_part};
ghost use Rattle.denial_nsec_data.specs.Hashed.{nsec3_with, nsec3_octets, nsec3_part, tail_part};

use crate::nsec3param::{Nsec3param, compose_params, parse_params};
use crate::reading::parse_bitmap;
use denial_bitmap::bitmap::RtypeBitmap;
use denial_fields::counted::parse_counted;
use denial_fields::hash::OwnerHash;
use denial_fields::salt::Nsec3Salt;
use names_parser::error::ParseError;
use names_parser::parser::Parser;
use names_rdata::canonical::CanonicalOrd;
use names_rdata::composer::{Composer, or_undone};
use names_rdata::data::{ComposeRecordData, ParseRecordData, RecordData};
use names_rdata::long::LongRecordData;
use names_rdata::reading::closed;
use names_rdata::rtype::Rtype;
use names_wire::builder::{OctetsBuilder, ShortBuf};
use names_wire::octets::Octets;
use std::cmp::Ordering;
use std::marker::Model;

/// NSEC3 data: the parameters of the hash, the next hash of the chain and the types of this name,
/// at most 65,535 octets in all. NSEC3 data are equal, ordered and hashed by these fields.
#[derive(Drop)]
#[derive_where(PartialEq, Eq, PartialOrd, Ord, Hash)]
pub struct Nsec3<Octs: Octets> {
    params: Nsec3param<Octs>,
    next_owner: OwnerHash<Octs>,
    types: RtypeBitmap<Octs>,
}

impl<Octs: Octets> Model for Nsec3<Octs> {
    ghost use Rattle.std.specs.Prelude.{◌≤◌, length};
    ghost use Rattle.denial_nsec_data.specs.Hashed.{Nsec3Data, nsec3_octets};

    ghost Value = { Nsec3Data };

    ghost view = { λ d. record { params = d.params; next_owner = d.next_owner; types = d.types } };

    ghost inverse = { λ d. record {
      params = d.params;
      next_owner = d.next_owner;
      types = d.types;
    } };

    ghost invariant = { λ d. length (nsec3_octets
        (record { params = d.params; next_owner = d.next_owner; types = d.types })) ≤ 65535 };
}

impl<Octs: Octets> Nsec3<Octs> {
    /// Data of a link. More than 65,535 octets in all are refused, and dropped.
    pub fn new(
        hash_algorithm: u8,
        flags: u8,
        iterations: u16,
        salt: Nsec3Salt<Octs>,
        next_owner: OwnerHash<Octs>,
        types: RtypeBitmap<Octs>,
    ) -> Result<Self, LongRecordData>
    where
        Octs: Drop,
        ensures ok { IfOk result (λ d.
            d ≡ nsec3_with hash_algorithm flags iterations salt next_owner types) }
        ensures accepts { let found = nsec3_with 0 0 0 salt next_owner types in
            IsOk result ↔ (length (nsec3_octets found) ≤ 65535) }
    {
        if !Nsec3::fits_rdlen(&salt, &next_owner, &types) {
            return Err(LongRecordData);
        }
        Ok(Nsec3 {
            params: Nsec3param::new(hash_algorithm, flags, iterations, salt),
            next_owner,
            types,
        })
    }

    /// Whether data of these fields have at most 65,535 octets.
    pub fn fits_rdlen(
        salt: &Nsec3Salt<Octs>,
        next_owner: &OwnerHash<Octs>,
        types: &RtypeBitmap<Octs>,
    ) -> bool
        ensures { let found = nsec3_with 0 0 0 salt.now next_owner.now types.now in
            IsTrue result ↔ (length (nsec3_octets found) ≤ 65535) }
    {
        let len = 6 + salt.as_slice().len() + next_owner.as_slice().len();
        LongRecordData::check_append_len(len, types.as_slice().len()).is_ok()
    }

    /// The parameters of the hash, and the flags.
    pub(crate) fn params(&self) -> &Nsec3param<Octs>
        ensures { result.now ≡ self.now.params }
    {
        &self.params
    }

    /// The number of the hash's algorithm: 1 is SHA-1 (RFC 5155, 11).
    pub fn hash_algorithm(&self) -> u8
        ensures { result ≡ self.now.params.algorithm }
    {
        self.params.hash_algorithm()
    }

    pub fn flags(&self) -> u8
        ensures { result ≡ self.now.params.flags }
    {
        self.params.flags()
    }

    /// Whether unsigned delegations may be left out: the lowest bit (RFC 5155, 3.1.2.1).
    pub fn opt_out(&self) -> bool
        ensures { result ≡ (self.now.params.flags % 2 == 1) }
    {
        self.params.opt_out_flag()
    }

    /// The number of additional iterations of the hash.
    pub fn iterations(&self) -> u16
        ensures { result ≡ self.now.params.iterations }
    {
        self.params.iterations()
    }

    pub fn salt(&self) -> &Nsec3Salt<Octs>
        ensures { result.now ≡ self.now.params.salt }
    {
        self.params.salt()
    }

    pub fn next_owner(&self) -> &OwnerHash<Octs>
        ensures { result.now ≡ self.now.next_owner }
    {
        &self.next_owner
    }

    /// Replaces the next hash. The new one has to fit (`fits_rdlen`).
    pub fn set_next_owner(&mut self, next_owner: OwnerHash<Octs>)
    where
        Octs: Drop,
        requires { length (nsec3_octets (record self.old { next_owner = next_owner })) ≤ 65535 }
        ensures { self.new ≡ record self.old { next_owner = next_owner } }
    {
        self.next_owner = next_owner;
    }

    pub fn types(&self) -> &RtypeBitmap<Octs>
        ensures { result.now ≡ self.now.types }
    {
        &self.types
    }

    /// Replaces the types. The new ones have to fit (`fits_rdlen`).
    pub fn set_types(&mut self, types: RtypeBitmap<Octs>)
    where
        Octs: Drop,
        requires { length (nsec3_octets (record self.old { types = types })) ≤ 65535 }
        ensures { self.new ≡ record self.old { types = types } }
    {
        self.types = types;
    }
}

impl<'a> Nsec3<&'a [u8]> {
    /// Reads the data up to the parser's end. A refused call leaves the parser where it was.
    pub fn parse(parser: &mut Parser<'a>) -> Result<Self, ParseError>
        ensures { let found = data_at nsec3_part parser.old in
            ReadsData found nsec3_octets parser.old parser.new result }
    {
        let (_message, start) = (parser.as_slice(), parser.pos());
        let found = parse_fields(parser);
        closed(parser, start, found)
    }
}

/// Reads the next hash.
fn parse_hash<'a>(parser: &mut Parser<'a>) -> Result<OwnerHash<&'a [u8]>, ParseError>
    ensures { ReadsPart counted_part (λ h. counted h) parser.old parser.new result }
{
    let octets = parse_counted(parser)?;
    match OwnerHash::from_slice(octets) {
        Ok(hash) => Ok(hash),
        Err(_) => unreachable!(),
    }
}

/// Reads the next hash and the types.
fn parse_tail<'a>(
    parser: &mut Parser<'a>,
) -> Result<(OwnerHash<&'a [u8]>, RtypeBitmap<&'a [u8]>), ParseError>
    ensures { ReadsPart tail_part (λ t. counted t.0 ++ t.1) parser.old parser.new result }
{
    let next_owner = parse_hash(parser)?;
    let types = parse_bitmap(parser)?;
    Ok((next_owner, types))
}

fn parse_fields<'a>(parser: &mut Parser<'a>) -> Result<Nsec3<&'a [u8]>, ParseError>
    ensures { ReadsPart nsec3_part nsec3_octets parser.old parser.new result }
{
    let params = parse_params(parser)?;
    let (next_owner, types) = parse_tail(parser)?;
    if !Nsec3::fits_rdlen(params.salt(), &next_owner, &types) {
        return Err(LongRecordData.into());
    }
    Ok(Nsec3 {
        params,
        next_owner,
        types,
    })
}

impl<Octs: Octets> RecordData for Nsec3<Octs> {
    ghost type_of = { λ _. 50 };

    ghost rdata = { nsec3_octets };

    ghost canonical_rdata = { nsec3_octets };

    ghost as_long = { λ d. refl };

    fn rtype(&self) -> Rtype {
        Rtype::NSEC3
    }
}

impl<Octs: Octets> ComposeRecordData for Nsec3<Octs> {
    ghost compressible = { λ d. false };

    fn rdlen(&self, _compress: bool) -> Option<u16> {
        let fixed = 6 + self.salt().as_slice().len() + self.next_owner.as_slice().len();
        Some((fixed + self.types.as_slice().len()) as u16)
    }

    fn compose_rdata<B: Composer>(&self, target: &mut B) -> Result<(), ShortBuf> {
        let len = target.as_slice().len();
        let done = compose_fields(self, target);
        or_undone(target, len, done)
    }

    fn compose_canonical_rdata<B: Composer>(&self, target: &mut B) -> Result<(), ShortBuf> {
        self.compose_rdata(target)
    }
}

/// Appends the fields. A refused call leaves the fields for which there was room.
fn compose_fields<Octs: Octets, B: Composer>(
    nsec3: &Nsec3<Octs>,
    target: &mut B,
) -> Result<(), ShortBuf>
    ensures ok { let octets = nsec3_octets nsec3.now in
        OnOk result (B.bytes target.new ≡ B.bytes target.old ++ octets) }
    ensures err { let old = B.bytes target.old in
        OnErr result (take (length old) (B.bytes target.new) ≡ old) }
    ensures full { OnErr result (B.lacks_room target.old (length (nsec3_octets nsec3.now))) }
    ensures left { let n = length (nsec3_octets nsec3.now) in
        OnOk result (LeavesRoom B.lacks_room target.old target.new n) }
{
    compose_params(&nsec3.params, target)?;
    nsec3.next_owner.compose(target)?;
    target.append_slice(nsec3.types.as_slice())
}

impl<'a> ParseRecordData<'a> for Nsec3<&'a [u8]> {
    ghost use Rattle.std.specs.Prelude.{nat_eq};

    ghost is_read = { λ t. nat_eq t 50 };

    ghost reading = { λ _ r. data_at nsec3_part r };

    fn parse_rdata(rtype: Rtype, parser: &mut Parser<'a>) -> Result<Option<Self>, ParseError> {
        if rtype != Rtype::NSEC3 {
            return Ok(None);
        }
        Ok(Some(Nsec3::parse(parser)?))
    }
}

/// The order of the octets (RFC 4034, 6.3).
impl<Octs: Octets> CanonicalOrd for Nsec3<Octs> {
    ghost canonical = { λ a b. slice_cmp nat_cmp (nsec3_octets a) (nsec3_octets b) };

    fn canonical_cmp(&self, other: &Self) -> Ordering {
        let order = self.params.canonical_cmp(&other.params);
        let order = order.then(self.next_owner.canonical_cmp(&other.next_owner));
        order.then(self.types.canonical_cmp(&other.types))
    }
}
