//! Links of the chain of names (RFC 4034, 4).

ghost use Rattle.std.specs.Prelude.{◌≡◌, ◌↔◌, ◌+◌, ◌≤◌, ◌++◌, false, length, refl, IsOk, IfOk};
ghost use Rattle.std.specs.Prelude.{IsTrue, OnOk, OnErr, take};
ghost use Rattle.std.specs.Ordering.{nat_cmp};
ghost use Rattle.std.specs.Cmp.Lexicographic.{slice_cmp};
ghost use Rattle.definitions.specs.Name.{wire};
ghost use Rattle.names_wire.specs.Room.{LeavesRoom};
ghost use Rattle.names_parsed.specs.Parsed.{parsed_name};
ghost use Rattle.names_rdata.specs.Reading.{ReadsData, ReadsPart, data_at};
ghost use Rattle.denial_nsec_data.specs.Nsec.{nsec_part};
ghost use Rattle.denial_nsec_data.specs.NsecData.{nsec_with, nsec_octets};

use crate::reading::parse_bitmap;
use denial_bitmap::bitmap::RtypeBitmap;
use names_labels::traits::{Labels, ToLabelIter};
use names_parsed::parsed::ParsedName;
use names_parser::error::ParseError;
use names_parser::parser::Parser;
use names_rdata::canonical::CanonicalOrd;
use names_rdata::composer::{Composer, compose_name, or_undone};
use names_rdata::data::{ComposeRecordData, ParseRecordData, RecordData};
use names_rdata::long::LongRecordData;
use names_rdata::reading::parse_name;
use names_rdata::rtype::Rtype;
use names_traits::to_name::ToName;
use names_wire::builder::{OctetsBuilder, ShortBuf};
use names_wire::octets::Octets;
use std::cmp::Ordering;
use std::marker::Model;

/// NSEC data: the next name of the chain and the types of this name, at most 65,535 octets in all.
/// NSEC data are equal, ordered and hashed by their names first and then by their bitmaps.
#[derive(Drop)]
#[derive_where(PartialEq, Eq, PartialOrd, Ord, Hash; N)]
pub struct Nsec<Octs: Octets, N: ToName> {
    next_name: N,
    types: RtypeBitmap<Octs>,
}

impl<Octs: Octets, N: ToName> Model for Nsec<Octs, N> {
    ghost use Rattle.std.specs.Prelude.{◌+◌, ◌≤◌, length};
    ghost use Rattle.denial_nsec_data.specs.NsecData.{NsecData, nsec_octets};

    ghost Value = { NsecData N };

    ghost view = { λ d. record { next_name = d.next_name; types = d.types } };

    ghost inverse = { λ d. record { next_name = d.next_name; types = d.types } };

    ghost invariant = { λ d. length (nsec_octets N.name
        (record { next_name = d.next_name; types = d.types })) ≤ 65535 };
}

impl<Octs: Octets, N: ToName> Nsec<Octs, N> {
    /// Data of a link. More than 65,535 octets in all are refused, and dropped.
    pub fn new(next_name: N, types: RtypeBitmap<Octs>) -> Result<Self, LongRecordData>
    where
        N: Drop,
        Octs: Drop,
        ensures ok { IfOk result (λ d. d ≡ nsec_with next_name types) }
        ensures accepts { let octets = nsec_octets N.name (nsec_with next_name types) in
            IsOk result ↔ (length octets ≤ 65535) }
    {
        if !Nsec::fits_rdlen(&next_name, &types) {
            return Err(LongRecordData);
        }
        Ok(Nsec { next_name, types })
    }

    /// Whether data of this name and these types have at most 65,535 octets.
    pub fn fits_rdlen(next_name: &N, types: &RtypeBitmap<Octs>) -> bool
        ensures { let octets = nsec_octets N.name (nsec_with next_name.now types.now) in
            IsTrue result ↔ (length octets ≤ 65535) }
    {
        let _name = next_name.label_count();
        let len = usize::from(next_name.compose_len());
        LongRecordData::check_append_len(len, types.as_slice().len()).is_ok()
    }

    pub fn next_name(&self) -> &N
        ensures { result.now ≡ self.now.next_name }
    {
        &self.next_name
    }

    /// Replaces the next name. The new one has to fit (`fits_rdlen`).
    pub fn set_next_name(&mut self, next_name: N)
    where
        N: Drop,
        requires { length (nsec_octets N.name (nsec_with next_name self.old.types)) ≤ 65535 }
        ensures { self.new ≡ nsec_with next_name self.old.types }
    {
        self.next_name = next_name;
    }

    pub fn types(&self) -> &RtypeBitmap<Octs>
        ensures { result.now ≡ self.now.types }
    {
        &self.types
    }
}

impl<'a> Nsec<&'a [u8], ParsedName<'a>> {
    /// Reads the data up to the parser's end. A refused call leaves the parser where it was.
    pub fn parse(parser: &mut Parser<'a>) -> Result<Self, ParseError>
        ensures { let found = data_at nsec_part parser.old in
            ReadsData found (nsec_octets parsed_name) parser.old parser.new result }
    {
        let (_message, start) = (parser.as_slice(), parser.pos());
        match parse_fields(parser) {
            Ok(nsec) => Ok(nsec),
            Err(error) => {
                parser.seek(start)?;
                Err(error)
            }
        }
    }
}

fn parse_fields<'a>(parser: &mut Parser<'a>) -> Result<Nsec<&'a [u8], ParsedName<'a>>, ParseError>
    ensures { ReadsPart nsec_part (nsec_octets parsed_name) parser.old parser.new result }
{
    let next_name = parse_name(parser)?;
    let types = parse_bitmap(parser)?;
    Ok(Nsec::new(next_name, types)?)
}

impl<Octs: Octets, N: ToName> RecordData for Nsec<Octs, N> {
    ghost type_of = { λ _. 47 };

    ghost rdata = { nsec_octets N.name };

    ghost canonical_rdata = { nsec_octets N.name };

    ghost as_long = { λ d. refl };

    fn rtype(&self) -> Rtype {
        Rtype::NSEC
    }
}

impl<Octs: Octets, N: ToName> ComposeRecordData for Nsec<Octs, N> {
    ghost compressible = { λ d. false };

    fn rdlen(&self, _compress: bool) -> Option<u16> {
        let _name = self.next_name.label_count();
        Some(self.next_name.compose_len() + self.types.as_slice().len() as u16)
    }

    fn compose_rdata<B: Composer>(&self, target: &mut B) -> Result<(), ShortBuf> {
        let len = target.as_slice().len();
        let done = compose_fields(self, target);
        or_undone(target, len, done)
    }

    fn compose_canonical_rdata<B: Composer>(&self, target: &mut B) -> Result<(), ShortBuf> {
        self.compose_rdata(target)
    }
}

/// Appends the fields. A refused call leaves the fields for which there was room.
fn compose_fields<Octs: Octets, N: ToName, B: Composer>(
    nsec: &Nsec<Octs, N>,
    target: &mut B,
) -> Result<(), ShortBuf>
    ensures ok { let octets = nsec_octets N.name nsec.now in
        OnOk result (B.bytes target.new ≡ B.bytes target.old ++ octets) }
    ensures err { let old = B.bytes target.old in
        OnErr result (take (length old) (B.bytes target.new) ≡ old) }
    ensures full { OnErr result (B.lacks_room target.old (length (nsec_octets N.name nsec.now))) }
    ensures left { let n = length (nsec_octets N.name nsec.now) in
        OnOk result (LeavesRoom B.lacks_room target.old target.new n) }
{
    compose_name(&nsec.next_name, target)?;
    target.append_slice(nsec.types.as_slice())
}

impl<'a> ParseRecordData<'a> for Nsec<&'a [u8], ParsedName<'a>> {
    ghost use Rattle.std.specs.Prelude.{nat_eq};

    ghost is_read = { λ t. nat_eq t 47 };

    ghost reading = { λ _ r. data_at nsec_part r };

    fn parse_rdata(rtype: Rtype, parser: &mut Parser<'a>) -> Result<Option<Self>, ParseError> {
        if rtype != Rtype::NSEC {
            return Ok(None);
        }
        Ok(Some(Nsec::parse(parser)?))
    }
}

/// The order of the octets in canonical form (RFC 4034, 6.3).
impl<Octs: Octets, N: ToName> CanonicalOrd for Nsec<Octs, N> {
    ghost canonical = { λ a b. slice_cmp nat_cmp (nsec_octets N.name a) (nsec_octets N.name b) };

    fn canonical_cmp(&self, other: &Self) -> Ordering {
        let _names = (self.next_name.label_count(), other.next_name.label_count());
        let order = self.next_name.composed_cmp(&other.next_name);
        order.then(self.types.canonical_cmp(&other.types))
    }
}
