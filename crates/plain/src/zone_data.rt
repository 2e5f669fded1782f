//! The data of a zone's records: SOA, NS, and other types as octets.

ghost use Rattle.std.specs.Prelude.{◌≡◌, IfOk};
ghost use Rattle.std.specs.Ordering.{nat_cmp};
ghost use Rattle.std.specs.Cmp.Lexicographic.{slice_cmp};
ghost use Rattle.names_parsed.specs.Parsed.{parsed_name};
ghost use Rattle.names_rdata.specs.Reading.{ReadsData, data_at};
ghost use Rattle.plain.specs.ZoneData.{zone_type, zone_octets, zone_canonical, zone_part};
ghost use Rattle.plain.specs.ZoneData.{zone_compressible};

use crate::ns::Ns;
use crate::soa::Soa;
use names_labels::traits::Absolute;
use names_parsed::parsed::ParsedName;
use names_parser::error::ParseError;
use names_parser::parser::Parser;
use names_rdata::composer::Composer;
use names_rdata::data::{ComposeRecordData, ParseAnyRecordData, ParseRecordData, RecordData};
use names_rdata::rtype::Rtype;
use names_rdata::unknown::UnknownRecordData;
use names_wire::builder::ShortBuf;
use names_wire::octets::Octets;

/// Data of a zone's record. Data of one variant are equal, ordered and hashed as that variant's
/// are. SOA data come first, then NS data, then others by their type.
#[derive(Drop)]
#[derive_where(PartialEq, Eq, PartialOrd, Ord, Hash; N)]
pub enum ZoneRecordData<Octs: Octets, N> {
    Soa(Soa<N>),
    Ns(Ns<N>),
    /// Data of any type, as octets. Data that are read of SOA and NS records never have this
    /// variant.
    Unknown(UnknownRecordData<Octs>),
}

impl<'a> ZoneRecordData<&'a [u8], ParsedName<'a>> {
    /// Reads the data up to the parser's end. A refused call leaves the parser where it was.
    pub fn parse(rtype: Rtype, parser: &mut Parser<'a>) -> Result<Self, ParseError>
        ensures read { let found = data_at (zone_part rtype) parser.old in
            ReadsData found (zone_octets parsed_name) parser.old parser.new result }
        ensures typed { IfOk result (λ d. zone_type d ≡ rtype) }
    {
        match rtype.to_int() {
            6 => Ok(ZoneRecordData::Soa(Soa::parse(parser)?)),
            2 => Ok(ZoneRecordData::Ns(Ns::parse(parser)?)),
            _ => Ok(ZoneRecordData::Unknown(UnknownRecordData::parse_any_rdata(rtype, parser)?)),
        }
    }
}

impl<Octs: Octets, N: Absolute> RecordData for ZoneRecordData<Octs, N> {
    ghost use Rattle.plain.specs.ZoneDataLaws.{zone_as_long};

    ghost type_of = { zone_type };

    ghost rdata = { zone_octets N.name };

    ghost canonical_rdata = { zone_canonical N.name };

    ghost as_long = { zone_as_long N.name };

    fn rtype(&self) -> Rtype {
        match self {
            ZoneRecordData::Soa(soa) => soa.rtype(),
            ZoneRecordData::Ns(ns) => ns.rtype(),
            ZoneRecordData::Unknown(unknown) => unknown.rtype(),
        }
    }
}

impl<Octs: Octets, N: Absolute> ComposeRecordData for ZoneRecordData<Octs, N> {
    ghost compressible = { zone_compressible };

    fn rdlen(&self, compress: bool) -> Option<u16> {
        match self {
            ZoneRecordData::Soa(soa) => soa.rdlen(compress),
            ZoneRecordData::Ns(ns) => ns.rdlen(compress),
            ZoneRecordData::Unknown(unknown) => unknown.rdlen(compress),
        }
    }

    fn compose_rdata<B: Composer>(&self, target: &mut B) -> Result<(), ShortBuf> {
        match self {
            ZoneRecordData::Soa(soa) => soa.compose_rdata(target),
            ZoneRecordData::Ns(ns) => ns.compose_rdata(target),
            ZoneRecordData::Unknown(unknown) => unknown.compose_rdata(target),
        }
    }

    fn compose_canonical_rdata<B: Composer>(&self, target: &mut B) -> Result<(), ShortBuf> {
        match self {
            ZoneRecordData::Soa(soa) => soa.compose_canonical_rdata(target),
            ZoneRecordData::Ns(ns) => ns.compose_canonical_rdata(target),
            ZoneRecordData::Unknown(unknown) => unknown.compose_canonical_rdata(target),
        }
    }
}

impl<'a> ParseRecordData<'a> for ZoneRecordData<&'a [u8], ParsedName<'a>> {
    ghost use Rattle.std.specs.Prelude.{true};

    ghost is_read = { λ _. true };

    ghost reading = { λ t r. data_at (zone_part t) r };

    fn parse_rdata(rtype: Rtype, parser: &mut Parser<'a>) -> Result<Option<Self>, ParseError> {
        Ok(Some(ZoneRecordData::parse(rtype, parser)?))
    }
}

impl<'a> ParseAnyRecordData<'a> for ZoneRecordData<&'a [u8], ParsedName<'a>> {
    ghost any_reading = { λ t r. data_at (zone_part t) r };

    fn parse_any_rdata(rtype: Rtype, parser: &mut Parser<'a>) -> Result<Self, ParseError> {
        ZoneRecordData::parse(rtype, parser)
    }
}
