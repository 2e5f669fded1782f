//! Record data of any type, kept as octets (RFC 3597).

ghost use Rattle.std.specs.Prelude.{◌≡◌, ◌↔◌, ◌≤◌, length, false, Some, IsOk, IfOk};
ghost use Rattle.std.specs.Ordering.{nat_cmp};
ghost use Rattle.std.specs.Cmp.Lexicographic.{slice_cmp};
ghost use Rattle.names_rdata.specs.Reading.{ReadsData, data_at, limited, rest_part};
ghost use Rattle.names_rdata.specs.Unknown.{opaque_text};

use crate::canonical::CanonicalOrd;
use crate::composer::Composer;
use crate::data::{ComposeRecordData, ParseAnyRecordData, ParseRecordData, RecordData};
use crate::digits::HexField;
use crate::long::LongRecordData;
use crate::reading::{closed, parse_rest};
use crate::rtype::Rtype;
use names_parser::error::ParseError;
use names_parser::parser::Parser;
use names_wire::builder::{OctetsBuilder, ShortBuf};
use names_wire::octets::Octets;
use std::cmp::Ordering;
use std::fmt;
use std::marker::Model;

/// Record data of any type, kept as octets: at most 65,535. A contract sees the number of the type
/// and the octets.
#[derive(Drop)]
pub struct UnknownRecordData<Octs: Octets> {
    rtype: Rtype,
    octets: Octs,
}

impl<Octs: Octets> Model for UnknownRecordData<Octs> {
    ghost use Rattle.std.specs.Prelude.{◌≤◌, length};
    ghost use Rattle.names_rdata.specs.Unknown.{Opaque};

    ghost Value = { Opaque };

    ghost view = { λ d. record { rtype = d.rtype; octets = Octs.bytes d.octets } };

    ghost invariant = { λ d. length (Octs.bytes d.octets) ≤ 65535 };
}

impl<Octs: Octets> UnknownRecordData<Octs> {
    /// Data of the type. More than 65,535 octets are refused, and dropped.
    pub fn from_octets(rtype: Rtype, octets: Octs) -> Result<Self, LongRecordData>
    where
        Octs: Drop,
        ensures ok { IfOk result (λ d. d ≡ record { rtype = rtype; octets = Octs.bytes octets }) }
        ensures accepts { IsOk result ↔ (length (Octs.bytes octets) ≤ 65535) }
    {
        LongRecordData::check_len(octets.as_slice().len())?;
        Ok(UnknownRecordData { rtype, octets })
    }

    /// The type.
    pub fn rtype(&self) -> Rtype
        ensures { result ≡ self.now.rtype }
    {
        self.rtype
    }

    /// The octets.
    pub fn data(&self) -> &Octs
        ensures { Octs.bytes result.now ≡ self.now.octets }
    {
        &self.octets
    }

    /// The octets as a slice.
    pub fn as_slice(&self) -> &[u8]
        ensures value { result.now ≡ self.now.octets }
        ensures short { length result.now ≤ 65535 }
    {
        self.octets.as_slice()
    }
}

impl<'a> UnknownRecordData<&'a [u8]> {
    /// Reads all octets up to the parser's end as data of the type. More than 65,535 are refused,
    /// and a refused call leaves the parser where it was.
    pub fn parse_any_rdata(rtype: Rtype, parser: &mut Parser<'a>) -> Result<Self, ParseError>
        ensures read { let found = data_at (limited rest_part) parser.old in
            ReadsData found (λ d. d.octets) parser.old parser.new result }
        ensures typed { IfOk result (λ d. d.rtype ≡ rtype) }
    {
        let _message = parser.as_slice();
        LongRecordData::check_len(parser.remaining())?;
        let octets = parse_rest(parser)?;
        Ok(UnknownRecordData { rtype, octets })
    }
}

impl<Octs: Octets> RecordData for UnknownRecordData<Octs> {
    ghost use Rattle.std.specs.Prelude.{refl};

    ghost type_of = { λ d. d.rtype };

    ghost rdata = { λ d. d.octets };

    ghost canonical_rdata = { λ d. d.octets };

    ghost as_long = { λ d. refl };

    fn rtype(&self) -> Rtype {
        self.rtype
    }
}

impl<Octs: Octets> ComposeRecordData for UnknownRecordData<Octs> {
    ghost compressible = { λ d. false };

    fn rdlen(&self, _compress: bool) -> Option<u16> {
        Some(self.as_slice().len() as u16)
    }

    fn compose_rdata<B: Composer>(&self, target: &mut B) -> Result<(), ShortBuf> {
        target.append_slice(self.as_slice())
    }

    fn compose_canonical_rdata<B: Composer>(&self, target: &mut B) -> Result<(), ShortBuf> {
        target.append_slice(self.as_slice())
    }
}

impl<'a> ParseRecordData<'a> for UnknownRecordData<&'a [u8]> {
    ghost use Rattle.std.specs.Prelude.{true};

    ghost is_read = { λ _. true };

    ghost reading = { λ _ r. data_at (limited rest_part) r };

    fn parse_rdata(rtype: Rtype, parser: &mut Parser<'a>) -> Result<Option<Self>, ParseError> {
        Ok(Some(UnknownRecordData::parse_any_rdata(rtype, parser)?))
    }
}

impl<'a> ParseAnyRecordData<'a> for UnknownRecordData<&'a [u8]> {
    ghost any_reading = { λ _ r. data_at (limited rest_part) r };

    fn parse_any_rdata(rtype: Rtype, parser: &mut Parser<'a>) -> Result<Self, ParseError> {
        UnknownRecordData::<&'a [u8]>::parse_any_rdata(rtype, parser)
    }
}

/// The order of the octets (RFC 4034, 6.3).
impl<Octs: Octets> CanonicalOrd for UnknownRecordData<Octs> {
    ghost canonical = { λ a b. slice_cmp nat_cmp a.octets b.octets };

    fn canonical_cmp(&self, other: &Self) -> Ordering {
        self.as_slice().cmp(other.as_slice())
    }
}

/// `\#`, the number of octets, and the octets in lower-case hexadecimal, if there are any (RFC
/// 3597, 5).
impl<Octs: Octets> fmt::Display for UnknownRecordData<Octs> {
    ghost output = { λ d. Some (opaque_text d.octets) };

    fn fmt<W: fmt::Write>(&self, f: &mut fmt::Formatter<W>) -> fmt::Result {
        let octets = self.as_slice();
        write!(f, "\\# {}{}", octets.len(), HexField(octets))
    }
}
