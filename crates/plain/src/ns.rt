//! Name servers (RFC 1035, 3.3.11).

ghost use Rattle.std.specs.Prelude.{◌≡◌};
ghost use Rattle.std.specs.Ordering.{nat_cmp};
ghost use Rattle.std.specs.Cmp.Lexicographic.{slice_cmp};
ghost use Rattle.definitions.specs.Name.{wire, low};
ghost use Rattle.names_parsed.specs.Parsed.{parsed_name};
ghost use Rattle.names_rdata.specs.Reading.{ReadsPart, ReadsData, data_at, name_part};
ghost use Rattle.plain.specs.Ns.{ns_octets, ns_canonical};

use names_labels::order::lowercase_composed_cmp;
use names_labels::traits::{Absolute, ToLabelIter};
use names_parsed::parsed::ParsedName;
use names_parser::error::ParseError;
use names_parser::parser::Parser;
use names_rdata::canonical::CanonicalOrd;
use names_rdata::composer::{Composer, compose_canonical_name};
use names_rdata::data::{ComposeRecordData, ParseRecordData, RecordData};
use names_rdata::reading::{closed, parse_name};
use names_rdata::rtype::Rtype;
use names_wire::builder::ShortBuf;
use std::cmp::Ordering;

/// NS data: the name of a server of the zone. NS data are equal, ordered and hashed as their names
/// are.
#[derive(Clone, Copy, Debug, PartialEq, Eq, PartialOrd, Ord, Hash, Drop)]
pub struct Ns<N> {
    nsdname: N,
}

impl<N> Ns<N> {
    pub fn new(nsdname: N) -> Self
        ensures { result.nsdname ≡ nsdname }
    {
        Ns { nsdname }
    }

    pub fn nsdname(&self) -> &N
        ensures { result.now ≡ self.now.nsdname }
    {
        &self.nsdname
    }
}

impl<'a> Ns<ParsedName<'a>> {
    /// Reads the data up to the parser's end. A refused call leaves the parser where it was.
    pub fn parse(parser: &mut Parser<'a>) -> Result<Self, ParseError>
        ensures { let found = data_at name_part parser.old in
            ReadsData found (ns_octets parsed_name) parser.old parser.new result }
    {
        let (_message, start) = (parser.as_slice(), parser.pos());
        let found = parse_fields(parser);
        closed(parser, start, found)
    }
}

fn parse_fields<'a>(parser: &mut Parser<'a>) -> Result<Ns<ParsedName<'a>>, ParseError>
    ensures { ReadsPart name_part (ns_octets parsed_name) parser.old parser.new result }
{
    Ok(Ns {
        nsdname: parse_name(parser)?,
    })
}

impl<N: Absolute> RecordData for Ns<N> {
    ghost use Rattle.plain.specs.NsLaws.{ns_as_long};

    ghost type_of = { λ _. 2 };

    ghost rdata = { ns_octets N.name };

    ghost canonical_rdata = { ns_canonical N.name };

    ghost as_long = { ns_as_long N.name };

    fn rtype(&self) -> Rtype {
        Rtype::NS
    }
}

impl<N: Absolute> ComposeRecordData for Ns<N> {
    ghost use Rattle.std.specs.Prelude.{true};

    ghost compressible = { λ _. true };

    fn rdlen(&self, compress: bool) -> Option<u16> {
        if compress {
            return None;
        }
        Some(self.nsdname.compose_len())
    }

    fn compose_rdata<B: Composer>(&self, target: &mut B) -> Result<(), ShortBuf> {
        target.append_compressed_name(&self.nsdname)
    }

    fn compose_canonical_rdata<B: Composer>(&self, target: &mut B) -> Result<(), ShortBuf> {
        compose_canonical_name(&self.nsdname, target)
    }
}

impl<'a> ParseRecordData<'a> for Ns<ParsedName<'a>> {
    ghost use Rattle.std.specs.Prelude.{nat_eq};

    ghost is_read = { λ t. nat_eq t 2 };

    ghost reading = { λ _ r. data_at name_part r };

    fn parse_rdata(rtype: Rtype, parser: &mut Parser<'a>) -> Result<Option<Self>, ParseError> {
        if rtype != Rtype::NS {
            return Ok(None);
        }
        Ok(Some(Ns::parse(parser)?))
    }
}

/// The order of the octets in canonical form (RFC 4034, 6.3).
impl<N: Absolute> CanonicalOrd for Ns<N> {
    ghost canonical = { λ a b. slice_cmp nat_cmp (ns_canonical N.name a) (ns_canonical N.name b) };

    fn canonical_cmp(&self, other: &Self) -> Ordering {
        lowercase_composed_cmp(&self.nsdname, &other.nsdname)
    }
}
