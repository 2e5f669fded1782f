//! Parts of record data, read in a message.

ghost use Rattle.std.specs.Prelude.{◌≡◌, ◌≤◌, OnErr};
ghost use Rattle.std.specs.Int.{w32, to_be_bytes};
ghost use Rattle.definitions.specs.Name.{wire};
ghost use Rattle.names_parsed.specs.Parsed.{parsed_name};
ghost use Rattle.names_rdata.specs.Reading.{ReadsPart, Closes, name_part, octets_part, rest_part};

use names_parsed::parsed::ParsedName;
use names_parser::error::ParseError;
use names_parser::parse::Parse;
use names_parser::parser::Parser;

/// A name in data: it is read in the whole message and ends inside the data.
pub fn parse_name<'a>(parser: &mut Parser<'a>) -> Result<ParsedName<'a>, ParseError>
    ensures read { ReadsPart name_part (λ n. wire (parsed_name n)) parser.old parser.new result }
    ensures unchanged { OnErr result (parser.new ≡ parser.old) }
{
    ParsedName::parse(parser)
}

/// The next `N` octets.
pub fn parse_array<const N: usize>(parser: &mut Parser<'_>) -> Result<[u8; N], ParseError>
    ensures read { ReadsPart (octets_part N) (λ octets. octets) parser.old parser.new result }
    ensures unchanged { OnErr result (parser.new ≡ parser.old) }
{
    <[u8; N] as Parse>::parse(parser)
}

/// All octets that are left.
pub fn parse_rest<'a>(parser: &mut Parser<'a>) -> Result<&'a [u8], ParseError>
    ensures read { ReadsPart rest_part (λ octets. octets.now) parser.old parser.new result }
    ensures unchanged { OnErr result (parser.new ≡ parser.old) }
{
    let _octets = parser.as_slice();
    let len = parser.remaining();
    parser.parse_octets(len)
}

/// The value that was read, where the data end behind it. Otherwise the parser goes back to where
/// the data begin.
pub fn closed<T: Drop>(
    parser: &mut Parser<'_>,
    start: usize,
    found: Result<T, ParseError>,
) -> Result<T, ParseError>
    requires { start ≤ parser.old.end }
    ensures { Closes start parser.old parser.new found result }
{
    let _octets = parser.as_slice();
    let error = match found {
        Ok(value) => {
            if parser.remaining() == 0 {
                return Ok(value);
            }
            ParseError::form_error("trailing data in record data")
        }
        Err(error) => error,
    };
    parser.seek(start)?;
    Err(error)
}
