//! Parts of a link's data, read in a message.

ghost use Rattle.std.specs.Prelude.{◌≡◌, ◌++◌};
ghost use Rattle.names_rdata.specs.Reading.{ReadsPart};
ghost use Rattle.denial_nsec_data.specs.Bitmaps.{bitmap_part};

use denial_bitmap::bitmap::RtypeBitmap;
use names_parser::error::ParseError;
use names_parser::parser::Parser;
use names_rdata::reading::parse_rest;

/// A bitmap of all octets that are left.
pub(crate) fn parse_bitmap<'a>(parser: &mut Parser<'a>) -> Result<RtypeBitmap<&'a [u8]>, ParseError>
    ensures { ReadsPart bitmap_part (λ b. b) parser.old parser.new result }
{
    let octets = parse_rest(parser)?;
    let types = RtypeBitmap::from_octets(octets)?;
    Ok(types)
}
