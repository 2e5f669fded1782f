//! Parts of octets behind their lengths.
ghost use Rattle.std.specs.Prelude.{◌≡◌, ◌++◌, OnOk};
ghost use Rattle.names_rdata.specs.Composing.{with_length};
ghost use Rattle.answer_judge_octets.specs.Written.{IsLong, IsShort, with_long_length};

use std::alloc::AllocError;

/// Puts a part behind its length in two octets at the end. A longer one is refused as out of
/// memory.
pub(crate) fn put_short(octets: &mut Vec<u8>, part: &[u8]) -> Result<(), AllocError>
    ensures octets { OnOk result (octets.new.items ≡ octets.old.items ++ with_length part.now) }
    ensures short { OnOk result (IsShort part.now) }
{
    let len = u16::try_from(part.len()).map_err(|_| AllocError)?;
    octets.extend_from_slice(&len.to_be_bytes())?;
    octets.extend_from_slice(part)
}

/// Puts a part behind its length in four octets at the end. A longer one is refused as out of
/// memory.
pub(crate) fn put_long(octets: &mut Vec<u8>, part: &[u8]) -> Result<(), AllocError>
    ensures octets { OnOk result (octets.new.items ≡ octets.old.items
        ++ with_long_length part.now) }
    ensures long { OnOk result (IsLong part.now) }
{
    let len = u32::try_from(part.len()).map_err(|_| AllocError)?;
    octets.extend_from_slice(&len.to_be_bytes())?;
    octets.extend_from_slice(part)
}
