//! Messages as they are written (RFC 1035, 4.1), without compression.
//!
//! Where memory runs out, a header, a question or a record may have been written in part: callers
//! then drop the message.
ghost use Rattle.std.specs.Prelude.{◌≡◌, ◌<◌, ◌^◌, ◌++◌, length, OnOk, OnErr};
ghost use Rattle.std.specs.Int.{w16, w32, to_be_bytes};
ghost use Rattle.messages.specs.Written.{written, header_octets, question_octets, record_octets};

use crate::names::{Name, ZoneName};
use names_rdata::rtype::Rtype;
use plain::{Class, Ttl};
use std::alloc::AllocError;

/// Appends a header: id 0, the flags, one question, and the numbers of records of the answer and
/// the authority section (RFC 1035, 4.1.1).
#[tactic(auto, unfolding(crate::specs::Written::header_octets))]
pub fn push_header(
    out: &mut Vec<u8>,
    flags: u16,
    answers: u16,
    authority: u16,
) -> Result<(), AllocError>
    ensures { let more = header_octets flags answers authority in
        OnOk result (out.new.items ≡ out.old.items ++ more) }
{
    push_u16(out, 0)?;
    push_u16(out, flags)?;
    push_u16(out, 1)?;
    push_u16(out, answers)?;
    push_u16(out, authority)?;
    push_u16(out, 0)
}

/// Appends a question (RFC 1035, 4.1.2).
#[tactic(auto, unfolding(crate::specs::Written::question_octets))]
pub fn push_question(
    out: &mut Vec<u8>,
    name: &Name<Vec<u8>>,
    rtype: Rtype,
    class: Class,
) -> Result<(), AllocError>
    ensures { let more = question_octets name.now rtype class in
        OnOk result (out.new.items ≡ out.old.items ++ more) }
{
    name.compose(out)?;
    push_u16(out, rtype.to_int())?;
    push_u16(out, class.to_int())
}

/// Appends a record (RFC 1035, 4.1.3).
#[tactic(auto, unfolding(crate::specs::Written::record_octets))]
pub fn push_record(
    out: &mut Vec<u8>,
    owner: &Name<Vec<u8>>,
    rtype: Rtype,
    class: Class,
    ttl: Ttl,
    rdata: &[u8],
) -> Result<(), AllocError>
    requires { length rdata.now < 2 ^ 16 }
    ensures { OnOk result (out.new.items ≡ out.old.items
        ++ record_octets (written owner.now rtype class ttl rdata.now)) }
{
    owner.compose(out)?;
    push_u16(out, rtype.to_int())?;
    push_u16(out, class.to_int())?;
    push_u32(out, ttl.as_secs())?;
    push_u16(out, rdata.len() as u16)?;
    out.extend_from_slice(rdata)
}

/// Appends a 16-bit number, the highest octet first (RFC 1035, 2.3.2). A refused call appends
/// nothing.
pub fn push_u16(out: &mut Vec<u8>, number: u16) -> Result<(), AllocError>
    ensures ok { OnOk result (out.new.items ≡ out.old.items ++ to_be_bytes w16 number) }
    ensures err { OnErr result (out.new.items ≡ out.old.items) }
{
    out.extend_from_slice(&number.to_be_bytes())
}

/// Appends a 32-bit number, the highest octet first (RFC 1035, 2.3.2). A refused call appends
/// nothing.
pub fn push_u32(out: &mut Vec<u8>, number: u32) -> Result<(), AllocError>
    ensures ok { OnOk result (out.new.items ≡ out.old.items ++ to_be_bytes w32 number) }
    ensures err { OnErr result (out.new.items ≡ out.old.items) }
{
    out.extend_from_slice(&number.to_be_bytes())
}
