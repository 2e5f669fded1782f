//! Replies without records, as they are written (RFC 1035, 4.1; RFC 6891, 6.1).
//!
//! Where memory runs out, a reply may have been written in part: callers then drop it.
ghost use Rattle.std.specs.Prelude.{◌≡◌, ◌++◌, OnOk};
ghost use Rattle.messages.specs.Written.{question_octets};
ghost use Rattle.names_parsed.specs.Parsed.{parsed_name};
ghost use Rattle.server_queries.specs.Rcodes.{rcode_number};
ghost use Rattle.server_queries.specs.Replies.{error_octets, header_octets, opt_bits, opt_octets};
ghost use Rattle.server_queries.specs.Replies.{reply_flags};
ghost use Rattle.server_queries.specs.Views.{refused_of};

use crate::edns::Edns;
use crate::header::RequestHeader;
use crate::query::ErrorReply;
use crate::rcode::Rcode;
use messages::names::ParsedName;
use messages::question::Question;
use messages::write::{push_u16, push_u32};
use names_rdata::composer::compose_name;
use plain::Rtype;
use std::alloc::AllocError;

/// Appends the reply to a request that is refused: its header, the question as it was spelled, and
/// an OPT record where the request had one, which says how many octets this server takes by UDP.
pub fn write_refusal(
    out: &mut Vec<u8>,
    reply: &ErrorReply<'_>,
    udp_size: u16,
) -> Result<(), AllocError>
    ensures { let more = error_octets udp_size (refused_of reply.now) in
        OnOk result (out.new.items ≡ out.old.items ++ more) }
{
    let questions = u16::from(reply.question.is_some());
    let additional = u16::from(reply.edns.is_some());
    push_reply_header(out, reply.header, reply.rcode, questions, additional)?;
    if let Some(question) = &reply.question {
        push_question(out, question)?;
    }
    if let Some(edns) = &reply.edns {
        push_opt(out, udp_size, reply.rcode, edns.dnssec_ok)?;
    }
    Ok(())
}

/// Appends the header of a reply: id, opcode and RD of the request, the low four bits of the
/// RCODE, and how many questions and additional records follow. All other bits are clear, CD too
/// (RFC 4035, 3.1.6).
#[tactic(auto, unfolding(crate::specs::Replies::header_octets))]
pub fn push_reply_header(
    out: &mut Vec<u8>,
    header: RequestHeader,
    rcode: Rcode,
    questions: u16,
    additional: u16,
) -> Result<(), AllocError>
    ensures { let more = header_octets header (rcode_number rcode) questions additional in
        OnOk result (out.new.items ≡ out.old.items ++ more) }
{
    push_u16(out, header.id)?;
    push_u16(out, reply_flags(header, rcode))?;
    push_u16(out, questions)?;
    push_u16(out, 0)?;
    push_u16(out, 0)?;
    push_u16(out, additional)
}

/// The second 16 bits of a reply: QR, then opcode and RD of the request, and the low four bits of
/// the RCODE.
fn reply_flags(header: RequestHeader, rcode: Rcode) -> u16
    ensures { result ≡ reply_flags header (rcode_number rcode) }
{
    let opcode = u16::from(header.opcode());
    let desired = u16::from(header.is_recursion_desired());
    0x8000 + opcode * 0x0800 + desired * 0x0100 + rcode.to_int() % 16
}

/// Appends a question, in the client's spelling, so that a reply is known by it (RFC 5452, 9.1).
#[tactic(auto, unfolding(messages::specs::Written::question_octets))]
fn push_question(out: &mut Vec<u8>, question: &Question<ParsedName<'_>>) -> Result<(), AllocError>
    ensures { let name = parsed_name question.now.name in
        let more = question_octets name question.now.rtype question.now.class in
        OnOk result (out.new.items ≡ out.old.items ++ more) }
{
    if compose_name(&question.name, out).is_err() {
        return Err(AllocError);
    }
    push_u16(out, question.rtype.to_int())?;
    push_u16(out, question.class.to_int())
}

/// Appends an OPT record of version 0 without options, which has the upper bits of the RCODE.
#[tactic(auto, unfolding(crate::specs::Replies::opt_octets))]
fn push_opt(
    out: &mut Vec<u8>,
    udp_size: u16,
    rcode: Rcode,
    dnssec_ok: bool,
) -> Result<(), AllocError>
    ensures { let more = opt_octets udp_size (rcode_number rcode) dnssec_ok in
        OnOk result (out.new.items ≡ out.old.items ++ more) }
{
    out.extend_from_slice(&[0])?;
    push_u16(out, Rtype::OPT.to_int())?;
    push_u16(out, udp_size)?;
    push_u32(out, opt_bits(rcode, dnssec_ok))?;
    push_u16(out, 0)
}

/// The TTL of an OPT record of version 0: the upper bits of the RCODE, and DO.
fn opt_bits(rcode: Rcode, dnssec_ok: bool) -> u32
    ensures { result ≡ opt_bits (rcode_number rcode) dnssec_ok }
{
    let upper = u32::from(rcode.to_int() / 16) * 0x0100_0000;
    if dnssec_ok { upper + 0x8000 } else { upper }
}
