//! Queries, and how a request that is none is answered.
ghost use Rattle.std.specs.Prelude.{◌≡◌};
ghost use Rattle.definitions.specs.Limits.{pointer_limit};
ghost use Rattle.server_queries.specs.Queries.{accepted_at, edns_at, end_of, is_whole};
ghost use Rattle.server_queries.specs.Queries.{read_edns_at, query_at, refused_at};
ghost use Rattle.server_queries.specs.Views.{GivesQuery, Reads, refused_of};

use crate::edns::{Edns, first_edns, has_opt, only_edns};
use crate::header::{RequestHeader, count_before_additional};
use crate::question::read_question;
use crate::rcode::Rcode;
use messages::names::ParsedName;
use messages::question::Question;
use messages::view::{MessageView, Records, read_message};

/// A query that a zone can answer. Its question stands in the octets, as the client spelled it.
#[derive(Debug, Drop)]
pub struct Query<'a> {
    pub header: RequestHeader,
    pub question: Question<ParsedName<'a>>,
    /// What the OPT record says, where there is one.
    pub edns: Option<Edns>,
}

/// What answers a request that is refused.
#[derive(Debug, Drop)]
pub enum Refusal<'a> {
    /// Nothing: the octets have no header, or are a reply. A server that answered replies could be
    /// set against another, or against itself, without end.
    NoReply,
    /// A reply without records.
    Reply(ErrorReply<'a>),
}

/// What a reply says to a request that is refused.
#[derive(Debug, Drop)]
pub struct ErrorReply<'a> {
    /// The header of the request, of which the reply has id, opcode and RD.
    pub header: RequestHeader,
    pub rcode: Rcode,
    /// The question, where one is counted and reads.
    pub question: Option<Question<ParsedName<'a>>>,
    /// What the first OPT record says, where the message reads and has one. The reply then has one
    /// too (RFC 6891, 6.1.1 and 7), with its DO bit (RFC 3225, 3).
    pub edns: Option<Edns>,
}

/// Reads what a client sent. It takes no memory.
///
/// Nothing answers less than a header, and nothing answers a reply. NOTIMP is for an opcode that
/// is not QUERY; FORMERR for a message that does not read, that counts more or fewer questions
/// than one (RFC 9619, 4), that has octets behind it, or that has two OPT records, or one outside
/// the additional section or of another owner than the root (RFC 6891, 6.1.1 and 6.1.2); BADVERS
/// for a version of EDNS above 0 (RFC 6891, 6.1.3). Other records of a query are passed over.
pub fn read_query(octets: &[u8]) -> Result<Query<'_>, Refusal<'_>>
    ensures { Reads result (query_at pointer_limit octets.now) }
{
    let Some(header) = RequestHeader::read(octets) else {
        return Err(Refusal::NoReply);
    };
    if header.is_reply() {
        return Err(Refusal::NoReply);
    }
    match accepted(octets, header) {
        Ok(query) => Ok(query),
        Err(rcode) => Err(Refusal::Reply(refused(octets, header, rcode))),
    }
}

/// The query that a request is, or how it is refused.
fn accepted(octets: &[u8], header: RequestHeader) -> Result<Query<'_>, Rcode>
    ensures { GivesQuery result (accepted_at pointer_limit octets.now header) }
{
    if header.opcode() != 0 {
        return Err(Rcode::NotImp);
    }
    let Some((question, end)) = read_question(octets) else {
        return Err(Rcode::FormErr);
    };
    match read_edns(octets, end) {
        Ok(edns) => Ok(Query {
            header,
            question,
            edns,
        }),
        Err(rcode) => Err(rcode),
    }
}

/// What the OPT record of a message says whose records begin at a place.
fn read_edns(octets: &[u8], first: usize) -> Result<Option<Edns>, Rcode>
    ensures { result ≡ read_edns_at pointer_limit octets.now first }
{
    match read_message(octets) {
        Ok(view) if is_whole(octets, first, &view) => only_edns(view.records()),
        _ => Err(Rcode::FormErr),
    }
}

/// Whether a message, whose records begin at a place, takes all of the octets and has no OPT
/// record before its additional section.
fn is_whole(octets: &[u8], first: usize, view: &MessageView<'_>) -> bool
    ensures { result ≡ is_whole octets.now first view.now.records }
{
    end_of(first, view.records()) == octets.len()
        && !has_opt(view.records(), count_before_additional(octets))
}

/// The place behind the last record, where the first begins at a place.
fn end_of(first: usize, records: Records<'_>) -> usize
    ensures { result ≡ end_of first records.entry }
{
    let mut records = records;
    let mut end = first;
    while let Some(record) = records.next() {
        end = record.start + record.length;
    }
    end
}

/// The reply to a request that is refused.
fn refused(octets: &[u8], header: RequestHeader, rcode: Rcode) -> ErrorReply<'_>
    ensures { refused_of result ≡ refused_at pointer_limit octets.now header rcode }
{
    let question = match read_question(octets) {
        Some((question, _)) => Some(question),
        None => None,
    };
    ErrorReply {
        header,
        rcode,
        question,
        edns: sent_edns(octets),
    }
}

/// What the first OPT record of a message says, where the message reads and has one.
fn sent_edns(octets: &[u8]) -> Option<Edns>
    ensures { result ≡ edns_at pointer_limit octets.now }
{
    match read_message(octets) {
        Ok(view) => first_edns(view.records()),
        Err(_) => None,
    }
}
