//! Laws of a served zone's replies.
ghost use Rattle.reply_laws.specs.Replies.{SameCallsReplyAlike, SameRequestsAreToldAlike};

/// The same request to the same state of a zone, at the same moment and with the same signatures,
/// is told the same, whatever was answered before; unless memory ran out, or the server failed.
/// It is one for an RRset, not for all records of a name.
pub fn same_requests_are_told_alike()
    ensures { SameRequestsAreToldAlike }
{}

/// So a call gets the same reply, writes the same octets and reports the same, where it finds the
/// same report and the same octets.
pub fn same_calls_reply_alike()
    ensures { SameCallsReplyAlike }
{}
