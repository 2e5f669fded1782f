//! Laws of facts. Each is the contract of a function that does nothing.
ghost use Rattle.fact_laws.specs.Due.{DueFactsDecide, OwnIncludesDue};
ghost use Rattle.fact_laws.specs.Laws.{MoreFactsDecide};

/// More true facts decide as fewer do.
///
/// What some facts decide, others decide that include them and are all true of the zone, whatever
/// else they hold, in whatever order and however often. The RRset of the question is the same: one
/// more could be that of a wildcard further up, which answers for no name below a closer encloser
/// (RFC 4592, 3.3.1).
pub fn more_facts_decide_as_fewer()
    ensures { MoreFactsDecide }
{}

/// A part of a zone's own answer decides what the whole decides. With a wildcard's RRset that
/// opt-out leaves open, only the record for the next closer name is needed, and servers send no
/// other (RFC 5155, 7.2.6).
pub fn due_facts_decide()
    ensures own { OwnIncludesDue }
    ensures decide { DueFactsDecide }
{}
