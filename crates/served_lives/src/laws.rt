//! Laws of the life of a served zone.
ghost use Rattle.served_lives.specs.Lives.{LivesAreSimulations};
ghost use Rattle.served_lives.specs.Made.{AcceptedLinesAreTaken, PlainListsAreAccepted};
ghost use Rattle.served_lives.specs.Made.{ResponsesAreOfAnswers};

/// A life of a served zone without aliases is a run of a simulation: the lines that it accepts are
/// key calls and replacements, the messages that its responses are made of are answers, and what
/// the parent and clients do stands among them. So all that a simulation promises of its judgements
/// holds of clients that judge what such a server answers, through every roll and replacement.
///
/// A life begins with the zone's own records, without keys. A zone that is opened from its journal
/// goes on with the life that its lines are. A replacement is to lie behind the second of every
/// answer before it, of each process that serves the zone. Answers lie behind the replacements
/// before them, since the zone gives no others ([`Zone::is_closed`](server_zone::Zone::is_closed)):
/// so the seconds of answers in front of a replacement lie before all those behind it, and no
/// second has two versions of the zone. Between replacements moments may go back.
pub fn served_zones_live_as_simulated()
    ensures { LivesAreSimulations }
{}

/// Each line that [`Zone::apply`](server_zone::Zone::apply) accepts is one that a life takes, and
/// so is each line of a journal: only whether a replacement comes too soon depends on the answers
/// before it.
pub fn accepted_lines_are_taken()
    ensures { AcceptedLinesAreTaken }
{}

/// A response with records of DNSSEC is made of a message that is an answer in a life: to the
/// question itself, to that for a reserved type where no zone holds the type, or to that for the
/// type that is chosen where all are asked for.
pub fn responses_are_made_of_answers()
    ensures { ResponsesAreOfAnswers }
{}

/// Records without aliases that are accepted as a zone that may have aliases are accepted as one
/// that has none.
pub fn plain_lists_are_accepted()
    ensures { PlainListsAreAccepted }
{}
