//! Laws of journals.
ghost use Rattle.server_zone.specs.JournalLaws.{AcceptedLinesExtend, CutsKeepLines, CutsKeepState};
ghost use Rattle.server_zone.specs.JournalLaws.{JournalsGiveStates, JournalsOpenAgain};
ghost use Rattle.server_zone.specs.JournalLaws.{LinesSpellText};

/// A journal that is cut at any octet, by a crash, gives the state of the lines that are whole
/// there, which are the first of its lines; behind them stand the octets of one unfinished line, or
/// none.
pub fn cut_journals()
    ensures spelled { LinesSpellText }
    ensures lines { CutsKeepLines }
    ensures state { CutsKeepState }
{}

/// A line that an open zone accepts, put behind its journal: that is a journal of the state that
/// the zone has then, and opens to it. So a zone's state is that of its accepted lines, whatever it
/// answered between them, and all zones of one journal have one state.
pub fn accepted_lines_extend_journals()
    ensures extend { AcceptedLinesExtend }
    ensures state { JournalsGiveStates }
    ensures again { JournalsOpenAgain }
{}
