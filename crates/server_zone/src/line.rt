//! The lines of a journal behind that of its zone.
ghost use Rattle.std.specs.Prelude.{◌≡◌, ◌≤◌, IfOk};
ghost use Rattle.answer_events.specs.Events.{added_octets};
ghost use Rattle.session_grammar.specs.Readings.{Reads, event_view, texts};
ghost use Rattle.server_zone.specs.StateLines.{added_in, event_kind, fields_line, line_view};
ghost use Rattle.server_zone.specs.StateLines.{state_line};

use answer_events::event::{Act, Event, KeyCall};
use answer_events::keyset::UnixTime;
use answer_events::record::ZoneRecord;
use session_grammar::event_lines::{read_event, read_replacement};
use session_grammar::line_error::{LineError, LineFault};
use session_grammar::lines::is_passed_over;
use session_grammar::session::{fields_of, is_record, is_replacement};
use session_grammar::zone_lines::read_record;
use std::alloc::Global;

/// What a line behind that of the zone says.
#[derive(Drop)]
pub enum Line {
    /// Nothing: it is empty, or a comment.
    Nothing,
    /// A record: the zone's own, or one for the next replacement.
    Record(ZoneRecord),
    /// The zone's records are replaced at this moment.
    Replacement(UnixTime),
    /// A call on the keys, at a moment.
    Call(KeyCall, UnixTime),
    /// What a session asks, shows or judges.
    Other,
}

/// Reads a line behind that of the zone, without its line feed.
pub fn read_line(alloc: Global, line: &[u8]) -> Result<Line, LineError>
    ensures small { IfOk result (λ l. added_in l ≤ 65531) }
    ensures read { Reads line_view result (state_line line.now) }
{
    if is_passed_over(line) {
        return Ok(Line::Nothing);
    }
    match str::from_utf8(line) {
        Ok(text) => {
            let fields = fields_of(alloc, text)?;
            read_fields(alloc, &fields)
        }
        Err(_) => Err(LineError::Unreadable(LineFault::NotText)),
    }
}

/// Reads the fields of a line.
fn read_fields(alloc: Global, fields: &[&str]) -> Result<Line, LineError>
    ensures small { IfOk result (λ l. added_in l ≤ 65531) }
    ensures read { Reads line_view result (fields_line (texts fields.now)) }
{
    if is_record(fields) {
        Ok(Line::Record(read_record(alloc, fields)?))
    } else if is_replacement(fields) {
        Ok(Line::Replacement(read_replacement(fields)?))
    } else {
        Ok(line_of(read_event(alloc, fields)?))
    }
}

/// An event's line.
fn line_of(event: Event) -> Line
    ensures small { added_in result ≤ added_octets event }
    ensures view { line_view result ≡ event_kind (event_view event) }
{
    let Event { at, act } = event;
    match act {
        Act::Key(call) => Line::Call(call, at),
        _ => Line::Other,
    }
}
