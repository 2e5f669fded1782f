//! A session as it is read, line by line.
ghost use Rattle.std.specs.Prelude.{◌≤◌, All};
ghost use Rattle.answer_events.specs.Events.{added_octets};

use crate::event_lines::{read_event, read_replacement};
use crate::line_error::{LineError, LineFault};
use crate::lines::is_passed_over;
use crate::session::{fields_of, is_record, is_replacement};
use crate::zone::Zone;
use crate::zone_lines::{read_record, read_zone};
use answer_events::event::{Act, Event};
use answer_events::keyset::UnixTime;
use answer_events::record::ZoneRecord;
use std::alloc::{AllocError, Global};
use std::mem;

/// What was read so far, and the records that are gathered for the next replacement.
#[derive(Drop)]
pub(crate) struct Reading {
    pub(crate) zone: Option<Zone>,
    pub(crate) records: Vec<ZoneRecord>,
    pub(crate) events: Vec<Event>,
    pub(crate) gathered: Vec<ZoneRecord>,
    ghost fit: { All (λ e. added_octets e ≤ 65531) events.items },
}

impl Reading {
    ghost use Rattle.std.specs.Prelude.{◌≡◌, OnOk};
    ghost use Rattle.answer_events.specs.HandedRr.{handed_of};
    ghost use Rattle.session_grammar.specs.Readings.{Reads, session_view, texts};
    ghost use Rattle.session_grammar.specs.Sessions.{no_lines, with_fields, with_line, with_record};
    ghost use Rattle.session_grammar.specs.Sessions.{with_replacement};

    pub(crate) fn new(alloc: Global) -> Self
        ensures { session_view result ≡ no_lines }
    {
        Reading {
            zone: None,
            records: Vec::new(alloc),
            events: Vec::new(alloc),
            gathered: Vec::new(alloc),
        }
    }

    /// Reads a line without its line feed. Empty lines and comments are passed over.
    pub(crate) fn read_line(&mut self, alloc: Global, line: &[u8]) -> Result<(), LineError>
        ensures { Reads (λ _. session_view self.new) result
            (with_line (session_view self.old) line.now) }
    {
        if is_passed_over(line) {
            return Ok(());
        }
        match str::from_utf8(line) {
            Ok(text) => {
                let fields = fields_of(alloc, text)?;
                self.read_fields(alloc, &fields)
            }
            Err(_) => Err(LineError::Unreadable(LineFault::NotText)),
        }
    }

    /// The zone's line comes first.
    fn read_fields(&mut self, alloc: Global, fields: &[&str]) -> Result<(), LineError>
        ensures { Reads (λ _. session_view self.new) result
            (with_fields (session_view self.old) (texts fields.now)) }
    {
        if self.zone.is_none() {
            self.zone = Some(read_zone(alloc, fields)?);
            return Ok(());
        }
        if is_record(fields) {
            self.add_record(read_record(alloc, fields)?)?;
        } else if is_replacement(fields) {
            self.add_replacement(alloc, read_replacement(fields)?)?;
        } else {
            self.events.push(read_event(alloc, fields)?)?;
        }
        Ok(())
    }

    /// Adds a record: to the zone before all events, and behind one to those that are gathered.
    fn add_record(&mut self, added: ZoneRecord) -> Result<(), AllocError>
        ensures { OnOk result
            (session_view self.new ≡ with_record (session_view self.old) (handed_of added)) }
    {
        if self.events.is_empty() {
            self.records.push(added)?;
        } else {
            self.gathered.push(added)?;
        }
        Ok(())
    }

    /// Adds a replacement by the records that were gathered.
    fn add_replacement(&mut self, alloc: Global, at: UnixTime) -> Result<(), AllocError>
        ensures { OnOk result
            (session_view self.new ≡ with_replacement (session_view self.old) at) }
    {
        let records = mem::replace(&mut self.gathered, Vec::new(alloc));
        let act = Act::Replace(records);
        self.events.push(Event { at, act })?;
        Ok(())
    }
}
