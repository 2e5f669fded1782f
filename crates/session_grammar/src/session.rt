//! A session: a zone, its records, and the events that follow.
ghost use Rattle.std.specs.Prelude.{◌≡◌, ◌≤◌, All, map, IfOk, IfErr, Ok};
ghost use Rattle.answer_events.specs.Events.{added_octets};
ghost use Rattle.answer_events.specs.HandedRr.{handed_of};
ghost use Rattle.session_grammar.specs.Readings.{texts, zone_view, event_view, IsSessionError};
ghost use Rattle.session_grammar.specs.Sessions.{session_of, is_record_line, is_replacement_line};
ghost use Rattle.session_grammar.specs.Sessions.{fields_of};

use crate::line_error::{LineError, LineFault};
use crate::lines::Lines;
use crate::reading::Reading;
use crate::zone::Zone;
use answer_events::event::Event;
use answer_events::record::ZoneRecord;
use std::alloc::{AllocError, Global};
use thiserror::Error;

/// What an input asks for.
#[derive(Drop)]
pub struct Session {
    pub zone: Zone,
    pub records: Vec<ZoneRecord>,
    pub events: Vec<Event>,
    ghost fit: { All (λ e. added_octets e ≤ 65531) events.items },
}

/// Why an input is no session.
#[derive(Clone, Copy, Debug, PartialEq, Eq, Drop, Error)]
pub enum SessionError {
    /// The first line that cannot be read, counted from 1 on, and why.
    #[error("line {number}: {fault}")]
    Line { number: usize, fault: LineFault },
    #[error("out of memory")]
    Memory,
}

/// Reads a whole input. Where no line of it counts, the line behind its last is the one that cannot
/// be read. Records that are gathered at its end are passed over.
pub fn read_session(alloc: Global, input: &[u8]) -> Result<Session, SessionError>
    ensures ok { IfOk result (λ s. session_of input.now ≡ Ok (record {
      zone = zone_view s.zone;
      records = map handed_of s.records.items;
      events = map event_view s.events.items;
    })) }
    ensures err { IfErr result (IsSessionError input.now) }
{
    let mut lines = Lines::new(input);
    let mut reading = Reading::new(alloc);
    while let Some(line) = lines.next_line() {
        if let Err(error) = reading.read_line(alloc, line) {
            return Err(match error {
                LineError::Unreadable(fault) => {
                    let number = lines.number();
                    SessionError::Line { number, fault }
                }
                LineError::Memory => SessionError::Memory,
            });
        }
    }
    let Reading {
        zone,
        records,
        events,
        gathered: _,
    } = reading;
    match zone {
        Some(zone) => Ok(Session {
            zone,
            records,
            events,
        }),
        None => {
            let (number, fault) = (lines.number() + 1, LineFault::NoZone);
            Err(SessionError::Line { number, fault })
        }
    }
}

/// Whether a line is one of a record.
pub fn is_record(fields: &[&str]) -> bool
    ensures { result ≡ is_record_line (texts fields.now) }
{
    match fields.first() {
        None => false,
        Some(word) => *word == "rr",
    }
}

/// Whether a line is one of a replacement.
pub fn is_replacement(fields: &[&str]) -> bool
    ensures { result ≡ is_replacement_line (texts fields.now) }
{
    match fields.first() {
        None => false,
        Some(word) => *word == "replace",
    }
}

/// The fields of a line, with one blank between two.
pub fn fields_of(alloc: Global, text: &str) -> Result<Vec<&str>, AllocError>
    ensures { IfOk result (λ v. texts v.items ≡ fields_of text.now) }
{
    text.split(' ').collect(alloc)
}
