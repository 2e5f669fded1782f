//! Sessions of a few lines, and of many.

use crate::scheme::WELL;
use crate::words::octets_at;
use answer::{Act, Event, Outcome, simulate};
use session_grammar::session::{Session, read_session};
use std::time::Duration;
use test_lines::Line;

/// The zone of each session, and its SOA record.
const ZONE: &[u8] = b"zone example nsec 0 86400\n";

const SOA: &[u8] = b"rr example 3600 1 6 00000000000100000e10000003840001518000000e10\n";

/// A session of the zone and a line.
pub fn session(line: &mut Line<'_>) {
    let text = line.rest(1);
    read(line, text.as_bytes());
}

/// A session of the zone and a line that is given in hexadecimal.
pub fn session_of_octets(line: &mut Line<'_>) {
    let octets = octets_at(line, 1);
    read(line, &octets);
}

fn read(line: &mut Line<'_>, added: &[u8]) {
    let mut input = Vec::new(line.alloc());
    line.must(input.extend_from_slice(ZONE));
    line.must(input.extend_from_slice(added));
    match read_session(line.alloc(), &input) {
        Ok(session) => match session.events.as_slice() {
            [event] => event_told(line, event),
            _ => line.say("not one event"),
        },
        Err(error) => line.refused(&error),
    }
}

/// The one event of a session.
fn event_told(line: &mut Line<'_>, event: &Event) {
    match &event.act {
        Act::Key(_) => line.say("key call"),
        Act::ShowDs => line.say("DS set"),
        Act::ShowCds => line.say("CDS set"),
        Act::ShowCdnskey => line.say("CDNSKEY set"),
        Act::ShowDnskey => line.say("DNSKEY answer"),
        Act::Ask(_) => line.say("question"),
        Act::Judge { ds, dnskey, answer } => {
            line.value(&format_args!("judgement of {ds}, {dnskey} and {answer}"))
        }
        Act::JudgeBytes { .. } => line.say("judgement of octets"),
        Act::Replace(records) => {
            line.say("replacement by");
            line.value(&records.len());
            line.say("records");
        }
    }
    line.say("at");
    line.value(&Duration::from(event.at).as_secs());
}

/// What comes of a session of a zone and one line, repeated.
pub fn many(line: &mut Line<'_>) {
    let mut input = Vec::new(line.alloc());
    line.must(input.extend_from_slice(ZONE));
    line.must(input.extend_from_slice(SOA));
    for _ in 0..line.u32_at(1) {
        line.must(input.extend_from_slice(line.rest(2).as_bytes()));
        line.must(input.push(b'\n'));
    }
    match read_session(line.alloc(), &input) {
        Ok(session) => last_outcome(line, session),
        Err(error) => line.refused(&error),
    }
}

fn last_outcome(line: &mut Line<'_>, session: Session) {
    let Session {
        zone,
        records,
        events,
    } = session;
    let alloc = line.alloc();
    let outcomes = simulate(
        alloc, zone.apex, records, zone.mode, WELL, WELL, zone.limit, zone.life, &events,
    );
    match outcomes {
        Ok(outcomes) => say_last(line, &outcomes),
        Err(_) => line.lose(),
    }
}

fn say_last(line: &mut Line<'_>, outcomes: &[Outcome]) {
    line.value(&outcomes.len());
    line.say("outcomes");
    if let Some(Outcome::Ds { place, set: _ }) = outcomes.last() {
        line.mark(", the last a DS set at place");
        line.value(place);
    }
}
