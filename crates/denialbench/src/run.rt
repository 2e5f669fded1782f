//! A run of the bench: from what a reader gives to what a writer takes.
ghost use Rattle.std.specs.Prelude.{◌≡◌, ◌≢◌, ◌↔◌, ◌≤◌, ◌+◌, ℕ, List, [], ◌∷◌, ◌++◌, map, codes};
ghost use Rattle.std.specs.Prelude.{OnOk, IfOk, IfSome, string_bytes};
ghost use Rattle.std.specs.List.{flat_map};
ghost use Rattle.std.specs.Io.KnownBytes.{Appends, IsAtEnd};
ghost use Rattle.messages.specs.HandedRr.{handed_of};
ghost use Rattle.session_grammar.specs.Readings.{zone_view, event_view};
ghost use Rattle.printed_outcomes.specs.Names.{zone_fault_name};
ghost use Rattle.printed_outcomes.specs.Printed.{outcome_text};
ghost use Rattle.denialbench.specs.Responses.{Answers, IsUnreadable, Responds, PrintsSession};
ghost use Rattle.denialbench.specs.Responses.{refused_line};

use crate::input::{LimitedRead, read_all};
use crate::status::Status;
use answer::{Outcome, ZoneFault, simulate};
use denial_nsec3_sha1::hasher::Sha1Hasher;
use printed_outcomes::named::Named;
use printed_outcomes::print::push_outcomes;
use printed_outcomes::scheme::BenchScheme;
use session_grammar::session::{Session, SessionError, read_session};
use std::alloc::{AllocError, Global};
use std::io;
use std::io::Write;

/// What a run writes, and how it ends.
#[derive(Debug, Drop)]
pub struct Response {
    pub status: Status,
    pub text: String,
}

/// Reads a session from a reader, lets it happen, and writes what comes of it.
///
/// Where a line cannot be read, one line with its number is all that is written. Nothing is written
/// before the whole input is read and answered. The reader is read at most 1,048,576 times.
#[tactic(auto, using(crate::proofs::RunStatus::told_of))]
pub fn run<R: LimitedRead, W: Write>(alloc: Global, reader: &mut R, writer: &mut W) -> Status
    requires { 1048576 ≤ R.left reader.old }
    ensures writes { result ≢ Status.Fault
        → Answers (R.remaining reader.old) result (W.contents writer.old) (W.contents writer.new) }
    ensures whole { result ≢ Status.Fault → IsAtEnd (R.remaining reader.new) }
    ensures lines { result ≢ Status.Fault → IfSome (R.remaining reader.old)
        (λ input. (result ≡ Status.BadLine) ↔ IsUnreadable input) }
    ensures reads { R.left reader.old ≤ R.left reader.new + 1048576 }
{
    let Ok(input) = read_all(alloc, reader) else {
        return Status::Fault;
    };
    let Ok(response) = respond(alloc, &input) else {
        return Status::Fault;
    };
    match write_out(writer, response.text.as_bytes()) {
        Ok(()) => response.status,
        Err(_) => Status::Fault,
    }
}

fn write_out<W: Write>(writer: &mut W, octets: &[u8]) -> io::Result<()>
    ensures { OnOk result (Appends (W.contents writer.old) (W.contents writer.new) octets.now) }
{
    writer.write_all(octets)?;
    writer.flush()
}

/// What is answered to an input. Its only error is out of memory.
pub fn respond(alloc: Global, input: &[u8]) -> Result<Response, AllocError>
    ensures { IfOk result (λ r. Responds input.now r.status (string_bytes r.text)) }
{
    match read_session(alloc, input) {
        Ok(session) => Ok(Response {
            status: Status::Done,
            text: replay(alloc, session)?,
        }),
        Err(SessionError::Line { number, .. }) => Ok(Response {
            status: Status::BadLine,
            text: refusal(alloc, number)?,
        }),
        Err(SessionError::Memory) => Err(AllocError),
    }
}

fn refusal(alloc: Global, number: usize) -> Result<String, AllocError>
    ensures { IfOk result (λ t. string_bytes t ≡ refused_line number) }
{
    format!(in alloc; "line {number}: cannot be read\n")
}

/// Lets a session happen, and prints a line for each event, or one for a zone that is refused.
fn replay(alloc: Global, session: Session) -> Result<String, AllocError>
    ensures { IfOk result
        (λ t. PrintsSession (zone_view session.zone) (map handed_of session.records.items)
        (map event_view session.events.items) (string_bytes t)) }
{
    let Session {
        zone,
        records,
        events,
    } = session;
    match simulate(
        alloc,
        zone.apex,
        records,
        zone.mode,
        &BenchScheme,
        &Sha1Hasher,
        zone.limit,
        zone.life,
        &events,
    ) {
        Ok(outcomes) => outcomes_text(alloc, &outcomes),
        Err(ZoneFault::Memory) => Err(AllocError),
        Err(fault) => fault_text(alloc, &fault),
    }
}

fn outcomes_text(alloc: Global, outcomes: &[Outcome]) -> Result<String, AllocError>
    ensures { IfOk result
        (λ t. string_bytes t ≡ flat_map (λ o. outcome_text o ++ 10 ∷ []) outcomes.now) }
{
    let mut text = String::new(alloc);
    push_outcomes(&mut text, outcomes)?;
    Ok(text)
}

fn fault_text(alloc: Global, fault: &ZoneFault) -> Result<String, AllocError>
    ensures { IfOk result
        (λ t. string_bytes t ≡ codes "refused " ++ zone_fault_name fault.now ++ 10 ∷ []) }
{
    let name = fault.name();
    format!(in alloc; "refused {name}\n")
}
