//! The lines of events.
ghost use Rattle.std.specs.Prelude.{◌≤◌, IfOk};
ghost use Rattle.answer_events.specs.Questions.{asked_of};
ghost use Rattle.session_grammar.specs.Grammar.{question_fields, act_line1, act_line2, act_line3};
ghost use Rattle.session_grammar.specs.Grammar.{act_line4, act_line5, act_line6, act_line};
ghost use Rattle.session_grammar.specs.Grammar.{kind_field, roll_field, event_line};
ghost use Rattle.session_grammar.specs.Grammar.{replacement_line};
ghost use Rattle.session_grammar.specs.Readings.{Reads, texts, act_view, event_view};
ghost use Rattle.answer_events.specs.Events.{added_octets, added_by_act};

use crate::fields::{hex_octets, key_octets, name, reference, references};
use crate::form::{Field, Form};
use crate::line_error::{FieldFault, LineError, LineFault};
use crate::number_fields::{number_u8, number_u16, number_u32, number_u64, place};
use answer_events::event::{Act, Event, KeyCall};
use answer_events::key_kind::KeyKind;
use answer_events::keyset::{RollType, UnixTime};
use answer_events::question::Question;
use numbers::algorithm::SecurityAlgorithm;
use numbers::class::Class;
use numbers::rtype::Rtype;
use std::alloc::Global;
use std::time::Duration;

/// The most octets of a message (RFC 1035, 4.2.2).
const MAX_MESSAGE: usize = 65_535;

/// Reads a line of an event: a call on the zone's keys, a thing shown, or a judgement.
pub fn read_event(alloc: Global, fields: &[&str]) -> Result<Event, LineError>
    ensures small { IfOk result (λ e. added_octets e ≤ 65531) }
    ensures read { Reads event_view result (event_line (texts fields.now)) }
{
    let Some((last, others)) = fields.split_last() else {
        return Err(LineError::Unreadable(LineFault::Word));
    };
    let Some(seconds) = number_u64(last) else {
        return Err(LineError::Unreadable(moment_fault(fields)));
    };
    let at = UnixTime::new(Duration::from_secs(seconds));
    let act = read_act(alloc, others)?;
    Ok(Event { at, act })
}

/// Reads `replace M`, whose records are those that were gathered, up to the moment.
pub fn read_replacement(fields: &[&str]) -> Result<UnixTime, LineError>
    ensures { Reads (λ at. at) result (replacement_line (texts fields.now)) }
{
    let [_, moment] = *fields else {
        return Err(LineError::Unreadable(LineFault::Fields(Form::Replace)));
    };
    match number_u64(moment) {
        Some(seconds) => Ok(UnixTime::new(Duration::from_secs(seconds))),
        None => Err(Form::Replace.field(2).fault(FieldFault::Number(64))),
    }
}

/// What is said of a line whose last field is no moment.
fn moment_fault(fields: &[&str]) -> LineFault {
    let word = fields.first().copied().unwrap_or("");
    match Form::of_event(word) {
        Some(form) if form.fields().len() == fields.len() => {
            LineFault::At(form.field(fields.len()), FieldFault::Number(64))
        }
        _ => other_line(word),
    }
}

/// What is said of a line with a moment whose first word takes another number of fields.
fn other_line(word: &str) -> LineFault {
    match (Form::of_event(word), word) {
        (Some(form), _) => LineFault::Fields(form),
        (None, "zone") => LineFault::Late,
        (None, _) => LineFault::Word,
    }
}

/// Reads a line but for its moment.
fn read_act(alloc: Global, fields: &[&str]) -> Result<Act, LineError>
    ensures small { IfOk result (λ a. added_by_act a ≤ 65531) }
    ensures read { Reads act_view result (act_line (texts fields.now)) }
{
    match *fields {
        [word] => read_showing(word),
        [word, field] => read_step(alloc, word, field),
        [word, first, second] => read_asking(alloc, word, first, second),
        [word, first, second, third] => read_judging(alloc, word, first, second, third),
        [word, kind, pubref, algorithm, octets] => {
            read_add(alloc, word, kind, pubref, algorithm, octets)
        }
        [word, ds, dnskey, answer, owner, rtype] => {
            read_octets_judging(alloc, word, ds, dnskey, answer, owner, rtype)
        }
        _ => Err(LineError::Unreadable(other_line(fields.first().copied().unwrap_or("")))),
    }
}

/// Reads `ds`, `dnskey`, `cds` and `cdnskey`.
fn read_showing(word: &str) -> Result<Act, LineError>
    ensures small { IfOk result (λ a. added_by_act a ≤ 65531) }
    ensures read { Reads act_view result (act_line1 word.now) }
{
    match word {
        "ds" => Ok(Act::ShowDs),
        "dnskey" => Ok(Act::ShowDnskey),
        "cds" => Ok(Act::ShowCds),
        "cdnskey" => Ok(Act::ShowCdnskey),
        _ => Err(LineError::Unreadable(other_line(word))),
    }
}

/// Reads `wait1 ROLL`, `wait2 ROLL`, `done ROLL` and `delete REF`.
fn read_step(alloc: Global, word: &str, field: &str) -> Result<Act, LineError>
    ensures small { IfOk result (λ a. added_by_act a ≤ 65531) }
    ensures read { Reads act_view result (act_line2 word.now field.now) }
{
    match word {
        "wait1" => {
            let rolltype = read_roll(Form::Wait1, field)?;
            Ok(Act::Key(KeyCall::CacheExpired1 { rolltype }))
        }
        "wait2" => {
            let rolltype = read_roll(Form::Wait2, field)?;
            Ok(Act::Key(KeyCall::CacheExpired2 { rolltype }))
        }
        "done" => {
            let rolltype = read_roll(Form::Done, field)?;
            Ok(Act::Key(KeyCall::RollDone { rolltype }))
        }
        "delete" => {
            let pubref = reference(alloc, Form::Delete.field(2), field)?;
            Ok(Act::Key(KeyCall::DeleteKey { pubref }))
        }
        _ => Err(LineError::Unreadable(other_line(word))),
    }
}

/// Reads `ask NAME TYPE`, `report1 ROLL TTL` and `report2 ROLL TTL`.
fn read_asking(alloc: Global, word: &str, first: &str, second: &str) -> Result<Act, LineError>
    ensures small { IfOk result (λ a. added_by_act a ≤ 65531) }
    ensures read { Reads act_view result (act_line3 word.now first.now second.now) }
{
    match word {
        "ask" => {
            let (name, rtype) = (Form::Ask.field(2), Form::Ask.field(3));
            Ok(Act::Ask(read_question(alloc, name, first, rtype, second)?))
        }
        "report1" => {
            let rolltype = read_roll(Form::Report1, first)?;
            let ttl = number_u32(Form::Report1.field(3), second)?;
            Ok(Act::Key(KeyCall::Propagation1Complete { rolltype, ttl }))
        }
        "report2" => {
            let rolltype = read_roll(Form::Report2, first)?;
            let ttl = number_u32(Form::Report2.field(3), second)?;
            Ok(Act::Key(KeyCall::Propagation2Complete { rolltype, ttl }))
        }
        _ => Err(LineError::Unreadable(other_line(word))),
    }
}

/// Reads `judge DS DNSKEY ANSWER` and `start ROLL OLD NEW`.
fn read_judging(
    alloc: Global,
    word: &str,
    first: &str,
    second: &str,
    third: &str,
) -> Result<Act, LineError>
    ensures small { IfOk result (λ a. added_by_act a ≤ 65531) }
    ensures read { Reads act_view result (act_line4 word.now first.now second.now third.now) }
{
    match word {
        "judge" => {
            let ds = place(Form::Judge.field(2), first)?;
            let dnskey = place(Form::Judge.field(3), second)?;
            let answer = place(Form::Judge.field(4), third)?;
            Ok(Act::Judge { ds, dnskey, answer })
        }
        "start" => {
            let rolltype = read_roll(Form::Start, first)?;
            let old = references(alloc, Form::Start.field(3), second)?;
            let new = references(alloc, Form::Start.field(4), third)?;
            Ok(Act::Key(KeyCall::StartRoll { rolltype, old, new }))
        }
        _ => Err(LineError::Unreadable(other_line(word))),
    }
}

/// Reads `bytes DS HEX HEX NAME TYPE`: a DNSKEY message and an answer, judged for a question.
fn read_octets_judging(
    alloc: Global,
    word: &str,
    ds: &str,
    dnskey: &str,
    answer: &str,
    owner: &str,
    rtype: &str,
) -> Result<Act, LineError>
    ensures small { IfOk result (λ a. added_by_act a ≤ 65531) }
    ensures read { Reads act_view result
        (act_line6 word.now ds.now dnskey.now answer.now owner.now rtype.now) }
{
    if word != "bytes" {
        return Err(LineError::Unreadable(other_line(word)));
    }
    let form = Form::Bytes;
    let ds = place(form.field(2), ds)?;
    let dnskey_bytes = hex_octets(alloc, form.field(3), dnskey, MAX_MESSAGE)?;
    let answer_bytes = hex_octets(alloc, form.field(4), answer, MAX_MESSAGE)?;
    let question = read_question(alloc, form.field(5), owner, form.field(6), rtype)?;
    Ok(Act::JudgeBytes {
        ds,
        dnskey_bytes,
        answer_bytes,
        question,
    })
}

/// A question of class IN.
fn read_question(
    alloc: Global,
    owner_field: Field,
    owner: &str,
    type_field: Field,
    rtype: &str,
) -> Result<Question, LineError>
    ensures { Reads asked_of result (question_fields owner.now rtype.now) }
{
    let name = name(alloc, owner_field, owner)?;
    let rtype = Rtype::from_int(number_u16(type_field, rtype)?);
    Ok(Question {
        name,
        rtype,
        class: Class::IN,
    })
}

/// Reads `key KIND REF ALGORITHM BASE64`.
fn read_add(
    alloc: Global,
    word: &str,
    kind: &str,
    pubref: &str,
    algorithm: &str,
    octets: &str,
) -> Result<Act, LineError>
    ensures small { IfOk result (λ a. added_by_act a ≤ 65531) }
    ensures read { Reads act_view result
        (act_line5 word.now kind.now pubref.now algorithm.now octets.now) }
{
    if word != "key" {
        return Err(LineError::Unreadable(other_line(word)));
    }
    let pubref = reference(alloc, Form::Key.field(3), pubref)?;
    let algorithm = SecurityAlgorithm::from_int(number_u8(Form::Key.field(4), algorithm)?);
    let public_key = key_octets(alloc, Form::Key.field(5), octets)?;
    Ok(Act::Key(KeyCall::add(read_kind(kind)?, pubref, algorithm, public_key)))
}

fn read_kind(text: &str) -> Result<KeyKind, LineError>
    ensures { Reads (λ k. k) result (kind_field text.now) }
{
    match text {
        "ksk" => Ok(KeyKind::Ksk),
        "zsk" => Ok(KeyKind::Zsk),
        "csk" => Ok(KeyKind::Csk),
        "include" => Ok(KeyKind::Include),
        _ => Err(Form::Key.field(2).fault(FieldFault::Kind)),
    }
}

/// The roll of such a line, its second field.
fn read_roll(form: Form, text: &str) -> Result<RollType, LineError>
    ensures { Reads (λ r. r) result (roll_field text.now) }
{
    match text.parse::<RollType>() {
        Ok(rolltype) => Ok(rolltype),
        Err(_) => Err(form.field(2).fault(FieldFault::Roll)),
    }
}
