//! Judgements.
ghost use Rattle.std.specs.Prelude.{◌≡◌, ◌<◌};

use crate::asked::Asked;
use crate::counting::Counting;
use crate::desk::Desk;
use crate::scheme::{TestScheme, WELL, scheme_at};
use crate::words::say_octets;
use answer::{Case, DataList, Judgement, Refused, SchemeChecks, Verdict, judge, judge_with};
use std::alloc::Global;
use std::marker::Brand;
use std::sync::ledger::{Blank, Ledger};
use test_lines::Line;

fn by_checks<L: Ledger, M: Ledger>(
    alloc: Global,
    case: &Case,
    scheme: &Counting,
    first: Blank,
    second: Blank,
) -> Result<Judgement, Refused>
    requires name { first.name ≡ L.name }
    requires parts { first.parts ≡ L.parts }
    requires some { 0 < L.parts }
    requires second_name { second.name ≡ M.name }
    requires second_parts { second.parts ≡ M.parts }
    requires second_some { 0 < M.parts }
{
    let mut checks = SchemeChecks::<Counting, Counting, L, M>::new(scheme, scheme, first, second);
    judge(
        alloc,
        case.apex,
        case.ds,
        case.dnskey,
        case.answer,
        case.question,
        &case.moment,
        &mut checks,
        case.limit,
    )
}

/// Says what `judge` says.
fn say_counted(line: &mut Line<'_>, case: &Case, scheme: &TestScheme) {
    let counting = Counting::new(scheme);
    let (first, second) = (Blank::new(1), Blank::new(1));
    let judged = by_checks::<Brand, Brand>(line.alloc(), case, &counting, first, second);
    outcome(line, &judged, counting.calls());
}

/// Says what `judge_with` says.
fn say_by_scheme(line: &mut Line<'_>, case: &Case, scheme: &TestScheme) {
    let counting = Counting::new(scheme);
    let judged = judge_with(line.alloc(), &counting, &counting, case);
    outcome(line, &judged, counting.calls());
}

/// What both say, where they say the same.
fn said<'l>(line: &Line<'l>, case: &Case, scheme: &TestScheme) -> Line<'l> {
    let (mut said, mut other) = (line.aside(" "), line.aside(" "));
    say_by_scheme(&mut said, case, scheme);
    say_counted(&mut other, case, scheme);
    if said.answer() != other.answer() {
        said.mark(", but by checks");
        said.append(other);
    }
    said
}

/// What is said of the messages that are held.
pub fn judge_held(line: &mut Line<'_>, desk: &Desk) {
    if let Some(asked) = Asked::read(line, 1) {
        line.append(said(line, &asked.of(&desk.keys, &desk.answer), WELL));
    }
}

/// What is said by the scheme of the first word.
pub fn judge_by(line: &mut Line<'_>, desk: &Desk) {
    let scheme = scheme_at(line, 1);
    if let Some(asked) = Asked::read(line, 2) {
        line.append(said(line, &asked.of(&desk.keys, &desk.answer), scheme));
    }
}

/// What `judge_with` says of them where their signatures may be of any moments.
pub fn judge_any_moments(line: &mut Line<'_>, desk: &Desk) {
    if let Some(asked) = Asked::read(line, 1) {
        let mut case = asked.of(&desk.keys, &desk.answer);
        case.one_moment = false;
        say_by_scheme(line, &case, WELL);
    }
}

/// What `judge_with` says of them where the answer may be one to another question.
pub fn judge_any_question(line: &mut Line<'_>, desk: &Desk) {
    if let Some(asked) = Asked::read(line, 1) {
        let mut case = asked.of(&desk.keys, &desk.answer);
        case.other_question = true;
        say_by_scheme(line, &case, WELL);
    }
}

/// What is said of each proper beginning of the DNSKEY answer that is held, then of the zone
/// answer.
pub fn cuts(line: &mut Line<'_>, desk: &Desk) {
    if let Some(asked) = Asked::read(line, 1) {
        let (mut of_keys, mut of_answers) = (Vec::new(line.alloc()), Vec::new(line.alloc()));
        for length in 0..desk.keys.len() {
            let (part, _) = desk.keys.split_at(length);
            push_said(line, &mut of_keys, &asked.of(part, &desk.answer));
        }
        for length in 0..desk.answer.len() {
            let (part, _) = desk.answer.split_at(length);
            push_said(line, &mut of_answers, &asked.of(&desk.keys, part));
        }
        say_together(line, &of_keys);
        line.say("|");
        say_together(line, &of_answers);
    }
}

fn push_said(line: &mut Line<'_>, texts: &mut Vec<String>, case: &Case) {
    let text = line.text_from(said(line, case, WELL));
    line.must(texts.push(text));
}

/// The first of some texts, and how many of all are like it.
fn say_together(line: &mut Line<'_>, texts: &[String]) {
    let (mut first, mut like) = ("", 0usize);
    if let Some(text) = texts.first() {
        first = text.as_str();
    }
    for text in texts {
        if text.as_str() == first {
            like = like.saturating_add(1);
        }
    }
    line.value(&like);
    line.say("of");
    line.value(&texts.len());
    line.say(first);
}

/// What was answered, and how often was verified and hashed, as it was answered and, where that is
/// otherwise, counted.
fn outcome(line: &mut Line<'_>, judged: &Result<Judgement, Refused>, calls: (u32, u32)) {
    let answered = match judged {
        Ok(judgement) => {
            say_verdict(line, &judgement.verdict);
            (judgement.verifications, judgement.hashes)
        }
        Err(answer) => {
            line.refused(&answer.refusal);
            (answer.verifications, answer.hashes)
        }
    };
    line.mark(";");
    line.value(&calls.0);
    line.say("verified,");
    line.value(&calls.1);
    line.say("hashed");
    if calls != answered {
        line.say("by count");
    }
}

fn say_verdict(line: &mut Line<'_>, verdict: &Verdict) {
    match verdict {
        Verdict::Records(list) => say_with_data(line, "records", list),
        Verdict::NoType => line.say("no type"),
        Verdict::NoName => line.say("no name"),
        Verdict::StarRecords(list) => say_with_data(line, "records of a wildcard", list),
        Verdict::StarNoType => line.say("no type at a wildcard"),
        Verdict::Delegated => line.say("delegated"),
        Verdict::Open => line.say("open"),
        Verdict::Unsigned => line.say("unsigned"),
    }
}

fn say_with_data(line: &mut Line<'_>, word: &str, list: &DataList) {
    line.say(word);
    for octets in list.as_slice() {
        say_octets(line, octets);
    }
}
