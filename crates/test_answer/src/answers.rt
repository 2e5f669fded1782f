//! What is asked of publishers, judgements and sessions, by the first word of a line.

use crate::desk::{Desk, TestPublisher};
use crate::{asked, calls, faults, judged, sessions, settings, validity};
use test_lines::Line;

/// Answers a line of answers.
pub fn answer(line: &mut Line<'_>, desk: &mut Desk) {
    match line.word(0) {
        "zone" => desk.begin(line),
        "soa" => desk.put_soa(line),
        "rr" => desk.put(line),
        "addresses" => desk.put_addresses(line),
        "publish" | "publish-hashed" => desk.publish(line),
        "keys" => desk.take_keys(line),
        "message" => desk.take_answer(line),
        "dnskey" => desk.dnskey(line),
        "answer" => desk.ask(line),
        _ => of_judgements(line, desk),
    }
}

fn of_judgements(line: &mut Line<'_>, desk: &mut Desk) {
    match line.word(0) {
        "judge" => judged::judge_held(line, desk),
        "judge-by" => judged::judge_by(line, desk),
        "judge-any-moments" => judged::judge_any_moments(line, desk),
        "judge-any-question" => judged::judge_any_question(line, desk),
        "cuts" => judged::cuts(line, desk),
        "lasts" => validity::lasts(line, desk),
        "allowed" => asked::allowed(line),
        _ => of_texts(line, desk),
    }
}

fn of_texts(line: &mut Line<'_>, desk: &mut Desk) {
    match line.word(0) {
        "session" => sessions::session(line),
        "session-octets" => sessions::session_of_octets(line),
        "sessions" => sessions::many(line),
        "faults" => faults::faults(line),
        "flags" => faults::flags(line),
        _ => match &mut desk.publisher {
            Some(publisher) => of_keys(line, publisher),
            None => line.lose(),
        },
    }
}

/// A line that speaks of the keys of the publisher.
fn of_keys(line: &mut Line<'_>, publisher: &mut TestPublisher) {
    match line.word(0) {
        "ksk" | "zsk" => calls::add(line, publisher),
        "start" => calls::start(line, publisher),
        "report1" | "report2" => calls::report(line, publisher),
        "wait1" | "wait2" => calls::wait(line, publisher),
        "done" => calls::end(line, publisher),
        "owed" => calls::still_owed(line, publisher),
        "key" => calls::key(line, publisher),
        _ => of_settings(line, publisher),
    }
}

fn of_settings(line: &mut Line<'_>, publisher: &mut TestPublisher) {
    match line.word(0) {
        "include" => settings::include(line, publisher),
        "set-present" => settings::set_present(line, publisher),
        "set-decoupled" | "set-signer" | "set-at-parent" => settings::set_flag(line, publisher),
        "set-visible" | "set-ds-visible" | "set-rrsig-visible" => {
            settings::set_stamp(line, publisher)
        }
        "set-stale" | "delete" => settings::leave(line, publisher),
        "bound" => settings::bound(line, publisher),
        "ds" => settings::ds_set(line, publisher),
        "apex" => line.value(publisher.apex()),
        _ => line.lose(),
    }
}
