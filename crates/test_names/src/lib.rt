//! Lines of names, answered, so that the output is compared with rows of the standards and with
//! what other name servers and tools made.
//!
//! Octets are in hexadecimal, `-` is none of them, places and numbers are decimal, and a text goes
//! to the end of the line. What is answered to each word stands above the lines that begin with it.

#![tactic(auto)]

mod build;
mod flat;
mod messages;
mod orders;
mod parts;
mod said;
mod texts;
mod wire_numbers;

use test_lines::Line;

/// Answers a line of names.
pub fn answer(line: &mut Line<'_>) {
    match line.word(0) {
        "fixed" => flat::fixed(line),
        "name" => flat::name(line),
        "relative" => flat::relative(line),
        "build" => build::build(line),
        "join" => build::join(line),
        "rebuild" => build::rebuild(line),
        "serials" => wire_numbers::serials(line),
        "later" => wire_numbers::later(line),
        "numbers" => wire_numbers::numbers(line),
        "value" => wire_numbers::value(line),
        "seek" => wire_numbers::seek(line),
        _ => of_texts(line),
    }
}

fn of_texts(line: &mut Line<'_>) {
    match line.word(0) {
        "text" => texts::text(line),
        "relative-text" => texts::relative_text(line),
        "label" => texts::label(line),
        "symbols" => texts::symbols(line),
        "symbol" => texts::symbol(line),
        "octet" => texts::octet(line),
        "address" => texts::address(line),
        _ => of_messages(line),
    }
}

fn of_messages(line: &mut Line<'_>) {
    match line.word(0) {
        "message" => messages::whole(line),
        "along" => messages::along(line),
        "message-name" => messages::name(line),
        "message-pair" => messages::pair(line),
        "turns" => messages::turns(line),
        "suffixes" => messages::suffixes(line),
        "parent" => messages::parent(line),
        _ => of_two(line),
    }
}

fn of_two(line: &mut Line<'_>) {
    match line.word(0) {
        "pair" => orders::pair(line),
        "relative-pair" => orders::relative_pair(line),
        "label-pair" => orders::label_pair(line),
        "chain" => orders::chain(line),
        "relative-chain" => orders::relative_chain(line),
        "strip" => orders::strip(line),
        "strip-relative" => orders::strip_relative(line),
        _ => of_parts(line),
    }
}

fn of_parts(line: &mut Line<'_>) {
    match line.word(0) {
        "parts" => parts::parts(line),
        "first" => parts::first(line),
        "relative-parts" => parts::relative_parts(line),
        "relative-first" => parts::relative_first(line),
        "split" => parts::split(line),
        "octets" => parts::label(line),
        "cut" => parts::cut(line),
        "relative-cut" => parts::relative_cut(line),
        "flat-turns" => parts::flat_turns(line),
        "relative-turns" => parts::relative_turns(line),
        _ => line.lose(),
    }
}
