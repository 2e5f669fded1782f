//! Answers lines of master files, so that the output is compared with what other programs read.
//!
//! - `data TYPE TEXT`: the octets of data of a type in hexadecimal, or why they are refused. `@` and
//!   relative names stand below `example.`.
//! - `zone FILE`: how many records a master file has, in which `|` ends each line, or why it is
//!   refused.
#![tactic(auto)]

use master_files::zone_file::{Reading, session_lines};
use std::alloc::{AllocError, Global};
use std::io;
use test_lines::{Form, Line};

/// What stands before the type of data: three lines, two records, and the owner.
const HEAD: &str = "$ORIGIN example.\n@ 3600 IN SOA . . 1 2 3 4 5\n@ 3600 IN NS .\na 3600 IN ";

const SOA_HEAD: &str = "$ORIGIN example.\na 3600 IN A 192.0.2.1\n@ 3600 IN NS .\n@ 3600 IN ";

/// What is read of a master file, or why nothing is.
fn read(alloc: Global, text: &str) -> Result<String, AllocError> {
    let reading = Reading {
        origin: b"",
        chain: b"",
        apex: b"",
    };
    match session_lines(alloc, text.as_bytes(), &reading) {
        Ok(lines) => Ok(lines),
        Err(fault) => format!(in alloc; "{fault}"),
    }
}

fn data(line: &mut Line<'_>) {
    let alloc = line.alloc();
    let text = line.rest(1);
    let head = if line.word(1) == "SOA" {
        SOA_HEAD
    } else {
        HEAD
    };
    let said = format!(in alloc; "{head}{text}\n").and_then(|file| read(alloc, file.as_str()));
    let Ok(said) = said else {
        line.lose();
        return;
    };
    let record = said.lines().nth(2).unwrap_or(said.as_str());
    let octets = record.split(' ').nth(5);
    match octets {
        Some(octets) if record.starts_with("rr ") => line.say(octets),
        _ => line.say(record),
    }
}

/// The text of a word in which `|` stands for the end of a line.
fn file_of(alloc: Global, word: &str) -> Result<String, AllocError> {
    let mut file = String::new(alloc);
    for text in word.split('|') {
        file.push_str(text)?;
        file.push('\n')?;
    }
    Ok(file)
}

fn zone(line: &mut Line<'_>) {
    let alloc = line.alloc();
    let said = file_of(alloc, line.rest(1)).and_then(|file| read(alloc, file.as_str()));
    let Ok(said) = said else {
        line.lose();
        return;
    };
    match said.lines().count() {
        1 => line.say(said.as_str()),
        count => line.value(&count),
    }
}

fn answer(line: &mut Line<'_>) {
    match line.word(0) {
        "data" => data(line),
        "zone" => zone(line),
        _ => line.lose(),
    }
}

fn main(rt: HostRuntime) -> io::Result<()> {
    let alloc = rt.alloc();
    for text in rt.lines(alloc) {
        let text = text?;
        let mut line = Line::new(alloc, &text);
        if !line.is_comment() {
            answer(&mut line);
        }
        let (before, said, behind) = line.printed(Form::Aside);
        print!(rt; "{text}{before}{said}{behind}")?;
    }
    Ok(())
}
