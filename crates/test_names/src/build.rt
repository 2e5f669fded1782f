//! Builders of names: steps, one blank apart.
//!
//! - `label=OCTETS`: a label. `octets=OCTETS`: octets into the open label.
//! - `push=OCTETS`: these octets, each alone. `end`: ends the open label.
//! - `name=OCTETS`: a relative name. `dec=NUMBER`, `hex=NUMBER`: a label of the number's digits.
//! - `chars=TEXT`, `symbols=SYMBOLS`: a text, or symbols joined by commas.

use crate::said::{self, flat, relative_flat};
use crate::texts::symbols_of;
use arrayvec::ArrayVec;
use names::{BuiltOctets, Finish, NameBuilder, RelativeName};
use std::fmt::Display;
use test_lines::Line;

/// Says why a step was refused, if it was.
fn done<E: Display + Drop>(fault: &mut Line<'_>, step: Result<(), E>) {
    if let Err(error) = step {
        fault.value(&error);
    }
}

/// Makes a step.
fn step<B: BuiltOctets>(fault: &mut Line<'_>, builder: &mut NameBuilder<B>, step: &str) {
    let (word, field) = step.split_once('=').unwrap_or((step, ""));
    match word {
        "end" => builder.end_label(),
        "dec" => {
            let number = fault.read_u8(field);
            done(fault, builder.append_dec_u8_label(number))
        }
        "hex" => {
            let digit = fault.read_u8(field);
            done(fault, builder.append_hex_digit_label(digit))
        }
        "chars" => done(fault, builder.append_chars(field.chars())),
        "symbols" => {
            let symbols = symbols_of(fault, field);
            done(fault, builder.append_symbols(symbols.into_iter()))
        }
        _ => step_of_octets(fault, builder, word, field),
    }
}

/// Makes a step that adds octets.
fn step_of_octets<B: BuiltOctets>(
    fault: &mut Line<'_>,
    builder: &mut NameBuilder<B>,
    word: &str,
    field: &str,
) {
    let octets = fault.read_octets(field);
    match word {
        "label" => done(fault, builder.append_label(&octets)),
        "octets" => done(fault, builder.append_slice(&octets)),
        "push" => push_each(fault, builder, &octets),
        "name" => {
            let name = relative_flat(fault, &octets);
            done(fault, builder.append_name(&name))
        }
        _ => fault.lose(),
    }
}

/// Pushes octets up to the first that is refused.
fn push_each<B: BuiltOctets>(fault: &mut Line<'_>, builder: &mut NameBuilder<B>, octets: &[u8]) {
    let mut is_refused = false;
    for octet in octets {
        if !is_refused {
            let pushed = builder.push(*octet);
            is_refused = pushed.is_err();
            done(fault, pushed);
        }
    }
}

/// Makes all steps from a place on, and says of each how many octets the builder has then, whether
/// a label is open, and why the step was refused, if it was; at the end the octets.
fn steps<B: BuiltOctets>(line: &mut Line<'_>, builder: &mut NameBuilder<B>, place: usize) {
    for word in line.rest(place).split(' ') {
        let mut fault = line.aside(" ");
        step(&mut fault, builder, word);
        line.value(&builder.len());
        line.say(if builder.in_label() { "open" } else { "shut" });
        line.append(fault);
        line.say("|");
    }
    line.hex(builder.as_slice());
}

/// What the steps say, the octets that they leave and the relative name that they make.
fn finished<B: BuiltOctets + Drop>(line: &mut Line<'_>, made: Option<NameBuilder<B>>) {
    match made {
        Some(builder) => {
            let mut builder = builder;
            line.check(builder.is_empty());
            steps(line, &mut builder, 2);
            line.hex(builder.finish().as_slice());
        }
        None => line.lose(),
    }
}

/// The absolute name that steps make.
fn named<B: BuiltOctets + Drop>(line: &mut Line<'_>, made: Option<NameBuilder<B>>) {
    match made {
        Some(builder) => {
            let mut builder = builder;
            line.check(builder.is_empty());
            steps(&mut line.aside(" "), &mut builder, 2);
            said::name(line, builder.into_name());
        }
        None => line.lose(),
    }
}

/// The absolute name of the relative one that steps make, which is the same as another.
fn check_rooted<B: BuiltOctets + Drop>(
    line: &mut Line<'_>,
    name: &mut Line<'_>,
    made: Option<NameBuilder<B>>,
) {
    match made {
        Some(builder) => {
            let (mut builder, mut again) = (builder, line.aside(" "));
            steps(&mut line.aside(" "), &mut builder, 2);
            said::name(&mut again, builder.finish().into_absolute());
            line.check(again.answer() == name.answer() && !again.is_lost());
        }
        None => line.lose(),
    }
}

/// What the steps say, and the names that they make.
fn built<B: BuiltOctets + Drop>(
    line: &mut Line<'_>,
    first: Option<NameBuilder<B>>,
    second: Option<NameBuilder<B>>,
    third: Option<NameBuilder<B>>,
) {
    finished(line, first);
    let mut name = line.aside(" ");
    named(&mut name, second);
    check_rooted(line, &mut name, third);
    line.append(name);
}

/// What steps make of builders with room for so many octets; `-` is none, and a builder of `fixed3`
/// or `fixed4` never has more than three or four.
pub fn build(line: &mut Line<'_>) {
    let alloc = line.alloc();
    match line.word(1) {
        "-" => {
            let (first, second) = (NameBuilder::new(alloc), NameBuilder::new_vec(alloc));
            built(
                line,
                Some(first),
                Some(second),
                Some(NameBuilder::new(alloc)),
            )
        }
        "fixed3" => built(line, fixed::<3>(), fixed::<3>(), fixed::<3>()),
        "fixed4" => built(line, fixed::<4>(), fixed::<4>(), fixed::<4>()),
        _ => {
            let room = line.usize_at(1);
            let first = NameBuilder::with_capacity(alloc, room).ok();
            let second = NameBuilder::vec_with_capacity(alloc, room).ok();
            built(line, first, second, Some(NameBuilder::new(alloc)))
        }
    }
}

fn fixed<const N: usize>() -> Option<NameBuilder<ArrayVec<u8, N>>> {
    NameBuilder::from_builder(ArrayVec::new()).ok()
}

/// What steps make, an absolute name behind them.
pub fn join(line: &mut Line<'_>) {
    let alloc = line.alloc();
    match line.word(1) {
        "fixed4" => joined(line, fixed::<4>()),
        _ => joined(line, Some(NameBuilder::new(alloc))),
    }
}

fn joined<B: BuiltOctets + Drop>(line: &mut Line<'_>, made: Option<NameBuilder<B>>) {
    let octets = line.octets(2);
    let origin = flat(line, &octets);
    match made {
        Some(builder) => {
            let mut builder = builder;
            steps(line, &mut builder, 3);
            said::name(line, builder.append_origin(&origin));
        }
        None => line.lose(),
    }
}

/// A relative name cut at a place, and the steps of a builder that goes on behind it.
pub fn rebuild(line: &mut Line<'_>) {
    let (octets, place) = (line.octets(1), line.usize_at(2));
    match RelativeName::from_octets(octets) {
        Ok(name) => rebuilt(line, name, place),
        Err(_) => line.lose(),
    }
}

fn rebuilt(line: &mut Line<'_>, name: RelativeName<Vec<u8>>, place: usize) {
    let mut name = name;
    if !name.is_label_start(place) {
        line.lose();
        return;
    }
    name.truncate(place);
    let mut builder = name.into_builder();
    steps(line, &mut builder, 3);
    said::name(line, builder.finish().into_absolute());
}
