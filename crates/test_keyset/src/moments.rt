//! Moments, rolls by name, and the texts of errors.

use crate::words::moment_at;
use denial_fields::timestamp::Timestamp;
use keyset::{Error, RollType, UnixTime};
use std::time::Duration;
use test_lines::Line;

/// The timestamp of a moment.
pub fn timestamp(line: &mut Line<'_>) {
    let moment = moment_at(line, 1);
    line.value(&moment.timestamp());
}

/// The moment of a timestamp.
pub fn from_timestamp(line: &mut Line<'_>) {
    let time = UnixTime::from(Timestamp::from(line.u32_at(1)));
    line.value(&Duration::from(time).as_secs());
}

/// How many seconds passed up to a moment.
pub fn elapsed(line: &mut Line<'_>) {
    let (first, second) = (moment_at(line, 1), moment_at(line, 2));
    line.value(&first.elapsed(&second).as_secs());
}

/// The moment that is a number of seconds behind another one, both of 32 bits.
pub fn later(line: &mut Line<'_>) {
    let (first, second) = (u64::from(line.u32_at(1)), u64::from(line.u32_at(2)));
    let time = UnixTime::new(Duration::from_secs(first)) + Duration::from_secs(second);
    line.value(&Duration::from(time).as_secs());
}

/// Whether a moment is before another.
pub fn before(line: &mut Line<'_>) {
    let (first, second) = (moment_at(line, 1), moment_at(line, 2));
    line.yes(first < second);
}

/// The roll that has a name.
pub fn roll_named(line: &mut Line<'_>) {
    match line.rest(1).parse::<RollType>() {
        Ok(roll) => line.value(&format_args!("{roll:?}")),
        Err(error) => line.refused(&error),
    }
}

/// The texts of all errors.
pub fn errors(line: &mut Line<'_>) {
    let mut texts = line.aside("; ");
    for error in &first_errors() {
        texts.value(error);
    }
    for error in &last_errors() {
        texts.value(error);
    }
    line.append(texts);
}

fn first_errors() -> [Error; 7] {
    [
        Error::KeyExists,
        Error::KeyNotFound,
        Error::KeyNotOld,
        Error::DuplicateKeyTag,
        Error::WrongKeyType,
        Error::WrongKeyState,
        Error::NoSuitableKeyPresent,
    ]
}

fn last_errors() -> [Error; 7] {
    [
        Error::WrongStateForRollOperation,
        Error::ConflictingRollInProgress,
        Error::AlgorithmSetsMismatch,
        Error::Wait(Duration::from_millis(7)),
        Error::UnknownRollType,
        Error::MissingTimestamp,
        Error::Memory,
    ]
}
