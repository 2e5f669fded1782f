//! The texts of faults.

use answer::denial::SigningError;
use answer::keyset::Error;
use answer::names::LongRecordData;
use answer::{AnswerFault, HashError, KeyFault, KeyKind, Refusal, SchemeError, ZoneFault};
use messages::MessageError;
use session_grammar::line_error::LineFault;
use session_grammar::session::SessionError;
use std::fmt::Display;
use test_lines::Line;

/// The texts of the faults of a kind, in the order in which its enum has them.
pub fn faults(line: &mut Line<'_>) {
    match line.word(1) {
        "zone" => texts(line, &zone_faults()),
        "chain" => texts(line, &chain_faults()),
        "hash" => texts(line, &[HashError::Failed, HashError::Memory]),
        "scheme" => texts(line, &[SchemeError::Failed, SchemeError::Memory]),
        "data" => texts(line, &[LongRecordData]),
        "answer" => texts(line, &answer_faults()),
        "key" => texts(line, &key_faults()),
        "judge" => texts(line, &refusals()),
        "message" => texts(line, &message_errors()),
        "session" => texts(line, &session_errors()),
        _ => line.lose(),
    }
}

fn texts<F: Display>(line: &mut Line<'_>, faults: &[F]) {
    let mut texts = line.aside("; ");
    for fault in faults {
        texts.value(fault);
    }
    line.append(texts);
}

fn zone_faults() -> [ZoneFault; 9] {
    [
        ZoneFault::WrongClass,
        ZoneFault::OutsideApex,
        ZoneFault::SignedType,
        ZoneFault::Alias,
        ZoneFault::MetaType,
        ZoneFault::StarNs,
        ZoneFault::IterationsOverLimit,
        ZoneFault::Chain(SigningError::NoSingleSoa),
        ZoneFault::Memory,
    ]
}

fn chain_faults() -> [SigningError; 6] {
    [
        SigningError::NoSingleSoa,
        SigningError::MultipleTtlValues,
        SigningError::HashFailed,
        SigningError::HashTooLong,
        SigningError::HashCollision,
        SigningError::Memory,
    ]
}

fn answer_faults() -> [AnswerFault; 5] {
    [
        AnswerFault::QuestionNotAllowed,
        AnswerFault::HashFailed,
        AnswerFault::SignFailed,
        AnswerFault::TooLong,
        AnswerFault::Memory,
    ]
}

fn key_faults() -> [KeyFault; 4] {
    [
        KeyFault::ReferenceBound,
        KeyFault::DigestFailed,
        KeyFault::Key(Error::KeyNotFound),
        KeyFault::Memory,
    ]
}

fn refusals() -> [Refusal; 12] {
    [
        Refusal::QuestionNotAllowed,
        Refusal::BadDnskeyMessage,
        Refusal::BadAnswerMessage,
        Refusal::QuestionMismatch,
        Refusal::EqualTags,
        Refusal::NoTrustedKey,
        Refusal::MixedNsec3Parameters,
        Refusal::IterationsOverLimit,
        Refusal::HashFailed,
        Refusal::NotProven,
        Refusal::Memory,
        Refusal::MixedVersions,
    ]
}

fn message_errors() -> [MessageError; 3] {
    [
        MessageError::ShortInput,
        MessageError::Form,
        MessageError::NotOneQuestion,
    ]
}

fn session_errors() -> [SessionError; 2] {
    let (number, fault) = (7, LineFault::Word);
    [SessionError::Line { number, fault }, SessionError::Memory]
}

/// The flags of a key signing key, of a zone signing key, of a key that signs both and of one of
/// another owner.
pub fn flags(line: &mut Line<'_>) {
    line.value(&KeyKind::Ksk.flags());
    line.value(&KeyKind::Zsk.flags());
    line.value(&KeyKind::Csk.flags());
    line.value(&KeyKind::Include.flags());
}
