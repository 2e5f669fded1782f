//! What is asked, and what is judged beside the messages.

use crate::words::name_at;
use answer::{
    Case, Class, DigestAlgorithm, Ds, Name, Question, Rtype, SecurityAlgorithm, UnixTime,
    is_allowed,
};
use test_keyset::moment_at;
use test_lines::Line;

/// A question of class IN: a name at a place, a type at the next.
pub fn question_at(line: &mut Line<'_>, place: usize) -> Option<Question> {
    let rtype = Rtype::from_int(line.u16_at(place.saturating_add(1)));
    match name_at(line, place) {
        Some(name) => Some(Question {
            name,
            rtype,
            class: Class::IN,
        }),
        None => None,
    }
}

/// What is judged, beside the messages.
#[derive(Drop)]
pub struct Asked {
    apex: Name<Vec<u8>>,
    set: Vec<Ds<Vec<u8>>>,
    question: Question,
    now: UnixTime,
}

impl Asked {
    /// Apex, DS set, name, type and moment, from a word on.
    pub fn read(line: &mut Line<'_>, place: usize) -> Option<Asked> {
        let set = ds_set_at(line, place.saturating_add(1));
        let now = moment_at(line, place.saturating_add(4));
        match (
            name_at(line, place),
            question_at(line, place.saturating_add(2)),
        ) {
            (Some(apex), Some(question)) if !line.is_lost() => Some(Asked {
                apex,
                set,
                question,
                now,
            }),
            _ => {
                line.lose();
                None
            }
        }
    }

    /// The case of a question, its DS set and moment, and two messages.
    pub fn of<'a>(&'a self, dnskey: &'a [u8], answer: &'a [u8]) -> Case<'a> {
        Case {
            apex: &self.apex,
            ds: &self.set,
            dnskey,
            answer,
            question: &self.question,
            moment: self.now,
            limit: 0,
            one_moment: true,
            other_question: false,
        }
    }
}

/// DS records of tags and digest types, as `1054:2`, of algorithm 13 and the digest that the scheme
/// makes.
fn ds_set_at(line: &mut Line<'_>, place: usize) -> Vec<Ds<Vec<u8>>> {
    let mut set = Vec::new(line.alloc());
    for word in &line.list(place) {
        push_ds(line, &mut set, word);
    }
    set
}

fn push_ds(line: &mut Line<'_>, set: &mut Vec<Ds<Vec<u8>>>, word: &str) {
    let (tag, digest_type) = word.split_once(':').unwrap_or(("", ""));
    let digest_type = DigestAlgorithm::from_int(line.read_u8(digest_type));
    let (tag, digest) = (line.read_u16(tag), line.read_octets("07"));
    match Ds::new(tag, SecurityAlgorithm::ECDSAP256SHA256, digest_type, digest) {
        Ok(ds) => line.must(set.push(ds)),
        Err(_) => line.lose(),
    }
}

/// Whether a question is allowed.
pub fn allowed(line: &mut Line<'_>) {
    let (rtype, class) = (
        Rtype::from_int(line.u16_at(3)),
        Class::from_int(line.u16_at(4)),
    );
    match (name_at(line, 1), name_at(line, 2)) {
        (Some(apex), Some(name)) => {
            let question = Question { name, rtype, class };
            line.yes(is_allowed(&apex, &question));
        }
        _ => line.lose(),
    }
}
