//! An example: a zone publishes two answers, and a resolver that has its DS set judges them from
//! their bytes.
#![tactic(auto)]

mod copying;
mod zone;

use crate::copying::Copying;
use crate::zone::{ZonePublisher, moment, name, published};
use answer::laws::published_keys_are_of_the_zone;
use answer::{Case, Class, Judgement, Question, Refused, Rtype, Verdict, judge_with};
use std::alloc::Global;

/// Asks a zone for two names, and prints what its answers prove.
fn main(rt: HostRuntime) -> anyhow::Result<()> {
    let alloc = rt.alloc();
    let mut publisher = published(alloc)?;
    // A judge asks that present keys may sign a zone: those that a publisher publishes do.
    published_keys_are_of_the_zone();
    for owner in ["www.example", "ftp.example"] {
        let said = asked(alloc, &mut publisher, owner)?;
        println!(rt; "{owner}: {said}")?;
    }
    Ok(())
}

/// Asks a zone for the address of a name.
fn asked(
    alloc: Global,
    publisher: &mut ZonePublisher,
    owner: &str,
) -> anyhow::Result<&'static str> {
    let question = Question {
        name: name(alloc, owner)?,
        rtype: Rtype::A,
        class: Class::IN,
    };
    let answer = publisher.answer(&question, &moment(3600))?;
    resolved(alloc, publisher, &question, &answer)
}

/// What an answer proves to a resolver that has the DS set and the keys.
fn resolved(
    alloc: Global,
    publisher: &ZonePublisher,
    question: &Question,
    answer: &[u8],
) -> anyhow::Result<&'static str> {
    let now = moment(3600);
    let ds = publisher.ds_set()?;
    let keys = publisher.dnskey_answer(&now)?;
    let case = Case {
        apex: publisher.apex(),
        ds: &ds,
        dnskey: &keys,
        answer,
        question,
        moment: now,
        limit: 0,
        one_moment: true,
        other_question: false,
    };
    Ok(words(&judge_with(alloc, &Copying, &Copying, &case)))
}

/// What a judgement says, in words.
fn words(judgement: &Result<Judgement, Refused>) -> &'static str {
    match judgement {
        Ok(judgement) => match &judgement.verdict {
            Verdict::Records(_) => "these records",
            Verdict::NoType => "no records of this type",
            Verdict::NoName => "no such name",
            Verdict::Unsigned => "not signed",
            _ => "another verdict",
        },
        Err(_) => "refused",
    }
}
