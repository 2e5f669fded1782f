//! The outcomes of events.
use answer_judge::verdict::{Judgement, Refused};
use answer_publisher::fault::{AnswerFault, KeyFault, ReplaceFault};
use answer_terms::dnskey::Dnskey;
use denial_data::Ds;
use keyset::Action;

/// What comes of an event. A thing that is shown says its place.
#[derive(Debug, Drop)]
pub enum Outcome {
    /// The actions that the keeper takes next, or why the call is refused.
    Key(Result<Vec<Action>, KeyFault>),
    /// The zone's records are replaced, or why they are not. It takes no place.
    Replaced(Result<(), ReplaceFault>),
    /// A DS set, in ascending order of tag.
    Ds { place: usize, set: Vec<Ds<Vec<u8>>> },
    /// A CDS set, in ascending order of tag. It takes no place.
    Cds(Vec<Ds<Vec<u8>>>),
    /// A CDNSKEY set, in ascending order of tag. It takes no place.
    Cdnskey(Vec<Dnskey<Vec<u8>>>),
    /// A DNSKEY answer or a zone answer.
    Message { place: usize, octets: Vec<u8> },
    /// Nothing is shown, and no place is taken.
    Refused(AnswerFault),
    /// What the judge says.
    Judged(Result<Judgement, Refused>),
    /// At a place of the event stands nothing, or a thing of another kind.
    BadPlace,
}
