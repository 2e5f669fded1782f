//! What a zone is asked on the way.
use denial_data::Ds;
use messages::names::Name;
use messages::question::Question;
use std::marker::Model;

/// A question, the zone that is asked it, and the DS set that the zone's keys are judged by.
#[derive(Drop)]
pub(crate) struct ZoneQuery<'a> {
    /// The name of the zone.
    pub(crate) zone: &'a Name<Vec<u8>>,
    /// The DS set of the zone above, or of the trust anchor.
    pub(crate) ds: &'a [Ds<Vec<u8>>],
    /// What the zone is asked.
    pub(crate) question: &'a Question,
}

impl<'a> Model for ZoneQuery<'a> {
    ghost use Rattle.messages.specs.Questions.{asked_of};
    ghost use Rattle.resolution_walk.specs.Query.{Query};

    ghost Value = { Query };

    ghost view = { λ q. record {
      zone = q.zone.now;
      ds = q.ds.now;
      asked = asked_of q.question.now;
    } };
}
