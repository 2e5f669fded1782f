//! What a walk is handed.
ghost use Rattle.std.specs.Prelude.{◌≡◌};
ghost use Rattle.std.specs.List.{find};
ghost use Rattle.std.specs.Option.{option_map};
ghost use Rattle.evidence_laws.specs.Given.{is_answer, message_of};
ghost use Rattle.resolution_walk.specs.Wanted.{lacks};

use denial_data::Ds;
use denial_fields::unix_time::UnixTime;
use evidence_laws::CheckedSignature;
use messages::names::{Name, ToName};
use messages::question::Question;
use names_rdata::rtype::Rtype;
use std::marker::Model;

/// A message of a zone, and the question that it answers. The caller says which zone's servers gave
/// it; what it holds shows who signed it. Its octets are in the form in which signatures are
/// verified, as `messages_canonical` makes it.
#[derive(Drop)]
pub struct Message<'a> {
    pub zone: &'a Name<Vec<u8>>,
    pub question: &'a Question,
    pub octets: &'a [u8],
}

impl<'a> Model for Message<'a> {
    ghost use Rattle.messages.specs.Questions.{asked_of};
    ghost use Rattle.evidence_laws.specs.Given.{Message as Sent};

    ghost Value = { Sent };

    ghost view = { λ m. record {
      zone = m.zone.now;
      asked = asked_of m.question.now;
      octets = m.octets.now;
    } };
}

impl<'a> Message<'a> {
    /// Whether it is a zone's answer to a question for a name and a type.
    fn is_answer(&self, zone: &Name<Vec<u8>>, name: &Name<Vec<u8>>, rtype: Rtype) -> bool
        ensures { result ≡ is_answer zone.now name.now rtype self.now }
    {
        self.zone.name_eq(zone) && self.question.name.name_eq(name) && self.question.rtype == rtype
    }
}

/// A trust anchor, messages and signatures that were checked.
///
/// A walk is a function of it: with more messages it goes on, and the same evidence, stored or
/// sent, gives the same answer.
#[derive(Drop)]
pub struct Evidence<'a> {
    /// The name of the trust anchor's zone.
    pub anchor: &'a Name<Vec<u8>>,
    /// The DS set of the trust anchor.
    pub ds: &'a [Ds<Vec<u8>>],
    pub messages: &'a [Message<'a>],
    /// Signatures that were checked.
    pub table: &'a [CheckedSignature<'a>],
    /// The algorithms that signatures are checked of; none stands for all.
    pub algorithms: &'a [u8],
    /// The moment at which signatures are to hold.
    pub moment: UnixTime,
    /// How many iterations of a name's hash are allowed (RFC 5155, 10.3).
    pub limit: u16,
    /// Whether the signatures that verify an answer must all be of one moment.
    pub one_moment: bool,
}

impl<'a> Model for Evidence<'a> {
    ghost use Rattle.evidence_laws.specs.Given.{Given};

    ghost Value = { Given };

    ghost view = { λ e. record {
      anchor = e.anchor.now;
      ds = e.ds.now;
      messages = e.messages.now;
      table = e.table.now;
      algorithms = e.algorithms.now;
      at = e.moment;
      limit = e.limit;
      one_moment = e.one_moment;
    } };
}

impl<'a> Evidence<'a> {
    /// The octets of the first message of a zone that answers a question for a name and a type.
    pub(crate) fn message_of(
        &self,
        zone: &Name<Vec<u8>>,
        name: &Name<Vec<u8>>,
        rtype: Rtype,
    ) -> Option<&'a [u8]>
        ensures { let sent = message_of self.now zone.now name.now rtype in
            option_map (λ m. m.now) result ≡ sent }
    {
        first_of(self.messages, zone, name, rtype)
    }

    /// Whether no message of a zone answers a question for a name and a type.
    pub(crate) fn lacks(&self, zone: &Name<Vec<u8>>, name: &Name<Vec<u8>>, rtype: Rtype) -> bool
        ensures { result ≡ lacks self.now zone.now name.now rtype }
    {
        match self.message_of(zone, name, rtype) {
            Some(_) => false,
            None => true,
        }
    }
}

fn first_of<'a>(
    messages: &'a [Message<'a>],
    zone: &Name<Vec<u8>>,
    name: &Name<Vec<u8>>,
    rtype: Rtype,
) -> Option<&'a [u8]>
    ensures { let sent = find (is_answer zone.now name.now rtype) messages.now in
        option_map (λ m. m.now) result ≡ option_map (λ m. m.octets) sent }
{
    for message in messages {
        if message.is_answer(zone, name, rtype) {
            return Some(message.octets);
        }
    }
    None
}
