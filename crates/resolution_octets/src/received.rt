//! Messages as a walk is handed them.
ghost use Rattle.std.specs.Prelude.{◌≡◌, ◌⊎◌, map, IfErr, IfOk};
ghost use Rattle.resolution_octets.specs.Spelling.{AreRead, IsRead, IsUnread, SomeUnread};
ghost use Rattle.resolution_octets.specs.Replying.{are_crowded};
ghost use Rattle.resolution_octets.specs.ReadMessages.{message_of};

use crate::sent::SentMessage;
use answer_judge_octets::ReplyCode;
use answer_judge_octets::crowded::is_crowded;
use answer_judge_octets::octets::{judged_form, read_name};
use messages::names::Name;
use messages::question::Question;
use names_rdata::rtype::Rtype;
use numbers::class::Class;
use resolution_walk::Message;
use std::alloc::{AllocError, Global};
use std::borrow::CowSlice;

/// The class IN (RFC 1035, 3.2.4).
pub(crate) const IN: u16 = 1;

/// A message that was read, in the form in which signatures are verified.
#[derive(Drop)]
pub(crate) struct ReadMessage<'a> {
    zone: Name<Vec<u8>>,
    question: Question,
    octets: CowSlice<'a, u8>,
}

/// Reads messages that are handed in.
pub(crate) fn read_messages<'a>(
    alloc: Global,
    sent: &[SentMessage<'a>],
) -> Result<Vec<ReadMessage<'a>>, ReplyCode>
    ensures ok { IfOk result (λ ms. AreRead sent.now (map message_of ms.items)) }
    ensures unread { IfErr result (λ c. (c ≡ ReplyCode.OutOfMemory) ⊎ SomeUnread sent.now c) }
{
    let mut read = Vec::new(alloc);
    for message in sent {
        let message = read_message(alloc, message)?;
        if read.push(message).is_err() {
            return Err(ReplyCode::OutOfMemory);
        }
    }
    Ok(read)
}

/// Reads a message that is handed in.
fn read_message<'a>(alloc: Global, sent: &SentMessage<'a>) -> Result<ReadMessage<'a>, ReplyCode>
    ensures ok { IfOk result (λ m. IsRead sent.now (message_of m)) }
    ensures unread { IfErr result (λ c. (c ≡ ReplyCode.OutOfMemory) ⊎ IsUnread sent.now c) }
{
    let zone = read_name(alloc, sent.zone, ReplyCode::BadMessages)?;
    let name = read_name(alloc, sent.name, ReplyCode::BadMessages)?;
    let octets = judged_form(alloc, sent.octets, false)?;
    Ok(ReadMessage {
        zone,
        question: Question {
            name,
            rtype: Rtype::from_int(sent.rtype),
            class: Class::from_int(IN),
        },
        octets,
    })
}

/// Whether one of the messages would cost too much work to be judged.
pub(crate) fn are_crowded(read: &[ReadMessage]) -> bool
    ensures { result ≡ are_crowded (map message_of read.now) }
{
    for message in read {
        if is_crowded(message.octets.as_slice()) {
            return true;
        }
    }
    false
}

/// Messages that were read, as a walk is handed them.
pub(crate) fn walk_messages<'a>(
    alloc: Global,
    read: &'a [ReadMessage<'a>],
) -> Result<Vec<Message<'a>>, AllocError>
    ensures { IfOk result (λ ms. ms.items ≡ map message_of read.now) }
{
    let mut walk_messages = Vec::new(alloc);
    for message in read {
        walk_messages.push(Message {
            zone: &message.zone,
            question: &message.question,
            octets: message.octets.as_slice(),
        })?;
    }
    Ok(walk_messages)
}
