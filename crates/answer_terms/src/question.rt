//! The questions that a zone answers.
ghost use Rattle.std.specs.Prelude.{◌≡◌};
ghost use Rattle.messages.specs.Questions.{asked_of};
ghost use Rattle.answer_terms.specs.Asking.{asks_alias, is_allowed};

use messages::names::{Name, is_at_or_above};
use messages::question::Question;
use numbers::class::Class;
use numbers::rtype::Rtype;

/// Whether a question is answered and judged: class IN, at or below the apex, and none of the types
/// that signing adds, of aliases, or that no zone holds (RFC 6895, 3.1).
pub fn is_allowed(apex: &Name<Vec<u8>>, question: &Question) -> bool
    ensures { result ≡ is_allowed apex.now (asked_of question.now) }
{
    question.class == Class::IN
        && is_at_or_above(apex, &question.name)
        && !matches!(
            question.rtype,
            Rtype::RRSIG | Rtype::NSEC | Rtype::DNSKEY | Rtype::NSEC3 | Rtype::NSEC3PARAM
        )
        && !matches!(question.rtype, Rtype::CNAME | Rtype::DNAME | Rtype::OPT)
        && !matches!(question.rtype.to_int(), 0 | 128..=255)
}

/// Whether a question is one for the records of aliases: CNAME or DNAME (RFC 1034, 3.6.2;
/// RFC 6672), class IN, at or below the apex.
///
/// What a zone says of these types is signed as what it says of others: a publisher answers them by
/// a call of its own, and a judge may be asked.
pub fn asks_alias(apex: &Name<Vec<u8>>, question: &Question) -> bool
    ensures { result ≡ asks_alias apex.now (asked_of question.now) }
{
    matches!(question.rtype, Rtype::CNAME | Rtype::DNAME)
        && question.class == Class::IN
        && is_at_or_above(apex, &question.name)
}
