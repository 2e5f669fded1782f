//! The question of a request (RFC 1035, 4.1.2).
ghost use Rattle.std.specs.Prelude.{◌≡◌, ◌+◌, ◌≤◌, length, IfSome};
ghost use Rattle.std.specs.Option.{option_map};
ghost use Rattle.std.specs.Result.{result_ok};
ghost use Rattle.definitions.specs.Limits.{pointer_limit};
ghost use Rattle.messages.specs.Message.{u16_at};
ghost use Rattle.server_queries.specs.Queries.{asked_before, question_at};

use messages::names::{ParsedName, read_name};
use messages::question::Question;
use plain::{Class, Rtype};

/// The question of a message that counts one, and the place behind it. Names are kept as spelled.
pub(crate) fn read_question(octets: &[u8]) -> Option<(Question<ParsedName<'_>>, usize)>
    ensures { option_map asked_before result ≡ question_at pointer_limit octets.now }
{
    if u16_at(octets, 4)? != 1 {
        return None;
    }
    let (name, end) = read_name(octets, 12).ok()?;
    let rtype = u16_at(octets, end)?;
    let class = u16_at(octets, end + 2)?;
    let question = Question {
        name,
        rtype: Rtype::from_int(rtype),
        class: Class::from_int(class),
    };
    Some((question, end + 4))
}

/// The 16-bit number at a place.
fn u16_at(octets: &[u8], at: usize) -> Option<u16>
    ensures exact { result ≡ result_ok (u16_at octets.now at) }
    ensures inside { IfSome result (λ n. at + 2 ≤ length octets.now) }
{
    match octets.get(at..) {
        Some([high, low, ..]) => Some(u16::from(*high) * 256 + u16::from(*low)),
        _ => None,
    }
}
