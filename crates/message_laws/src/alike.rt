//! Laws of messages that a judge sees alike.
ghost use Rattle.message_laws.specs.SeenAlike.{AnswersJudgedAlike, KeysJudgedAlike};
ghost use Rattle.message_laws.specs.SeenAlike.{SeenProveAlike, UncoveredJudgedAlike};

/// A judge says the same of messages that it sees alike.
///
/// It uses records of the type that is asked for, signatures, and NSEC and NSEC3 records, in
/// whichever section they stand (RFC 4035, 5.3 and 5.4; RFC 5155, 8). Of others, as an OPT record
/// or addresses, signed or not, a message may have any, and an answer to it has as many as it
/// likes. Flags, counts of sections, TTLs, how names are compressed, and their case where it means
/// nothing, play no part either: a signature says the TTL that it is over (RFC 4034, 3.1.4).
///
/// Where no signature covers the type that is asked for, records of that type play no part: a
/// referral may have addresses beside it, also where addresses are asked for.
pub fn messages_are_judged_alike()
    ensures answers { AnswersJudgedAlike }
    ensures keys { KeysJudgedAlike }
    ensures uncovered { UncoveredJudgedAlike }
    ensures proven { SeenProveAlike }
{}
