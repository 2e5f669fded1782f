//! Laws of messages that show what a zone answers.
ghost use Rattle.message_laws.specs.Held.{HeldIsIncluded};
ghost use Rattle.message_laws.specs.Honest.{HonestIsShown, HonestIsTruthful};
ghost use Rattle.message_laws.specs.Laws.{AlikeShowsAlike, GivenIsShown};
ghost use Rattle.message_laws.specs.Laws.{GivenWithAliasesIsShown, ShownInAnyCase, ShownIsSaid};

/// A judge says a zone's verdict of messages that show its keys and its answer, of a name that is
/// no alias for the type, whatever else the messages hold.
///
/// An answer shows that of a zone where the facts of the zone's own answer are among those that are
/// verified in it: its RRset of the question, or none, and the records of the chain that speak for
/// the name; where all else that is verified on the question is true of the zone; and where
/// signatures are of one moment, if they must be. So the order of records, TTLs, records that
/// nothing asks for, signed or not, signatures of more keys, and of any times that hold, play no
/// part. Keys are shown where one that the DS set names signs them all, and no two have one tag.
pub fn what_is_shown_is_said()
    ensures { ShownIsSaid }
{}

/// A message that holds an accepted zone's answer shows the facts of that answer.
///
/// It holds each RRset that the zone signs for its answer, in whichever order and beside whatever
/// else: the records of the RRset's owner and type there are its own, and the first signature there
/// that verifies them, which holds at the moment, has the label count of their source. Where the
/// zone's answer has no RRset of the question's name and type, none is verified in the message.
pub fn what_is_held_is_shown()
    ensures { HeldIsIncluded }
{}

/// Where nothing is forged in messages of a zone that never changed, and whose signer makes no
/// records of denial for questions, what is verified in them is true of the zone, and of its chain.
/// So such a message that holds what an accepted zone answers shows that, whoever signed and sent it.
pub fn what_is_honest_is_shown()
    ensures truthful { HonestIsTruthful }
    ensures shown { HonestIsShown }
{}

/// What a zone has given shows what it answers: a zone without aliases, and one with aliases, also
/// where it answers by a CNAME or a DNAME in place of what is asked for.
pub fn what_is_given_is_shown()
    ensures plain { GivenIsShown }
    ensures aliases { GivenWithAliasesIsShown }
{}

/// Messages show what others show in which the same is verified, whatever they ask, and that suggest
/// the same alias, where the zone answers by one: so do responses that have more records than the
/// messages of a zone's publisher, in any place, and other questions.
pub fn alike_shows_alike()
    ensures { AlikeShowsAlike }
{}

/// A message shows the same of a question whose name is spelled in another case (RFC 4343, 3).
pub fn case_means_nothing()
    ensures { ShownInAnyCase }
{}
