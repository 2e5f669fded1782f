//! Laws of a loop of walks. Each is the contract of a function that does nothing.
ghost use Rattle.walk_laws.specs.Aliased.{AliasedTreesAreWalked};
ghost use Rattle.walk_laws.specs.Ending.{TreesAreWalked};
ghost use Rattle.walk_laws.specs.Few.{TreesWantFew, ZonesAreFew};
ghost use Rattle.walk_laws.specs.Found.{MessagesAreFound};
ghost use Rattle.walk_laws.specs.Laws.{LoopsAreShort, LoopsEnd};
ghost use Rattle.walk_laws.specs.New.{NothingIsWantedTwice};
ghost use Rattle.walk_laws.specs.Keys.{GivenKeysAreTrusted};
ghost use Rattle.walk_laws.specs.Served.{KeyedTreesAreWalked, ServedTreesAreWalked};
ghost use Rattle.walk_laws.specs.Shown.{ShownTreesAreWalked, ShownTreesComeToVerdicts};
ghost use Rattle.walk_laws.specs.Verdict.{
  AliasedTreesComeToVerdicts,
  LoopsComeToVerdicts,
  TreesComeToVerdicts,
};

use tree_laws::laws::{trees_resolve_to_one, trees_say_one};

/// A message that is there is found under its question, unless another one of that question is in
/// front of it. What is found stays found behind more messages, and where nothing is the first of
/// these is that answers.
pub fn messages_are_found()
    ensures { MessagesAreFound }
{}

/// What a walk wants, a message or a signature, is not there: so what a caller has handed in, in
/// whatever octets, is not wanted again.
pub fn nothing_is_wanted_twice()
    ensures { NothingIsWantedTwice }
{}

/// A loop of calls, each over what the one before was handed and some of what it wanted, has no
/// more calls that want messages than the limit of messages leaves room for, and no more that ask
/// for signatures than a limit of signatures does.
pub fn loops_are_short()
    ensures { LoopsAreShort }
{}

/// So a loop ends, whatever octets its caller hands in for a message and whichever signatures pass:
/// behind no more calls than both limits leave room for.
pub fn loops_end()
    ensures { LoopsEnd }
{}

/// Where a tree of zones leads a question, through its aliases, a loop over evidence of the tree
/// has few calls that want messages, whatever the limit of messages: for each name on the way two
/// of each zone on its way down, and one for each label of the name. These zones are one more than
/// the limit of delegations, at most.
pub fn trees_want_few()
    ensures messages { TreesWantFew }
    ensures zones { ZonesAreFew }
{
    trees_say_one();
}

/// Where limits leave room for the way that a tree leads a question, a walk over evidence of the
/// tree ends in what the tree says, through its aliases; or more is wanted; or there are as many
/// messages as are allowed; or the walk ends in an answer that tells nothing, of a zone on the way,
/// to the question or for DS at a name between. So no limit of delegations or aliases ends it, nor
/// is the name outside.
pub fn trees_are_walked()
    ensures { TreesAreWalked }
{
    trees_say_one();
    trees_resolve_to_one();
}

/// A judge does not refuse keys that are shown: those of a DNSKEY answer that has no two of one tag,
/// and that one of them signs which the DS set names, whatever it is asked and whatever answer stands
/// beside them. Keys that a zone has given are shown, and a zone that has given an answer under keys
/// that meet has given them.
pub fn given_keys_are_trusted()
    ensures { GivenKeysAreTrusted }
{}

/// Where zones without any alias answer allowed questions as they are published, what they refer
/// nowhere and DS at the names between too, and signatures are checked truly, a walk is stuck only
/// where the keys of a zone that refers the name on are refused. So no answer for DS leaves open
/// whether a name is delegated. Allowed are questions of class IN, and for none of the types 0, 5,
/// 39, 41, 46, 47, 48, 50, 51, and 128 to 255. Zones that lead on by aliases are not covered.
pub fn served_trees_are_walked()
    ensures { ServedTreesAreWalked }
{
    trees_say_one();
    trees_resolve_to_one();
}

/// Where the DNSKEY answers of these zones, if they are there, are of keys that the zones have
/// given, also where they refer the name on, no walk is stuck.
pub fn keyed_trees_are_walked()
    ensures { KeyedTreesAreWalked }
{
    trees_say_one();
    trees_resolve_to_one();
}

/// Where zones, aliases among their records or not, answer allowed questions so, and the keys of
/// each are those that it has given, no walk is stuck. Where a zone has not
/// what is asked for, its answer is that for the CNAME of the name, or of the wildcard that stands
/// for it, or else for the DNAME of the nearest name above; each such alias leads to one name.
pub fn aliased_trees_are_walked()
    ensures { AliasedTreesAreWalked }
{
    trees_say_one();
    trees_resolve_to_one();
}

/// The loop of a caller over evidence of a tree ends in what the tree says, through its aliases,
/// where limits leave room for the tree's way and for all messages that may be wanted on it; or
/// where more signatures are asked for than are allowed; or in an answer that tells nothing, of a
/// zone on the way. The calls before are as many as may be wanted of the zones on the way, by the
/// labels of its names, and one for each signature that is allowed, at most.
pub fn loops_come_to_verdicts()
    ensures { LoopsComeToVerdicts }
{
    trees_say_one();
    trees_resolve_to_one();
}

/// The loop of a caller over a tree whose zones, without any alias, answer allowed questions as they
/// are published, and have given their keys, ends in what the tree says, unless more signatures are
/// asked for than are allowed.
pub fn trees_come_to_verdicts()
    ensures { TreesComeToVerdicts }
{
    trees_say_one();
    trees_resolve_to_one();
}

/// The loop of a caller over a tree whose zones may have aliases ends in what the tree says, through
/// these aliases, unless more signatures are asked for than are allowed, where the zones answer as
/// for `aliased_trees_are_walked`.
pub fn aliased_trees_come_to_verdicts()
    ensures { AliasedTreesComeToVerdicts }
{
    trees_say_one();
    trees_resolve_to_one();
}

/// Where messages show the keys of zones, aliases among their records or not, and what the zones
/// answer to allowed questions, no walk is stuck, whatever else is in the messages, and in whichever
/// order: an OPT record, records that nothing asks for, further records of the chain, signatures of
/// more keys and of unlike times, an alias that is followed in the zone, the CNAME that is made
/// beside a DNAME.
///
/// A message shows what a zone answers where the facts of the zone's own answer are among those that
/// are verified in it; where all else that is verified of the question is true of the zone, of one
/// chain; and where signatures are of one moment, if they must be. Where the zone answers by a CNAME
/// or a DNAME, it shows that, and suggests it: it is the first DNAME above the name in the message,
/// or there is none, and a CNAME at the name.
pub fn shown_trees_are_walked()
    ensures { ShownTreesAreWalked }
{
    trees_say_one();
    trees_resolve_to_one();
}

/// The loop of a caller over a tree whose messages show what its zones answer ends in what the tree
/// says, through its aliases, unless more signatures are asked for than are allowed.
pub fn shown_trees_come_to_verdicts()
    ensures { ShownTreesComeToVerdicts }
{
    trees_say_one();
    trees_resolve_to_one();
}
