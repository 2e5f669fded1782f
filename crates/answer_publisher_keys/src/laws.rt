//! Laws of a zone's keys.
ghost use Rattle.answer_publisher_keys.specs.Bindings.{ListsRoles};
ghost use Rattle.answer_publisher_keys.specs.Asking.{AsksForDsSet, AsksWhatRollsWaitFor};
ghost use Rattle.answer_publisher_keys.specs.KeyTags.{PublishedTagsDiffer, PublishedTagsPass};
ghost use Rattle.answer_publisher_keys.specs.PublishedKeys.{PublishedKeysAreThoseOfTheSet};

/// The keys of a published set have different tags, whatever calls are behind them: a judge never
/// finds two of one.
pub fn published_tags_differ()
    ensures differ { PublishedTagsDiffer }
    ensures pass { PublishedTagsPass }
{}

/// A publisher's DS set, DNSKEY set and both lists of signers are those of the keys that the key
/// set lists as such, whatever calls are behind them: each reference is bound to a DNSKEY of its
/// key's tag, the DS set has the DS record of type 2 of each key at the parent, the other lists the
/// DNSKEY of each key of their role, and none has anything else.
pub fn published_keys_are_those_of_the_set()
    ensures lists { ListsRoles }
    ensures published { PublishedKeysAreThoseOfTheSet }
{}

/// What the parent is asked for, whatever calls are behind a zone's keys: a CDS record for the DS
/// record of each key at the parent, and a CDNSKEY record for its DNSKEY, or nothing. Behind a call
/// whose actions wait for the parent's DS set it is that DS set.
pub fn parent_is_asked_for_the_ds_set()
    ensures sets { AsksForDsSet }
    ensures waits { AsksWhatRollsWaitFor }
{}
