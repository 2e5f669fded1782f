//! Laws of what a judge verifies.

ghost use Rattle.answer_judge.specs.Lasts.{VerdictsLast};
ghost use Rattle.answer_judge.specs.OneZone.{HonestOfOneZone};
ghost use Rattle.answer_judge.specs.BothChains.{ChainsSayTheSame};
ghost use Rattle.answer_judge.specs.FirstSignature.{SaysFirst};
ghost use Rattle.answer_judge.specs.ForgedAtAll.{AtAllIsEnough};
ghost use Rattle.answer_judge.specs.NoFalse.{NoFalseVerdict};
ghost use Rattle.answer_judge.specs.OwnFacts.{ToldFactsAreOwn};
ghost use Rattle.answer_judge.specs.OwnMessages.{OwnAnswersAreHonest, OwnKeysAreHonest};
ghost use Rattle.answer_judge.specs.Splices.{PlainSchemeBinds, SplicesAreHonest, ToldIsSpliced};
ghost use Rattle.answer_judge.specs.Timely.{UntimelyIsRefused};

/// An RRset of a message is verified exactly where some signature of it is the first that verifies
/// it. That signature covers the RRset's type, is the apex's and in time, has a label count that
/// fits the owner, passes under a key, and no record before it verifies the RRset: so its fields
/// are known, the covered type, the label count and the signer among them (RFC 4034, 3.1; RFC 4035,
/// 5.3).
pub fn first_signature_says()
    ensures { SaysFirst }
{}

/// What is verified in bytes that tell an accepted zone's answer are the facts of the zone's own
/// answer, whatever its verdict: the RRset of the question with the label count of its source, and
/// the links of the chain's records: of NSEC records, their names up to case (RFC 4035, 3.1.3 and
/// 5.3), or of NSEC3 records, with opt-out and without (RFC 5155, 7.2). An RRset without a
/// signature proves nothing, as the NS RRset of a referral.
pub fn told_facts_are_own()
    ensures { ToldFactsAreOwn }
{}

/// A zone with a chain of names and the same zone with a chain of hashes, without opt-out, have one
/// verdict of a question: what both gave is judged alike.
pub fn chains_say_the_same()
    ensures { ChainsSayTheSame }
{}

/// On messages in which nothing is forged a judge says the verdict of a version that the zone had,
/// in which the name is no alias, or refuses, beside any DS set that isn't empty. The zone never
/// changed, or signatures must be of one moment and at one moment the zone had one version, or they
/// pass for one RRset of the answer alone: of records of two versions no verdict is made that
/// neither has.
///
/// A zone is one in order: nothing stands beside a CNAME, nothing below a DNAME (RFC 1034, 3.6.2;
/// RFC 6672, 2.4). Whoever signs and serves it plays no part. Nothing is forged where each
/// signature that a judge may use is over an RRset that was signed: the apex's, in time, of an
/// RRset that is sought, under a published key that may sign; and where each key that the DS set
/// trusts is published. So messages may be spliced of any answers that the zone gave, under any of
/// its keys; signatures may be moved to other owners and made by strangers; keys of strangers may
/// stand in the DNSKEY answer, and sign it; what is out of its times may be forged (RFC 4035, 5;
/// RFC 5155, 8).
pub fn no_bytes_bring_a_false_verdict()
    ensures { NoFalseVerdict }
{}

/// Nothing is forged in a message where that is so of each signature over whichever octets it may
/// be made of: that is more than is asked, and more than a scheme can promise whose signatures are
/// shorter than what they are made over.
pub fn nothing_forged_at_all_is_enough()
    ensures { AtAllIsEnough }
{}

/// Beside a DS set that isn't empty a judge refuses where no signature of the one message holds at
/// the moment, or none of the other (RFC 4035, 5.3.1).
pub fn untimely_is_refused()
    ensures { UntimelyIsRefused }
{}

/// Where a signature passes over one string of octets alone, nothing is forged in messages that are
/// spliced from any that were handed out and from what strangers made: the signatures of one answer
/// beside the records of another, those of a wildcard's RRset under another owner, a DNSKEY set
/// that a stranger signs, and anything out of its times.
pub fn splices_are_honest()
    ensures { SplicesAreHonest }
{}

/// There is such a scheme: signatures that are the tag of the key and the octets themselves.
pub fn a_plain_scheme_binds()
    ensures { PlainSchemeBinds }
{}

/// The signatures of bytes that tell a message which was handed out are such as may be spliced.
pub fn what_is_told_is_spliced()
    ensures { ToldIsSpliced }
{}

/// Nothing is forged in what a zone gave, whatever the scheme, its DNSKEY answers and its answers:
/// each signature there is over the RRset that it covers.
pub fn what_a_zone_gave_is_honest()
    ensures keys { OwnKeysAreHonest }
    ensures answers { OwnAnswersAreHonest }
{}

/// The judge says the verdict of a zone that does not change, or refuses, whether or not signatures
/// must be of one moment.
pub fn of_one_zone_its_verdict()
    ensures { HonestOfOneZone }
{}

/// Octets that are judged at a moment are judged alike at each moment from there up to the last
/// second of what they are said to last, under the same answers of a scheme.
///
/// Up to there each signature holds by which an RRset is verified, and none of an RRset that is
/// sought begins to hold.
pub fn verdicts_last()
    ensures { VerdictsLast }
{}
