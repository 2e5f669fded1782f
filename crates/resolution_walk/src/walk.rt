//! The way from a trust anchor down.
ghost use Rattle.std.specs.Prelude.{◌≡◌, ◌++◌, [], ◌∷◌, length, nat_lt, IfOk, MatchResult};
ghost use Rattle.std.specs.Prelude.{None, Some, true};
ghost use Rattle.std.specs.Option.{is_some};
ghost use Rattle.messages.specs.Questions.{asked_of};
ghost use Rattle.evidence_laws.specs.Counted.{CountsHashes};
ghost use Rattle.evidence_laws.specs.Lasts.{least_of};
ghost use Rattle.evidence_laws.specs.Walking.{is_asked_of};
ghost use Rattle.resolution_walk.specs.Ended.{IsWalked, LastsIfSaid, said_of, validity_said};
ghost use Rattle.resolution_walk.specs.Stopping.{EndsHere, IsAliasOf, IsLed, IsNoAlias};
ghost use Rattle.resolution_walk.specs.Stopping.{StopsBelowIn, StopsIn, StopsWithin, WalkStops};
ghost use Rattle.resolution_walk.specs.Stopping.{counts_at, ending_within};
ghost use Rattle.resolution_walk.specs.Truth.{WalksTruly};

use crate::ending::{End, Ending, Hop, JudgedHop, Target, Walk};
use crate::evidence::Evidence;
use crate::hops::in_zone;
use crate::query::ZoneQuery;
use answer_hasher::NameHasher;
use evidence_laws::{Counts, Lead, Validity, least_of};
use messages::names::{Name, ToName, copy_name, is_at_or_above};
use messages::question::Question;
use names_rdata::rtype::Rtype;
use std::alloc::{AllocError, Global};

/// How far a walk goes.
#[derive(Clone, Copy, Debug, PartialEq, Eq)]
pub struct Limits {
    /// How many delegations it goes down for a name, from the anchor on.
    pub cuts: u16,
    /// How many aliases it follows.
    pub aliases: u16,
    /// How many messages the evidence may have: beside so many, or more, it wants none.
    pub messages: u16,
}

/// What a walk has behind it: the names that aliases led through, and how often was verified and
/// hashed.
#[derive(Debug, Drop)]
pub(crate) struct Trail {
    pub(crate) through: Vec<Name<Vec<u8>>>,
    pub(crate) counts: Counts,
}

/// Says what evidence tells of a question: the verdict of the zone that has the name, or from where
/// on nothing is signed, through the aliases on the way; or which messages and signatures are
/// wanted.
///
/// From the anchor on, a zone's own answer leads down by the DS records of a referral, or where it
/// tells nothing of the way, its answers for DS at the names between do, one by one, down to one
/// that does not exist. An answer to the question that tells nothing is the end only where no
/// delegation is at any of these, or the zone's keys are refused; then no other answer is looked
/// at. A judgement that memory ran out for tells nothing: it is an error, and no walk. Each zone is
/// judged by the DS set that the zone above has for it, and each name from the anchor on again. The
/// messages that are wanted are exactly those that lack of the zone that the evidence leads down
/// to: of its keys and its answer. For one name a message is judged once, so that the judgements
/// grow with the messages and not with their square.
///
/// A limit is where a walk stops that goes on: at one more delegation for a name, one more alias,
/// or where a message is wanted beside as many as are allowed.
///
/// What is said lasts as long as each step of the way that is taken, through all zones and aliases,
/// not as long as another way to the same end; what says neither secure nor insecure lasts no time.
/// The counts are those of all judgements that are made: in each zone on the way of the answer to
/// the question, and of those for DS at the names between that are looked at. As many names are
/// hashed by the hasher that is lent.
///
/// Where nothing in the evidence is forged, zone by zone, beside an anchor of the tree, this is
/// what the tree says: secure with the verdict of the zone that has the name, insecure below a
/// delegation that the tree leaves unsigned or where opt-out leaves the name open, through the
/// aliases that the tree has. The tree's zones are in order and do not change.
pub fn resolve<H: NameHasher>(
    alloc: Global,
    evidence: &Evidence,
    question: &Question,
    limits: Limits,
    hasher: &mut H,
) -> Result<Walk, AllocError>
    ensures walked { let asked = asked_of question.now in
        IfOk result (IsWalked evidence.now asked) }
    ensures stops { let asked = asked_of question.now in
        IfOk result (StopsWithin evidence.now asked limits) }
    ensures lasts { IfOk result LastsIfSaid }
    ensures honest { let asked = asked_of question.now in
        IfOk result (WalksTruly evidence.now asked) }
    ensures hashed { let hashes = CountsHashes (H.hashed hasher.old) (H.hashed hasher.new) in
        IfOk result (λ w. hashes 0 w.counts.hashes) }
{
    let asked = copied(alloc, question)?;
    let trail = Trail {
        through: Vec::new(alloc),
        counts: Counts::none(),
    };
    let walk = follow(alloc, evidence, asked, trail, limits, hasher)?;
    Ok(validity_if_said(within(evidence, limits.messages, walk)))
}

/// The walk, which wants no message beside so many.
fn within(evidence: &Evidence, most: u16, walk: Walk) -> Walk
    ensures ending { result.ending ≡ ending_within most evidence.now walk.ending }
    ensures through { result.through ≡ walk.through }
    ensures lasts { result.validity ≡ walk.validity }
    ensures counts { result.counts ≡ walk.counts }
{
    Walk {
        ending: ending_within(evidence, most, walk.ending),
        through: walk.through,
        validity: walk.validity,
        counts: walk.counts,
    }
}

/// The end, or the limit where messages are wanted and so many are there.
fn ending_within(evidence: &Evidence, most: u16, ending: Ending) -> Ending
    ensures { result ≡ ending_within most evidence.now ending }
{
    match ending {
        Ending::Wants(wanted) => {
            if has_room(evidence, most) {
                Ending::Wants(wanted)
            } else {
                Ending::TooManyMessages
            }
        }
        ending => ending,
    }
}

/// Whether the evidence has fewer messages than so many.
fn has_room(evidence: &Evidence, most: u16) -> bool
    ensures { result ≡ nat_lt (length evidence.now.messages) most }
{
    evidence.messages.len() < usize::from(most)
}

/// The walk; where it says nothing, it lasts no time.
fn validity_if_said(walk: Walk) -> Walk
    ensures ending { result.ending ≡ walk.ending }
    ensures through { result.through ≡ walk.through }
    ensures lasts { result.validity ≡ validity_said (said_of walk.ending) walk.validity }
    ensures counts { result.counts ≡ walk.counts }
{
    if says(&walk.ending) {
        walk
    } else {
        with_no_validity(walk)
    }
}

fn with_no_validity(walk: Walk) -> Walk
    ensures ending { result.ending ≡ walk.ending }
    ensures through { result.through ≡ walk.through }
    ensures lasts { result.validity ≡ None }
    ensures counts { result.counts ≡ walk.counts }
{
    let mut walk = walk;
    walk.validity = None;
    walk
}

/// Whether an ending says secure or insecure.
fn says(ending: &Ending) -> bool
    ensures { result ≡ is_some (said_of ending.now) }
{
    match ending {
        Ending::Secure { .. } | Ending::Leads(_) => true,
        Ending::Unsigned { .. } | Ending::LeftOpen(_) => true,
        _ => false,
    }
}

/// A copy of a question.
fn copied(alloc: Global, question: &Question) -> Result<Question, AllocError>
    ensures { IfOk result (λ q. asked_of q ≡ asked_of question.now) }
{
    let name = copy_name(alloc, &question.name)?;
    Ok(Question {
        name,
        rtype: question.rtype,
        class: question.class,
    })
}

/// Says what evidence tells of a question, behind the aliases and the counts so far: also what it
/// tells of a name that an alias leads to, if the limit allows one more.
fn follow<H: NameHasher>(
    alloc: Global,
    evidence: &Evidence,
    question: Question,
    trail: Trail,
    left: Limits,
    hasher: &mut H,
) -> Result<Walk, AllocError>
    ensures stops { let asked = asked_of question in
        IfOk result (WalkStops evidence.now asked left trail) }
    ensures hashed { let hashes = CountsHashes (H.hashed hasher.old) (H.hashed hasher.new) in
        IfOk result (λ w. hashes trail.counts.hashes w.counts.hashes) }
{
    let end = walk_one_name(alloc, evidence, &question, left.cuts, trail.counts, hasher)?;
    let through = trail.through;
    let target = match end {
        Ok(target) => target,
        Err(end) => return Ok(walk_with(end, through)),
    };
    if left.aliases == 0 {
        return Ok(too_many_aliases(target.counts, through));
    }
    let longer = Trail {
        through: with_name(alloc, through, &target.name)?,
        counts: target.counts,
    };
    let validity = target.validity;
    let next = Question {
        name: target.name,
        rtype: question.rtype,
        class: question.class,
    };
    let fewer = Limits {
        aliases: left.aliases - 1,
        ..left
    };
    let walk = follow(alloc, evidence, next, longer, fewer, hasher)?;
    Ok(walk_after_alias(validity, walk))
}

/// The walk that ends so, behind the aliases so far.
fn walk_with(end: End, through: Vec<Name<Vec<u8>>>) -> Walk
    ensures ending { result.ending ≡ end.ending }
    ensures through { result.through ≡ through }
    ensures lasts { result.validity ≡ end.validity }
    ensures counts { result.counts ≡ end.counts }
{
    Walk {
        ending: end.ending,
        through,
        validity: end.validity,
        counts: end.counts,
    }
}

/// The walk that stops where the limit allows no alias more.
fn too_many_aliases(counts: Counts, through: Vec<Name<Vec<u8>>>) -> Walk
    ensures ending { result.ending ≡ Ending.TooManyAliases }
    ensures through { result.through ≡ through }
    ensures counts { result.counts ≡ counts }
{
    Walk {
        ending: Ending::TooManyAliases,
        through,
        validity: None,
        counts,
    }
}

/// The walk behind an alias, which lasts as long as that too.
fn walk_after_alias(validity: Option<Validity>, walk: Walk) -> Walk
    ensures ending { result.ending ≡ walk.ending }
    ensures through { result.through ≡ walk.through }
    ensures lasts { result.validity ≡ least_of validity walk.validity }
    ensures counts { result.counts ≡ walk.counts }
{
    let mut walk = walk;
    walk.validity = least_of(validity, walk.validity);
    walk
}

/// The name that an alias leads to, where one ends the way; or the end.
fn walk_one_name<H: NameHasher>(
    alloc: Global,
    evidence: &Evidence,
    question: &Question,
    cuts: u16,
    counts: Counts,
    hasher: &mut H,
) -> Result<Result<Target, End>, AllocError>
    ensures stops { let e = evidence.now in let asked = asked_of question.now in
        let ends = EndsHere e asked cuts counts in
        IfOk result (λ r. MatchResult r (IsLed e asked cuts counts) ends) }
    ensures hashed { let hashes = CountsHashes (H.hashed hasher.old) (H.hashed hasher.new) in
        IfOk result (λ r. hashes counts.hashes (counts_at r).hashes) }
{
    if is_asked_of(evidence.anchor, question) {
        from_anchor(alloc, evidence, question, cuts, counts, hasher)
    } else {
        Ok(Err(End {
            ending: Ending::Outside,
            validity: None,
            counts,
        }))
    }
}

/// The name that an alias leads to, where one ends the way from the anchor; or the end.
fn from_anchor<H: NameHasher>(
    alloc: Global,
    evidence: &Evidence,
    question: &Question,
    cuts: u16,
    counts: Counts,
    hasher: &mut H,
) -> Result<Result<Target, End>, AllocError>
    requires { is_asked_of evidence.now.anchor (asked_of question.now) ≡ true }
    ensures stops { let e = evidence.now in let asked = asked_of question.now in
        let ends = EndsHere e asked cuts counts in
        IfOk result (λ r. MatchResult r (IsLed e asked cuts counts) ends) }
    ensures hashed { let hashes = CountsHashes (H.hashed hasher.old) (H.hashed hasher.new) in
        IfOk result (λ r. hashes counts.hashes (counts_at r).hashes) }
{
    let query = ZoneQuery {
        zone: evidence.anchor,
        ds: evidence.ds,
        question,
    };
    let end = descend(alloc, evidence, &query, cuts, counts, hasher)?;
    Ok(alias_of(end))
}

/// Names, with a copy of one more.
fn with_name(
    alloc: Global,
    names: Vec<Name<Vec<u8>>>,
    name: &Name<Vec<u8>>,
) -> Result<Vec<Name<Vec<u8>>>, AllocError>
    ensures { IfOk result (λ ns. ns.items ≡ names.items ++ name.now ∷ []) }
{
    let copy = copy_name(alloc, name)?;
    let mut names = names;
    names.push(copy)?;
    Ok(names)
}

/// The name that an alias leads to, where one ends the way; or the end.
fn alias_of(end: End) -> Result<Target, End>
    ensures { MatchResult result (IsAliasOf end) (IsNoAlias end) }
{
    let (validity, counts) = (end.validity, end.counts);
    match end.ending {
        Ending::Leads(Lead::To(name)) => Ok(Target {
            name,
            validity,
            counts,
        }),
        ending => Err(End {
            ending,
            validity,
            counts,
        }),
    }
}

/// What evidence tells of a question, from a zone with a DS set on down, behind the counts so far.
#[cycle(down)]
fn descend<H: NameHasher>(
    alloc: Global,
    evidence: &Evidence,
    query: &ZoneQuery,
    cuts: u16,
    counts: Counts,
    hasher: &mut H,
) -> Result<End, AllocError>
    ensures stops { IfOk result (StopsIn evidence.now query.now cuts counts) }
    ensures hashed { let hashes = CountsHashes (H.hashed hasher.old) (H.hashed hasher.new) in
        IfOk result (λ end. hashes counts.hashes end.counts.hashes) }
{
    let judged_hop = in_zone(alloc, evidence, query, counts, hasher)?;
    let (validity, sums) = (judged_hop.validity, judged_hop.counts);
    let hop = judged_hop.hop;
    match hop {
        Hop::Ends(ending) => Ok(End {
            ending,
            validity,
            counts: sums,
        }),
        Hop::Down { zone, ds } => {
            let next = ZoneQuery {
                zone: &zone,
                ds: ds.as_slice(),
                question: query.question,
            };
            let end = descend_below(alloc, evidence, &next, cuts, sums, hasher)?;
            Ok(validity_with(validity, end))
        }
    }
}

/// The end below a step, which lasts as long as that too.
fn validity_with(validity: Option<Validity>, end: End) -> End
    ensures ending { result.ending ≡ end.ending }
    ensures lasts { result.validity ≡ least_of validity end.validity }
    ensures counts { result.counts ≡ end.counts }
{
    let mut end = end;
    end.validity = least_of(validity, end.validity);
    end
}

/// What evidence tells from the zone below on, if the limit allows one more.
#[cycle(down)]
fn descend_below<H: NameHasher>(
    alloc: Global,
    evidence: &Evidence,
    query: &ZoneQuery,
    cuts: u16,
    counts: Counts,
    hasher: &mut H,
) -> Result<End, AllocError>
    ensures stops { IfOk result (StopsBelowIn evidence.now query.now cuts counts) }
    ensures hashed { let hashes = CountsHashes (H.hashed hasher.old) (H.hashed hasher.new) in
        IfOk result (λ end. hashes counts.hashes end.counts.hashes) }
{
    if cuts == 0 {
        Ok(End {
            ending: Ending::TooManyCuts,
            validity: None,
            counts,
        })
    } else {
        descend(alloc, evidence, query, cuts - 1, counts, hasher)
    }
}

/// Whether a question is for a name at or below the anchor, and not for DS at it.
fn is_asked_of(anchor: &Name<Vec<u8>>, question: &Question) -> bool
    ensures { result ≡ is_asked_of anchor.now (asked_of question.now) }
{
    let is_parents = anchor.name_eq(&question.name) && question.rtype == Rtype::DS;
    is_at_or_above(anchor, &question.name) && !is_parents
}
