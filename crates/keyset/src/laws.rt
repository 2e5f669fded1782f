//! Laws of key sets.
ghost use Rattle.keyset.specs.AskingLaws.{CdsComesWithDs, CreatedCdsAsks, RemovedCdsAsksNot};
ghost use Rattle.keyset.specs.KeyLaws.{PhasesFollow, StartsEnter, WaitsAreExact};
ghost use Rattle.keyset.specs.KeyRunLaws.{RolesKeep, RollsRunTogether, TagsDiffer};
ghost use Rattle.keyset.specs.KeyRunLaws.{WaitsCountFromReports};
ghost use Rattle.keyset.specs.KeyRows.{RefusesOnTheWay, RollsSevenTimes};

/// What holds of every key set, for every roll and at every moment.
pub fn keyset_laws()
    // A wait is accepted exactly where the TTL has passed since each stamp that it reads.
    ensures waits_are_exact { WaitsAreExact }

    // An accepted call leads to the next phase, and returns its actions.
    ensures starts_enter { StartsEnter }
    ensures phases_follow { PhasesFollow }
{}

/// What holds after all calls, accepted and refused, on an empty set at first, where no flag and no
/// stamp is set by hand.
pub fn run_laws()
    // A wait counts from the report before it, whatever calls stand between.
    ensures waits_count_from_reports { WaitsCountFromReports }

    // The flags of a role keep their invariant, and rolls run together only where they may.
    ensures roles_keep { RolesKeep }
    ensures rolls_run_together { RollsRunTogether }
{}

/// The parent is asked for a DS set from the actions that create the CDS RRset on, beside which a
/// roll waits for that DS set, up to those that remove it.
pub fn parent_is_asked()
    ensures with_ds { CdsComesWithDs }
    ensures created { CreatedCdsAsks }
    ensures removed { RemovedCdsAsksNot }
{}

/// The keys of a set have different tags, whatever calls were made on it.
pub fn tags_differ()
    ensures { TagsDiffer }
{}

/// Seven rolls, one after another, and calls that are refused on the way, worked through on the
/// definitions.
pub fn rolls_by_hand()
    ensures published { RollsSevenTimes }
    ensures refused { RefusesOnTheWay }
{}
