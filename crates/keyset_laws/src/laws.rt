//! Laws of the life of keys.
ghost use Rattle.keyset_laws.specs.KeyLifeRows.{RetiresAndMeets};
ghost use Rattle.keyset_laws.specs.Meeting.{CallsMakeLives, EmptyDsSetsComeFirst, RollsKeepSides};
ghost use Rattle.keyset_laws.specs.Meeting.{UnretiredThingsMeet};
ghost use Rattle.keyset_laws.specs.Waiting.{WaitsAreTimed};

/// After all calls on a key set, accepted and refused, what was handed out and isn't retired fits
/// together, where no flag and no stamp was set by hand and a roll of the algorithm brought the
/// first DS set.
pub fn unretired_things_meet()
    ensures { UnretiredThingsMeet }
{}

/// What each roll keeps of the two sides of a validation, in each of its stretches.
pub fn rolls_keep_sides()
    ensures { RollsKeepSides }
{}

/// An empty DS set is that of a state before the first wait of the first roll of the algorithm.
pub fn empty_ds_sets_come_first()
    ensures { EmptyDsSetsComeFirst }
{}

/// The calls of a key set make such lives: the list of calls continues from what each call leaves.
pub fn calls_make_lives()
    ensures { CallsMakeLives }
{}

/// After all calls that set no flag and no stamp by hand, a wait counts from its report, whatever
/// calls come between.
pub fn waits_are_timed()
    ensures { WaitsAreTimed }
{}

/// Things that a zone handed out in three moments, worked through on the definitions: which are
/// retired, and which meet.
pub fn things_by_hand()
    ensures { RetiresAndMeets }
{}
