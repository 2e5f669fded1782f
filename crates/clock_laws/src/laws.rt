//! Laws of reports by a clock.
ghost use Rattle.clock_laws.specs.Clocks.{HeldThingsAreUnretired, NextSecondsCount};
ghost use Rattle.clock_laws.specs.Clocks.{WaitsOutlastCaches};
ghost use Rattle.clock_laws.specs.ClockRows.{EarlyReportsMiss};

/// A report of the next second, so rounded up, counts for all that was handed out in its own second
/// and before: a wait that counts from it and is accepted by the clock's whole seconds ends when no
/// cache holds any of that.
pub fn next_seconds_count()
    ensures counts { NextSecondsCount }
    ensures waits { WaitsOutlastCaches }
{}

/// What a cache may hold is not retired, if the reports behind it count for it and say no smaller
/// TTL.
pub fn held_things_are_unretired()
    ensures { HeldThingsAreUnretired }
{}

/// A report of its own second, so rounded down, counts too early: its wait is accepted, and an
/// answer is retired, while a cache still holds that answer, which meets no keys any more. Rounded
/// up, the same report has its wait a second later.
pub fn early_reports_miss()
    ensures { EarlyReportsMiss }
{}
