//! The moment that answers are of.
ghost use Rattle.std.specs.Prelude.{◌≡◌};
ghost use Rattle.server_answers.specs.Moments.{backdated};

use keyset::UnixTime;
use std::time::Duration;

/// How many seconds before the clock answers are signed, unless a server is told otherwise: clocks
/// of resolvers may be behind (RFC 6781, 4.4.2.2).
pub const DEFAULT_BACKDATE: u32 = 3600;

/// The moment some seconds before another, at the earliest the beginning of 1970. Whatever a server
/// does at a time of its clock, answers, key calls and replacements alike, is of one such moment.
pub fn backdated(now: &UnixTime, seconds: u32) -> UnixTime
    ensures { result ≡ backdated now.now seconds }
{
    let back = UnixTime::new(Duration::from_secs(u64::from(seconds)));
    UnixTime::new(back.elapsed(now))
}
