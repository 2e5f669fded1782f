//! Moments.
ghost use Rattle.std.specs.Prelude.{◌%◌, ◌*◌, ◌+◌, ◌-◌, ◌/◌, ◌^◌, ◌≡◌};
ghost use Rattle.std.specs.Duration.{as_nanos, FitsDuration};

use crate::timestamp::Timestamp;
use std::marker::Model;
use std::ops::Add;
use std::time::Duration;

const NANOS_PER_SEC: u128 = 1_000_000_000;

/// A moment, as the time since the beginning of 1970 in UTC.
///
/// In contracts it is a number of nanoseconds.
#[derive(Clone, Copy, Debug, PartialEq, Eq, PartialOrd, Ord)]
pub struct UnixTime {
    nanos: u128,
}

impl Model for UnixTime {
    ghost use Rattle.std.specs.Prelude.{ℕ};
    ghost use Rattle.std.specs.Duration.{FitsDuration};

    ghost Value = { ℕ };

    ghost view = { λ t. t.nanos };

    ghost invariant = { λ t. FitsDuration t.nanos };

    ghost inverse = { λ n. record { nanos = n } };
}

impl UnixTime {
    /// The moment that lies `since_epoch` after the beginning of 1970.
    pub fn new(since_epoch: Duration) -> Self
        ensures { result ≡ as_nanos since_epoch }
    {
        UnixTime {
            nanos: since_epoch.as_nanos(),
        }
    }

    /// How much time lies between `self` and `now`, zero where `now` is earlier.
    pub fn elapsed(&self, now: &UnixTime) -> Duration
        ensures { as_nanos result ≡ now.now - self.now }
    {
        Duration::from_nanos_u128(now.nanos.saturating_sub(self.nanos))
    }

    /// The whole seconds modulo 2^32, as signatures carry them (RFC 4034, section 3.1.5).
    pub fn timestamp(&self) -> u32
        ensures { result ≡ self.now / 1_000_000_000 % 2 ^ 32 }
    {
        (self.nanos / NANOS_PER_SEC % (1 << 32)) as u32
    }
}

/// The seconds are taken as those since the beginning of 1970, so a signature time from the year
/// 2106 on comes out too early, by a multiple of 2^32 seconds.
impl From<Timestamp> for UnixTime {
    ghost from_gives = { λ seconds t. t ≡ seconds * 1_000_000_000 };

    fn from(timestamp: Timestamp) -> UnixTime {
        UnixTime {
            nanos: u128::from(timestamp.into_int()) * NANOS_PER_SEC,
        }
    }
}

impl From<UnixTime> for Duration {
    ghost from_gives = { λ t d. as_nanos d ≡ t };

    fn from(moment: UnixTime) -> Duration {
        Duration::from_nanos_u128(moment.nanos)
    }
}

impl Add<Duration> for UnixTime {
    type Output = UnixTime;

    ghost can_add = { λ t d. FitsDuration (t + as_nanos d) };

    ghost add_gives = { λ t d r. r ≡ t + as_nanos d };

    fn add(self, duration: Duration) -> UnixTime {
        UnixTime {
            nanos: self.nanos + duration.as_nanos(),
        }
    }
}
