//! Whole seconds, and the greatest of them.
ghost use Rattle.std.specs.Prelude.{◌≡◌};
ghost use Rattle.answer_publisher.specs.Replacing.{is_too_soon, noted, whole_second};

use keyset::UnixTime;
use std::time::Duration;

/// The greatest of the second of a moment and those before, of which there may be none.
pub(crate) fn noted(greatest: Option<u64>, at: &UnixTime) -> Option<u64>
    ensures { result ≡ noted greatest at.now }
{
    let second = whole_second(at);
    match greatest {
        None => Some(second),
        Some(greatest) => Some(greatest.max(second)),
    }
}

/// Whether the second of a moment is not behind another, which may be missing.
pub(crate) fn is_too_soon(latest: Option<u64>, at: &UnixTime) -> bool
    ensures { result ≡ is_too_soon latest at.now }
{
    match latest {
        None => false,
        Some(latest) => whole_second(at) <= latest,
    }
}

/// The whole seconds of a moment.
fn whole_second(at: &UnixTime) -> u64
    ensures { result ≡ whole_second at.now }
{
    UnixTime::new(Duration::from_secs(0)).elapsed(at).as_secs()
}
