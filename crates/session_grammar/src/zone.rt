//! What a session's zone is published with.
ghost use Rattle.std.specs.Prelude.{◌≤◌};

use answer_events::names::Name;
use answer_terms::mode::Mode;

/// What a zone is published with.
#[derive(Drop)]
pub struct Zone {
    pub apex: Name<Vec<u8>>,
    pub mode: Mode,
    /// How many iterations of a name's hash a publisher and a judge allow (RFC 5155, 10.3).
    pub limit: u16,
    /// How many seconds a signature lives.
    pub life: u32,
    ghost comparable: { life ≤ 2147483647 },
}
