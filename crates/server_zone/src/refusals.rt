//! Why a line is not applied, and why a journal is not opened.
use answer_publisher::fault::{KeyFault, ReplaceFault, ZoneFault};
use session_grammar::line_error::{LineError, LineFault};
use std::alloc::{AllocError, AllocFailed};
use thiserror::Error;

/// Why a line is not applied.
#[derive(Debug, Drop, Error)]
pub enum Refusal {
    /// The line is none that a session has at this point.
    #[error("{0}")]
    Unreadable(LineFault),
    /// A line feed stands inside.
    #[error("it is more than one line")]
    ManyLines,
    /// A session's line that asks, shows or judges: it changes no zone.
    #[error("such a line changes no zone")]
    NotOfState,
    /// A record that would be one of the zone's own, since no event stands in front of it.
    #[error("a record in front of all events is the zone's own, and these are read")]
    TooEarly,
    /// The zone's own records make no zone.
    #[error("{0}")]
    Zone(ZoneFault),
    /// A call on the keys is refused.
    #[error("{0}")]
    Key(KeyFault),
    /// A replacement is refused.
    #[error("{0}")]
    Replace(ReplaceFault),
    #[error("out of memory")]
    Memory,
}

/// Why a journal is not opened: its first line, counted from 1 on, that is refused. The zone's own
/// records are judged together, at the line behind them, or at the end. What is missing at the end
/// is said of the line behind the last whole one.
#[derive(Debug, Drop, Error)]
#[error("line {number}: {reason}")]
pub struct OpenError {
    pub number: usize,
    pub reason: Refusal,
}

impl From<LineError> for Refusal {
    ghost use Rattle.std.specs.Prelude.{◌≡◌};
    ghost use Rattle.server_zone.specs.Refusals.{refusal_of_line};

    ghost from_gives = { λ error refusal. refusal ≡ refusal_of_line error };

    fn from(error: LineError) -> Refusal {
        match error {
            LineError::Unreadable(fault) => Refusal::Unreadable(fault),
            LineError::Memory => Refusal::Memory,
        }
    }
}

impl From<KeyFault> for Refusal {
    ghost use Rattle.std.specs.Prelude.{◌≡◌};
    ghost use Rattle.server_zone.specs.declared.refusals.Refusal.TheVariants.{Key};

    ghost from_gives = { λ fault refusal. refusal ≡ Key fault };

    fn from(fault: KeyFault) -> Refusal {
        Refusal::Key(fault)
    }
}

impl From<ReplaceFault> for Refusal {
    ghost use Rattle.std.specs.Prelude.{◌≡◌};
    ghost use Rattle.server_zone.specs.declared.refusals.Refusal.TheVariants.{Replace};

    ghost from_gives = { λ fault refusal. refusal ≡ Replace fault };

    fn from(fault: ReplaceFault) -> Refusal {
        Refusal::Replace(fault)
    }
}

impl From<ZoneFault> for Refusal {
    ghost use Rattle.std.specs.Prelude.{◌≡◌};
    ghost use Rattle.server_zone.specs.declared.refusals.Refusal.TheVariants.{Zone};

    ghost from_gives = { λ fault refusal. refusal ≡ Zone fault };

    fn from(fault: ZoneFault) -> Refusal {
        Refusal::Zone(fault)
    }
}

impl From<AllocError> for Refusal {
    ghost use Rattle.std.specs.Prelude.{◌≡◌};
    ghost use Rattle.server_zone.specs.declared.refusals.Refusal.TheVariants.{Memory};

    ghost from_gives = { λ _ refusal. refusal ≡ Memory };

    fn from(_error: AllocError) -> Refusal {
        Refusal::Memory
    }
}

impl<T: Drop> From<AllocFailed<T>> for Refusal {
    ghost use Rattle.std.specs.Prelude.{◌≡◌};
    ghost use Rattle.server_zone.specs.declared.refusals.Refusal.TheVariants.{Memory};

    ghost from_gives = { λ _ refusal. refusal ≡ Memory };

    fn from(_error: AllocFailed<T>) -> Refusal {
        Refusal::Memory
    }
}
