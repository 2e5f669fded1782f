//! The zone that C holds: its caller keeps it, and knows whether it is open.
ghost use Rattle.std.specs.Prelude.{◌≡◌, ◌==◌, Some, None};
ghost use Rattle.std.specs.Option.{option_map};
ghost use Rattle.zermuita_zone.specs.Handles.{flag_of};

use crate::held::Held;
use crate::loose::Loose;
use crate::opened::OpenZone;
use std::alloc::Global;

/// A zone, open or closed.
#[repr(C)]
#[derive(Drop)]
pub struct ZoneHandle {
    held: Held,
    /// 1 where it is open, and else 0.
    is_open: u32,
    ghost flagged: { is_open ≡ flag_of held.value },
}

impl ZoneHandle {
    /// A zone that is closed.
    fn closed() -> Self
        ensures { result.held.value ≡ None }
    {
        ZoneHandle {
            held: Held::empty(),
            is_open: 0,
        }
    }

    /// A zone that is open.
    pub(crate) fn of(zone: Box<OpenZone>) -> Self
        ensures { result.held.value ≡ Some zone.value }
    {
        ZoneHandle {
            held: Held::of(Loose::of(zone)),
            is_open: 1,
        }
    }

    /// Whether it is open.
    pub(crate) fn is_open(&self) -> bool
        ensures { result ≡ (flag_of self.now.held.value == 1) }
    {
        self.is_open == 1
    }

    /// Takes what is open out, and leaves it closed.
    #[tactic(auto, using(crate::proofs::Flags::held_open, crate::proofs::Flags::held_closed))]
    pub(crate) fn take(&mut self, alloc: Global) -> Option<Box<OpenZone>>
        ensures taken { option_map (λ b. b.value) result ≡ self.old.held.value }
        ensures closed { self.new.held.value ≡ None }
    {
        let ZoneHandle { held, is_open } = std::mem::replace(self, ZoneHandle::closed());
        if is_open == 1 {
            Some(held.into_loose(alloc).into_box())
        } else {
            None
        }
    }
}
