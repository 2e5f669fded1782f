//! A zone as C can keep it.
ghost use Rattle.std.specs.Prelude.{◌≡◌, Option, Some, None};
ghost use Rattle.zermuita_zone.specs.declared.opened.OpenZone.{OpenZone};
ghost use Rattle.zermuita_zone.specs.Holding.{holds};

use crate::loose::Loose;
use crate::opened::OpenZone;
use std::alloc::Global;
use std::marker::Model;

/// The memory of a zone, or nothing.
#[repr(C)]
#[derive(Drop)]
pub struct Held {
    at: *mut u8,
    pub ghost value: { Option OpenZone },
}

impl Model for Held {
    ghost also_owns = { λ h. holds h.at h.value };
}

impl Held {
    /// Nothing.
    pub(crate) fn empty() -> Self
        ensures { result.value ≡ None }
    {
        Held {
            at: std::ptr::null_mut(),
        }
    }

    /// What a box held.
    pub(crate) fn of(loose: Loose<OpenZone, Global>) -> Self
        ensures { result.value ≡ Some loose.value }
    {
        let Loose { at, alloc: _ } = loose;
        Held { at: at as *mut u8 }
    }

    /// What is held, for a box.
    pub(crate) fn into_loose(self, alloc: Global) -> Loose<OpenZone, Global>
        requires { (zone : OpenZone) × (self.value ≡ Some zone) }
        ensures { Some result.value ≡ self.value }
    {
        let Held { at } = self;
        Loose {
            at: at as *mut OpenZone,
            alloc,
        }
    }
}
