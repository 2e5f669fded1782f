//! What is told, and where it is written.
ghost use Rattle.std.specs.Prelude.{◌≡◌, []};
ghost use Rattle.server_zone_octets.specs.Telling.{IsHandedOut, IsPut, only};
ghost use Rattle.server_zone_octets.specs.Telling.{told_seen};

use crate::code::ZoneCode;
use crate::report::ZoneReport;
use std::alloc::Global;

/// A code, and octets.
#[derive(Debug, Drop)]
pub(crate) struct CodeAndOctets {
    pub(crate) code: ZoneCode,
    pub(crate) octets: Vec<u8>,
}

impl CodeAndOctets {
    /// A code alone.
    pub(crate) fn only(alloc: Global, code: ZoneCode) -> Self
        ensures { told_seen result ≡ only code }
    {
        CodeAndOctets {
            code,
            octets: Vec::new(alloc),
        }
    }
}

/// Puts octets in front of what is there, where there is room for them all.
pub(crate) fn put(octets: &[u8], out: &mut [u8]) -> bool
    ensures { IsPut octets.now out.old out.new result }
{
    if octets.len() > out.len() {
        return false;
    }
    out[..octets.len()].copy_from_slice(octets);
    true
}

/// Hands out what is told, where there is room for it.
pub(crate) fn hand_out(told: &CodeAndOctets, out: &mut [u8], report: &mut ZoneReport) -> ZoneCode
    ensures { IsHandedOut (told_seen told.now) out.old out.new report.new result }
{
    *report = ZoneReport::of(told.octets.len());
    if put(&told.octets, out) {
        told.code
    } else {
        ZoneCode::BufferTooSmall
    }
}
