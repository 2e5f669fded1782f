//! A simulation of a zone's key life: key calls, things shown, and judgements of them.
ghost use Rattle.std.specs.Prelude.{◌<◌, ◌≤◌, ◌^◌, All, map, IfOk, IfErr};
ghost use Rattle.answer_zone_records.specs.Faults.{RefusesZone};
ghost use Rattle.messages.specs.HandedRr.{handed_of};
ghost use Rattle.answer_terms.specs.ModeView.{mode_of};
ghost use Rattle.answer_events.specs.Events.{added_octets};
ghost use Rattle.answer_laws.specs.Simulations.{IsSimulation};
ghost use Rattle.answer_publisher.specs.World.{world_of_scheme, zone_by};

use crate::simulation::run::Run;
use answer_events::event::Event;
use answer_outcomes::outcome::Outcome;
use answer_publisher::publishing::Publisher;
use answer_scheme::scheme::Scheme;
use answer_terms::mode::Mode;
use answer_zone_records::fault::ZoneFault;
use denial_nsec3_hash::hasher::Nsec3Hasher;
use messages::names::Name;
use messages::record::ZoneRecord;
use std::alloc::Global;

mod results;
mod run;

/// Runs events over a zone, one outcome an event.
///
/// A thing that is shown takes the next place, from 0 on, but for CDS and CDNSKEY sets; a judgement
/// names the places of what it judges. A refused key call, replacement or showing is an outcome of
/// its own, for want of memory too: then keys, records and places are as they were before, and the
/// events behind it go on. The whole is refused as [`Publisher::new`] refuses the zone, and with
/// `Memory` where the run's own lists cannot grow, or a DS, CDS or CDNSKEY set that is shown.
///
/// Whatever messages are judged beside a DS set that was shown, where nothing in them is forged the
/// verdict is that of a version of the zone: each signature in them that a judge may use is over an
/// RRset of a version, from the second of an answer that was of it until whenever, or over keys
/// that were published.
pub fn simulate<S: Scheme, H: Nsec3Hasher>(
    alloc: Global,
    apex: Name<Vec<u8>>,
    records: Vec<ZoneRecord>,
    mode: Mode,
    scheme: &S,
    hasher: &H,
    limit: u16,
    life: u32,
    events: &[Event],
) -> Result<Vec<Outcome>, ZoneFault>
    requires life { life < 2 ^ 31 }
    requires keys { All (λ e. added_octets e ≤ 65531) events.now }
    ensures simulation { let rs = map handed_of records.items in
        let by = world_of_scheme S.signature_of S.verifies S.digest_of H.hash_of scheme.now hasher.now in
        let w = by (zone_by apex (mode_of mode) limit rs) life in
        IfOk result (λ outcomes. IsSimulation w rs events.now outcomes.items) }
    ensures fault { let rs = map handed_of records.items in
        IfErr result (RefusesZone (H.hash_of hasher.now) apex (mode_of mode) limit rs) }
{
    let publisher = Publisher::new(alloc, apex, records, mode, scheme, hasher, limit, life)?;
    let mut run = Run::new(alloc, publisher, limit);
    for event in events {
        let Ok(()) = run.serve(event) else {
            return Err(ZoneFault::Memory);
        };
    }
    Ok(run.into_outcomes())
}
