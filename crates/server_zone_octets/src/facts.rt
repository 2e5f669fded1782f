//! What a zone's lines say of it.
ghost use Rattle.std.specs.Prelude.{◌≡◌, IfOk, string_bytes};
ghost use Rattle.definitions.specs.Text.{text_of_name};
ghost use Rattle.server_zone.specs.States.{state_of};
ghost use Rattle.server_zone_octets.specs.Facts.{SaysFacts, facts_of, second_behind};

use crate::code::ZoneCode;
use crate::told::put;
use answer_scheme::Scheme;
use denial_nsec3_hash::hasher::Nsec3Hasher;
use messages::names::Name;
use server_zone::Zone;
use std::alloc::{AllocError, Global};

/// What a zone's lines say of it.
#[repr(C)]
#[derive(Clone, Copy, Debug)]
pub struct OctetFacts {
    /// How many octets this has as its caller knows it: 40.
    pub size: usize,
    /// How many octets the name of the zone has as text.
    pub len: usize,
    /// The greatest second, since 1970, of a call on the keys or a replacement; 0 where there is
    /// none.
    pub last: u64,
    /// The first second that the zone answers, the one behind its last replacement; 0 where there
    /// is none.
    pub answers_from: u64,
    /// The greatest TTL of the records that the zone has or had.
    pub ttl: u32,
    /// How many seconds a signature holds.
    pub life: u32,
}

/// How many octets it has in memory.
const FACTS_SIZE: usize = 40;

const _: () = prove!(size_of::<OctetFacts>() == FACTS_SIZE);

/// Says what a zone's lines say of it. Its name as text (RFC 1035, 5.1), without a dot at the end
/// but for the root, is written to the front of `out` if there is room for it.
pub fn facts_octets<S: Scheme, H: Nsec3Hasher>(
    alloc: Global,
    zone: &Zone<'_, S, H>,
    out: &mut [u8],
    facts: &mut OctetFacts,
) -> ZoneCode
    ensures { SaysFacts (state_of zone.now) facts.old facts.new out.old out.new result }
{
    if facts.size != FACTS_SIZE {
        return ZoneCode::BadCall;
    }
    match text_of(alloc, zone.publisher.apex()) {
        Ok(name) => {
            *facts = facts_of(zone, name.len());
            if put(name.as_bytes(), out) {
                ZoneCode::Done
            } else {
                ZoneCode::BufferTooSmall
            }
        }
        Err(_) => ZoneCode::OutOfMemory,
    }
}

/// What is said of a zone whose name has so many octets as text.
fn facts_of<S: Scheme, H: Nsec3Hasher>(zone: &Zone<'_, S, H>, len: usize) -> OctetFacts
    ensures { result ≡ facts_of (state_of zone.now) len }
{
    OctetFacts {
        size: FACTS_SIZE,
        len,
        last: zone.last().unwrap_or(0),
        answers_from: second_behind(zone.closed()),
        ttl: zone.greatest_ttl(),
        life: zone.life(),
    }
}

/// The first second behind another; 0 where there is none.
fn second_behind(closed: Option<u64>) -> u64
    ensures { result ≡ second_behind closed }
{
    match closed {
        None => 0,
        Some(second) => second.saturating_add(1),
    }
}

/// The text of a name.
fn text_of(alloc: Global, name: &Name<Vec<u8>>) -> Result<String, AllocError>
    ensures { IfOk result (λ text. string_bytes text ≡ text_of_name name.now) }
{
    format!(in alloc; "{name}")
}
