//! What is due of a roll.
ghost use Rattle.std.specs.Prelude.{◌≡◌, IfOk};
ghost use Rattle.server_zone_octets.specs.Dues.{IsSaidDue, SaysDue, due_said, names_of, nothing};
ghost use Rattle.server_zone_octets.specs.Dues.{number_of_phase, roll_of, ttl_of};

use crate::code::ZoneCode;
use crate::told::put;
use answer_scheme::Scheme;
use denial_nsec3_hash::hasher::Nsec3Hasher;
use keyset::{Action, RollState, RollType};
use printed_outcomes::named::Named;
use server_zone::{Due, Zone};
use std::alloc::{AllocError, Global};

/// What is due of a roll.
#[repr(C)]
#[derive(Clone, Copy, Debug)]
pub struct OctetDue {
    /// How many octets this has as its caller knows it: 32.
    pub size: usize,
    /// How many octets the names of the actions have.
    pub len: usize,
    /// The first second, since 1970, at which the wait of the phase is accepted; 2^64 - 1 where
    /// there is none.
    pub from: u64,
    /// For how many seconds what was served before is kept, in a wait; else 0.
    pub ttl: u32,
    /// The phase; 0 where the roll does not run.
    pub phase: u32,
}

/// How many octets it has in memory.
const DUE_SIZE: usize = 32;

const _: () = prove!(size_of::<OctetDue>() == DUE_SIZE);

/// What is due, and the names of its actions.
#[derive(Drop)]
struct Said {
    due: OctetDue,
    names: Vec<u8>,
}

/// Says what is due of a roll by its number, 1 to 6. What the keeper owes is written to the front
/// of `out` if there is room for it: the names of actions, each with a line feed behind it.
pub fn due_octets<S: Scheme, H: Nsec3Hasher>(
    alloc: Global,
    zone: &Zone<'_, S, H>,
    roll: u32,
    out: &mut [u8],
    due: &mut OctetDue,
) -> ZoneCode
    ensures { let keys = zone.now.publisher.keys.keys in
        SaysDue keys roll due.old due.new out.old out.new result }
{
    let Some(rolltype) = roll_of(roll) else {
        return ZoneCode::BadCall;
    };
    if due.size != DUE_SIZE {
        return ZoneCode::BadCall;
    }
    match due_of(alloc, zone, rolltype) {
        Ok(said) => {
            *due = said.due;
            if put(&said.names, out) {
                ZoneCode::Done
            } else {
                ZoneCode::BufferTooSmall
            }
        }
        Err(_) => ZoneCode::OutOfMemory,
    }
}

/// What is due of a roll.
fn due_of<S: Scheme, H: Nsec3Hasher>(
    alloc: Global,
    zone: &Zone<'_, S, H>,
    rolltype: RollType,
) -> Result<Said, AllocError>
    ensures { let keys = zone.now.publisher.keys.keys in
        IfOk result (λ s. IsSaidDue keys rolltype s.due s.names.items) }
{
    match zone.due(rolltype)? {
        Some(due) => {
            let names = names_of(alloc, &due.actions)?;
            Ok(Said {
                due: said_of(&due, names.len()),
                names,
            })
        }
        None => Ok(Said {
            due: nothing(),
            names: Vec::new(alloc),
        }),
    }
}

/// What is due of a roll that does not run.
fn nothing() -> OctetDue
    ensures { result ≡ nothing }
{
    OctetDue {
        size: DUE_SIZE,
        len: 0,
        from: u64::MAX,
        ttl: 0,
        phase: 0,
    }
}

/// What is due of a roll that runs, the names of whose actions have so many octets.
fn said_of(due: &Due, len: usize) -> OctetDue
    ensures { result ≡ due_said due.now len }
{
    OctetDue {
        size: DUE_SIZE,
        len,
        from: due.from.unwrap_or(u64::MAX),
        ttl: ttl_of(due.phase),
        phase: number_of_phase(due.phase),
    }
}

/// The seconds that a wait is for.
fn ttl_of(phase: RollState) -> u32
    ensures { result ≡ ttl_of phase }
{
    match phase {
        RollState::CacheExpire1(ttl) | RollState::CacheExpire2(ttl) => ttl,
        RollState::Propagation1 | RollState::Propagation2 | RollState::Done => 0,
    }
}

/// The number of a phase.
fn number_of_phase(phase: RollState) -> u32
    ensures { result ≡ number_of_phase phase }
{
    match phase {
        RollState::Propagation1 => 1,
        RollState::CacheExpire1(_) => 2,
        RollState::Propagation2 => 3,
        RollState::CacheExpire2(_) => 4,
        RollState::Done => 5,
    }
}

/// The roll of a number.
fn roll_of(number: u32) -> Option<RollType>
    ensures { result ≡ roll_of number }
{
    match number {
        1 => Some(RollType::KskRoll),
        2 => Some(RollType::KskDoubleDsRoll),
        3 => Some(RollType::ZskRoll),
        4 => Some(RollType::ZskDoubleSignatureRoll),
        5 => Some(RollType::CskRoll),
        6 => Some(RollType::AlgorithmRoll),
        _ => None,
    }
}

/// The names of actions, each with a line feed behind it.
fn names_of(alloc: Global, actions: &[Action]) -> Result<Vec<u8>, AllocError>
    ensures { IfOk result (λ v. v.items ≡ names_of actions.now) }
{
    let mut names = Vec::new(alloc);
    for action in actions {
        names.extend_from_slice(action.name().as_bytes())?;
        names.push(b'\n')?;
    }
    Ok(names)
}
