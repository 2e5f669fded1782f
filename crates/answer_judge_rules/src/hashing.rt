//! Names that are hashed for a question (RFC 5155, 5).
ghost use Rattle.std.specs.Prelude.{◌≡◌, ◌+◌, ◌<◌, ◌^◌, ◌∷◌, [], Some, None, IfOk, IsErrOf, OnOk};
ghost use Rattle.std.specs.Prelude.{drop};
ghost use Rattle.definitions.specs.Name.{low, wire};
ghost use Rattle.definitions.specs.Zone.{star_under};
ghost use Rattle.answer_judge_rules.specs.Hashing.{fails_as, hash_as, HashesInTurn};
ghost use Rattle.answer_scheme.specs.Answers.{NoneVerified};

use crate::hashed::HashChain;
use answer_scheme::checks::Checks;
use denial_nsec3_hash::hasher::HashError;
use denial_nsec3_hash::wire_form::write_lower_wire;
use messages::names::{Name, ToName, ZoneName};
use std::alloc::AllocError;

/// A name and its hash.
#[derive(Drop)]
pub(crate) struct NameWithHash<'n> {
    pub(crate) name: Name<&'n [u8]>,
    pub(crate) hash: Vec<u8>,
}

/// The hash of octets, as the first link of a chain says, and a count of hashes that rises by one.
fn hash_octets<C: Checks>(
    chain: &HashChain,
    checks: &mut C,
    count: &mut u32,
    octets: &[u8],
) -> Result<Vec<u8>, HashError>
    requires room { count.old + 1 < 2 ^ 32 }
    ensures answer { let l = chain.now.first.now in let hash = (C.answers checks.old).hash in
        IfOk result (λ h. hash octets.now 1 l.iterations l.salt ≡ Some h.items) }
    ensures failed { let l = chain.now.first.now in let hash = (C.answers checks.old).hash in
        IsErrOf result HashError.Failed → hash octets.now 1 l.iterations l.salt ≡ None }
    ensures counted { C.hashed checks.new ≡ C.hashed checks.old + 1 }
    ensures alike { C.hashed checks.new + count.old ≡ C.hashed checks.old + count.new }
    ensures others { C.verified checks.new ≡ C.verified checks.old }
    ensures none { NoneVerified C.agrees C.asked_only checks.old checks.new }
    ensures same { C.answers checks.new ≡ C.answers checks.old }
{
    *count += 1;
    let link = chain.first;
    checks.hash(chain.alloc, octets, 1, link.iterations(), link.salt())
}

/// The hash of a name without a number of its first labels, which is written to the buffer.
pub(crate) fn hash_behind<N: ToName, C: Checks>(
    chain: &HashChain,
    checks: &mut C,
    count: &mut u32,
    octets: &mut Vec<u8>,
    name: &N,
    skipped: usize,
) -> Result<Vec<u8>, HashError>
    requires room { count.old + 1 < 2 ^ 32 }
    ensures hash { let hash = hash_as (C.answers checks.old).hash chain.now.first.now in
        IfOk result (λ h. h.items ≡ hash (low (drop skipped (N.name name.now)))) }
    ensures hashes { let fails = fails_as (C.answers checks.old).hash chain.now.first.now in
        let names = drop skipped (N.name name.now) ∷ [] in
        HashesInTurn fails names (C.hashed checks.old) (C.hashed checks.new) result }
    ensures alike { C.hashed checks.new + count.old ≡ C.hashed checks.old + count.new }
    ensures others { C.verified checks.new ≡ C.verified checks.old }
    ensures none { NoneVerified C.agrees C.asked_only checks.old checks.new }
    ensures same { C.answers checks.new ≡ C.answers checks.old }
{
    write_lower_wire(octets, name, skipped)?;
    hash_octets(chain, checks, count, octets)
}

/// A name with its hash.
pub(crate) fn hash_name<'n, C: Checks>(
    chain: &HashChain,
    checks: &mut C,
    count: &mut u32,
    octets: &mut Vec<u8>,
    name: Name<&'n [u8]>,
) -> Result<NameWithHash<'n>, HashError>
    requires room { count.old + 1 < 2 ^ 32 }
    ensures name { IfOk result (λ h. h.name ≡ name.entry) }
    ensures hash { let hash = hash_as (C.answers checks.old).hash chain.now.first.now in
        IfOk result (λ h. h.hash.items ≡ hash (low h.name)) }
    ensures hashes { let fails = fails_as (C.answers checks.old).hash chain.now.first.now in
        HashesInTurn fails (name.entry ∷ []) (C.hashed checks.old) (C.hashed checks.new) result }
    ensures alike { C.hashed checks.new + count.old ≡ C.hashed checks.old + count.new }
    ensures others { C.verified checks.new ≡ C.verified checks.old }
    ensures none { NoneVerified C.agrees C.asked_only checks.old checks.new }
    ensures same { C.answers checks.new ≡ C.answers checks.old }
{
    let hash = hash_behind(chain, checks, count, octets, &name, 0)?;
    Ok(NameWithHash { name, hash })
}

/// Writes the wildcard under a name in lower-case wire form, over what a buffer held.
fn write_wildcard(octets: &mut Vec<u8>, name: &Name<&[u8]>) -> Result<(), AllocError>
    ensures { OnOk result (octets.new.items ≡ wire (low (star_under name.now))) }
{
    octets.clear();
    octets.extend_from_slice(b"\x01*")?;
    name.compose_canonical(octets)
}

/// The hash of the wildcard under a name, which is written to the buffer.
pub(crate) fn hash_wildcard<C: Checks>(
    chain: &HashChain,
    checks: &mut C,
    count: &mut u32,
    octets: &mut Vec<u8>,
    name: &Name<&[u8]>,
) -> Result<Vec<u8>, HashError>
    requires room { count.old + 1 < 2 ^ 32 }
    ensures hash { let hash = hash_as (C.answers checks.old).hash chain.now.first.now in
        IfOk result (λ h. h.items ≡ hash (low (star_under name.now))) }
    ensures hashes { let fails = fails_as (C.answers checks.old).hash chain.now.first.now in
        let names = star_under name.now ∷ [] in
        HashesInTurn fails names (C.hashed checks.old) (C.hashed checks.new) result }
    ensures alike { C.hashed checks.new + count.old ≡ C.hashed checks.old + count.new }
    ensures others { C.verified checks.new ≡ C.verified checks.old }
    ensures none { NoneVerified C.agrees C.asked_only checks.old checks.new }
    ensures same { C.answers checks.new ≡ C.answers checks.old }
{
    write_wildcard(octets, name)?;
    hash_octets(chain, checks, count, octets)
}
