//! The owner of a name's NSEC3 record (RFC 5155, 3).

ghost use Rattle.std.specs.Prelude.{IfErr, IfOk, Some};
ghost use Rattle.definitions.specs.Name.{low, wire};
ghost use Rattle.denial_nsec3_chain.specs.Owner.{IsOwnerFault, IsOwnerOf};

use denial_chain_owners::error::SigningError;
use denial_fields::salt::Nsec3Salt;
use denial_nsec3_hash::hasher::{HashError, Nsec3Hasher};
use denial_nsec3_hash::owner_name::{HashedOwnerError, hashed_owner};
use denial_nsec3_hash::wire_form::write_lower_wire;
use names_flat::name::Name;
use names_traits::to_name::ToName;
use names_wire::octets::Octets;
use std::alloc::Global;

/// The owner of a name's NSEC3 record: its hash in base32hex under the apex (RFC 5155, 3 and 5).
/// The call is refused where the name isn't hashed, or where the hash fits in no label or its owner
/// name is too long.
pub fn mk_hashed_nsec3_owner_name<N: ToName, S: Octets, H: Nsec3Hasher>(
    alloc: Global,
    name: &N,
    algorithm: u8,
    iterations: u16,
    salt: &Nsec3Salt<S>,
    apex: &N,
    hasher: &H,
) -> Result<Name<Vec<u8>>, SigningError>
    ensures ok { let octets = wire (low (N.name name.now)) in
        let answer = H.hash_of hasher.now octets algorithm iterations in
        IfOk result (λ n. IsOwnerOf (N.name apex.now) (answer salt.now) n) }
    ensures refused { let octets = wire (low (N.name name.now)) in
        let answer = H.hash_of hasher.now octets algorithm iterations in
        IfErr result (IsOwnerFault (N.name apex.now) (answer salt.now)) }
{
    let mut wire = Vec::with_capacity(alloc, 255)?;
    write_lower_wire(&mut wire, name, 0)?;
    let hash = match hasher.hash(alloc, &wire, algorithm, iterations, salt.as_slice()) {
        Ok(hash) => hash,
        Err(HashError::Failed) => return Err(SigningError::HashFailed),
        Err(HashError::Memory) => return Err(SigningError::Memory),
    };
    owner_of_hash(alloc, &hash, apex)
}

/// The owner of a hash's record. The call is refused where the hash fits in no label or its owner
/// name is too long.
pub(crate) fn owner_of_hash<N: ToName>(
    alloc: Global,
    hash: &[u8],
    apex: &N,
) -> Result<Name<Vec<u8>>, SigningError>
    ensures ok { IfOk result (IsOwnerOf (N.name apex.now) (Some hash.now)) }
    ensures refused { IfErr result (IsOwnerFault (N.name apex.now) (Some hash.now)) }
{
    match hashed_owner(alloc, hash, apex) {
        Ok(name) => Ok(name),
        Err(HashedOwnerError::DoesNotFit) => Err(SigningError::HashTooLong),
        Err(HashedOwnerError::Memory) => Err(SigningError::Memory),
    }
}
