//! The owners of NSEC3 records: a hash as a label under the apex (RFC 5155, 3).

ghost use Rattle.std.specs.Prelude.{◌≡◌, ◌≤◌, ◌++◌, length, IfOk, IsErrOf, OnOk};
ghost use Rattle.definitions.specs.Base32hex.{base32hex};
ghost use Rattle.definitions.specs.Name.{wire};
ghost use Rattle.denial_nsec3_hash.specs.Hashing.{FitsName, hashed_owner};

use names_flat::name::Name;
use names_labels::traits::Absolute;
use names_rdata::composer::compose_name;
use names_wire::builder::{OctetsBuilder, ShortBuf};
use plain::base32hex;
use std::alloc::Global;
use thiserror::Error;

/// Why a hash has no owner name.
#[derive(Clone, Copy, Debug, PartialEq, Eq, Error)]
pub enum HashedOwnerError {
    /// No label holds it, or no name.
    #[error("hash does not fit a name")]
    DoesNotFit,
    #[error("out of memory")]
    Memory,
}

/// The owner of a hash's record: the hash in base32hex under the apex (RFC 5155, 3). A label holds
/// 1 to 39 octets of a hash, and a name at most 255 octets.
pub fn hashed_owner<N: Absolute>(
    alloc: Global,
    hash: &[u8],
    apex: &N,
) -> Result<Name<Vec<u8>>, HashedOwnerError>
    ensures ok { IfOk result (λ n. n ≡ hashed_owner (N.name apex.now) hash.now) }
    ensures fits { OnOk result (FitsName (N.name apex.now) hash.now) }
    ensures refused { IsErrOf result HashedOwnerError.DoesNotFit →
        FitsName (N.name apex.now) hash.now → ⊥ }
{
    if hash.len() > 39 {
        return Err(HashedOwnerError::DoesNotFit);
    }
    let digits = usize::from(digit_count(hash));
    let room = match apex.label_row() {
        Some(row) => 1 + digits + row.len(),
        None => 1 + digits + usize::from(apex.compose_len()),
    };
    let Ok(mut octets) = Vec::with_capacity(alloc, room) else {
        return Err(HashedOwnerError::Memory);
    };
    let Ok(()) = write_owner(&mut octets, hash, apex) else {
        return Err(HashedOwnerError::Memory);
    };
    match Name::from_octets(octets) {
        Ok(name) => Ok(name),
        Err(_) => Err(HashedOwnerError::DoesNotFit),
    }
}

/// The number of base32hex digits of a hash that fits in a label.
fn digit_count(hash: &[u8]) -> u8
    requires { length hash.now ≤ 39 }
    ensures { result ≡ length (base32hex hash.now) }
{
    (hash.len() * 8).div_ceil(5) as u8
}

/// Writes a hash as a label and the apex behind it in wire form.
fn write_owner<N: Absolute>(octets: &mut Vec<u8>, hash: &[u8], apex: &N) -> Result<(), ShortBuf>
    requires { length hash.now ≤ 39 }
    ensures { let name = hashed_owner (N.name apex.now) hash.now in
        OnOk result (octets.new.items ≡ octets.old.items ++ wire name) }
{
    octets.append_slice(&[digit_count(hash)])?;
    base32hex::append(octets, hash).map_err(|_| ShortBuf)?;
    compose_name(apex, octets)
}
