//! A hasher of names that knows algorithm 1, SHA-1 (RFC 5155, 11).

ghost use Rattle.std.specs.Prelude.{◌≡◌, ◌++◌};
ghost use Rattle.sha1.specs.Sha1.{sha1};
ghost use Rattle.denial_nsec3_sha1.specs.Iterated.{iterated};

use denial_nsec3_hash::hasher::{HashError, Nsec3Hasher};
use sha1::Sha1;
use std::alloc::Global;

/// Hashes names by SHA-1, and fails for other algorithms.
#[derive(Clone, Copy, Debug)]
pub struct Sha1Hasher;

impl Nsec3Hasher for Sha1Hasher {
    ghost use Rattle.denial_nsec3_sha1.specs.Iterated.{answered};

    ghost hash_of = { λ _ name algorithm iterations salt. answered name algorithm iterations salt };

    fn hash(
        &self,
        alloc: Global,
        lower_wire_name: &[u8],
        algorithm: u8,
        iterations: u16,
        salt: &[u8],
    ) -> Result<Vec<u8>, HashError> {
        if algorithm != 1 {
            return Err(HashError::Failed);
        }
        let digest = hashed(lower_wire_name, iterations, salt);
        match Vec::from_slice(alloc, &digest) {
            Ok(hash) => Ok(hash),
            Err(_) => Err(HashError::Memory),
        }
    }
}

/// The SHA-1 hash of octets and a salt, hashed again with the salt `iterations` times.
fn hashed(octets: &[u8], iterations: u16, salt: &[u8]) -> [u8; 20]
    ensures { result ≡ iterated iterations octets.now salt.now }
{
    let mut digest = digest_of(octets, salt);
    for _ in 0..iterations {
        digest = digest_of(&digest, salt);
    }
    digest
}

/// The digest of octets followed by a salt.
fn digest_of(octets: &[u8], salt: &[u8]) -> [u8; 20]
    ensures { result ≡ sha1 (octets.now ++ salt.now) }
{
    let mut hasher = Sha1::new();
    hasher.update(octets);
    hasher.update(salt);
    hasher.finalize()
}
