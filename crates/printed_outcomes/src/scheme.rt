//! The bench's stand-ins for signatures and digests. They protect nothing.
ghost use Rattle.std.specs.Prelude.{◌≡◌, ◌++◌, Some, None, nat_eq, if◌then◌else◌};
ghost use Rattle.std.specs.Str.{bytes_eq};
ghost use Rattle.definitions.specs.Dnskey.{dnskey_data};
ghost use Rattle.sha2.specs.Sha256.{sha256};

use answer_scheme::{Scheme, SchemeError};
use denial_keys::dnskey::Dnskey;
use numbers::algorithm::DigestAlgorithm;
use sha2::{Digest, Sha256};
use std::alloc::Global;

/// Signs with SHA-256 of the DNSKEY data followed by the octets; anyone can do the same.
/// It digests by type 2 alone (RFC 4509).
#[derive(Clone, Copy, Debug)]
pub struct BenchScheme;

fn stand_in(key: &Dnskey<&[u8]>, octets: &[u8]) -> [u8; 32]
    ensures { result ≡ sha256 (dnskey_data key.now ++ octets.now) }
{
    let mut hasher = Sha256::new();
    hasher.update(&key.flags().to_be_bytes());
    hasher.update(&[key.protocol(), key.algorithm().to_int()]);
    hasher.update(*key.public_key());
    hasher.update(octets);
    hasher.finalize()
}

impl Scheme for BenchScheme {
    ghost verifies = { λ _ k octets s. bytes_eq (sha256 (dnskey_data k ++ octets)) s };

    ghost signature_of = { λ _ k octets. Some (sha256 (dnskey_data k ++ octets)) };

    ghost digest_of = { λ _ t octets. if nat_eq t 2 then Some (sha256 octets) else None };

    fn sign(
        &self,
        alloc: Global,
        key: &Dnskey<&[u8]>,
        octets: &[u8],
    ) -> Result<Vec<u8>, SchemeError> {
        match Vec::from_slice(alloc, &stand_in(key, octets)) {
            Ok(signature) => Ok(signature),
            Err(_) => Err(SchemeError::Memory),
        }
    }

    fn verify(&self, key: &Dnskey<&[u8]>, octets: &[u8], signature: &[u8]) -> bool {
        stand_in(key, octets).as_slice() == signature
    }

    fn digest(
        &self,
        alloc: Global,
        algorithm: DigestAlgorithm,
        octets: &[u8],
    ) -> Result<Vec<u8>, SchemeError> {
        if algorithm != DigestAlgorithm::SHA256 {
            return Err(SchemeError::Failed);
        }
        match Vec::from_slice(alloc, &Sha256::digest(octets)) {
            Ok(digest) => Ok(digest),
            Err(_) => Err(SchemeError::Memory),
        }
    }
}
