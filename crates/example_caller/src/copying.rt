//! A stand-in for signatures and digests, which protects nothing: a signature is a copy of what it
//! is made over.
use answer::{DigestAlgorithm, Dnskey, HashError, Nsec3Hasher, Scheme, SchemeError};
use std::alloc::Global;

/// Signs by copying, digests to one octet, and hashes no name.
#[derive(Drop)]
pub struct Copying;

impl Scheme for Copying {
    ghost use Rattle.std.specs.Prelude.{[], ◌∷◌, Some};
    ghost use Rattle.std.specs.Str.{bytes_eq};

    ghost verifies = { λ _ _ octets signature. bytes_eq octets signature };

    ghost signature_of = { λ _ _ octets. Some octets };

    ghost digest_of = { λ _ _ _. Some (7 ∷ []) };

    fn sign(
        &self,
        alloc: Global,
        _key: &Dnskey<&[u8]>,
        octets: &[u8],
    ) -> Result<Vec<u8>, SchemeError> {
        Ok(octets.to_vec(alloc)?)
    }

    fn verify(&self, _key: &Dnskey<&[u8]>, octets: &[u8], signature: &[u8]) -> bool {
        octets == signature
    }

    fn digest(
        &self,
        alloc: Global,
        _algorithm: DigestAlgorithm,
        _octets: &[u8],
    ) -> Result<Vec<u8>, SchemeError> {
        Ok(b"\x07".to_vec(alloc)?)
    }
}

impl Nsec3Hasher for Copying {
    ghost use Rattle.std.specs.Prelude.{None};

    ghost hash_of = { λ _ _ _ _ _. None };

    fn hash(
        &self,
        _alloc: Global,
        _name: &[u8],
        _algorithm: u8,
        _iterations: u16,
        _salt: &[u8],
    ) -> Result<Vec<u8>, HashError> {
        Err(HashError::Failed)
    }
}
