//! The scheme of a publisher whose keys sign elsewhere.
ghost use Rattle.std.specs.Prelude.{◌≡◌, Some, None};

use answer_scheme::{Scheme, SchemeError};
use denial_keys::dnskey::Dnskey;
use numbers::algorithm::DigestAlgorithm;
use sha2::{Digest, Sha256};
use std::alloc::Global;

/// Makes digests of type 2, SHA-256, for DS and CDS records (RFC 4509). It signs nothing, and no
/// signature passes.
#[derive(Clone, Copy, Debug)]
pub struct DigestScheme;

impl Scheme for DigestScheme {
    ghost use Rattle.std.specs.Prelude.{Some, None, false, nat_eq, if◌then◌else◌};
    ghost use Rattle.sha2.specs.Sha256.{sha256};

    ghost verifies = { λ _ _ _ _. false };

    ghost signature_of = { λ _ _ _. None };

    ghost digest_of = { λ _ t octets. if nat_eq t 2 then Some (sha256 octets) else None };

    fn sign(
        &self,
        _alloc: Global,
        _key: &Dnskey<&[u8]>,
        _octets: &[u8],
    ) -> Result<Vec<u8>, SchemeError> {
        Err(SchemeError::Failed)
    }

    fn verify(&self, _key: &Dnskey<&[u8]>, _octets: &[u8], _signature: &[u8]) -> bool {
        false
    }

    fn digest(
        &self,
        alloc: Global,
        algorithm: DigestAlgorithm,
        octets: &[u8],
    ) -> Result<Vec<u8>, SchemeError> {
        if algorithm != DigestAlgorithm::SHA256 {
            return Err(SchemeError::Failed);
        }
        match Vec::from_slice(alloc, &Sha256::digest(octets)) {
            Ok(digest) => Ok(digest),
            Err(_) => Err(SchemeError::Memory),
        }
    }
}
