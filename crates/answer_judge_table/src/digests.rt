//! Digests of keys.
ghost use Rattle.std.specs.Prelude.{◌≡◌, Some, None, IfOk, IsErrOf};
ghost use Rattle.answer_judge_table.specs.Table.{digest_by};

use answer_scheme::SchemeError;
use numbers::algorithm::DigestAlgorithm;
use sha2::{Digest, Sha256, Sha384};
use std::alloc::Global;

/// The number of SHA-384 among types of digests (RFC 6605, 2).
const SHA384: u8 = 4;

/// The digest of octets by SHA-256 or SHA-384; other types fail (RFC 4509; RFC 6605, 2).
pub fn digest(
    alloc: Global,
    algorithm: DigestAlgorithm,
    octets: &[u8],
) -> Result<Vec<u8>, SchemeError>
    ensures answer { IfOk result (λ d. digest_by algorithm octets.now ≡ Some d.items) }
    ensures failed { IsErrOf result SchemeError.Failed → digest_by algorithm octets.now ≡ None }
{
    if algorithm == DigestAlgorithm::SHA256 {
        return copied(alloc, &Sha256::digest(octets));
    }
    if algorithm.to_int() == SHA384 {
        return copied(alloc, &Sha384::digest(octets));
    }
    Err(SchemeError::Failed)
}

fn copied(alloc: Global, digest: &[u8]) -> Result<Vec<u8>, SchemeError>
    ensures answer { IfOk result (λ d. d.items ≡ digest.now) }
    ensures memory { result ≡ Err SchemeError.Failed → ⊥ }
{
    match digest.to_vec(alloc) {
        Ok(digest) => Ok(digest),
        Err(_) => Err(SchemeError::Memory),
    }
}
