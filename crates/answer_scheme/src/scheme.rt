//! What signs, verifies and digests.
ghost use Rattle.std.specs.Prelude.{◌≡◌, ℕ, List, Bool, true, ◌≤◌, length, Option, Some, None};
ghost use Rattle.std.specs.Prelude.{IfOk, IsErrOf};
ghost use Rattle.definitions.specs.Dnskey.{Dnskey};

use crate::error::SchemeError;
use denial_keys::dnskey::Dnskey;
use numbers::algorithm::DigestAlgorithm;
use std::alloc::Global;

/// Signs, verifies and digests. What it answers is a function of the arguments, memory aside.
pub trait Scheme {
    /// Whether a signature of octets passes under a key.
    ghost verifies: { Self → Dnskey → List ℕ → List ℕ → Bool };

    /// The signature of octets under a key; None for a failure.
    ghost signature_of: { Self → Dnskey → List ℕ → Option (List ℕ) };

    /// The digest of a type of octets; None for a failure.
    ghost digest_of: { Self → ℕ → List ℕ → Option (List ℕ) };

    /// The signature of octets under a key, which passes (RFC 4034, 3.1.8.1). It fails where it has
    /// no private key, say.
    fn sign(
        &self,
        alloc: Global,
        key: &Dnskey<&[u8]>,
        octets: &[u8],
    ) -> Result<Vec<u8>, SchemeError>
        ensures answer { IfOk result
            (λ s. signature_of self.now key.now octets.now ≡ Some s.items) }
        ensures passes { IfOk result (λ s. verifies self.now key.now octets.now s.items ≡ true) }
        ensures failed { IsErrOf result SchemeError.Failed
            → signature_of self.now key.now octets.now ≡ None };

    /// Whether a signature of octets passes under a key.
    fn verify(&self, key: &Dnskey<&[u8]>, octets: &[u8], signature: &[u8]) -> bool
        ensures { result ≡ verifies self.now key.now octets.now signature.now };

    /// The digest of a DS record's type, of an owner in canonical form and DNSKEY data (RFC 4034,
    /// 5.1.4). It fails for a type that is not made.
    fn digest(
        &self,
        alloc: Global,
        algorithm: DigestAlgorithm,
        octets: &[u8],
    ) -> Result<Vec<u8>, SchemeError>
        ensures answer { IfOk result (λ d. digest_of self.now algorithm octets.now ≡ Some d.items) }
        ensures fits { IfOk result (λ d. length d.items ≤ 65531) }
        ensures failed { IsErrOf result SchemeError.Failed
            → digest_of self.now algorithm octets.now ≡ None };
}
