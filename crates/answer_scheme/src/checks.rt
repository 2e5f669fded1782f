//! What a judge asks of what signs, digests and hashes.
ghost use Rattle.std.specs.Prelude.{◌≡◌, ℕ, ◌+◌, true, Some, None, IfOk, IsErrOf, ⊤};
ghost use Rattle.answer_scheme.specs.Answers.{Answers, NoneVerified, SignatureTest};

use crate::error::SchemeError;
use denial_keys::dnskey::Dnskey;
use denial_nsec3_hash::hasher::HashError;
use numbers::algorithm::DigestAlgorithm;
use std::alloc::Global;

/// What a judge asks of a scheme and a hasher. A contract sees how often `verify` and `hash` were
/// called.
///
/// Checks that know some signatures alone, and say of others what they please, tell by `agrees` for
/// whom their answers hold: a judgement is then that of every scheme which agrees with all that was
/// answered. By `asked_only` they tell what they were asked. Most have no use for either.
pub trait Checks {
    ghost answers: { Self → Answers };

    /// The tests of signatures by which `verify` may have answered as it did, each time so far.
    ghost agrees: { Self → SignatureTest → Type 0 } = { λ _ _. ⊥ };

    /// The tests that pass for all that `verify` was asked about so far.
    ghost asked_only: { Self → SignatureTest → Type 0 } = { λ _ _. ⊤ };

    /// How often `verify` was called.
    ghost verified: { Self → ℕ };

    /// How often `hash` was called.
    ghost hashed: { Self → ℕ };

    /// Whether a signature passes under a key, over the octets that it is made over (RFC 4034,
    /// 3.1.8.1).
    fn verify(&mut self, key: &Dnskey<&[u8]>, octets: &[u8], signature: &[u8]) -> bool
        ensures answer { result ≡ (answers self.old).verifies key.now octets.now signature.now }
        ensures agrees { (test : SignatureTest) → agrees self.new test
            → agrees self.old test × (result ≡ test key.now octets.now signature.now) }
        ensures asked { (test : SignatureTest) → test key.now octets.now signature.now ≡ true
            → asked_only self.old test → asked_only self.new test }
        ensures counted { verified self.new ≡ verified self.old + 1 }
        ensures others { hashed self.new ≡ hashed self.old }
        ensures same { answers self.new ≡ answers self.old };

    /// The digest of a DS record's type, of an owner in canonical form and DNSKEY data (RFC 4034,
    /// 5.1.4). It fails for a type that is not made.
    fn digest(
        &self,
        alloc: Global,
        algorithm: DigestAlgorithm,
        octets: &[u8],
    ) -> Result<Vec<u8>, SchemeError>
        ensures answer { IfOk result
            (λ d. (answers self.now).digest algorithm octets.now ≡ Some d.items) }
        ensures failed { IsErrOf result SchemeError.Failed
            → (answers self.now).digest algorithm octets.now ≡ None };

    /// The hash of a name in wire form and lower case, by an algorithm (1 is SHA-1), iterations and
    /// salt (RFC 5155, 5). It fails for an algorithm that is not known.
    fn hash(
        &mut self,
        alloc: Global,
        name: &[u8],
        algorithm: u8,
        iterations: u16,
        salt: &[u8],
    ) -> Result<Vec<u8>, HashError>
        ensures answer { IfOk result
            (λ h. (answers self.old).hash name.now algorithm iterations salt.now ≡ Some h.items) }
        ensures failed { IsErrOf result HashError.Failed
            → (answers self.old).hash name.now algorithm iterations salt.now ≡ None }
        ensures counted { hashed self.new ≡ hashed self.old + 1 }
        ensures others { verified self.new ≡ verified self.old }
        ensures none { NoneVerified agrees asked_only self.old self.new }
        ensures same { answers self.new ≡ answers self.old };
}
