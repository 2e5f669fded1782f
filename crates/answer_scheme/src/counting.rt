//! A scheme and a hasher as the checks of a judge.
ghost use Rattle.std.specs.Prelude.{◌≡◌, ℕ, ◌<◌};

use crate::checks::Checks;
use crate::error::SchemeError;
use crate::scheme::Scheme;
use crate::steps::Steps;
use denial_keys::dnskey::Dnskey;
use denial_nsec3_hash::hasher::{HashError, Nsec3Hasher};
use numbers::algorithm::DigestAlgorithm;
use std::alloc::Global;
use std::sync::ledger::{Blank, Ledger};

/// A scheme and a hasher, and how often they were asked to verify and to hash.
#[derive(Drop)]
pub struct SchemeChecks<'a, S: Scheme, H: Nsec3Hasher, L: Ledger, M: Ledger> {
    scheme: &'a S,
    hasher: &'a H,
    verified: Steps<L>,
    hashed: Steps<M>,
}

impl<'a, S: Scheme, H: Nsec3Hasher, L: Ledger, M: Ledger> SchemeChecks<'a, S, H, L, M> {
    /// Checks that answer as a scheme and a hasher do. The counts begin at 0.
    pub fn new(scheme: &'a S, hasher: &'a H, first: Blank, second: Blank) -> Self
        requires name { first.name ≡ L.name }
        requires parts { first.parts ≡ L.parts }
        requires some { 0 < L.parts }
        requires second_name { second.name ≡ M.name }
        requires second_parts { second.parts ≡ M.parts }
        requires second_some { 0 < M.parts }
        ensures scheme { result.scheme.now ≡ scheme.now }
        ensures hasher { result.hasher.now ≡ hasher.now }
        ensures verified { result.verified ≡ 0 }
        ensures hashed { result.hashed ≡ 0 }
    {
        SchemeChecks {
            scheme,
            hasher,
            verified: Steps::<L>::new(first),
            hashed: Steps::<M>::new(second),
        }
    }
}

impl<'a, S: Scheme, H: Nsec3Hasher, L: Ledger, M: Ledger> Checks for SchemeChecks<'a, S, H, L, M> {
    ghost use Rattle.answer_scheme.specs.Answers.{answers_by};

    ghost answers = { λ c. answers_by S.verifies S.digest_of H.hash_of c.scheme.now c.hasher.now };

    ghost verified = { λ c. c.verified };

    ghost hashed = { λ c. c.hashed };

    fn verify(&mut self, key: &Dnskey<&[u8]>, octets: &[u8], signature: &[u8]) -> bool {
        self.verified.tick();
        self.scheme.verify(key, octets, signature)
    }

    fn digest(
        &self,
        alloc: Global,
        algorithm: DigestAlgorithm,
        octets: &[u8],
    ) -> Result<Vec<u8>, SchemeError> {
        self.scheme.digest(alloc, algorithm, octets)
    }

    fn hash(
        &mut self,
        alloc: Global,
        name: &[u8],
        algorithm: u8,
        iterations: u16,
        salt: &[u8],
    ) -> Result<Vec<u8>, HashError> {
        self.hashed.tick();
        self.hasher.hash(alloc, name, algorithm, iterations, salt)
    }
}
