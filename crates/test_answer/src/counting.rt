//! How often a scheme and a hasher are asked.
use crate::scheme::TestScheme;
use answer::{DigestAlgorithm, Dnskey, HashError, Nsec3Hasher, Scheme, SchemeError};
use std::alloc::Global;
use std::cell::Cell;

/// Answers as a scheme does, which is its hasher too, and counts how often it is asked to verify
/// and to hash.
#[derive(Drop)]
pub struct Counting {
    scheme: TestScheme,
    verified: Cell<u32>,
    hashed: Cell<u32>,
}

impl Counting {
    pub fn new(scheme: &TestScheme) -> Counting {
        Counting {
            scheme: *scheme,
            verified: Cell::new(0),
            hashed: Cell::new(0),
        }
    }

    /// How often it was asked to verify, and how often to hash.
    pub fn calls(&self) -> (u32, u32) {
        (self.verified.get(), self.hashed.get())
    }
}

fn count(calls: &Cell<u32>) {
    calls.set(calls.get().saturating_add(1));
}

impl Scheme for Counting {
    ghost verifies = { λ c. ⟦<TestScheme as Scheme>⟧.verifies c.scheme };

    ghost signature_of = { λ c. ⟦<TestScheme as Scheme>⟧.signature_of c.scheme };

    ghost digest_of = { λ c. ⟦<TestScheme as Scheme>⟧.digest_of c.scheme };

    fn sign(
        &self,
        alloc: Global,
        key: &Dnskey<&[u8]>,
        octets: &[u8],
    ) -> Result<Vec<u8>, SchemeError> {
        self.scheme.sign(alloc, key, octets)
    }

    fn verify(&self, key: &Dnskey<&[u8]>, octets: &[u8], signature: &[u8]) -> bool {
        count(&self.verified);
        self.scheme.verify(key, octets, signature)
    }

    fn digest(
        &self,
        alloc: Global,
        algorithm: DigestAlgorithm,
        octets: &[u8],
    ) -> Result<Vec<u8>, SchemeError> {
        self.scheme.digest(alloc, algorithm, octets)
    }
}

impl Nsec3Hasher for Counting {
    ghost hash_of = { λ c. ⟦<TestScheme as Nsec3Hasher>⟧.hash_of c.scheme };

    fn hash(
        &self,
        alloc: Global,
        name: &[u8],
        algorithm: u8,
        iterations: u16,
        salt: &[u8],
    ) -> Result<Vec<u8>, HashError> {
        count(&self.hashed);
        self.scheme.hash(alloc, name, algorithm, iterations, salt)
    }
}
