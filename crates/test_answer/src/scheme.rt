//! A scheme and a hasher that fail as they are told to.
ghost use Rattle.std.specs.Prelude.{◌≡◌, ◌++◌, IfOk};

use answer::{DigestAlgorithm, Dnskey, HashError, Nsec3Hasher, Scheme, SchemeError};
use std::alloc::{AllocError, Global};
use test_lines::Line;

/// A signature is a copy of the octets that it is made over, the digest of the one known type is
/// the octet 7, and so is each hash.
#[derive(Clone, Copy)]
pub struct TestScheme {
    pub signs: bool,
    /// In a signature the octets of its key stand before the copy.
    pub is_keyed: bool,
    pub digest_type: u8,
    pub hashes: bool,
}

/// Signs, and digests by type 2.
pub const WELL: &TestScheme = &TestScheme {
    signs: true,
    is_keyed: false,
    digest_type: 2,
    hashes: false,
};

/// Signs, and digests by no type that a key asks for.
const NO_DIGEST: &TestScheme = &TestScheme {
    signs: true,
    is_keyed: false,
    digest_type: 0,
    hashes: false,
};

/// Makes no signature.
const NO_SIGNATURE: &TestScheme = &TestScheme {
    signs: false,
    is_keyed: false,
    digest_type: 2,
    hashes: false,
};

/// Signs, tells the signatures of one key from those of another, and digests by type 2.
const KEYED: &TestScheme = &TestScheme {
    signs: true,
    is_keyed: true,
    digest_type: 2,
    hashes: false,
};

/// Signs, digests by type 2, and hashes all names alike.
const ONE_HASH: &TestScheme = &TestScheme {
    signs: true,
    is_keyed: false,
    digest_type: 2,
    hashes: true,
};

/// The scheme of the word at a place.
pub fn scheme_at(line: &mut Line<'_>, place: usize) -> &'static TestScheme {
    match line.word(place) {
        "well" => WELL,
        "no-digest" => NO_DIGEST,
        "no-signature" => NO_SIGNATURE,
        "keyed" => KEYED,
        "one-hash" => ONE_HASH,
        _ => {
            line.lose();
            WELL
        }
    }
}

/// The octets of a key, and others behind them.
fn behind(alloc: Global, key: &[u8], octets: &[u8]) -> Result<Vec<u8>, AllocError>
    ensures { IfOk result (λ s. s.items ≡ key.now ++ octets.now) }
{
    let mut signature = key.to_vec(alloc)?;
    signature.extend_from_slice(octets)?;
    Ok(signature)
}

impl Scheme for TestScheme {
    ghost use Rattle.std.specs.Prelude.{[], ◌∷◌, ◌++◌, ◌&&◌, Some, None, nat_eq, take, drop};
    ghost use Rattle.std.specs.Prelude.{length, if◌then◌else◌};
    ghost use Rattle.std.specs.Str.{bytes_eq};

    ghost verifies = { λ s key octets signature. if s.is_keyed
        then bytes_eq (take (length key.octets) signature) key.octets && bytes_eq octets (drop (length key.octets) signature)
        else bytes_eq octets signature };

    ghost signature_of = { λ s key octets. if s.signs
        then (if s.is_keyed then Some (key.octets ++ octets) else Some octets)
        else None };

    ghost digest_of = { λ s t _. if nat_eq t s.digest_type then Some (7 ∷ []) else None };

    #[tactic(auto, using(crate::proofs::Keyed::passes))]
    fn sign(
        &self,
        alloc: Global,
        key: &Dnskey<&[u8]>,
        octets: &[u8],
    ) -> Result<Vec<u8>, SchemeError> {
        if !self.signs {
            return Err(SchemeError::Failed);
        }
        if self.is_keyed {
            return Ok(behind(alloc, key.public_key(), octets)?);
        }
        Ok(octets.to_vec(alloc)?)
    }

    fn verify(&self, key: &Dnskey<&[u8]>, octets: &[u8], signature: &[u8]) -> bool {
        if !self.is_keyed {
            return octets == signature;
        }
        match signature.strip_prefix(*key.public_key()) {
            Some(rest) => octets == rest,
            None => false,
        }
    }

    fn digest(
        &self,
        alloc: Global,
        algorithm: DigestAlgorithm,
        _octets: &[u8],
    ) -> Result<Vec<u8>, SchemeError> {
        if algorithm.to_int() != self.digest_type {
            return Err(SchemeError::Failed);
        }
        Ok(b"\x07".to_vec(alloc)?)
    }
}

impl Nsec3Hasher for TestScheme {
    ghost use Rattle.std.specs.Prelude.{[], ◌∷◌, Some, None, if◌then◌else◌};

    ghost hash_of = { λ s _ _ _ _. if s.hashes then Some (7 ∷ []) else None };

    fn hash(
        &self,
        alloc: Global,
        _name: &[u8],
        _algorithm: u8,
        _iterations: u16,
        _salt: &[u8],
    ) -> Result<Vec<u8>, HashError> {
        if !self.hashes {
            return Err(HashError::Failed);
        }
        Ok(b"\x07".to_vec(alloc)?)
    }
}
