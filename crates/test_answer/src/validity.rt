//! How long verdicts last.

use crate::asked::Asked;
use crate::desk::Desk;
use answer::{
    DigestAlgorithm, Dnskey, HashError, Nsec3Hasher, Scheme, SchemeError, UnixTime, Validity,
    judge_with,
};
use std::alloc::Global;
use test_lines::Line;

/// A scheme under which each signature passes, whose digest of type 2 is the octet 7; no name is
/// hashed.
struct Passing;

impl Scheme for Passing {
    ghost use Rattle.std.specs.Prelude.{[], ◌∷◌, Some, None, true, nat_eq, if◌then◌else◌};

    ghost verifies = { λ _ _ _ _. true };

    ghost signature_of = { λ _ _ _. None };

    ghost digest_of = { λ _ t _. if nat_eq t 2 then Some (7 ∷ []) else None };

    fn sign(
        &self,
        _alloc: Global,
        _key: &Dnskey<&[u8]>,
        _octets: &[u8],
    ) -> Result<Vec<u8>, SchemeError> {
        Err(SchemeError::Failed)
    }

    fn verify(&self, _key: &Dnskey<&[u8]>, _octets: &[u8], _signature: &[u8]) -> bool {
        true
    }

    fn digest(
        &self,
        alloc: Global,
        algorithm: DigestAlgorithm,
        _octets: &[u8],
    ) -> Result<Vec<u8>, SchemeError> {
        if algorithm.to_int() != 2 {
            return Err(SchemeError::Failed);
        }
        Ok(b"\x07".to_vec(alloc)?)
    }
}

impl Nsec3Hasher for Passing {
    ghost use Rattle.std.specs.Prelude.{None};

    ghost hash_of = { λ _ _ _ _ _. None };

    fn hash(
        &self,
        _alloc: Global,
        _name: &[u8],
        _algorithm: u8,
        _iterations: u16,
        _salt: &[u8],
    ) -> Result<Vec<u8>, HashError> {
        Err(HashError::Failed)
    }
}

/// How long the verdict lasts that the messages have which are held, where each of their signatures
/// passes.
pub fn lasts(line: &mut Line<'_>, desk: &Desk) {
    if let Some(asked) = Asked::read(line, 1) {
        let mut case = asked.of(&desk.keys, &desk.answer);
        case.one_moment = false;
        match judge_with(line.alloc(), &Passing, &Passing, &case) {
            Ok(judgement) => told(line, judgement.validity, case.moment),
            Err(answer) => line.refused(&answer.refusal),
        }
    }
}

fn told(line: &mut Line<'_>, validity: Option<Validity>, moment: UnixTime) {
    match validity {
        Some(validity) => {
            line.say("ttl");
            line.value(&validity.ttl);
            line.mark(",");
            line.value(&validity.seconds);
            line.say("seconds, until");
            line.value(&validity.until(moment));
        }
        None => line.say("nothing is verified"),
    }
}
