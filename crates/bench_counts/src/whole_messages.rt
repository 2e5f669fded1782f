//! Judgements of whole messages of the zone `example`: its DNSKEY answer stands on the first line,
//! and its answer for the address of `a.example` on the second, both in hexadecimal. A signature is
//! a copy of the octets that it is made over, so that verifying costs next to nothing, and a digest
//! the octet 7. A third line may have the number of DS records that name no key.

use answer_judge::{Case, judge_with};
use answer_scheme::error::SchemeError;
use answer_scheme::scheme::Scheme;
use denial_fields::unix_time::UnixTime;
use denial_keys::dnskey::Dnskey;
use denial_keys::ds::Ds;
use denial_nsec3_sha1::hasher::Sha1Hasher;
use messages::question::Question;
use names_flat::name::Name;
use names_rdata::rtype::Rtype;
use numbers::algorithm::{DigestAlgorithm, SecurityAlgorithm};
use numbers::class::Class;
use std::alloc::Global;
use std::io;
use std::time::Duration;

/// Signs by copying, and digests to one octet. The example of a caller has one of its own, so that
/// it can be read alone.
#[derive(Drop)]
struct Copying;

impl Scheme for Copying {
    ghost use Rattle.std.specs.Prelude.{[], ◌∷◌, Some};
    ghost use Rattle.std.specs.Str.{bytes_eq};

    ghost verifies = { λ _ _ octets signature. bytes_eq octets signature };

    ghost signature_of = { λ _ _ octets. Some octets };

    ghost digest_of = { λ _ _ _. Some (7 ∷ []) };

    fn sign(
        &self,
        alloc: Global,
        _key: &Dnskey<&[u8]>,
        octets: &[u8],
    ) -> Result<Vec<u8>, SchemeError> {
        Ok(octets.to_vec(alloc)?)
    }

    fn verify(&self, _key: &Dnskey<&[u8]>, octets: &[u8], signature: &[u8]) -> bool {
        octets == signature
    }

    fn digest(
        &self,
        alloc: Global,
        _algorithm: DigestAlgorithm,
        _octets: &[u8],
    ) -> Result<Vec<u8>, SchemeError> {
        Ok(b"\x07".to_vec(alloc)?)
    }
}

/// A DS record of the key whose tag is 1054.
fn ds(alloc: Global, digest: &[u8]) -> Option<Ds<Vec<u8>>> {
    let (ecdsa, sha256) = (
        SecurityAlgorithm::from_int(13),
        DigestAlgorithm::from_int(2),
    );
    Ds::new(1054, ecdsa, sha256, digest.to_vec(alloc).ok()?).ok()
}

/// Some DS records of this tag that name no key, and behind them the one that does.
fn ds_set(alloc: Global, others: u16) -> Option<Vec<Ds<Vec<u8>>>> {
    let mut set = Vec::new(alloc);
    for other in 0..others {
        set.push(ds(alloc, &other.to_be_bytes())?).ok()?;
    }
    set.push(ds(alloc, b"\x07")?).ok()?;
    Some(set)
}

/// What is judged at the moment 1500, beside DS records of the key whose tag is 1054.
#[derive(Drop)]
struct Asked {
    apex: Name<Vec<u8>>,
    set: Vec<Ds<Vec<u8>>>,
    question: Question,
    keys: Vec<u8>,
    answer: Vec<u8>,
}

impl Asked {
    fn read(alloc: Global, lines: &[String]) -> Option<Asked> {
        let (keys, answer, others) = match lines {
            [keys, answer] => (keys, answer, 0),
            [keys, answer, others] => (keys, answer, others.parse().unwrap_or(0)),
            _ => return None,
        };
        let question = Question {
            name: Name::vec_from_str(alloc, "a.example.").ok()?,
            rtype: Rtype::A,
            class: Class::IN,
        };
        Some(Asked {
            apex: Name::vec_from_str(alloc, "example.").ok()?,
            set: ds_set(alloc, others)?,
            question,
            keys: hex::decode(alloc, keys.as_str()).ok()?,
            answer: hex::decode(alloc, answer.as_str()).ok()?,
        })
    }

    /// How many signatures are verified, and one more where there is a verdict.
    fn judged(&self, alloc: Global) -> u64 {
        let case = Case {
            apex: &self.apex,
            ds: &self.set,
            dnskey: &self.keys,
            answer: &self.answer,
            question: &self.question,
            moment: UnixTime::new(Duration::from_secs(1500)),
            limit: 0,
            one_moment: true,
            other_question: false,
        };
        match judge_with(alloc, &Copying, &Sha1Hasher, &case) {
            Ok(judgement) => u64::from(judgement.verifications) + 1,
            Err(refused) => u64::from(refused.verifications),
        }
    }
}

/// What is counted of a judgement, judged as often as asked.
pub(crate) fn counted(alloc: Global, rounds: u64, lines: &[String]) -> io::Result<u64> {
    let Some(asked) = Asked::read(alloc, lines) else {
        return Ok(0);
    };
    let mut count = 0u64;
    for _ in 0..rounds {
        count = count.wrapping_add(asked.judged(alloc));
    }
    Ok(count)
}
