//! The digests by which DS records name a key (RFC 4034, 5.1.4), each of which is made once.
ghost use Rattle.std.specs.Prelude.{◌≡◌, IfOk};
ghost use Rattle.std.specs.List.{All, find, list_any};
ghost use Rattle.std.specs.Option.{option_map};
ghost use Rattle.answer_judge_keys.specs.Digests.{IsMade, is_digest, is_of_type};
ghost use Rattle.answer_judge_keys.specs.Trusted.{matches_key};

use crate::check_run::CheckRun;
use crate::keys::TaggedKey;
use answer_scheme::checks::Checks;
use answer_scheme::error::SchemeError;
use answer_terms::dnskey::ZoneKey;
use denial_data::Ds;
use messages::names::{Name, ToName, ZoneName};
use numbers::algorithm::DigestAlgorithm;
use std::alloc::AllocError;

/// A key's digest of one type; none where that type has none.
#[derive(Drop)]
struct MadeDigest {
    algorithm: DigestAlgorithm,
    octets: Option<Vec<u8>>,
}

impl MadeDigest {
    /// Whether these octets are the digest. Lengths are compared first.
    fn is(&self, octets: &Vec<u8>) -> bool
        ensures { result ≡ is_digest self.now octets.now.items }
    {
        match &self.octets {
            Some(digest) => *digest == *octets,
            None => false,
        }
    }
}

/// Whether a DS record names a key.
///
/// The key is digested once by a type, whatever number of records has that type and the key's tag.
pub(crate) fn has_matching_ds<C: Checks>(
    apex: &Name<Vec<u8>>,
    ds: &[Ds<Vec<u8>>],
    key: &TaggedKey,
    check_run: &mut CheckRun<C>,
) -> Result<bool, AllocError>
    ensures named { let a = C.answers check_run.old.checks.now in
        IfOk result (λ b. b ≡ list_any (matches_key a apex.now key.now) ds.now) }
    ensures rest { check_run.new ≡ record check_run.old { octets = check_run.new.octets } }
{
    let mut made = Vec::new(check_run.alloc);
    for record in ds {
        if matches_key(apex, record, key, &mut made, check_run)? {
            return Ok(true);
        }
    }
    Ok(false)
}

/// Whether one DS record names a key, of which some digests were made.
///
/// Anyone can make a key of a tag and an algorithm: the digest alone tells the one that the parent
/// vouches for.
fn matches_key<C: Checks>(
    apex: &Name<Vec<u8>>,
    ds: &Ds<Vec<u8>>,
    key: &TaggedKey,
    made: &mut Vec<MadeDigest>,
    check_run: &mut CheckRun<C>,
) -> Result<bool, AllocError>
    requires { let a = C.answers check_run.old.checks.now in
        All (IsMade a apex.now key.now) made.old.items }
    ensures named { let a = C.answers check_run.old.checks.now in
        IfOk result (λ b. b ≡ matches_key a apex.now key.now ds.now) }
    ensures made { let a = C.answers check_run.old.checks.now in
        IfOk result (λ _. All (IsMade a apex.now key.now) made.new.items) }
    ensures rest { check_run.new ≡ record check_run.old { octets = check_run.new.octets } }
{
    if ds.key_tag() != key.tag() || ds.algorithm() != key.dnskey().algorithm() {
        return Ok(false);
    }
    let algorithm = ds.digest_type();
    if let Some(digest) = digest_of(made, algorithm) {
        return Ok(digest.is(ds.digest()));
    }
    let digest = make_digest(apex, key, algorithm, check_run)?;
    let is_named = digest.is(ds.digest());
    made.push(digest)?;
    Ok(is_named)
}

/// The digest of a type, of those that were made.
fn digest_of(made: &[MadeDigest], algorithm: DigestAlgorithm) -> Option<&MadeDigest>
    ensures { option_map (λ d. d.now) result ≡ find (is_of_type algorithm) made.now }
{
    for digest in made {
        if digest.algorithm == algorithm {
            return Some(digest);
        }
    }
    None
}

/// A key's digest of a type.
fn make_digest<C: Checks>(
    apex: &Name<Vec<u8>>,
    key: &TaggedKey,
    algorithm: DigestAlgorithm,
    check_run: &mut CheckRun<C>,
) -> Result<MadeDigest, AllocError>
    ensures made { let a = C.answers check_run.old.checks.now in
        IfOk result (λ d. (d.algorithm ≡ algorithm) × IsMade a apex.now key.now d) }
    ensures rest { check_run.new ≡ record check_run.old { octets = check_run.new.octets } }
{
    let octets = &mut *check_run.octets;
    octets.clear();
    apex.compose_canonical(octets)?;
    key.dnskey().compose(octets)?;
    match check_run.checks.digest(check_run.alloc, algorithm, octets) {
        Ok(digest) => Ok(MadeDigest {
            algorithm,
            octets: Some(digest),
        }),
        Err(SchemeError::Failed) => Ok(MadeDigest {
            algorithm,
            octets: None,
        }),
        Err(SchemeError::Memory) => Err(AllocError),
    }
}
