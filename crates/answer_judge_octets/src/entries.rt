//! What stands in lists: DS records, and signatures that were checked.
ghost use Rattle.std.specs.Prelude.{◌≡◌, ◌≤◌, ◌∷◌, Bool, List, ℕ, length, IfOk, MatchOption, ⊤};
ghost use Rattle.std.specs.Option.{option_map};
ghost use Rattle.definitions.specs.Dnskey.{Ds as Digest};
ghost use Rattle.denial_keys.specs.Keys.{ds_data};
ghost use Rattle.answer_judge_octets.specs.Written.{FitsChecked, FitsDs, checked_octets};
ghost use Rattle.answer_judge_octets.specs.Written.{passes_octets, Splits};

use crate::list::{Entry, Written};
use crate::parts::{split_long, split_short};
use answer_findings::CheckedSignature;
use answer_terms::dnskey::key_of_data;
use denial_data::Ds;
use numbers::algorithm::{DigestAlgorithm, SecurityAlgorithm};
use std::alloc::{AllocError, Global};

/// DS records, as they stand in messages.
impl Written for Ds<Vec<u8>> {
    ghost use Rattle.answer_judge_octets.specs.Written.{FitsDs, ds_octets};
    ghost use Rattle.answer_judge_octets.specs.EntryLaws.{once_ds, some_ds};

    ghost fits = { FitsDs };

    ghost written = { ds_octets };

    ghost once = { once_ds };

    ghost some = { some_ds };
}

impl<'a> Entry<'a> for Ds<Vec<u8>> {
    fn split_first(
        alloc: Global,
        octets: &'a [u8],
    ) -> Result<Option<(Self, &'a [u8])>, AllocError> {
        let Some((rdata, behind)) = split_short(octets) else {
            return Ok(None);
        };
        match ds_of_data(alloc, rdata)? {
            Some(ds) => Ok(Some((ds, behind))),
            None => Ok(None),
        }
    }
}

/// The digest that a DS record's data spell; None where they end within the fields before the
/// digest (RFC 4034, 5.1).
fn ds_of_data(alloc: Global, rdata: &[u8]) -> Result<Option<Ds<Vec<u8>>>, AllocError>
    requires { length rdata.now ≤ 65535 }
    ensures { IfOk result (λ o. MatchOption o
        ((d : Digest) → rdata.now ≡ ds_data d → ⊥) (λ d. FitsDs d × (rdata.now ≡ ds_data d))) }
{
    let [a, b, algorithm, digest_type, digest @ ..] = rdata else {
        return Ok(None);
    };
    let digest = digest.to_vec(alloc)?;
    Ok(Some(Ds::new_unchecked(
        u16::from_be_bytes([*a, *b]),
        SecurityAlgorithm::from_int(*algorithm),
        DigestAlgorithm::from_int(*digest_type),
        digest,
    )))
}

/// Signatures that were checked.
impl<'a> Written for CheckedSignature<'a> {
    ghost use Rattle.answer_judge_octets.specs.Written.{FitsChecked, checked_octets};
    ghost use Rattle.answer_judge_octets.specs.EntryLaws.{once_checked, some_checked};

    ghost fits = { FitsChecked };

    ghost written = { checked_octets };

    ghost once = { once_checked };

    ghost some = { some_checked };
}

impl<'a> Entry<'a> for CheckedSignature<'a> {
    fn split_first(
        _alloc: Global,
        octets: &'a [u8],
    ) -> Result<Option<(Self, &'a [u8])>, AllocError> {
        Ok(split_checked(octets))
    }
}

/// The signature that stands in front of octets, and what stands behind it.
fn split_checked(octets: &[u8]) -> Option<(CheckedSignature<'_>, &[u8])>
    ensures { let found = option_map (λ p. (p.0, p.1.now)) result in
        Splits FitsChecked checked_octets octets.now found }
{
    let (rdata, rest) = split_short(octets)?;
    let key = key_of_data(rdata)?;
    let (signed, rest) = split_long(rest)?;
    let (signature, rest) = split_short(rest)?;
    let (passes, behind) = split_passes(rest)?;
    let checked = CheckedSignature {
        key,
        octets: signed,
        signature,
        passes,
    };
    Some((checked, behind))
}

/// Whether a signature passes: 1 or 0.
fn split_passes(octets: &[u8]) -> Option<(bool, &[u8])>
    ensures { let found = option_map (λ p. (p.0, p.1.now)) result in
        Splits (λ _. ⊤) passes_octets octets.now found }
{
    match octets.split_first()? {
        (0, behind) => Some((false, behind)),
        (1, behind) => Some((true, behind)),
        _ => None,
    }
}
