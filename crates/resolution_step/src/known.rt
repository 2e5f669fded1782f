//! DS records of known algorithms and digests.
ghost use Rattle.std.specs.Prelude.{◌≡◌, IfOk, map};
ghost use Rattle.resolution_step.specs.KnownDs.{is_known, known_ds, known_in};
ghost use Rattle.resolution_step.specs.Told.{bound_told, told};

use crate::canonical::canonical_name;
use crate::judged_step::Step;
use answer_findings::DataList;
use denial_data::Ds;
use messages::names::Name;
use numbers::algorithm::{DigestAlgorithm, SecurityAlgorithm};
use std::alloc::{AllocError, Global};

/// How many octets of a digest a record has room for.
const LONGEST_DIGEST: usize = 65_531;

/// The number of SHA-384 among types of digests (RFC 6605, 2).
const SHA384: u8 = 4;

/// What DS records at a delegation tell: the way down by those of known algorithms and digests, or
/// that what is below is not signed, with the data of all. A record of another algorithm or digest
/// leads to no key that can be checked (RFC 4035, 5.2).
pub(crate) fn bound(
    alloc: Global,
    algorithms: &[u8],
    cut: &Name<Vec<u8>>,
    datas: DataList,
) -> Result<Step, AllocError>
    ensures { IfOk result (λ s. told s ≡ bound_told algorithms.now cut.now datas) }
{
    let ds = known_ds(alloc, algorithms, datas.as_slice())?;
    let cut = canonical_name(alloc, cut)?;
    if ds.is_empty() {
        return Ok(Step::Unsigned { cut, ds: datas });
    }
    Ok(Step::Down { cut, ds })
}

/// The records of known algorithms and digests that data spell.
fn known_ds(
    alloc: Global,
    algorithms: &[u8],
    datas: &[Vec<u8>],
) -> Result<Vec<Ds<Vec<u8>>>, AllocError>
    ensures { let spelled = map (λ d. d.items) datas.now in
        IfOk result (λ ds. ds.items ≡ known_ds algorithms.now spelled) }
{
    let mut known = Vec::new(alloc);
    for datum in datas {
        if let Some(ds) = known_in(alloc, algorithms, datum)? {
            known.push(ds)?;
        }
    }
    Ok(known)
}

/// The record that data spell, if it is of a known algorithm and digest (RFC 4034, 5.1).
fn known_in(
    alloc: Global,
    algorithms: &[u8],
    datum: &[u8],
) -> Result<Option<Ds<Vec<u8>>>, AllocError>
    ensures { IfOk result (λ d. d ≡ known_in algorithms.now datum.now) }
{
    let [a, b, algorithm, digest_type, digest @ ..] = datum else {
        return Ok(None);
    };
    if digest.len() > LONGEST_DIGEST {
        return Ok(None);
    }
    let ds = Ds::new_unchecked(
        u16::from_be_bytes([*a, *b]),
        SecurityAlgorithm::from_int(*algorithm),
        DigestAlgorithm::from_int(*digest_type),
        digest.to_vec(alloc)?,
    );
    if is_known(algorithms, &ds) {
        Ok(Some(ds))
    } else {
        Ok(None)
    }
}

/// Whether signatures of a record's algorithm are checked, each where none is named, and digests of
/// its type are made.
fn is_known(algorithms: &[u8], ds: &Ds<Vec<u8>>) -> bool
    ensures { result ≡ is_known algorithms.now ds.now }
{
    let digest_type = ds.digest_type();
    let is_checked = algorithms.is_empty() || algorithms.contains(&ds.algorithm().to_int());
    is_checked && (digest_type == DigestAlgorithm::SHA256 || digest_type.to_int() == SHA384)
}
