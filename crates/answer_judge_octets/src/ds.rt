//! The records of a DS set that are judged by.
ghost use Rattle.std.specs.Prelude.{◌≡◌};
ghost use Rattle.std.specs.List.{list_any};
ghost use Rattle.answer_judge_octets.specs.Replying.{counts_for, is_checked, is_made, judged_ds};
ghost use Rattle.answer_judge_octets.specs.Replying.{unsupported};

use denial_data::Ds;
use numbers::algorithm::{DigestAlgorithm, SecurityAlgorithm};

/// The number of SHA-384 among types of digests (RFC 6605, 2).
const SHA384: u8 = 4;

/// The extended errors for DS records of algorithms that are not checked, and of digests that are
/// not made (RFC 8914, 4).
const UNSUPPORTED_ALGORITHM: u16 = 1;

const UNSUPPORTED_DIGEST: u16 = 2;

/// The records of a set that are judged by: those of algorithms that are checked, all where none is
/// named, with digests that are made.
///
/// A record of another algorithm or digest leads to no key that can be checked. A zone that has no
/// other record is insecure, and not bogus (RFC 4035, 5.2).
pub fn judged_ds(ds: Vec<Ds<Vec<u8>>>, algorithms: &[u8]) -> Vec<Ds<Vec<u8>>>
    ensures { result.items ≡ judged_ds algorithms.now ds.items }
{
    let mut judged = ds;
    judged.retain(|record| counts_for(algorithms, record));
    judged
}

fn counts_for(algorithms: &[u8], ds: &Ds<Vec<u8>>) -> bool
    ensures { result ≡ counts_for algorithms.now ds.now }
{
    is_checked(algorithms, ds.algorithm()) && is_made(ds.digest_type())
}

fn is_checked(algorithms: &[u8], algorithm: SecurityAlgorithm) -> bool
    ensures { result ≡ is_checked algorithms.now algorithm }
{
    algorithms.is_empty() || algorithms.contains(&algorithm.to_int())
}

/// Whether digests of a type are made.
fn is_made(digest_type: DigestAlgorithm) -> bool
    ensures { result ≡ is_made digest_type }
{
    digest_type == DigestAlgorithm::SHA256 || digest_type.to_int() == SHA384
}

/// Why no record of a set is judged by, as an extended error; 0 where the set is empty.
pub(crate) fn unsupported(ds: &[Ds<Vec<u8>>]) -> u16
    ensures { result ≡ unsupported ds.now }
{
    if ds.is_empty() {
        return 0;
    }
    if has_made(ds) {
        UNSUPPORTED_ALGORITHM
    } else {
        UNSUPPORTED_DIGEST
    }
}

/// Whether a record of a set has a digest that is made.
fn has_made(ds: &[Ds<Vec<u8>>]) -> bool
    ensures { result ≡ list_any (λ d. is_made d.digest_type) ds.now }
{
    ds.iter().any(|record| is_made(record.digest_type()))
}
