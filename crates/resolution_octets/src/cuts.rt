//! Why no DS record of a delegation counts, as an extended error (RFC 8914, 4.2 and 4.3).
ghost use Rattle.std.specs.Prelude.{◌≡◌, map};
ghost use Rattle.answer_judge_octets.specs.Replying.{is_made};
ghost use Rattle.resolution_octets.specs.Cuts.{ds_counted, error_of_cut, has_made};

use numbers::algorithm::DigestAlgorithm;
use resolution_walk::DataList;

/// How many octets of a digest a record has room for.
const LONGEST_DIGEST: usize = 65_531;

/// The number of SHA-384 among types of digests (RFC 6605, 2).
const SHA384: u8 = 4;

/// The extended errors for DS records of algorithms that are not checked, and of digests that are
/// not made (RFC 8914, 4).
const UNSUPPORTED_ALGORITHM: u16 = 1;

const UNSUPPORTED_DIGEST: u16 = 2;

/// The extended error of a delegation that has DS records of no known algorithm and digest, by
/// their data; 0 where it has no DS record.
///
/// It is that of a judgement beside these records. One that cannot be read counts as one of an
/// unknown digest.
pub(crate) fn error_of_cut(datas: &DataList) -> u16
    ensures { result ≡ error_of_cut datas.now }
{
    let datas = datas.as_slice();
    if datas.is_empty() {
        return 0;
    }
    if has_made(datas) {
        UNSUPPORTED_ALGORITHM
    } else {
        UNSUPPORTED_DIGEST
    }
}

/// Whether a record that data spell has a digest that is made.
fn has_made(datas: &[Vec<u8>]) -> bool
    ensures { result ≡ has_made (map (λ d. d.items) datas.now) }
{
    for datum in datas {
        if is_made(digest_type_in(datum)) {
            return true;
        }
    }
    false
}

/// Whether digests of a type are made.
fn is_made(digest_type: DigestAlgorithm) -> bool
    ensures { result ≡ is_made digest_type }
{
    digest_type == DigestAlgorithm::SHA256 || digest_type.to_int() == SHA384
}

/// The type of the digest in data of a DS record (RFC 4034, 5.1); 0, which is none, where they
/// cannot be read.
fn digest_type_in(datum: &[u8]) -> DigestAlgorithm
    ensures { result ≡ (ds_counted datum.now).digest_type }
{
    let [_, _, _, digest_type, digest @ ..] = datum else {
        return DigestAlgorithm::from_int(0);
    };
    if digest.len() > LONGEST_DIGEST {
        return DigestAlgorithm::from_int(0);
    }
    DigestAlgorithm::from_int(*digest_type)
}
