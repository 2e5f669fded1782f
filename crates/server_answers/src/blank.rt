//! Signatures that no response has.
ghost use Rattle.std.specs.Prelude.{◌≡◌};

use answer_scheme::{Scheme, SchemeError};
use denial_keys::dnskey::Dnskey;
use numbers::algorithm::DigestAlgorithm;
use std::alloc::Global;

/// A scheme whose signatures have no octets: for messages whose signatures are left out.
#[derive(Clone, Copy, Debug)]
pub(crate) struct BlankScheme;

impl Scheme for BlankScheme {
    ghost use Rattle.server_answers.specs.Blank.{sign_blank, verify_blank};
    ghost use Rattle.std.specs.Prelude.{None};

    ghost verifies = { λ _. verify_blank };

    ghost signature_of = { λ _. sign_blank };

    ghost digest_of = { λ _ _ _. None };

    fn sign(
        &self,
        alloc: Global,
        _key: &Dnskey<&[u8]>,
        _octets: &[u8],
    ) -> Result<Vec<u8>, SchemeError> {
        Ok(Vec::new(alloc))
    }

    fn verify(&self, _key: &Dnskey<&[u8]>, _octets: &[u8], signature: &[u8]) -> bool {
        signature.is_empty()
    }

    fn digest(
        &self,
        _alloc: Global,
        _algorithm: DigestAlgorithm,
        _octets: &[u8],
    ) -> Result<Vec<u8>, SchemeError> {
        Err(SchemeError::Failed)
    }
}
