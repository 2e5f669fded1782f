//! A table of signatures as a scheme.
ghost use Rattle.std.specs.Prelude.{◌≡◌, Some, None};

use crate::made::{MadeSignature, signature_in};
use answer_scheme::{Scheme, SchemeError};
use denial_keys::dnskey::Dnskey;
use numbers::algorithm::DigestAlgorithm;
use std::alloc::Global;

/// A scheme that signs as the entries of a table say, and fails where they say nothing. It makes
/// no digest.
#[derive(Clone, Copy, Debug)]
pub(crate) struct TableScheme<'t, 's> {
    pub table: &'t [MadeSignature<'s>],
}

impl<'t, 's> Scheme for TableScheme<'t, 's> {
    ghost use Rattle.std.specs.Prelude.{None};
    ghost use Rattle.server_signatures.specs.Table.{sign_by, verify_by};

    ghost verifies = { λ s. verify_by s.table.now };

    ghost signature_of = { λ s. sign_by s.table.now };

    ghost digest_of = { λ _ _ _. None };

    fn sign(
        &self,
        alloc: Global,
        key: &Dnskey<&[u8]>,
        octets: &[u8],
    ) -> Result<Vec<u8>, SchemeError> {
        match signature_in(self.table, key, octets) {
            Some(signature) => Ok(signature.to_vec(alloc)?),
            None => Err(SchemeError::Failed),
        }
    }

    fn verify(&self, key: &Dnskey<&[u8]>, octets: &[u8], signature: &[u8]) -> bool {
        match signature_in(self.table, key, octets) {
            Some(made) => made == signature,
            None => false,
        }
    }

    fn digest(
        &self,
        _alloc: Global,
        _algorithm: DigestAlgorithm,
        _octets: &[u8],
    ) -> Result<Vec<u8>, SchemeError> {
        Err(SchemeError::Failed)
    }
}
