//! A table as the checks of a judge, where a signature that it doesn't have does not pass.
ghost use Rattle.std.specs.Prelude.{◌≡◌, ◌<◌};

use answer_findings::{CheckedSignature, digest, entry_of};
use answer_scheme::steps::Steps;
use answer_scheme::{Checks, SchemeError};
use denial_data::Dnskey;
use denial_nsec3_hash::hasher::HashError;
use numbers::algorithm::DigestAlgorithm;
use std::alloc::Global;
use std::sync::ledger::{Blank, Ledger};

/// The checks of a judge that knows the signatures of a table and no others, makes digests by
/// SHA-2, and hashes no name: to look signatures up none has to be.
#[derive(Drop)]
pub(crate) struct TableAlone<'t, 's, L: Ledger, M: Ledger> {
    table: &'t [CheckedSignature<'s>],
    verified: Steps<L>,
    hashed: Steps<M>,
}

impl<'t, 's, L: Ledger, M: Ledger> TableAlone<'t, 's, L, M> {
    /// The checks of a table. The counts begin at 0.
    pub(crate) fn new(table: &'t [CheckedSignature<'s>], first: Blank, second: Blank) -> Self
        requires name { first.name ≡ L.name }
        requires parts { first.parts ≡ L.parts }
        requires some { 0 < L.parts }
        requires second_name { second.name ≡ M.name }
        requires second_parts { second.parts ≡ M.parts }
        requires second_some { 0 < M.parts }
        ensures { result.table.now ≡ table.now }
    {
        TableAlone {
            table,
            verified: Steps::<L>::new(first),
            hashed: Steps::<M>::new(second),
        }
    }
}

impl<'t, 's, L: Ledger, M: Ledger> Checks for TableAlone<'t, 's, L, M> {
    ghost use Rattle.answer_findings.specs.Table.{answers_with, passes_in};

    ghost answers = { λ c. answers_with (passes_in c.table.now) };

    ghost verified = { λ c. c.verified };

    ghost hashed = { λ c. c.hashed };

    fn verify(&mut self, key: &Dnskey<&[u8]>, octets: &[u8], signature: &[u8]) -> bool {
        self.verified.tick();
        entry_of(self.table, key, octets, signature).unwrap_or(false)
    }

    fn digest(
        &self,
        alloc: Global,
        algorithm: DigestAlgorithm,
        octets: &[u8],
    ) -> Result<Vec<u8>, SchemeError> {
        digest(alloc, algorithm, octets)
    }

    fn hash(
        &mut self,
        _alloc: Global,
        _name: &[u8],
        _algorithm: u8,
        _iterations: u16,
        _salt: &[u8],
    ) -> Result<Vec<u8>, HashError> {
        self.hashed.tick();
        Err(HashError::Memory)
    }
}
