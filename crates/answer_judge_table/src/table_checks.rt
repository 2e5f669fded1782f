//! A table as the checks of a judge, which asks for what it lacks.
ghost use Rattle.std.specs.Prelude.{◌≡◌, ◌<◌, ◌≤◌, ◌+◌, [], true, false, length, IfOk, IsOk};
ghost use Rattle.answer_judge_table.specs.Asking.{are_new};

use crate::checked::{CheckedSignature, entry_of};
use crate::digests::digest;
use crate::loan::Loan;
use crate::outcome::{Ask, note};
use answer_hasher::NameHasher;
use answer_scheme::steps::Steps;
use answer_scheme::{Checks, SchemeError};
use denial_data::Dnskey;
use denial_nsec3_hash::hasher::HashError;
use numbers::algorithm::DigestAlgorithm;
use std::alloc::{AllocError, Global};
use std::marker::{Brand, PhantomData};
use std::sync::ledger::{Blank, Ledger};

/// What a table says, which hasher is lent beside it, and how many names that had hashed before:
/// names for proofs alone.
pub(crate) trait GhostTable {
    ghost use Rattle.std.specs.Prelude.{List, ℕ};
    ghost use Rattle.answer_judge_table.specs.Table.{Checked};

    ghost table: { List Checked };

    ghost hasher: { ℕ };

    ghost before: { ℕ };
}

impl GhostTable for Brand {
    ghost use Rattle.std.specs.Prelude.{[]};

    ghost table = { [] };

    ghost hasher = { 0 };

    ghost before = { 0 };
}

/// The checks of a judge that knows the signatures of a table, makes digests by SHA-2, and hashes
/// names by SHA-1 with what it is lent. A signature that the table does not have passes, and is
/// kept: whatever agrees with the table and passes what was kept agrees with all that was answered.
///
/// While something is kept no name is hashed: a message's NSEC3 records cost hashes only once their
/// signatures have passed (CVE-2023-50868).
#[derive(Drop)]
pub(crate) struct TableChecks<'t, 's, 'h, T: GhostTable, L: Ledger, M: Ledger, H: NameHasher> {
    alloc: Global,
    table: &'t [CheckedSignature<'s>],
    asks: Vec<Ask>,
    /// Whether there was memory to keep all.
    kept: Result<(), AllocError>,
    verified: Steps<L>,
    /// The names that were to be hashed. The hasher counts those that it hashed.
    hashed: Steps<M>,
    hasher: &'h mut H,
    /// Whether a name was hashed.
    has_hashed: bool,
    told: PhantomData<T>,
    ghost is_table: { table.now ≡ T.table },
    ghost are_new: { are_new T.table asks.items ≡ true },
    ghost counted: { length asks.items ≤ verified },
    ghost is_hasher: { hasher.ghost_name ≡ T.hasher },
    ghost none_yet: { has_hashed ≡ false → H.hashed hasher.now ≡ T.before },
    ghost unhashed: { 0 < length asks.items → H.hashed hasher.now ≡ T.before },
    ghost all: { length asks.items ≡ 0 → H.hashed hasher.now ≡ T.before + hashed },
    ghost few: { H.hashed hasher.now ≤ T.before + hashed },
}

impl<'t, 's, 'h, T: GhostTable, L: Ledger, M: Ledger, H: NameHasher> TableChecks<
    't,
    's,
    'h,
    T,
    L,
    M,
    H,
> {
    /// The checks of a table, of which nothing was asked yet. The counts of calls begin at 0.
    pub(crate) fn new(
        alloc: Global,
        table: &'t [CheckedSignature<'s>],
        loan: Loan<'h, H>,
        first: Blank,
        second: Blank,
    ) -> Self
        requires table { table.now ≡ T.table }
        requires lent { loan.hasher.ghost_name ≡ T.hasher }
        requires before { H.hashed loan.hasher.now ≡ T.before }
        requires name { first.name ≡ L.name }
        requires parts { first.parts ≡ L.parts }
        requires some { 0 < L.parts }
        requires second_name { second.name ≡ M.name }
        requires second_parts { second.parts ≡ M.parts }
        requires second_some { 0 < M.parts }
        ensures asks { result.asks.items ≡ [] }
        ensures verified { result.verified ≡ 0 }
        ensures hashed { result.hashed ≡ 0 }
    {
        let Loan { hasher } = loan;
        TableChecks {
            alloc,
            table,
            asks: Vec::new(alloc),
            kept: Ok(()),
            verified: Steps::<L>::new(first),
            hashed: Steps::<M>::new(second),
            hasher,
            has_hashed: false,
            told: PhantomData,
        }
    }

    /// What the table lacked, if there was memory to keep all, and what was lent. Where it lacked
    /// anything, no name was hashed; else as many as were to be.
    pub(crate) fn into_lacking(self) -> Lacking<'h, H>
        ensures new { IfOk result.asks (λ v. are_new T.table v.items ≡ true) }
        ensures counted { IfOk result.asks (λ v. length v.items ≤ self.entry.verified) }
        ensures asks { IfOk result.asks (λ v. v.items ≡ self.entry.asks.items) }
        ensures kept { IfOk result.asks (λ _. IsOk self.entry.kept) }
        ensures same { result.loan.hasher.ghost_name ≡ T.hasher }
        ensures unhashed { IfOk result.asks
            (λ v. 0 < length v.items → H.hashed result.loan.hasher.now ≡ T.before) }
        ensures all { IfOk result.asks (λ v. length v.items ≡ 0
            → H.hashed result.loan.hasher.now ≡ T.before + self.entry.hashed) }
        ensures few { H.hashed result.loan.hasher.now ≤ T.before + self.entry.hashed }
    {
        let TableChecks {
            asks,
            kept,
            hasher,
            ..
        } = self;
        Lacking {
            asks: kept_asks(asks, kept),
            loan: Loan { hasher },
        }
    }
}

/// What was kept, if all was.
fn kept_asks(asks: Vec<Ask>, kept: Result<(), AllocError>) -> Result<Vec<Ask>, AllocError>
    ensures asks { IfOk result (λ v. v.items ≡ asks.items) }
    ensures kept { IfOk result (λ _. IsOk kept) }
{
    kept?;
    Ok(asks)
}

/// The signatures that a table lacks, if there was memory to keep all, and what was lent.
#[derive(Drop)]
pub(crate) struct Lacking<'h, H: NameHasher> {
    /// The signatures that are to be checked.
    pub(crate) asks: Result<Vec<Ask>, AllocError>,
    pub(crate) loan: Loan<'h, H>,
}

impl<'t, 's, 'h, T: GhostTable, L: Ledger, M: Ledger, H: NameHasher> Checks
    for TableChecks<'t, 's, 'h, T, L, M, H> {
    ghost use Rattle.answer_judge_table.specs.Asking.{AgreesAsking, PassesEach};
    ghost use Rattle.answer_judge_table.specs.Table.{answers_with, may_pass_in};

    ghost answers = { λ _. answers_with (may_pass_in T.table) };

    ghost agrees = { λ c test. AgreesAsking T.table c.asks.items c.kept test };

    ghost asked_only = { λ c test. PassesEach c.asks.items test };

    ghost verified = { λ c. c.verified };

    ghost hashed = { λ c. c.hashed };

    fn verify(&mut self, key: &Dnskey<&[u8]>, octets: &[u8], signature: &[u8]) -> bool {
        self.verified.tick();
        if let Some(passes) = entry_of(self.table, key, octets, signature) {
            return passes;
        }
        if self.has_hashed {
            // No judge comes to this: all signatures are looked up before a name is hashed.
            self.kept = Err(AllocError);
            return true;
        }
        match note(self.alloc, &mut self.asks, key, octets, signature) {
            Ok(()) => true,
            Err(error) => {
                self.kept = Err(error);
                true
            }
        }
    }

    fn digest(
        &self,
        alloc: Global,
        algorithm: DigestAlgorithm,
        octets: &[u8],
    ) -> Result<Vec<u8>, SchemeError> {
        digest(alloc, algorithm, octets)
    }

    fn hash(
        &mut self,
        alloc: Global,
        name: &[u8],
        algorithm: u8,
        iterations: u16,
        salt: &[u8],
    ) -> Result<Vec<u8>, HashError> {
        self.hashed.tick();
        if !self.asks.is_empty() {
            return Err(HashError::Memory);
        }
        self.has_hashed = true;
        self.hasher.hash(alloc, name, algorithm, iterations, salt)
    }
}
