//! Judging by a table.
ghost use Rattle.std.specs.Prelude.{◌≡◌, ◌<◌, ◌≤◌, ◌+◌, IfOk};
ghost use Rattle.answer_judge.specs.Judging.{answer_of, hash_bound, hashes_of};
ghost use Rattle.answer_judge.specs.Decided.{is_out_of_memory};
ghost use Rattle.answer_judge_table.specs.Asking.{AreWanted, is_cut_short};
ghost use Rattle.answer_judge_table.specs.Outcomes.{IsOutcome, hashes_of_outcome};

use crate::checked::CheckedSignature;
use crate::loan::Loan;
use crate::no_hasher::NoHasher;
use crate::outcome::{Ask, Outcome};
use crate::table_checks::{GhostTable, Lacking, TableChecks};
use answer_hasher::NameHasher;
use answer_judge::{Case, Judgement, Refusal, Refused};
use std::alloc::{AllocError, Global};
use std::marker::Brand;
use std::sync::ledger::{Blank, Ledger};

/// Judges by a table of signatures that were checked, as [`Case::judge`] does. Signatures that the
/// table does not have are asked for, all that the judgement comes to where each of them passes:
/// where the table has them too, and they pass, one judgement is made, whichever others pass.
///
/// Names are hashed by the hasher that is lent: as many as the judgement says, and also where
/// memory runs out no more than one beyond the labels of the question's name. While signatures are
/// missing none is hashed: a message's NSEC3 records cost hashes only once their signatures have
/// passed (CVE-2023-50868).
///
/// A caller begins with no entry, checks what is asked for in any order, puts it into its table
/// with what came of it, and calls again. What is said holds whichever other signatures pass.
/// Entries of other judgements do no harm. An error says that memory was refused.
///
/// Whatever signatures pass beside those that pass in the table, of messages in which nothing is
/// forged no verdict is said but that of a version of the zone, and none of an alias: of a zone in
/// order (nothing beside a CNAME, nothing below a DNAME), whoever signs and serves it.
pub fn judge_by_table<H: NameHasher>(
    alloc: Global,
    case: &Case,
    table: &[CheckedSignature],
    hasher: &mut H,
) -> Result<Outcome, AllocError>
    ensures outcome { IfOk result (λ o. IsOutcome table.now case.now o) }
    ensures hashed { IfOk result
        (λ o. H.hashed hasher.new ≡ H.hashed hasher.old + hashes_of_outcome o) }
    ensures bound { H.hashed hasher.new ≤ H.hashed hasher.old + hash_bound case.now }
{
    let (first, second) = (Blank::new(1), Blank::new(1));
    let loan = Loan::new(hasher);
    let mut made = Err(AllocError);
    let _loan = make_by_table::<Brand, Brand, Brand, H>(
        alloc, case, table, loan, first, second, &mut made,
    );
    made
}

/// The signatures that a judgement wants beside a table, as [`judge_by_table`] asks for them; none
/// where the table has all that is due. No name is hashed for it: nothing is lent that could
/// (CVE-2023-50868).
pub fn asks_by_table(
    alloc: Global,
    case: &Case,
    table: &[CheckedSignature],
) -> Result<Vec<Ask>, AllocError>
    ensures { IfOk result (λ v. AreWanted table.now case.now v.items) }
{
    let blank = Blank::new(1);
    wanted_unhashed::<Brand>(alloc, case, table, blank)
}

/// The signatures that a judgement wants which hashes no name.
fn wanted_unhashed<N: Ledger>(
    alloc: Global,
    case: &Case,
    table: &[CheckedSignature],
    blank: Blank,
) -> Result<Vec<Ask>, AllocError>
    requires name { blank.name ≡ N.name }
    requires parts { blank.parts ≡ N.parts }
    requires some { 0 < N.parts }
    ensures { IfOk result (λ v. AreWanted table.now case.now v.items) }
{
    let (first, second) = (Blank::new(1), Blank::new(1));
    let mut none = NoHasher::<N>::new(blank);
    let loan = Loan::new(&mut none);
    let wanted = wanted_by_table::<Brand, Brand, Brand, NoHasher<N>>(
        alloc, case, table, loan, first, second,
    );
    wanted.asks
}

/// Puts what comes of a judgement by a table into the place of what stands there, and hands back
/// what was lent. Its calls are counted from 0 on.
///
/// A hasher is handed back by itself: what owns memory would keep what a caller's proof knows of
/// it.
fn make_by_table<'h, T: GhostTable, L: Ledger, M: Ledger, H: NameHasher>(
    alloc: Global,
    case: &Case,
    table: &[CheckedSignature],
    loan: Loan<'h, H>,
    first: Blank,
    second: Blank,
    made: &mut Result<Outcome, AllocError>,
) -> Loan<'h, H>
    requires table { table.now ≡ T.table }
    requires lent { loan.hasher.ghost_name ≡ T.hasher }
    requires before { H.hashed loan.hasher.now ≡ T.before }
    requires name { first.name ≡ L.name }
    requires parts { first.parts ≡ L.parts }
    requires some { 0 < L.parts }
    requires second_name { second.name ≡ M.name }
    requires second_parts { second.parts ≡ M.parts }
    requires second_some { 0 < M.parts }
    ensures same { result.hasher.ghost_name ≡ loan.entry.hasher.ghost_name }
    ensures outcome { IfOk made.new (λ o. IsOutcome T.table case.now o) }
    ensures hashed { IfOk made.new
        (λ o. H.hashed result.hasher.now ≡ T.before + hashes_of_outcome o) }
    ensures bound { H.hashed result.hasher.now ≤ T.before + hash_bound case.now }
{
    let mut checks = TableChecks::<T, L, M, H>::new(alloc, table, loan, first, second);
    let said = case.judge(alloc, &mut checks);
    let Lacking { asks, loan } = checks.into_lacking();
    match asks {
        Ok(asks) => {
            if asks.is_empty() {
                *made = Ok(Outcome::Judged(said));
                return loan;
            }
            if is_cut_short(&said) {
                *made = Err(AllocError);
                return loan;
            }
            *made = Ok(Outcome::Asks(asks));
            loan
        }
        Err(error) => {
            *made = Err(error);
            loan
        }
    }
}

/// The signatures that a judgement by a table wants, and what was lent. Its calls are counted from
/// 0 on.
fn wanted_by_table<'h, T: GhostTable, L: Ledger, M: Ledger, H: NameHasher>(
    alloc: Global,
    case: &Case,
    table: &[CheckedSignature],
    loan: Loan<'h, H>,
    first: Blank,
    second: Blank,
) -> Lacking<'h, H>
    requires table { table.now ≡ T.table }
    requires lent { loan.hasher.ghost_name ≡ T.hasher }
    requires before { H.hashed loan.hasher.now ≡ T.before }
    requires name { first.name ≡ L.name }
    requires parts { first.parts ≡ L.parts }
    requires some { 0 < L.parts }
    requires second_name { second.name ≡ M.name }
    requires second_parts { second.parts ≡ M.parts }
    requires second_some { 0 < M.parts }
    ensures { IfOk result.asks (λ v. AreWanted T.table case.now v.items) }
{
    let mut checks = TableChecks::<T, L, M, H>::new(alloc, table, loan, first, second);
    let said = case.judge(alloc, &mut checks);
    let Lacking { asks, loan } = checks.into_lacking();
    match asks {
        Ok(asks) => {
            if is_cut_short(&said) {
                let asks = Err(AllocError);
                return Lacking { asks, loan };
            }
            let asks = Ok(asks);
            Lacking { asks, loan }
        }
        Err(error) => Lacking {
            asks: Err(error),
            loan,
        },
    }
}

/// Whether a judgement ended for want of memory before a name was to be hashed: then more
/// signatures may be due than it came to.
fn is_cut_short(said: &Result<Judgement, Refused>) -> bool
    ensures { result ≡ is_cut_short (answer_of said.now) (hashes_of said.now) }
{
    ran_out(said) && hash_calls(said) == 0
}

fn ran_out(said: &Result<Judgement, Refused>) -> bool
    ensures { result ≡ is_out_of_memory (answer_of said.now) }
{
    match said {
        Ok(_) => false,
        Err(refused) => refused.refusal == Refusal::Memory,
    }
}

/// How many names were to be hashed.
fn hash_calls(said: &Result<Judgement, Refused>) -> u32
    ensures { result ≡ hashes_of said.now }
{
    match said {
        Ok(judgement) => judgement.hashes,
        Err(refused) => refused.hashes,
    }
}
