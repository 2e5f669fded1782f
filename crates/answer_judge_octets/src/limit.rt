//! How many signatures are asked for.
ghost use Rattle.std.specs.Prelude.{◌≡◌, filter, length};
ghost use Rattle.answer_judge_octets.specs.Replying.{are_too_many, is_carried, most_of, stands_in};

use answer_findings::{Case, CheckedSignature};
use memchr::memmem;

/// How many signatures may be checked where a case says no number.
const MOST_SIGNATURES: u32 = 16;

/// Whether so many more signatures are too many, with the entries of a table whose signatures stand
/// in the messages.
///
/// Whoever answers decides how many signatures there are, and each costs its checker work
/// (CVE-2023-50387).
pub(crate) fn are_too_many(most: u32, case: &Case, table: &[CheckedSignature], more: usize) -> bool
    ensures { result ≡ are_too_many most case.now table.now more }
{
    match most_of(most).checked_sub(more) {
        None => true,
        Some(room) => table.len() > room && carried(case, table) > room,
    }
}

fn most_of(number: u32) -> usize
    ensures { result ≡ most_of number }
{
    let most = if number == 0 { MOST_SIGNATURES } else { number };
    most as usize
}

/// How many entries of a table have signatures that stand in the messages of a case.
fn carried(case: &Case, table: &[CheckedSignature]) -> usize
    ensures { let is = is_carried case.now.dnskey_bytes case.now.answer_bytes in
        result ≡ length (filter is table.now) }
{
    let mut count = 0;
    for entry in table {
        if stands_in(case.dnskey, entry.signature) || stands_in(case.answer, entry.signature) {
            count += 1;
        }
    }
    count
}

/// Whether octets stand somewhere in others. The search takes time linear in both, whatever they
/// repeat.
fn stands_in(octets: &[u8], part: &[u8]) -> bool
    ensures { result ≡ stands_in octets.now part.now }
{
    memmem::find(octets, part).is_some()
}
