//! Messages that would cost too much work to be judged.
ghost use Rattle.std.specs.Prelude.{◌≡◌};
ghost use Rattle.answer_judge_octets.specs.Crowded.{are_crowded, has_more_labels, has_more_rrsigs};
ghost use Rattle.answer_judge_octets.specs.Crowded.{is_crowded};

use answer_findings::Case;
use messages::view::{Records, read_message};
use names_labels::traits::ToLabelIter;
use names_rdata::rtype::Rtype;

/// How many octets a message may have with whatever records.
const SMALL_MESSAGE: usize = 4096;

/// How many RRSIG records a longer message may have.
const MOST_RRSIGS: usize = 64;

/// How many labels the owners of its records may have in all.
const MOST_LABELS: usize = 32768;

/// Whether a message of over 4,096 octets has more than 64 RRSIG records, or owners of more than
/// 32,768 labels in all, the root counted in each.
///
/// Each signature that is looked up costs its RRset written out: a thousand forged signatures of an
/// RRset of thousands of records would keep a resolver busy for seconds. So would thousands of
/// owners of 127 labels, which take a few octets each by pointers.
pub fn is_crowded(message: &[u8]) -> bool
    ensures { result ≡ is_crowded message.now }
{
    if message.len() <= SMALL_MESSAGE {
        return false;
    }
    match read_message(message) {
        Ok(view) => {
            has_more_rrsigs(MOST_RRSIGS, view.records())
                || has_more_labels(MOST_LABELS, view.records())
        }
        Err(_) => false,
    }
}

/// Whether there are more RRSIG records than so many.
fn has_more_rrsigs(most: usize, records: Records<'_>) -> bool
    ensures { result ≡ has_more_rrsigs most records.entry }
{
    let mut records = records;
    let mut room = most;
    while let Some(record) = records.next() {
        if record.rtype == Rtype::RRSIG {
            match room.checked_sub(1) {
                Some(left) => room = left,
                None => return true,
            }
        }
    }
    false
}

/// Whether the owners of records have more labels than so many.
fn has_more_labels(most: usize, records: Records<'_>) -> bool
    ensures { result ≡ has_more_labels most records.entry }
{
    let mut records = records;
    let mut room = most;
    while let Some(record) = records.next() {
        match room.checked_sub(record.owner.name().label_count()) {
            Some(left) => room = left,
            None => return true,
        }
    }
    false
}

/// Whether one of the messages that a case is judged by is crowded. Beside no DS record none is
/// judged.
pub(crate) fn are_crowded(case: &Case) -> bool
    ensures { result ≡ are_crowded case.now }
{
    !case.ds.is_empty() && (is_crowded(case.dnskey) || is_crowded(case.answer))
}
