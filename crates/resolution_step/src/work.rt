//! How much work it is to judge messages.
ghost use Rattle.std.specs.Prelude.{◌≡◌};
ghost use Rattle.messages.specs.Record.{spelled};
ghost use Rattle.answer_judge_facts.specs.Marked.{is_chain_type};
ghost use Rattle.resolution_step.specs.Counted.{saturated};
ghost use Rattle.resolution_step.specs.Work.{message_work, record_work, records_work, work_of};

use answer_findings::Case;
use messages::ViewRecord;
use messages::view::{Records, read_message};
use names_labels::traits::ToLabelIter;
use names_rdata::rtype::Rtype;

/// How much a record counts beside the labels of its owner; the root is one of these.
const RECORD: u64 = 7;

/// How many times as much a record of a chain counts: a judge sorts these, for each judgement.
const CHAIN: u64 = 32;

/// How many octets of a message count as much as a label.
const OCTETS: usize = 32;

/// How much work a case's messages are.
pub(crate) fn work_of(case: &Case) -> u64
    ensures { result ≡ work_of case.now }
{
    message_work(case.dnskey).saturating_add(message_work(case.answer))
}

fn message_work(message: &[u8]) -> u64
    ensures { result ≡ saturated (message_work message.now) }
{
    let octets = (message.len() / OCTETS) as u64;
    match read_message(message) {
        Ok(view) => octets.saturating_add(records_work(view.records())),
        Err(_) => octets,
    }
}

fn records_work(records: Records<'_>) -> u64
    ensures { result ≡ saturated (records_work records.entry) }
{
    let mut records = records;
    let mut work: u64 = 0;
    while let Some(record) = records.next() {
        work = work.saturating_add(record_work(&record));
    }
    work
}

/// A record counts by the labels of its owner, which are compared one by one.
fn record_work(record: &ViewRecord) -> u64
    ensures { result ≡ saturated (record_work (spelled record.now)) }
{
    let labels = record.owner.name().label_count() as u64;
    let work = labels.saturating_add(RECORD);
    if is_chain_type(record.rtype) {
        work.saturating_mul(CHAIN)
    } else {
        work
    }
}

/// Whether records of a type are those of a chain, NSEC or NSEC3.
fn is_chain_type(rtype: Rtype) -> bool
    ensures { result ≡ is_chain_type rtype }
{
    rtype == Rtype::NSEC || rtype == Rtype::NSEC3
}
