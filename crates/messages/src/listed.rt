//! Messages whose records are put in a list as they are read.
ghost use Rattle.std.specs.Prelude.{◌≡◌, ◌∷◌, ◌++◌, [], map, IfOk, IsOk, MatchResult, OnOk};
ghost use Rattle.definitions.specs.Limits.{pointer_limit};
ghost use Rattle.messages.specs.Message.{message, records_at};
ghost use Rattle.messages.specs.Record.{spelled};
ghost use Rattle.messages.specs.View.{Gives, records_read};

use crate::error::MessageError;
use crate::view::{MessageView, ViewRecord, read_head};
use std::alloc::AllocError;

/// Reads a message as [`read_message`](crate::read_message) does, and appends its records to a
/// list, so that nobody need read them again. The message is read to its end even where the list
/// cannot grow; the result says whether it grew.
pub fn read_message_into<'a>(
    bytes: &'a [u8],
    records: &mut Vec<ViewRecord<'a>>,
) -> Result<(MessageView<'a>, Result<(), AllocError>), MessageError>
    ensures exact { Gives (λ r. r.0) result (message pointer_limit bytes.now) }
    ensures listed { IfOk result (λ r. OnOk r.1
        (map spelled records.new.items ≡ map spelled records.old.items ++ r.0.records)) }
{
    let (name, rtype, class, first, count) = read_head(bytes)?;
    let listed = list_records(bytes, first, count, records)?;
    let view = MessageView::new(bytes, name, rtype, class, first, count);
    Ok((view, listed))
}

/// Reads records as `read_records` does, and appends them to a list while it can grow.
///
/// A record takes at least eleven octets, so the counts in a header make the list grow no further
/// than the message may need.
fn list_records<'a>(
    bytes: &'a [u8],
    first: usize,
    count: usize,
    records: &mut Vec<ViewRecord<'a>>,
) -> Result<Result<(), AllocError>, MessageError>
    ensures read { let read = records_at count pointer_limit bytes.now first in
        MatchResult result (λ _. IsOk read) (λ e. read ≡ Err e) }
    ensures listed { let more = records_read count bytes.now first in
        IfOk result (λ listed. OnOk listed
        (map spelled records.new.items ≡ map spelled records.old.items ++ more)) }
{
    let mut at = first;
    let mut listed = records.reserve(count.min(bytes.len() / 11));
    for _ in 0..count {
        let (record, end) = ViewRecord::read(bytes, at)?;
        at = end;
        listed = list_record(records, record, listed);
    }
    Ok(listed)
}

/// Appends a record to a list that held all records before it.
fn list_record<'a>(
    records: &mut Vec<ViewRecord<'a>>,
    view: ViewRecord<'a>,
    listed: Result<(), AllocError>,
) -> Result<(), AllocError>
    ensures before { OnOk result (IsOk listed) }
    ensures listed { OnOk result (map spelled records.new.items
        ≡ map spelled records.old.items ++ spelled view.entry ∷ []) }
{
    listed?;
    records.push(view)?;
    Ok(())
}
