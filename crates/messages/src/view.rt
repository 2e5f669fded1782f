//! Messages read in place (RFC 1035, 4.1): one question, and the records of all sections in order.
ghost use Rattle.std.specs.Prelude.{◌≡◌, ℕ, ◌+◌, ◌<◌, ◌≤◌, ◌^◌, length, IsOk, MatchResult};
ghost use Rattle.definitions.specs.Limits.{pointer_limit};
ghost use Rattle.std.specs.Iterator.{YieldsFirstBy, item_count};
ghost use Rattle.names_parsed.specs.Parsed.{parsed_name};
ghost use Rattle.messages.specs.Message.{message, record_at, records_at};
ghost use Rattle.messages.specs.View.{Gives, head_at, headed, placed, records_read};

use crate::error::MessageError;
use crate::names::{ParsedName, read_name};
use crate::octets::{record_numbers_at, u16_at};
use crate::owner::Owner;
use crate::question::Question;
use names_rdata::rtype::Rtype;
use plain::{Class, Ttl};
use std::marker::Model;

/// A record of a message. Its data are the `length` octets of the message from `start` on.
#[derive(Drop)]
pub struct ViewRecord<'a> {
    pub owner: Owner<'a>,
    pub rtype: Rtype,
    pub class: Class,
    pub ttl: Ttl,
    pub start: usize,
    pub length: usize,
    ghost fits: { start + length < 2 ^ 64 },
    ghost few: { length ≤ 65535 },
}

impl<'a> ViewRecord<'a> {
    ghost use Rattle.messages.specs.Record.{spelled};

    /// The record at a place and the place behind it.
    pub(crate) fn read(bytes: &'a [u8], at: usize) -> Result<(ViewRecord<'a>, usize), MessageError>
        ensures { let is = record_at pointer_limit bytes.now at in
            Gives (λ r. placed (spelled r.0) r.1) result is }
    {
        let (name, end) = read_name(bytes, at)?;
        let numbers = record_numbers_at(bytes, end)?;
        let (start, length) = (end + 10, usize::from(numbers.length));
        if bytes.len() - start < length {
            return Err(MessageError::ShortInput);
        }
        let record = ViewRecord {
            owner: Owner::new(name),
            rtype: Rtype::from_int(numbers.rtype),
            class: Class::from_int(numbers.class),
            ttl: Ttl::from_secs(numbers.ttl),
            start,
            length,
        };
        Ok((record, start + length))
    }

    /// A copy of the record. Its name and its data stay in the message.
    pub fn copied(&self) -> ViewRecord<'a>
        ensures { spelled result ≡ spelled self.now }
    {
        ViewRecord {
            owner: Owner::new(*self.owner.name()),
            rtype: self.rtype,
            class: self.class,
            ttl: self.ttl,
            start: self.start,
            length: self.length,
        }
    }
}

/// A message that has been read. A contract sees what is asked and the records.
#[derive(Debug, Drop)]
pub struct MessageView<'a> {
    bytes: &'a [u8],
    name: ParsedName<'a>,
    rtype: Rtype,
    class: Class,
    first: usize,
    count: usize,
}

impl<'a> Model for MessageView<'a> {
    ghost use Rattle.std.specs.Prelude.{IsOk};
    ghost use Rattle.definitions.specs.Limits.{pointer_limit};
    ghost use Rattle.names_parsed.specs.Parsed.{parsed_name};
    ghost use Rattle.messages.specs.Message.{Message, records_at};
    ghost use Rattle.messages.specs.View.{records_read};

    ghost Value = { Message };

    ghost view = { λ v. record {
      asked = record { name = parsed_name v.name; rtype = v.rtype; class = v.class };
      records = records_read v.count v.bytes.now v.first;
    } };

    ghost invariant = { λ v. IsOk (records_at v.count pointer_limit v.bytes.now v.first) };
}

impl<'a> MessageView<'a> {
    /// A message that has `count` records from a place on, all of which read.
    pub(crate) fn new(
        bytes: &'a [u8],
        name: ParsedName<'a>,
        rtype: u16,
        class: u16,
        first: usize,
        count: usize,
    ) -> Self
        requires { IsOk (records_at count pointer_limit bytes.now first) }
        ensures name { result.asked.name ≡ parsed_name name.entry }
        ensures rtype { result.asked.rtype ≡ rtype }
        ensures class { result.asked.class ≡ class }
        ensures records { result.records ≡ records_read count bytes.now first }
    {
        MessageView {
            bytes,
            name,
            rtype: Rtype::from_int(rtype),
            class: Class::from_int(class),
            first,
            count,
        }
    }

    /// What is asked.
    pub fn question(&self) -> Question<ParsedName<'a>>
        ensures name { parsed_name result.name ≡ self.now.asked.name }
        ensures rtype { result.rtype ≡ self.now.asked.rtype }
        ensures class { result.class ≡ self.now.asked.class }
    {
        Question {
            name: self.name,
            rtype: self.rtype,
            class: self.class,
        }
    }

    /// How many records all sections have.
    pub fn record_count(&self) -> usize
        ensures { result ≡ length self.now.records }
    {
        self.count
    }

    /// The records of all sections in order.
    pub fn records(&self) -> Records<'a>
        ensures { result ≡ self.now.records }
    {
        Records {
            bytes: self.bytes,
            at: self.first,
            left: self.count,
        }
    }
}

/// The records of a message that are left, in order. A contract sees their list.
#[derive(Debug, Drop)]
pub struct Records<'a> {
    bytes: &'a [u8],
    at: usize,
    left: usize,
}

impl<'a> Model for Records<'a> {
    ghost use Rattle.std.specs.Prelude.{IsOk, List};
    ghost use Rattle.definitions.specs.Limits.{pointer_limit};
    ghost use Rattle.messages.specs.Message.{Spelled, records_at};
    ghost use Rattle.messages.specs.View.{records_read};

    ghost Value = { List Spelled };

    ghost view = { λ r. records_read r.left r.bytes.now r.at };

    ghost invariant = { λ r. IsOk (records_at r.left pointer_limit r.bytes.now r.at) };
}

impl<'a> Iterator for Records<'a> {
    ghost use Rattle.messages.specs.Record.{spelled};

    type Item = ViewRecord<'a>;

    ghost next_gives = { YieldsFirstBy spelled (λ rs. rs) };

    ghost remaining = { item_count (λ rs. rs) };

    fn next(&mut self) -> Option<ViewRecord<'a>> {
        if self.left == 0 {
            return None;
        }
        let (record, end) = ViewRecord::read(self.bytes, self.at).ok()?;
        self.left -= 1;
        self.at = end;
        Some(record)
    }
}

/// Reads a message in place, without taking memory. The header's flags and octets behind the last
/// counted record are ignored.
pub fn read_message(bytes: &[u8]) -> Result<MessageView<'_>, MessageError>
    ensures { Gives (λ v. v) result (message pointer_limit bytes.now) }
{
    let (name, rtype, class, first, count) = read_head(bytes)?;
    read_records(bytes, first, count)?;
    Ok(MessageView::new(bytes, name, rtype, class, first, count))
}

/// Reads what stands before the records: what is asked, the place behind it, and how many records
/// there are.
pub(crate) fn read_head(
    bytes: &[u8],
) -> Result<(ParsedName<'_>, u16, u16, usize, usize), MessageError>
    ensures { Gives (λ h. headed (parsed_name h.0) h.1 h.2 h.3 h.4)
        result (head_at pointer_limit bytes.now) }
{
    let questions = u16_at(bytes, 4)?;
    let answers = u16_at(bytes, 6)?;
    let authority = u16_at(bytes, 8)?;
    let additional = u16_at(bytes, 10)?;
    if questions != 1 {
        return Err(MessageError::NotOneQuestion);
    }
    let (name, end) = read_name(bytes, 12)?;
    let rtype = u16_at(bytes, end)?;
    let class = u16_at(bytes, end + 2)?;
    let count = answers as usize + authority as usize + additional as usize;
    Ok((name, rtype, class, end + 4, count))
}

/// Reads `count` records from a place on.
fn read_records(bytes: &[u8], first: usize, count: usize) -> Result<(), MessageError>
    ensures { let read = records_at count pointer_limit bytes.now first in
        MatchResult result (λ _. IsOk read) (λ e. read ≡ Err e) }
{
    let mut at = first;
    for _ in 0..count {
        let (_, end) = ViewRecord::read(bytes, at)?;
        at = end;
    }
    Ok(())
}
