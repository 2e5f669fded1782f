//! The glue of a message.
ghost use Rattle.std.specs.Prelude.{◌≡◌, ◌++◌, map, slice_index, IfOk, OnOk};
ghost use Rattle.std.specs.List.{AllByRecursion, flat_map};
ghost use Rattle.messages.specs.HandedRr.{handed_of};
ghost use Rattle.messages.specs.Message.{pair};
ghost use Rattle.messages.specs.Record.{spelled};
ghost use Rattle.server_glue.specs.Glue.{IsAddress, glue, glue_of, is_authoritative};

use crate::addresses::Addresses;
use messages::listed::read_message_into;
use messages::names::{is_at_or_above, read_name};
use messages::record::ZoneRecord;
use messages::view::ViewRecord;
use names_rdata::rtype::Rtype;
use std::alloc::{AllocError, Global};

impl Addresses {
    /// The glue of the message of an answer: where it refers to a delegation, the addresses of each
    /// name server that it names at or below the delegation, A records before AAAA records, as they
    /// are stored. A message that is authoritative has none, nor has one that does not read.
    #[tactic(auto, using(crate::proofs::Found::all_glue))]
    pub fn glue(&self, alloc: Global, message: &[u8]) -> Result<Vec<&ZoneRecord>, AllocError>
        ensures glue { let glue = glue self.now message.now in
            IfOk result (λ v. map (λ r. handed_of r.now) v.items ≡ glue) }
        ensures each { let glue = glue self.now message.now in
            IfOk result (λ _. AllByRecursion IsAddress glue) }
    {
        self.keep();
        let mut found = Vec::new(alloc);
        if is_authoritative(message) {
            return Ok(found);
        }
        let mut records = Vec::new(alloc);
        let Ok((_view, listed)) = read_message_into(message, &mut records) else {
            return Ok(found);
        };
        listed?;
        self.push_glue(&mut found, message, &records)?;
        Ok(found)
    }

    /// Adds the glue of some records of a message.
    fn push_glue<'a>(
        &'a self,
        found: &mut Vec<&'a ZoneRecord>,
        message: &[u8],
        records: &[ViewRecord<'_>],
    ) -> Result<(), AllocError>
        ensures { let more = flat_map (glue_of self.now message.now) (map spelled records.now) in
            OnOk result (map (λ r. handed_of r.now) found.new.items
            ≡ map (λ r. handed_of r.now) found.old.items ++ more) }
    {
        for record in records {
            self.push_glue_of(found, message, record)?;
        }
        Ok(())
    }

    /// Adds the addresses of the name server that an NS record names, if its name is at or below
    /// the record's owner.
    fn push_glue_of<'a>(
        &'a self,
        found: &mut Vec<&'a ZoneRecord>,
        message: &[u8],
        record: &ViewRecord<'_>,
    ) -> Result<(), AllocError>
        ensures { let more = glue_of self.now message.now (spelled record.now) in
            OnOk result (map (λ r. handed_of r.now) found.new.items
            ≡ map (λ r. handed_of r.now) found.old.items ++ more) }
    {
        if record.rtype != Rtype::NS {
            return Ok(());
        }
        let Ok((server, _end)) = read_name(message, record.start) else {
            return Ok(());
        };
        if is_at_or_above(record.owner.name(), &server) {
            return self.push_at(found, &server);
        }
        Ok(())
    }
}

/// Whether a message is authoritative: AA (RFC 1035, 4.1.1).
fn is_authoritative(message: &[u8]) -> bool
    ensures { result ≡ is_authoritative message.now }
{
    flags_of(message) / 0x0400 % 2 == 1
}

/// The flags of a message, where an octet that is not there counts as 0.
fn flags_of(message: &[u8]) -> u16
    ensures { result ≡ pair message.now 2 }
{
    u16::from(octet_at(message, 2)) * 256 + u16::from(octet_at(message, 3))
}

/// The octet at a place, 0 where it is not there.
fn octet_at(octets: &[u8], at: usize) -> u8
    ensures { result ≡ slice_index octets.now at }
{
    if at < octets.len() { octets[at] } else { 0 }
}
