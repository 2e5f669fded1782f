//! The addresses that a zone has.
ghost use Rattle.std.specs.Prelude.{◌≡◌, ◌++◌, map, IfOk, OnOk};
ghost use Rattle.std.specs.List.{AllByRecursion, filter};
ghost use Rattle.messages.specs.HandedRr.{handed_of};
ghost use Rattle.names_parsed.specs.Parsed.{parsed_name};
ghost use Rattle.answer_zone_records.specs.OwnedRecords.{is_of_type};
ghost use Rattle.server_glue.specs.Glue.{IsAddress, addresses_at, addresses_of, is_address};

use answer_zone_records::copies::copy_records;
use denial_rrsets::groups::OwnerRrs;
use denial_sorted::laws::zone_data_order_is_total;
use denial_sorted::sorted::SortedRecords;
use messages::names::{Name, ParsedName};
use messages::record::{ZoneData, ZoneRecord, keeps};
use names_rdata::rtype::Rtype;
use plain::Class;
use std::alloc::{AllocError, Global};
use std::marker::Model;
use std::slice;

/// The number of the type of AAAA records (RFC 3596, 2.1).
const AAAA: u16 = 28;

/// The A and AAAA records of a zone in canonical order, found by their owners.
#[derive(Drop)]
pub struct Addresses {
    records: SortedRecords<Name<Vec<u8>>, ZoneData>,
}

impl Model for Addresses {
    ghost use Rattle.std.specs.Prelude.{List, map};
    ghost use Rattle.std.specs.List.{AllByRecursion};
    ghost use Rattle.messages.specs.HandedRr.{HandedRr, handed_of};
    ghost use Rattle.server_glue.specs.Glue.{IsAddress};

    ghost Value = { List HandedRr };

    ghost view = { λ a. map handed_of a.records };

    ghost invariant = { λ a. AllByRecursion IsAddress (map handed_of a.records) };
}

impl Addresses {
    /// Those among the records of a zone.
    pub fn of(alloc: Global, records: &[ZoneRecord]) -> Result<Addresses, AllocError>
        ensures { IfOk result (λ a. a ≡ addresses_of (map handed_of records.now)) }
    {
        let addresses = copied_addresses(alloc, records)?;
        zone_data_order_is_total::<Vec<u8>, Name<Vec<u8>>>();
        let records = SortedRecords::from_vec(addresses)?;
        Ok(Addresses { records })
    }

    /// What all of them keep. It does nothing.
    pub(crate) fn keep(&self)
        ensures { AllByRecursion IsAddress self.now }
    {
        let _ = &self.records;
    }

    /// Adds the A records of a name, and then its AAAA records.
    pub(crate) fn push_at<'a>(
        &'a self,
        found: &mut Vec<&'a ZoneRecord>,
        name: &ParsedName<'_>,
    ) -> Result<(), AllocError>
        ensures { let more = addresses_at self.now (parsed_name name.now) in
            OnOk result (map (λ r. handed_of r.now) found.new.items
            ≡ map (λ r. handed_of r.now) found.old.items ++ more) }
    {
        let Some(owned) = self.records.find_owner(Class::IN, name) else {
            return Ok(());
        };
        push_type(found, &owned, Rtype::A)?;
        push_type(found, &owned, Rtype::from_int(AAAA))
    }
}

/// Copies of the addresses among some records.
fn copied_addresses(alloc: Global, records: &[ZoneRecord]) -> Result<Vec<ZoneRecord>, AllocError>
    ensures copies { let addresses = filter is_address (map handed_of records.now) in
        IfOk result (λ v. map handed_of v.items ≡ addresses) }
    ensures each { IfOk result (λ v. AllByRecursion IsAddress (map handed_of v.items)) }
{
    let mut addresses = Vec::new(alloc);
    for record in records {
        if is_address(record) {
            keeps(record);
            addresses.append(&mut copy_records(alloc, slice::from_ref(record))?)?;
        }
    }
    Ok(addresses)
}

/// Whether a record is an address of class IN (RFC 1035, 3.4.1; RFC 3596, 2.1).
fn is_address(record: &ZoneRecord) -> bool
    ensures { result ≡ is_address (handed_of record.now) }
{
    record.class() == Class::IN && matches!(record.rtype().to_int(), 1 | 28)
}

/// Adds the records of an owner and a type.
fn push_type<'a>(
    found: &mut Vec<&'a ZoneRecord>,
    owned: &OwnerRrs<'a, Name<Vec<u8>>, ZoneData>,
    rtype: Rtype,
) -> Result<(), AllocError>
    ensures { let more = filter (is_of_type rtype) (map handed_of owned.now) in
        OnOk result (map (λ r. handed_of r.now) found.new.items
        ≡ map (λ r. handed_of r.now) found.old.items ++ more) }
{
    let mut records = owned.records();
    while let Some(record) = records.next() {
        if record.rtype() == rtype {
            found.push(record)?;
        }
    }
    Ok(())
}
