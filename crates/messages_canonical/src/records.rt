//! Records of a zone whose data every signer signs alike.
ghost use Rattle.std.specs.Prelude.{◌≡◌, map, IfOk};
ghost use Rattle.std.specs.List.{list_all};
ghost use Rattle.messages.specs.HandedRr.{handed_of};
ghost use Rattle.messages_canonical.specs.InForm.{is_record_in_form};

use crate::standing::is_data_in_form;
use messages::record::ZoneRecord;
use names_rdata::data::ComposeRecordData;
use std::alloc::{AllocError, Global};

/// Whether the data of all records are in form, as [`is_data_in_form`] has it. A publisher's
/// answers of such a zone are judged as they are received, and signatures over its data verify
/// elsewhere too.
pub fn are_records_in_form(alloc: Global, records: &[ZoneRecord]) -> Result<bool, AllocError>
    ensures { let is = list_all is_record_in_form (map handed_of records.now) in
        IfOk result (λ b. b ≡ is) }
{
    for record in records {
        if !is_record_in_form(alloc, record)? {
            return Ok(false);
        }
    }
    Ok(true)
}

/// Whether the data of a record are in form, as [`is_data_in_form`] has it.
pub fn is_record_in_form(alloc: Global, zone_record: &ZoneRecord) -> Result<bool, AllocError>
    ensures { IfOk result (λ b. b ≡ is_record_in_form (handed_of zone_record.now)) }
{
    let mut octets = Vec::new(alloc);
    match zone_record.data().compose_canonical_rdata(&mut octets) {
        Ok(()) => is_data_in_form(alloc, zone_record.rtype(), &octets),
        Err(_) => Err(AllocError),
    }
}
