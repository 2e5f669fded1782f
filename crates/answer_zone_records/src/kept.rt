//! The owners that opt-out keeps in a chain.
ghost use Rattle.std.specs.Prelude.{map, IfOk};
ghost use Rattle.std.specs.List.{AllByRecursion};
ghost use Rattle.messages.specs.HandedRr.{handed_of};
ghost use Rattle.answer_zone_records.specs.KeptNames.{KeepsNames};
ghost use Rattle.answer_zone_records.specs.OwnedRecords.{IsInternet};

use denial_chain_owners::kept::kept_owners;
use denial_sorted::sorted::SortedRecords;
use messages::names::{Name, copy_name};
use messages::record::ZoneData;
use std::alloc::{AllocError, Global};

/// Names in canonical order, some perhaps alike. A name is at or above one of them exactly where it
/// is at or above an owner that opt-out keeps, which is below no delegation, and no delegation
/// without DS (RFC 5155, 6).
pub fn kept_names(
    alloc: Global,
    apex: &Name<Vec<u8>>,
    records: &SortedRecords<Name<Vec<u8>>, ZoneData>,
) -> Result<Vec<Name<Vec<u8>>>, AllocError>
    requires { AllByRecursion IsInternet records.now }
    ensures { IfOk result (λ v. KeepsNames apex.now (map handed_of records.now) v.items) }
{
    let _in_order = records.as_slice();
    let owners = kept_owners(alloc, apex, records.owner_rrs(), true)?;
    let mut names = Vec::with_capacity(alloc, owners.len())?;
    for owner in &owners {
        names.push(copy_name(alloc, owner.owner())?)?;
    }
    Ok(names)
}
