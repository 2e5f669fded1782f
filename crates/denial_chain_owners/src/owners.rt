//! The input from which every chain of a zone is made.

ghost use Rattle.std.specs.Prelude.{◌≡◌, false, Some, IfOk, IfErr};
ghost use Rattle.plain.specs.ZoneData.{zone_canonical, zone_type};
ghost use Rattle.denial_chain_owners.specs.Conditions.{IsOneClass, IsZoneOrder};
ghost use Rattle.denial_chain_owners.specs.Kept.{kept_groups};
ghost use Rattle.denial_chain_owners.specs.Refused.{IsOwnersFault};
ghost use Rattle.denial_chain_owners.specs.Soa.{soa_ttls};
ghost use Rattle.denial_chain_owners.specs.Ttls.{has_unequal_ttls};

use crate::error::SigningError;
use crate::kept::kept_owners;
use crate::soa::{SoaTtls, soa_ttls};
use crate::ttls::have_unlike_ttls;
use denial_rrsets::groups::OwnerRrs;
use denial_rrsets::walks::RecordsIter;
use names_rdata::data::RecordData;
use names_traits::to_name::ToName;
use names_wire::octets::Octets;
use plain::zone_data::ZoneRecordData;
use std::alloc::Global;

/// The records of the owners that have records of a chain, in canonical order, and the TTLs of the
/// SOA record.
#[derive(Drop)]
pub struct ChainOwners<'a, N: ToName, D: RecordData> {
    pub owners: Vec<OwnerRrs<'a, N, D>>,
    pub soa: SoaTtls,
}

/// The input of a chain: the owners that are kept, and the TTLs of the one SOA record. It is
/// refused where an RRset of a kept owner has different TTLs.
pub fn chain_owners<'a, Octs: Octets, N: ToName>(
    alloc: Global,
    apex: &N,
    records: RecordsIter<'a, N, ZoneRecordData<Octs, N>>,
    excluding: bool,
) -> Result<ChainOwners<'a, N, ZoneRecordData<Octs, N>>, SigningError>
    requires class { IsOneClass records }
    requires order { IsZoneOrder N.name records }
    ensures owners { let name = N.name in
        IfOk result (λ c. c.owners.items
        ≡ kept_groups name zone_type (zone_canonical name) (name apex.now) excluding
        records.entry) }
    ensures soa { IfOk result
        (λ c. soa_ttls N.name (N.name apex.now) records.entry ≡ Some c.soa) }
    ensures ttls { let name = N.name in
        IfOk result (λ _. has_unequal_ttls name zone_type (zone_canonical name) (name apex.now)
        excluding records.entry ≡ false) }
    ensures refused { IfErr result
        (λ e. IsOwnersFault N.name (N.name apex.now) excluding records.entry e) }
{
    let owners = kept_owners(alloc, apex, records, excluding)?;
    let Some(soa) = soa_ttls(apex, &owners) else {
        return Err(SigningError::NoSingleSoa);
    };
    if have_unlike_ttls(&owners) {
        return Err(SigningError::MultipleTtlValues);
    }
    Ok(ChainOwners { owners, soa })
}
