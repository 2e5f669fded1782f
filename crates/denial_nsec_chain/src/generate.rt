//! The NSEC records of a zone.

ghost use Rattle.std.specs.Prelude.{◌≡◌, false, IfErr, IfOk, IsSome, map};
ghost use Rattle.definitions.specs.Laws.{IsNsecChain};
ghost use Rattle.plain.specs.ZoneData.{zone_canonical, zone_type};
ghost use Rattle.denial_chain_owners.specs.Conditions.{IsOneClass, IsZoneOrder};
ghost use Rattle.denial_chain_owners.specs.Refused.{IsOwnersFault};
ghost use Rattle.denial_chain_owners.specs.Soa.{soa_ttls};
ghost use Rattle.denial_chain_owners.specs.Ttls.{has_unequal_ttls};
ghost use Rattle.denial_chain_owners.specs.Zones.{zone_of};
ghost use Rattle.denial_nsec_chain.specs.Chain.{nsec_chain, record_of};

use crate::config::GenerateNsecConfig;
use crate::records::nsecs_of;
use denial_chain_owners::error::SigningError;
use denial_chain_owners::owners::chain_owners;
use denial_nsec_data::nsec::Nsec;
use denial_rrsets::walks::RecordsIter;
use names_traits::to_name::ToName;
use names_wire::octets::Octets;
use plain::record::Record;
use plain::zone_data::ZoneRecordData;
use std::alloc::Global;

/// The NSEC records of a zone: one for each owner at or below the apex and not strictly below a
/// delegation, in canonical order, each leading to the next one and the last to the apex (RFC 4034,
/// 4; RFC 4035, 2.3). Their names are borrowed. The zone's records are of one class and in
/// canonical order (`is_one_class`, `is_canonical_order` test this).
pub fn generate_nsecs<'a, Octs: Octets, N: ToName>(
    alloc: Global,
    apex: &'a N,
    records: RecordsIter<'a, N, ZoneRecordData<Octs, N>>,
    config: GenerateNsecConfig,
) -> Result<Vec<Record<&'a N, Nsec<Vec<u8>, &'a N>>>, SigningError>
    requires class { IsOneClass records }
    requires order { IsZoneOrder N.name records }
    ensures chain { let dnskey = config.assume_dnskeys_will_be_added in
        IfOk result (λ v. map (record_of N.name) v.items
        ≡ nsec_chain N.name (N.name apex.now) dnskey records.entry) }
    ensures speaks { let name = N.name in
        IfOk result (λ _. IsNsecChain
        (zone_of name zone_type (zone_canonical name) (name apex.now) records.entry)) }
    ensures soa { IfOk result (λ _. IsSome (soa_ttls N.name (N.name apex.now) records.entry)) }
    ensures ttls { let name = N.name in
        IfOk result (λ _. has_unequal_ttls name zone_type (zone_canonical name) (name apex.now)
        false records.entry ≡ false) }
    ensures refused { IfErr result
        (λ e. IsOwnersFault N.name (N.name apex.now) false records.entry e) }
{
    let chain = chain_owners(alloc, apex, records, false)?;
    let ttl = chain.soa.chain_ttl();
    let nsecs = nsecs_of(alloc, apex, &chain.owners, ttl, config)?;
    Ok(nsecs)
}
