//! The NSEC3 records of a zone, and its NSEC3PARAM record.

ghost use Rattle.std.specs.Prelude.{◌≡◌, IfErr, IfOk};
ghost use Rattle.definitions.specs.Laws.{IsNsec3Chain};
ghost use Rattle.denial_nsec3_hash.specs.Hashing.{hash_by};
ghost use Rattle.denial_nsec3_chain.specs.Chain.{leaves_out, nsec3_chain, nsec3param_record};
ghost use Rattle.denial_nsec3_chain.specs.Chain.{zone_among};
ghost use Rattle.denial_nsec3_chain.specs.Faults.{HasNoFault, IsNsec3Fault};
ghost use Rattle.denial_chain_owners.specs.Conditions.{IsOneClass, IsZoneOrder};
ghost use Rattle.denial_chain_owners.specs.declared.soa.SoaTtls.{SoaTtls as Ttls};

use crate::links::{Settings, copied_salt, nsec3s_of};
use denial_chain_owners::error::SigningError;
use denial_chain_owners::owners::chain_owners;
use denial_chain_owners::soa::SoaTtls;
use denial_nsec_data::nsec3param::Nsec3param;
use denial_nsec3_hash::config::GenerateNsec3Config;
use denial_nsec3_hash::hasher::Nsec3Hasher;
use denial_nsec3_hash::records::Nsec3Records;
use denial_nsec3_names::hashed::{HashedChainError, hashed_chain};
use denial_rrsets::walks::RecordsIter;
use names_flat::name::Name;
use names_traits::to_name::ToName;
use names_wire::octets::Octets;
use plain::Class;
use plain::record::Record;
use plain::zone_data::ZoneRecordData;
use std::alloc::Global;

/// The NSEC3 records of a zone and its NSEC3PARAM record: one NSEC3 record for each owner at or
/// below the apex and not strictly below a delegation, and for each of its ancestors, in order of
/// hash. Each leads to the next one and the last to the first (RFC 5155, 7.1). Unsigned delegations
/// are left out where the configuration says so. The zone's records are of one class and in
/// canonical order (`is_one_class`, `is_canonical_order` test this).
pub fn generate_nsec3s<'a, Octs: Octets, N: ToName, S: Octets, H: Nsec3Hasher>(
    alloc: Global,
    apex: &N,
    records: RecordsIter<'a, N, ZoneRecordData<Octs, N>>,
    config: &GenerateNsec3Config<S>,
    hasher: &H,
) -> Result<Nsec3Records<Name<Vec<u8>>, Vec<u8>>, SigningError>
    requires class { IsOneClass records }
    requires order { IsZoneOrder N.name records }
    ensures chain { let apex_name = N.name apex.now in
        let answers = H.hash_of hasher.now in
        IfOk result (λ made. (s : Ttls)
        × HasNoFault N.name apex_name answers config.now records.entry s
        × (made.nsec3s.items ≡ nsec3_chain N.name apex_name answers config.now records.entry s)
        × (made.nsec3param ≡ nsec3param_record apex_name config.now s)) }
    ensures speaks { let hash = hash_by (H.hash_of hasher.now) config.now.params in
        let zone = zone_among N.name (N.name apex.now) records.entry in
        IfOk result (λ _. IsNsec3Chain hash zone (leaves_out config.now)) }
    ensures refused { let apex_name = N.name apex.now in
        let answers = H.hash_of hasher.now in
        IfErr result (IsNsec3Fault N.name apex_name answers config.now records.entry) }
{
    let chain = match chain_owners(alloc, apex, records, config.excludes()) {
        Ok(chain) => chain,
        Err(error) => return Err(error),
    };
    let hashed = match hashed_chain(alloc, &chain.owners, &config.params, hasher) {
        Ok(hashed) => hashed,
        Err(HashedChainError::Failed) => return Err(SigningError::HashFailed),
        Err(HashedChainError::Collision) => return Err(SigningError::HashCollision),
        Err(HashedChainError::Memory) => return Err(SigningError::Memory),
    };
    let settings = Settings {
        params: &config.params,
        dnskey: config.assume_dnskeys_will_be_added,
        ttl: chain.soa.chain_ttl(),
    };
    let nsec3s = match nsec3s_of(alloc, apex, &settings, hashed) {
        Ok(nsec3s) => nsec3s,
        Err(error) => return Err(error),
    };
    let nsec3param = nsec3param_of(alloc, apex, config, chain.soa)?;
    Ok(Nsec3Records::new(nsec3s, nsec3param))
}

/// The NSEC3PARAM record, at the apex as it is spelled, with flags of 0 (RFC 5155, 4.1.2).
fn nsec3param_of<N: ToName, S: Octets>(
    alloc: Global,
    apex: &N,
    config: &GenerateNsec3Config<S>,
    soa: SoaTtls,
) -> Result<Record<Name<Vec<u8>>, Nsec3param<Vec<u8>>>, SigningError>
    ensures ok { IfOk result (λ r. r ≡ nsec3param_record (N.name apex.now) config.now soa) }
    ensures refused { IfErr result (λ e. e ≡ SigningError.Memory) }
{
    let name = apex.to_vec(alloc)?;
    let salt = copied_salt(alloc, config.params.salt())?;
    let ttl = config.nsec3param_ttl_mode.ttl(soa.ttl, soa.minimum);
    let (algorithm, iterations) = (config.params.hash_algorithm(), config.params.iterations());
    let content = Nsec3param::new(algorithm, 0, iterations, salt);
    Ok(Record::new(name, Class::IN, ttl, content))
}
