//! How a zone denies names that do not exist.

use denial_nsec_chain::config::GenerateNsecConfig;
use denial_nsec3_hash::config::GenerateNsec3Config;
use names_wire::octets::Octets;

/// How a zone denies names that do not exist.
#[derive(Drop)]
pub enum DenialConfig<Octs: Octets> {
    /// The zone has its chain already.
    AlreadyPresent,
    /// The zone gets a chain of NSEC records (RFC 4034, 4).
    Nsec(GenerateNsecConfig),
    /// The zone gets a chain of NSEC3 records (RFC 5155).
    Nsec3(GenerateNsec3Config<Octs>),
}
