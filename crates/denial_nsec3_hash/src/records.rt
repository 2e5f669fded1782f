//! A chain of hashed names as records (RFC 5155, 3 and 4).

ghost use Rattle.std.specs.Prelude.{◌≡◌};

use denial_nsec_data::nsec3::Nsec3;
use denial_nsec_data::nsec3param::Nsec3param;
use names_wire::octets::Octets;
use plain::record::Record;

/// The NSEC3 records of a zone, and its NSEC3PARAM record.
#[derive(Drop)]
pub struct Nsec3Records<N, Octs: Octets> {
    pub nsec3s: Vec<Record<N, Nsec3<Octs>>>,
    pub nsec3param: Record<N, Nsec3param<Octs>>,
}

impl<N, Octs: Octets> Nsec3Records<N, Octs> {
    pub fn new(nsec3s: Vec<Record<N, Nsec3<Octs>>>, nsec3param: Record<N, Nsec3param<Octs>>) -> Self
        ensures chain { result.nsec3s ≡ nsec3s }
        ensures param { result.nsec3param ≡ nsec3param }
    {
        Nsec3Records { nsec3s, nsec3param }
    }
}
