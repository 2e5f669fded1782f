//! Plain and slow programs that compute the definitions, for tests to compare with. A name is a
//! slice of its labels, the leftmost first, without the root's.
ghost use Rattle.std.specs.Prelude.{◌≡◌, IfOk};

use std::alloc::{AllocError, Global};
use std::marker::Model;

pub mod bitmap;
pub mod names;
pub mod reading;
pub mod verdict;
pub mod zone;

/// Numbers of types (RFC 1035, 3.2.2; RFC 4034; RFC 5155, 4).
const NS: u16 = 2;

const DS: u16 = 43;

const RRSIG: u16 = 46;

const NSEC: u16 = 47;

const DNSKEY: u16 = 48;

const NSEC3PARAM: u16 = 51;

/// The octets of a label, or of a record's data. A contract sees them as a list.
#[derive(Debug, Drop)]
pub struct Octets {
    octets: Vec<u8>,
}

impl Model for Octets {
    ghost use Rattle.std.specs.Prelude.{List, ℕ};

    ghost Value = { List ℕ };

    ghost view = { λ o. o.octets.items };
}

impl Octets {
    /// A copy of octets.
    pub fn from_slice(alloc: Global, octets: &[u8]) -> Result<Octets, AllocError>
        ensures { IfOk result (λ o. o ≡ octets.now) }
    {
        let octets = Vec::from_slice(alloc, octets)?;
        Ok(Octets { octets })
    }

    /// The octets.
    pub fn as_slice(&self) -> &[u8]
        ensures { result.now ≡ self.now }
    {
        &self.octets
    }
}
