//! Octets of a field of record data, whatever type holds them.

ghost use Rattle.std.specs.Prelude.{◌≡◌};

use names_wire::octets::Octets;
use std::marker::Model;

/// Octets that compare, order and hash by their values, whatever type holds them. A contract sees
/// the octets.
#[derive(Drop)]
pub struct FieldOctets<Octs: Octets> {
    octets: Octs,
}

impl<Octs: Octets> Model for FieldOctets<Octs> {
    ghost use Rattle.std.specs.Prelude.{List, ℕ};

    ghost Value = { List ℕ };

    ghost view = { λ f. Octs.bytes f.octets };
}

impl<Octs: Octets> FieldOctets<Octs> {
    pub fn new(octets: Octs) -> Self
        ensures { result ≡ Octs.bytes octets }
    {
        FieldOctets { octets }
    }

    pub fn as_slice(&self) -> &[u8]
        ensures { result.now ≡ self.now }
    {
        self.octets.as_slice()
    }

    pub fn as_octets(&self) -> &Octs
        ensures { Octs.bytes result.now ≡ self.now }
    {
        &self.octets
    }

    pub fn into_octets(self) -> Octs
        ensures { Octs.bytes result ≡ self }
    {
        self.octets
    }
}
