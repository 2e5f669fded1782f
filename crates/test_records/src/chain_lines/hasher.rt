//! A hasher with faults.

use denial::{HashError, Nsec3Hasher};
use std::alloc::Global;

/// Answers these octets for each name, and fails for the name in lower-case wire form that it is
/// told.
#[derive(Drop)]
pub struct Faulty {
    pub answer: Vec<u8>,
    pub fails_at: Vec<u8>,
}

impl Nsec3Hasher for Faulty {
    ghost use Rattle.std.specs.Prelude.{Some, None, if◌then◌else◌};
    ghost use Rattle.std.specs.Str.{bytes_eq};

    ghost hash_of = { λ h name _ _ _.
        if bytes_eq name h.fails_at.items then None else Some h.answer.items };

    fn hash(
        &self,
        alloc: Global,
        lower_wire_name: &[u8],
        _algorithm: u8,
        _iterations: u16,
        _salt: &[u8],
    ) -> Result<Vec<u8>, HashError> {
        if lower_wire_name == self.fails_at.as_slice() {
            return Err(HashError::Failed);
        }
        match Vec::from_slice(alloc, &self.answer) {
            Ok(hash) => Ok(hash),
            Err(_) => Err(HashError::Memory),
        }
    }
}
