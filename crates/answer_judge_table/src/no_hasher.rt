//! What hashes no name.
ghost use Rattle.std.specs.Prelude.{◌≡◌, ◌<◌};

use answer_hasher::NameHasher;
use answer_scheme::steps::Steps;
use denial_nsec3_hash::hasher::HashError;
use std::alloc::Global;
use std::sync::ledger::{Blank, Ledger};

/// A hasher for those who are lent none: it hashes no name, as if memory ran out, and counts how
/// often it was to.
#[derive(Drop)]
pub(crate) struct NoHasher<N: Ledger> {
    asked: Steps<N>,
}

impl<N: Ledger> NoHasher<N> {
    pub(crate) fn new(blank: Blank) -> Self
        requires name { blank.name ≡ N.name }
        requires parts { blank.parts ≡ N.parts }
        requires some { 0 < N.parts }
    {
        NoHasher {
            asked: Steps::<N>::new(blank),
        }
    }
}

impl<N: Ledger> NameHasher for NoHasher<N> {
    ghost hashed = { λ h. h.asked };

    fn hash(
        &mut self,
        _alloc: Global,
        _name: &[u8],
        _algorithm: u8,
        _iterations: u16,
        _salt: &[u8],
    ) -> Result<Vec<u8>, HashError> {
        self.asked.tick();
        Err(HashError::Memory)
    }
}
