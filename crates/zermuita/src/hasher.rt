//! What hashes names for a call of the library.
ghost use Rattle.std.specs.Prelude.{◌≡◌, ◌<◌};
ghost use Rattle.zermuita.specs.Counted.{IsReported};

use answer_hasher::NameHasher;
use answer_judge_octets::Report;
use answer_scheme::steps::Steps;
use denial_nsec3_hash::hasher::{HashError, Nsec3Hasher};
use denial_nsec3_sha1::hasher::Sha1Hasher;
use std::alloc::Global;
use std::marker::Model;
use std::sync::ledger::{Blank, Ledger};

/// What hashes names by SHA-1 for one call of the library, and how often it did. Nothing else of
/// the library can hash. It is let go by [`CountedHasher::end`] alone.
pub struct CountedHasher<N: Ledger> {
    made: Steps<N>,
}

impl<N: Ledger> Model for CountedHasher<N> {
    ghost use Rattle.std.specs.Prelude.{ℕ};

    ghost Value = { ℕ };

    ghost view = { λ h. h.made };
}

impl<N: Ledger> CountedHasher<N> {
    /// A hasher that has hashed no name yet.
    pub fn new(blank: Blank) -> Self
        requires name { blank.name ≡ N.name }
        requires parts { blank.parts ≡ N.parts }
        requires some { 0 < N.parts }
        ensures { result ≡ 0 }
    {
        CountedHasher {
            made: Steps::<N>::new(blank),
        }
    }

    /// Lets the hasher go, once a call's report says how many names it hashed.
    pub fn end(self, before: Report, after: &Report, number: u32)
        requires { IsReported before after.now number self }
    {
        let CountedHasher { made: _ } = self;
    }
}

impl<N: Ledger> NameHasher for CountedHasher<N> {
    ghost hashed = { λ h. h };

    fn hash(
        &mut self,
        alloc: Global,
        name: &[u8],
        algorithm: u8,
        iterations: u16,
        salt: &[u8],
    ) -> Result<Vec<u8>, HashError> {
        self.made.tick();
        Sha1Hasher.hash(alloc, name, algorithm, iterations, salt)
    }
}
