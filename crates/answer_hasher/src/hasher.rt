//! What hashes names by SHA-1, and how often it did.
ghost use Rattle.std.specs.Prelude.{◌≡◌, ℕ, ◌+◌, Some, None, IfOk, IsErrOf};
ghost use Rattle.answer_hasher.specs.Iterated.{answered};

use denial_nsec3_hash::hasher::HashError;
use std::alloc::Global;

/// Hashes names by SHA-1. A contract sees how often it did.
///
/// Who judges for a caller is lent one, and has no other way to hash: so each contract on the way
/// says how many names are hashed by how the count rises.
pub trait NameHasher {
    /// How often `hash` was called.
    ghost hashed: { Self → ℕ };

    /// The hash of a name in wire form and lower case, by algorithm 1, SHA-1, with iterations and
    /// salt (RFC 5155, 5). It fails for other algorithms.
    fn hash(
        &mut self,
        alloc: Global,
        name: &[u8],
        algorithm: u8,
        iterations: u16,
        salt: &[u8],
    ) -> Result<Vec<u8>, HashError>
        ensures answer { IfOk result
            (λ h. answered name.now algorithm iterations salt.now ≡ Some h.items) }
        ensures failed { IsErrOf result HashError.Failed
            → answered name.now algorithm iterations salt.now ≡ None }
        ensures counted { hashed self.new ≡ hashed self.old + 1 };
}
