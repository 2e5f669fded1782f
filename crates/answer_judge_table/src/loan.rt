//! What is lent to the checks of a judge.
ghost use Rattle.std.specs.Prelude.{◌≡◌};

use answer_hasher::NameHasher;

/// A hasher that is lent, and handed back behind a judgement.
#[derive(Drop)]
pub(crate) struct Loan<'h, H: NameHasher> {
    pub(crate) hasher: &'h mut H,
}

impl<'h, H: NameHasher> Loan<'h, H> {
    pub(crate) fn new(hasher: &'h mut H) -> Self
        ensures same { result.hasher.ghost_name ≡ hasher.entry.ghost_name }
        ensures now { result.hasher.now ≡ hasher.old }
    {
        Loan { hasher }
    }
}
