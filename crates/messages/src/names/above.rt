//! Names that are ancestors of others, however they are stored (RFC 1034, 3.1).
ghost use Rattle.std.specs.Prelude.{◌≡◌};
ghost use Rattle.definitions.specs.Name.{at_or_above, strictly_above};

use names_labels::traits::{Absolute, Labels, ToLabelIter};

/// Whether a name is another or an ancestor of it.
pub fn is_at_or_above<B: Absolute, N: Absolute>(base: &B, name: &N) -> bool
    ensures { result ≡ at_or_above (B.name base.now) (N.name name.now) }
{
    name.ends_with(base)
}

/// Whether a name is an ancestor of another.
pub fn is_above<B: Absolute, N: Absolute>(base: &B, name: &N) -> bool
    ensures { result ≡ strictly_above (B.name base.now) (N.name name.now) }
{
    base.label_count() < name.label_count() && is_at_or_above(base, name)
}
