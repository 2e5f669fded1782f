//! Names in rows of octets.

ghost use Rattle.std.specs.Prelude.{◌≡◌};
ghost use Rattle.definitions.specs.Name.{at_or_above, same};
ghost use Rattle.names_labels.specs.Flat.{labels_in, IsRun};

use names_labels::flat::is_label_start;
use names_labels::order::common_tail;
use names_traits::to_name::ToName;

/// Whether the labels of a row end with those of another, up to ASCII case. Octets are compared
/// from their ends, since a few octets there mostly tell different rows apart.
pub(crate) fn row_ends_with(run: &[u8], tail: &[u8]) -> bool
    requires run { IsRun run.now }
    requires tail { IsRun tail.now }
    ensures { result ≡ at_or_above (labels_in tail.now) (labels_in run.now) }
{
    if common_tail(run, tail) != tail.len() {
        return false;
    }
    is_label_start(run, run.len() - tail.len())
}

/// Whether two rows have the same labels, up to ASCII case. Octets are compared from their ends.
fn rows_eq(run: &[u8], other: &[u8]) -> bool
    requires run { IsRun run.now }
    requires other { IsRun other.now }
    ensures { result ≡ same (labels_in run.now) (labels_in other.now) }
{
    if run.len() != other.len() {
        return false;
    }
    common_tail(run, other) == run.len()
}

/// Whether two names are the same, up to ASCII case.
pub(crate) fn names_eq<N: ToName>(name: &N, other: &N) -> bool
    ensures { result ≡ same (N.name name.now) (N.name other.now) }
{
    if let (Some(run), Some(beside)) = (name.label_row(), other.label_row()) {
        return rows_eq(run, beside);
    }
    name.name_eq(other)
}
