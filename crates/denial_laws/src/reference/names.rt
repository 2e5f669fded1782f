//! Names, beside what the definitions' own programs give.
ghost use Rattle.std.specs.Prelude.{◌≡◌, IfOk, length};
ghost use Rattle.definitions.specs.Name.{low, strictly_above};
ghost use Rattle.definitions.specs.Signing.{label_count};
ghost use Rattle.definitions.specs.Zone.{star_under};

use definitions::reference::Octets;
use definitions::reference::names::at_or_above;
use std::alloc::{AllocError, Global};

/// Whether a name is at or above what another stands under.
pub(super) fn strictly_above(name: &[Octets], other: &[Octets]) -> bool
    ensures { result ≡ strictly_above name.now other.now }
{
    match other.split_first() {
        None => false,
        Some((_, parent)) => at_or_above(name, parent),
    }
}

/// How many labels, without the root's and a leading asterisk (RFC 4034, 3.1.3).
pub(super) fn label_count(name: &[Octets]) -> usize
    ensures { result ≡ label_count name.now }
{
    match name.split_first() {
        None => 0,
        Some((label, parent)) => {
            if label.as_slice() == b"*".as_slice() {
                parent.len()
            } else {
                parent.len() + 1
            }
        },
    }
}

/// The wildcard name under another (RFC 4592, 2.1.1).
pub(super) fn star_under(alloc: Global, name: &[Octets]) -> Result<Vec<Octets>, AllocError>
    ensures { IfOk result (λ s. s.items ≡ star_under name.now) }
{
    let mut labels = Vec::new(alloc);
    labels.push(Octets::from_slice(alloc, b"*")?)?;
    for label in name {
        labels.push(Octets::from_slice(alloc, label.as_slice())?)?;
    }
    Ok(labels)
}
