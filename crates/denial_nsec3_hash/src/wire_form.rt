//! Names as they are hashed: in lower-case wire form (RFC 5155, 5).

ghost use Rattle.std.specs.Prelude.{◌≡◌, OnOk, drop};
ghost use Rattle.definitions.specs.Name.{low, wire};
ghost use Rattle.names_labels.specs.Flat.{spelled};

use names_labels::order::Case;
use names_labels::traits::{Absolute, LabelIter};
use names_rdata::composer::{compose_canonical_name, compose_labels};
use names_wire::builder::ShortBuf;

/// Replaces the content of a buffer by a name without its first `skipped` labels, in lower-case
/// wire form. Without any labels left it is the root.
pub fn write_lower_wire<N: Absolute>(
    buffer: &mut Vec<u8>,
    name: &N,
    skipped: usize,
) -> Result<(), ShortBuf>
    ensures { OnOk result (buffer.new.items ≡ wire (low (drop skipped (N.name name.now)))) }
{
    if skipped == 0 {
        return write_whole(buffer, name);
    }
    let most = name.label_count().saturating_sub(1);
    write_labels(buffer, without_first(name.iter_labels(), skipped.min(most)))
}

/// Replaces the content of a buffer by a name in lower-case wire form.
fn write_whole<N: Absolute>(buffer: &mut Vec<u8>, name: &N) -> Result<(), ShortBuf>
    ensures { OnOk result (buffer.new.items ≡ wire (low (N.name name.now))) }
{
    buffer.clear();
    compose_canonical_name(name, buffer)
}

/// Replaces the content of a buffer by labels in lower case, each behind its length.
fn write_labels<N: Absolute>(buffer: &mut Vec<u8>, labels: LabelIter<'_, N>) -> Result<(), ShortBuf>
    ensures { OnOk result (buffer.new.items ≡ spelled (low labels.entry)) }
{
    buffer.clear();
    compose_labels(labels, buffer, Case::Lowered)
}

/// The labels behind the first `count` ones.
pub fn without_first<N: Absolute>(labels: LabelIter<'_, N>, count: usize) -> LabelIter<'_, N>
    ensures { result ≡ drop count labels.entry }
{
    let (mut rest, mut left) = (labels, count);
    while left > 0 {
        let Some(_label) = rest.next() else {
            break;
        };
        left -= 1;
    }
    rest
}
