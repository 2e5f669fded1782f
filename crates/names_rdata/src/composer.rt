//! Targets that messages are written to, and names written there (RFC 1035, 3.1).

ghost use Rattle.std.specs.Prelude.{◌≡◌, ◌++◌, false, length, take, map, OnOk, OnErr};
ghost use Rattle.std.specs.Str.{str_to_ascii_lowercase};
ghost use Rattle.definitions.specs.Name.{low, wire};
ghost use Rattle.names_wire.specs.Label.{octets_of, wire_label};
ghost use Rattle.names_wire.specs.Room.{LeavesRoom};
ghost use Rattle.names_labels.specs.Flat.{spelled};
ghost use Rattle.names_labels.specs.Order.{in_case};

use arrayvec::ArrayVec;
use names_labels::order::Case;
use names_labels::traits::{Absolute, LabelIter, Labels, ToLabelIter};
use names_wire::builder::{OctetsBuilder, ShortBuf};
use names_wire::label::Label;

/// A target that messages are written to. None of them compresses names.
pub trait Composer: OctetsBuilder {
    /// Whether names are compressed.
    fn can_compress(&self) -> bool
        ensures { result ≡ false }
    {
        false
    }

    /// Appends a name in wire form, in full. A refused call leaves the target as it was.
    fn append_compressed_name<N: Absolute>(&mut self, name: &N) -> Result<(), ShortBuf>
        ensures ok { let octets = wire (N.name name.now) in
            OnOk result (Self.bytes self.new ≡ Self.bytes self.old ++ octets) }
        ensures err { OnErr result (Self.bytes self.new ≡ Self.bytes self.old) }
        ensures full { OnErr result (Self.lacks_room self.old (length (wire (N.name name.now)))) }
        ensures left { let n = length (wire (N.name name.now)) in
            OnOk result (LeavesRoom Self.lacks_room self.old self.new n) }
    {
        compose_name(name, self)
    }
}

impl Composer for Vec<u8> {}

impl<const N: usize> Composer for ArrayVec<u8, N> {}

impl<B: Composer> Composer for &mut B {}

/// Appends a name in wire form, in full. A refused call leaves the target as it was.
pub fn compose_name<N: Absolute, B: OctetsBuilder>(name: &N, target: &mut B) -> Result<(), ShortBuf>
    ensures ok { OnOk result (B.bytes target.new ≡ B.bytes target.old ++ wire (N.name name.now)) }
    ensures err { OnErr result (B.bytes target.new ≡ B.bytes target.old) }
    ensures full { OnErr result (B.lacks_room target.old (length (wire (N.name name.now)))) }
    ensures left { let n = length (wire (N.name name.now)) in
        OnOk result (LeavesRoom B.lacks_room target.old target.new n) }
{
    match name.label_row() {
        Some(row) => target.append_slice(row),
        None => compose_labels(name.iter_labels(), target, Case::Kept),
    }
}

/// Appends a name in wire form, in full, with ASCII letters lowered (RFC 4034, 6.2).
pub fn compose_canonical_name<N: Absolute, B: OctetsBuilder>(
    name: &N,
    target: &mut B,
) -> Result<(), ShortBuf>
    ensures ok { let octets = wire (low (N.name name.now)) in
        OnOk result (B.bytes target.new ≡ B.bytes target.old ++ octets) }
    ensures err { OnErr result (B.bytes target.new ≡ B.bytes target.old) }
    ensures full { let n = length (wire (low (N.name name.now))) in
        OnErr result (B.lacks_room target.old n) }
    ensures left { let n = length (wire (low (N.name name.now))) in
        OnOk result (LeavesRoom B.lacks_room target.old target.new n) }
{
    match name.label_row() {
        Some(row) => append_lowered(row, target),
        None => compose_labels(name.iter_labels(), target, Case::Lowered),
    }
}

/// Appends octets with ASCII letters lowered; where that is refused, appends nothing.
fn append_lowered<B: OctetsBuilder>(octets: &[u8], target: &mut B) -> Result<(), ShortBuf>
    ensures ok { let lowered = str_to_ascii_lowercase octets.now in
        OnOk result (B.bytes target.new ≡ B.bytes target.old ++ lowered) }
    ensures err { OnErr result (B.bytes target.new ≡ B.bytes target.old) }
    ensures full { OnErr result (B.lacks_room target.old (length octets.now)) }
    ensures left { let n = length octets.now in
        OnOk result (LeavesRoom B.lacks_room target.old target.new n) }
{
    let len = target.as_slice().len();
    target.append_slice(octets)?;
    target.as_mut_slice()[len..].make_ascii_lowercase();
    Ok(())
}

/// Appends labels in a row, as they are or lowered. A refused call leaves the target as it was.
pub fn compose_labels<N: Absolute, B: OctetsBuilder>(
    labels: LabelIter<'_, N>,
    target: &mut B,
    case: Case,
) -> Result<(), ShortBuf>
    ensures ok { let octets = spelled (map (in_case case) labels.entry) in
        OnOk result (B.bytes target.new ≡ B.bytes target.old ++ octets) }
    ensures err { OnErr result (B.bytes target.new ≡ B.bytes target.old) }
    ensures full { let n = length (spelled (map (in_case case) labels.entry)) in
        OnErr result (B.lacks_room target.old n) }
    ensures left { let n = length (spelled (map (in_case case) labels.entry)) in
        OnOk result (LeavesRoom B.lacks_room target.old target.new n) }
{
    let (len, mut labels) = (target.as_slice().len(), labels);
    while let Some(label) = labels.next() {
        if let Err(error) = compose_label(label, target, case) {
            target.truncate(len);
            return Err(error);
        }
    }
    Ok(())
}

fn compose_label<B: OctetsBuilder>(
    label: Label<'_>,
    target: &mut B,
    case: Case,
) -> Result<(), ShortBuf>
    ensures ok { let octets = wire_label (in_case case (octets_of label.entry)) in
        OnOk result (B.bytes target.new ≡ B.bytes target.old ++ octets) }
    ensures err { OnErr result (B.bytes target.new ≡ B.bytes target.old) }
    ensures full { let n = length (wire_label (in_case case (octets_of label.entry))) in
        OnErr result (B.lacks_room target.old n) }
    ensures left { let n = length (wire_label (in_case case (octets_of label.entry))) in
        OnOk result (LeavesRoom B.lacks_room target.old target.new n) }
{
    match case {
        Case::Kept => label.compose(target),
        Case::Lowered => label.compose_canonical(target),
    }
}

/// Truncates the target to `len` octets where appending was refused.
pub fn or_undone<B: OctetsBuilder>(
    target: &mut B,
    len: usize,
    done: Result<(), ShortBuf>,
) -> Result<(), ShortBuf>
    ensures same { result ≡ done }
    ensures ok { OnOk result (B.bytes target.new ≡ B.bytes target.old) }
    ensures err { OnErr result (B.bytes target.new ≡ take len (B.bytes target.old)) }
    ensures kept { OnOk result (target.new ≡ target.old) }
{
    if done.is_err() {
        target.truncate(len);
    }
    done
}
