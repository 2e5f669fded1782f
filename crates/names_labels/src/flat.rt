ghost use Rattle.std.specs.Prelude.{◌≡◌, ◌↔◌, ℕ, List, length, [], take, drop, true, IsTrue};
ghost use Rattle.std.specs.Prelude.{MatchOption, option_map, slice_get};
ghost use Rattle.names_wire.specs.Name.{same};
ghost use Rattle.names_labels.specs.Flat.{labels_in, spelled, IsRun, SplitsLabel, SplitsLast};
ghost use Rattle.names_labels.specs.Flat.{SplitsRun, StartsLabel};
ghost use Rattle.names_wire.specs.Label.{octets_of};

use names_wire::label::Label;

/// The first label of labels in a row, and the row behind it.
pub fn split_label(run: &[u8]) -> Option<(Label<'_>, &[u8])>
    requires { IsRun run.now }
    ensures { MatchOption result (labels_in run.now ≡ [])
        (λ p. SplitsLabel run.now (octets_of p.0) p.1.now) }
{
    let (&len, rest) = run.split_first()?;
    let (octets, behind) = rest.split_at(usize::from(len));
    Some((Label::from_short(octets), behind))
}

/// The last label of labels in a row, and the row in front of it.
pub(crate) fn split_last_label(run: &[u8]) -> Option<(&[u8], Label<'_>)>
    requires { IsRun run.now }
    ensures { MatchOption result (labels_in run.now ≡ [])
        (λ p. SplitsLast run.now p.0.now (octets_of p.1)) }
{
    let (mut last, mut rest) = split_label(run)?;
    let mut start = 0;
    while let Some((label, behind)) = split_label(rest) {
        start = run.len() - rest.len();
        last = label;
        rest = behind;
    }
    Some((&run[..start], last))
}

/// Splits a row of labels in two. The second part has the labels at the end that take at most 32
/// octets, or the last label alone; the first part has the labels in front.
pub(crate) fn split_near_end(run: &[u8]) -> (&[u8], &[u8])
    requires { IsRun run.now }
    ensures parts { SplitsRun run.now result.0.now result.1.now }
    ensures some { length result.1.now ≡ 0 → length run.now ≡ 0 }
{
    let mut near = run;
    while near.len() > 32 {
        let Some((_, behind)) = split_label(near) else {
            break;
        };
        if behind.is_empty() {
            break;
        }
        near = behind;
    }
    (&run[..run.len() - near.len()], near)
}

/// How many labels stand in a row.
pub fn label_count(run: &[u8]) -> usize
    requires { IsRun run.now }
    ensures { result ≡ length (labels_in run.now) }
{
    let mut rest = run;
    let mut count = 0;
    while let Some((_, behind)) = split_label(rest) {
        rest = behind;
        count += 1;
    }
    count
}

/// The part of a row behind its first `count` labels. It is empty behind the last label.
pub fn behind(run: &[u8], count: usize) -> &[u8]
    requires { IsRun run.now }
    ensures run { IsRun result.now }
    ensures labels { labels_in result.now ≡ drop count (labels_in run.now) }
{
    let mut rest = run;
    for _ in 0..count {
        let Some((_, behind)) = split_label(rest) else {
            break;
        };
        rest = behind;
    }
    rest
}

/// The label at a place of labels in a row.
pub fn label_at(run: &[u8], index: usize) -> Option<Label<'_>>
    requires { IsRun run.now }
    ensures { option_map octets_of result ≡ slice_get (labels_in run.now) index }
{
    let (label, _) = split_label(behind(run, index))?;
    Some(label)
}

/// The place at which the label of an index begins, counted from the left; the end of the row past
/// the last label.
pub fn place_of(run: &[u8], index: usize) -> usize
    requires { IsRun run.now }
    ensures { result ≡ length (spelled (take index (labels_in run.now))) }
{
    run.len() - behind(run, index).len()
}

/// Whether a label begins at a place, or the last one ends there.
pub fn is_label_start(run: &[u8], place: usize) -> bool
    requires { IsRun run.now }
    ensures { IsTrue result ↔ StartsLabel (labels_in run.now) place }
{
    let mut rest = run;
    while run.len() - rest.len() < place {
        let Some((_, behind)) = split_label(rest) else {
            return false;
        };
        rest = behind;
    }
    run.len() - rest.len() == place
}

/// Whether two rows have the same labels, up to ASCII case. Then their octets are the same up to
/// case too, since no length octet is a letter.
pub fn runs_eq(run: &[u8], other: &[u8]) -> bool
    requires run { IsRun run.now }
    requires other { IsRun other.now }
    ensures { IsTrue result ↔ (same (labels_in run.now) (labels_in other.now) ≡ true) }
{
    run == other || run.eq_ignore_ascii_case(other)
}
