//! Parts of names: views over their octets, cut where labels begin.

ghost use Rattle.std.specs.Prelude.{◌≡◌, ◌≤◌, ◌↔◌, ◌++◌, ◌∷◌, [], length, drop, slice_range};
ghost use Rattle.std.specs.Prelude.{IsTrue, IfSome, IsNone, MatchOption};
ghost use Rattle.definitions.specs.Name.{at_or_above, wire};
ghost use Rattle.names_labels.specs.Compare.{begins_with};
ghost use Rattle.names_wire.specs.Label.{octets_of};
ghost use Rattle.names_labels.specs.Flat.{spelled, StartsLabel, SpellsName, SpellsRelative};

use crate::name::Name;
use crate::relative::RelativeName;
use names_labels::flat;
use names_labels::iter::NameIter;
use names_labels::traits::{Labels, ToLabelIter};
use names_wire::label::Label;
use names_wire::octets::Octets;

impl<Octs: Octets> Name<Octs> {
    /// The labels, the root's last, from both ends.
    pub fn iter(&self) -> NameIter<'_>
        ensures { result ≡ self.now ++ [] ∷ [] }
    {
        NameIter::over(self.run())
    }

    /// Whether the labels begin with those of another name, up to ASCII case.
    pub fn starts_with<N: Labels>(&self, base: &N) -> bool
        ensures { result ≡ begins_with (self.now ++ [] ∷ []) (N.labels base.now) }
    {
        ToLabelIter::starts_with(self, base)
    }

    /// Whether the labels end with those of another name, up to ASCII case.
    pub fn ends_with<N: Labels>(&self, base: &N) -> bool
        ensures { result ≡ at_or_above (N.labels base.now) (self.now ++ [] ∷ []) }
    {
        ToLabelIter::ends_with(self, base)
    }

    /// Whether a label begins at a place of the octets, the root's included.
    pub fn is_label_start(&self, place: usize) -> bool
        ensures { IsTrue result ↔ StartsLabel self.now place }
    {
        flat::is_label_start(self.relative_run(), place)
    }

    /// The labels from one place to another, at each of which a label begins (`is_label_start`).
    pub fn range(&self, begin: usize, end: usize) -> RelativeName<&[u8]>
        requires begins { StartsLabel self.now begin }
        requires ends { StartsLabel self.now end }
        requires ordered { begin ≤ end }
        ensures { SpellsRelative (slice_range (wire self.now) begin end) result }
    {
        let (front, _) = self.as_slice().split_at(end);
        let (_, part) = front.split_at(begin);
        RelativeName::of_octets(part)
    }

    /// The name from a place on, at which a label begins (`is_label_start`).
    pub fn range_from(&self, begin: usize) -> Name<&[u8]>
        requires { StartsLabel self.now begin }
        ensures { SpellsName (drop begin (wire self.now)) result }
    {
        let (_, name) = self.as_slice().split_at(begin);
        Name::of_octets(name)
    }

    /// The name from a place on, at which a label begins (`is_label_start`), as a slice of the
    /// octets.
    pub fn slice_from(&self, begin: usize) -> Name<&[u8]>
        requires { StartsLabel self.now begin }
        ensures { SpellsName (drop begin (wire self.now)) result }
    {
        self.range_from(begin)
    }

    /// The labels in front of a place at which a label begins (`is_label_start`), and the name from
    /// there on.
    pub fn split(&self, mid: usize) -> (RelativeName<&[u8]>, Name<&[u8]>)
        requires { StartsLabel self.now mid }
        ensures parts { result.0 ++ result.1 ≡ self.now }
        ensures place { length (spelled result.0) ≡ mid }
    {
        let (front, back) = self.as_slice().split_at(mid);
        (RelativeName::of_octets(front), Name::of_octets(back))
    }

    /// The first label and the name behind it; `None` for the root.
    pub fn split_first(&self) -> Option<(Label<'_>, Name<&[u8]>)>
        ensures { MatchOption result (self.now ≡ []) (λ p. self.now ≡ octets_of p.0 ∷ p.1) }
    {
        let (label, rest) = flat::split_label(self.run())?;
        if label.is_root() {
            return None;
        }
        Some((label, Name::of_octets(rest)))
    }

    /// The name without its first label; `None` for the root.
    pub fn parent(&self) -> Option<Name<&[u8]>>
        ensures value { IfSome result (λ p. p ≡ drop 1 self.now) }
        ensures root { IsNone result ↔ (self.now ≡ []) }
    {
        let (_, parent) = self.split_first()?;
        Some(parent)
    }
}

impl<Octs: Octets> RelativeName<Octs> {
    /// The labels, from both ends.
    pub fn iter(&self) -> NameIter<'_>
        ensures { result ≡ self.now }
    {
        NameIter::over(self.run())
    }

    /// Whether the labels begin with those of another name, up to ASCII case.
    pub fn starts_with<N: Labels>(&self, base: &N) -> bool
        ensures { result ≡ begins_with self.now (N.labels base.now) }
    {
        ToLabelIter::starts_with(self, base)
    }

    /// Whether the labels end with those of another name, up to ASCII case.
    pub fn ends_with<N: Labels>(&self, base: &N) -> bool
        ensures { result ≡ at_or_above (N.labels base.now) self.now }
    {
        ToLabelIter::ends_with(self, base)
    }

    /// Whether a label begins at a place of the octets, or the last one ends there.
    pub fn is_label_start(&self, place: usize) -> bool
        ensures { IsTrue result ↔ StartsLabel self.now place }
    {
        flat::is_label_start(self.run(), place)
    }

    /// The labels from one place to another, at each of which a label begins or the last one ends
    /// (`is_label_start`).
    pub fn range(&self, begin: usize, end: usize) -> RelativeName<&[u8]>
        requires begins { StartsLabel self.now begin }
        requires ends { StartsLabel self.now end }
        requires ordered { begin ≤ end }
        ensures { SpellsRelative (slice_range (spelled self.now) begin end) result }
    {
        let (front, _) = self.as_slice().split_at(end);
        let (_, part) = front.split_at(begin);
        RelativeName::of_octets(part)
    }

    /// The labels in front of a place and those from there on. A label begins there or the last one
    /// ends (`is_label_start`).
    pub fn split(&self, mid: usize) -> (RelativeName<&[u8]>, RelativeName<&[u8]>)
        requires { StartsLabel self.now mid }
        ensures parts { result.0 ++ result.1 ≡ self.now }
        ensures place { length (spelled result.0) ≡ mid }
    {
        let (front, back) = self.as_slice().split_at(mid);
        (
            RelativeName::of_octets(front),
            RelativeName::of_octets(back),
        )
    }

    /// The first label and the name behind it; `None` for the empty name.
    pub fn split_first(&self) -> Option<(Label<'_>, RelativeName<&[u8]>)>
        ensures { MatchOption result (self.now ≡ []) (λ p. self.now ≡ octets_of p.0 ∷ p.1) }
    {
        let (label, rest) = flat::split_label(self.run())?;
        Some((label, RelativeName::of_octets(rest)))
    }

    /// The name without its first label; `None` for the empty name.
    pub fn parent(&self) -> Option<RelativeName<&[u8]>>
        ensures value { IfSome result (λ p. p ≡ drop 1 self.now) }
        ensures empty { IsNone result ↔ (self.now ≡ []) }
    {
        let (_, behind) = self.split_first()?;
        Some(behind)
    }
}
