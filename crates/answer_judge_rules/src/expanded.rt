//! When a wildcard's RRset answers for a name (RFC 4035, 5.3.4; RFC 4592, 3.3.1).
ghost use Rattle.std.specs.Prelude.{◌≡◌, ◌&&◌, not, Some, None, if◌then◌else◌};
ghost use Rattle.std.specs.Option.{option_map};
ghost use Rattle.definitions.specs.Name.{strictly_above};
ghost use Rattle.definitions.specs.Zone.{StarRecords};
ghost use Rattle.denial_laws.specs.NsecRules.{link_covers, closest, encloses_at, expanded};
ghost use Rattle.answer_judge_rules.specs.Rules.{verdict_of};

use crate::facts::{NsecLink, Rrset};
use crate::verdict::Verdict;
use messages::names::{Name, ZoneName, is_above};

impl<'a> NsecLink<'a> {
    /// Whether the link shows that a name does not exist and that its closest encloser has a number
    /// of labels.
    ///
    /// A next name below the name shows that the name exists, and no wildcard speaks for it
    /// (RFC 4592, 2.2.2).
    fn encloses(&self, apex: &Name<Vec<u8>>, name: &Name<Vec<u8>>, labels: u8) -> bool
        ensures { result ≡ (link_covers apex.now self.now name.now
            && not (strictly_above name.now self.now.next)
            && encloses_at labels (closest self.now name.now)) }
    {
        self.covers(apex, name) && !is_above(name, self.next()) && self.is_closest(name, labels)
    }

    /// Whether the closest encloser of a name, which the link shows, has a number of labels.
    ///
    /// The wildcard of an ancestor further up, replayed, would otherwise answer beside a closer one
    /// (RFC 4592, 3.3.1).
    fn is_closest(&self, name: &Name<Vec<u8>>, labels: u8) -> bool
        ensures { result ≡ encloses_at labels (closest self.now name.now) }
    {
        match self.closest(name) {
            None => false,
            Some(encloser) => encloser.depth() == usize::from(labels),
        }
    }
}

/// Whether a wildcard's RRset may speak for a name: some link shows that the name does not exist,
/// and that it is the wildcard of its closest encloser.
fn may_speak(apex: &Name<Vec<u8>>, links: &[NsecLink], rrset: &Rrset, name: &Name<Vec<u8>>) -> bool
    ensures { (if result then Some (StarRecords rrset.now.datas) else None)
        ≡ expanded apex.now name.now rrset.now links.now }
{
    for link in links {
        if link.encloses(apex, name, rrset.labels) {
            return true;
        }
    }
    false
}

/// What a wildcard's RRset proves of a name.
///
/// Without a link beside it, it would answer for a name that exists with its own records (RFC 4035,
/// 5.3.4).
pub(crate) fn expanded(
    apex: &Name<Vec<u8>>,
    links: &[NsecLink],
    rrset: Rrset,
    name: &Name<Vec<u8>>,
) -> Option<Verdict>
    ensures { option_map verdict_of result ≡ expanded apex.now name.now rrset links.now }
{
    if may_speak(apex, links, &rrset, name) {
        Some(Verdict::StarRecords(rrset.items))
    } else {
        None
    }
}
