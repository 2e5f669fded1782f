//! What links prove of a name and a type (RFC 4035, 5.4; RFC 4592; RFC 6840, 4.1 and 4.3).
ghost use Rattle.std.specs.Prelude.{◌≡◌, length, IfOk, IfSome};
ghost use Rattle.std.specs.Option.{option_map};
ghost use Rattle.definitions.specs.Name.{same};
ghost use Rattle.definitions.specs.Zone.{star_under};
ghost use Rattle.denial_laws.specs.NsecRules.{first_some, denies, at_owner, below_cut, redirects};
ghost use Rattle.denial_laws.specs.NsecRules.{link_covers, closest, at_star, covered, denied};
ghost use Rattle.denial_laws.specs.NsecRules.{first_below, tells, shown_owner};
ghost use Rattle.answer_judge_rules.specs.Enclosers.{shared, told_of_star, IsUntold};
ghost use Rattle.answer_judge_rules.specs.Rules.{verdict_of};

use crate::asked::Asked;
use crate::facts::NsecLink;
use crate::shared::shared_labels;
use crate::types::{at_name, has_more, has_nxname, is_cut, star_lacks};
use crate::verdict::Verdict;
use messages::names::{Name, ToName, ZoneName, is_above};
use names_labels::traits::Absolute;
use names_rdata::rtype::Rtype;
use std::alloc::{AllocError, Global};

impl<'a> NsecLink<'a> {
    /// Whether the owner stands above a name and has DNAME.
    ///
    /// What is below it is redirected: taken as proof, its record would deny names that exist where
    /// it leads (RFC 6840, 4.1).
    fn redirects(&self, name: &Name<Vec<u8>>) -> bool
        ensures { result ≡ redirects name.now self.now }
    {
        is_above(&self.owner, name) && self.has(Rtype::DNAME)
    }

    /// Whether a name lies strictly between owner and next name; the apex as next name ends the
    /// order.
    ///
    /// The record is silent on its owner and its next name: both exist, and a wider gap would deny
    /// them (RFC 4034, 4.1.1).
    pub(crate) fn covers(&self, apex: &Name<Vec<u8>>, name: &Name<Vec<u8>>) -> bool
        ensures { result ≡ link_covers apex.now self.now name.now }
    {
        self.owner.name_cmp(name).is_lt()
            && (self.next().name_eq(apex) || name.name_cmp(self.next()).is_lt())
            && !self.redirects(name)
    }

    /// Whether the link says that its own name does not exist.
    ///
    /// It holds of each type: taken as one that lacks the type, the name would pass for one that
    /// exists (RFC 9824, 3).
    fn denies(&self, name: &Name<Vec<u8>>) -> Option<Verdict>
        ensures { option_map verdict_of result ≡ denies name.now self.now }
    {
        if self.owner.name_eq(name) && has_nxname(self.types()) {
            Some(Verdict::NoName)
        } else {
            None
        }
    }

    /// Whether the next name is the first of those below the owner, as an empty non-terminal's is
    /// that was made for a question (RFC 9824, 3.2).
    fn leads_first(&self) -> bool
        ensures { result ≡ same self.now.next (first_below self.now.owner) }
    {
        match self.next().split_first() {
            None => false,
            Some((label, parent)) => {
                label.as_slice().eq_ignore_ascii_case([0u8].as_slice())
                    && parent.name_eq(&self.owner)
            },
        }
    }

    /// Whether the link says which types its own name has.
    ///
    /// An owner that was made up has those of the wildcard that stands for it: taken as proof, its
    /// record would deny them (RFC 4470, 3).
    fn tells(&self) -> bool
        ensures { result ≡ tells self.now }
    {
        has_more(self.types()) || self.leads_first()
    }

    /// What the link says of its own name.
    ///
    /// A record at another name says nothing of this one: replayed, it would deny what that name
    /// lacks (RFC 4035, 5.4).
    fn at_owner(&self, asked: &Asked) -> Option<Verdict>
        ensures { let q = asked.now in
            option_map verdict_of result ≡ at_owner q.apex.now q.name.now q.rtype self.now }
    {
        if self.owner.name_eq(asked.name) && self.tells() {
            at_name(self.types(), asked.apex, asked.name, asked.rtype)
        } else {
            None
        }
    }

    /// Whether the owner is a delegation above a name.
    ///
    /// What lies below it is the child zone's: as a covering record this one would deny what is
    /// there (RFC 6840, 4.1).
    fn below_cut(&self, apex: &Name<Vec<u8>>, name: &Name<Vec<u8>>) -> Option<Verdict>
        ensures { option_map verdict_of result ≡ below_cut apex.now name.now self.now }
    {
        if is_cut(self.types(), apex, &self.owner)
            && is_above(&self.owner, name)
            && !self.has(Rtype::DNAME)
        {
            return Some(Verdict::Delegated);
        }
        None
    }

    /// How many labels a name has at its end that the owner shows to exist: the owner may be made
    /// up, and then what is above it exists.
    fn owner_labels<N: Absolute>(&self, name: &N) -> usize
        ensures { result ≡ shared (N.name name.now) (shown_owner self.now) }
    {
        if has_more(self.types()) {
            return shared_labels(name, &self.owner);
        }
        match self.owner.parent() {
            None => 0,
            Some(parent) => shared_labels(name, &parent),
        }
    }

    /// How many labels the closest encloser of a name that the link covers has: an ancestor exists
    /// where the owner shows it, or the next name is at or below it.
    fn encloser_labels(&self, name: &Name<Vec<u8>>) -> Option<usize>
        ensures { result ≡ option_map length (closest self.now name.now) }
    {
        let parent = name.parent()?;
        let labels = self.owner_labels(&parent);
        Some(labels.max(shared_labels(&parent, self.next())))
    }

    /// The closest encloser of a name that the link covers.
    ///
    /// An ancestor further up would let another wildcard than the name's speak for it (RFC 4592,
    /// 3.3.1).
    pub(crate) fn closest<'n>(&self, name: &'n Name<Vec<u8>>) -> Option<Name<&'n [u8]>>
        ensures { result ≡ closest self.now name.now }
    {
        let labels = self.encloser_labels(name)?;
        name.iter_suffixes().nth(name.depth() - labels)
    }

    /// The wildcard under the closest encloser of a name. There is room for it: the encloser is at
    /// least one label shorter than the name.
    fn wildcard(
        &self,
        alloc: Global,
        name: &Name<Vec<u8>>,
    ) -> Result<Option<Name<Vec<u8>>>, AllocError>
        ensures { IfOk result (λ o. o ≡ option_map star_under (closest self.now name.now)) }
    {
        name.keeps();
        match self.closest(name) {
            None => Ok(None),
            Some(encloser) => encloser.wildcard_child(alloc),
        }
    }

    /// What the link says of a wildcard.
    ///
    /// Without a look at the wildcard a name that it stands for would pass for one that does not
    /// exist (RFC 4035, 5.4). A wildcard that was made up would stand for names that do not exist.
    fn at_star(&self, apex: &Name<Vec<u8>>, star: &Name<Vec<u8>>, rtype: Rtype) -> Option<Verdict>
        ensures { option_map verdict_of result ≡ at_star apex.now star.now rtype self.now }
    {
        if self.owner.name_eq(star) {
            return if star_lacks(self.types(), rtype) && has_more(self.types()) {
                Some(Verdict::StarNoType)
            } else {
                None
            };
        }
        if !self.covers(apex, star) {
            return None;
        }
        Some(if is_above(star, self.next()) {
            Verdict::StarNoType
        } else {
            Verdict::NoName
        })
    }

    /// What the links say of the wildcard under the closest encloser of a name.
    fn told_of_wildcard(
        &self,
        alloc: Global,
        asked: &Asked,
        links: &[NsecLink],
    ) -> Result<Option<Verdict>, AllocError>
        ensures { let q = asked.now in IfOk result (λ v. option_map verdict_of v
            ≡ told_of_star q.apex.now q.rtype links.now (closest self.now q.name.now)) }
    {
        match self.wildcard(alloc, asked.name)? {
            None => Ok(None),
            Some(star) => Ok(first_at_star(asked.apex, links, &star, asked.rtype)),
        }
    }

    /// What the link, with the others, says of a name that it covers.
    ///
    /// A next name below the name shows that the name exists: its absence would deny what stands
    /// under it (RFC 4592, 2.2.2).
    ///
    /// `sought` is how many labels an encloser has whose wildcard no link tells of. That wildcard
    /// is not sought again: otherwise each copy of a record would cost a look at all links.
    fn covered(
        &self,
        alloc: Global,
        asked: &Asked,
        links: &[NsecLink],
        sought: &mut Option<usize>,
    ) -> Result<Option<Verdict>, AllocError>
        requires { let q = asked.now in
            IfSome sought.old (IsUntold q.apex.now q.name.now q.rtype links.now) }
        ensures verdict { let q = asked.now in IfOk result (λ v. option_map verdict_of v
            ≡ covered q.apex.now q.name.now q.rtype links.now self.now) }
        ensures sought { let q = asked.now in
            IfSome sought.new (IsUntold q.apex.now q.name.now q.rtype links.now) }
    {
        if !self.covers(asked.apex, asked.name) {
            return Ok(None);
        }
        if is_above(asked.name, self.next()) {
            return Ok(Some(Verdict::NoType));
        }
        let encloser = self.encloser_labels(asked.name);
        let was_sought = encloser == *sought;
        if was_sought {
            return Ok(None);
        }
        let told = self.told_of_wildcard(alloc, asked, links)?;
        if told.is_none() {
            *sought = encloser;
        }
        Ok(told)
    }
}

/// What the first link that tells of a wildcard says.
fn first_at_star(
    apex: &Name<Vec<u8>>,
    links: &[NsecLink],
    star: &Name<Vec<u8>>,
    rtype: Rtype,
) -> Option<Verdict>
    ensures { option_map verdict_of result
        ≡ first_some (at_star apex.now star.now rtype) links.now }
{
    for link in links {
        if let Some(verdict) = link.at_star(apex, star, rtype) {
            return Some(verdict);
        }
    }
    None
}

/// Whether a link says that a name does not exist, which is its own.
fn first_denying(links: &[NsecLink], name: &Name<Vec<u8>>) -> Option<Verdict>
    ensures { option_map verdict_of result ≡ first_some (denies name.now) links.now }
{
    for link in links {
        if let Some(verdict) = link.denies(name) {
            return Some(verdict);
        }
    }
    None
}

/// What the first link that tells of its own name says of it.
fn first_at_owner(asked: &Asked, links: &[NsecLink]) -> Option<Verdict>
    ensures { let q = asked.now in option_map verdict_of result
        ≡ first_some (at_owner q.apex.now q.name.now q.rtype) links.now }
{
    for link in links {
        if let Some(verdict) = link.at_owner(asked) {
            return Some(verdict);
        }
    }
    None
}

/// Whether a link stands at a delegation above a name.
fn first_below_cut(
    apex: &Name<Vec<u8>>,
    links: &[NsecLink],
    name: &Name<Vec<u8>>,
) -> Option<Verdict>
    ensures { option_map verdict_of result ≡ first_some (below_cut apex.now name.now) links.now }
{
    for link in links {
        if let Some(verdict) = link.below_cut(apex, name) {
            return Some(verdict);
        }
    }
    None
}

/// What the first link that covers a name and tells of it says.
///
/// At most two wildcards are sought: a link that covers the name and shares fewer labels with it
/// covers the wildcard under each ancestor with more.
fn first_covered(
    alloc: Global,
    asked: &Asked,
    links: &[NsecLink],
) -> Result<Option<Verdict>, AllocError>
    ensures { let q = asked.now in IfOk result (λ v. option_map verdict_of v
        ≡ first_some (covered q.apex.now q.name.now q.rtype links.now) links.now) }
{
    let mut sought = None;
    for link in links {
        if let Some(verdict) = link.covered(alloc, asked, links, &mut sought)? {
            return Ok(Some(verdict));
        }
    }
    Ok(None)
}

/// What links prove of a name and a type. Each rule is tried on the links in turn, before the next
/// rule is.
pub(crate) fn denied(
    alloc: Global,
    asked: &Asked,
    links: &[NsecLink],
) -> Result<Option<Verdict>, AllocError>
    ensures { let q = asked.now in IfOk result
        (λ v. option_map verdict_of v ≡ denied q.apex.now q.name.now q.rtype links.now) }
{
    if let Some(verdict) = first_denying(links, asked.name) {
        return Ok(Some(verdict));
    }
    if let Some(verdict) = first_at_owner(asked, links) {
        return Ok(Some(verdict));
    }
    if let Some(verdict) = first_below_cut(asked.apex, links, asked.name) {
        return Ok(Some(verdict));
    }
    first_covered(alloc, asked, links)
}
