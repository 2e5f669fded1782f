//! What signatures are held against, and which of them are due (RFC 4035, 5.3.1).
ghost use Rattle.std.specs.Prelude.{◌≡◌, length};
ghost use Rattle.std.specs.List.{find};
ghost use Rattle.std.specs.Option.{option_map};
ghost use Rattle.definitions.specs.Signing.{in_time};
ghost use Rattle.messages.specs.Record.{fields_read};
ghost use Rattle.answer_judge_keys.specs.Trusted.{fits_key, is_due, labels_fit, may_expand};

use crate::key_index::KeyIndex;
use crate::keys::TaggedKey;
use denial_data::{Rrsig, Timestamp};
use messages::names::{Name, ParsedName, ToName, ZoneName};
use names_rdata::rtype::Rtype;
use std::borrow::CowSlice;

/// The owner of an RRset, borrowed from what has it in a row.
pub type GroupOwner<'a> = Name<CowSlice<'a, u8>>;

/// A signature in a message, its signer in place.
pub type Signature<'a> = Rrsig<&'a [u8], ParsedName<'a>>;

/// What signatures are held against: the apex and how many labels it has, the keys that may sign,
/// and the moment.
#[derive(Drop)]
pub struct Trust<'a, 'k> {
    pub apex: &'a Name<Vec<u8>>,
    pub depth: usize,
    pub keys: &'a KeyIndex<'k>,
    pub moment: u32,
    ghost counted: { depth ≡ length apex.now },
}

impl<'a, 'k> Trust<'a, 'k> {
    /// Whether a signature is the apex's, holds at the moment, and has a label count that fits an
    /// owner (RFC 4035, 5.3.1).
    ///
    /// Another zone's signature would speak for names that are not its own.
    pub fn is_due(&self, signature: &Signature, owner: &GroupOwner) -> bool
        ensures { let f = fields_read signature.now in
            result ≡ is_due self.now.apex.now self.now.moment owner.now f }
    {
        self.fits_labels(signature, owner)
            && in_time(signature, self.moment)
            && signature.signer_name().name_eq(self.apex)
    }

    /// Whether a signature counts the labels of an owner, or fewer: then the RRset is a wildcard's,
    /// expanded to the owner (RFC 4035, 5.3.1 and 5.3.2).
    ///
    /// Records of a chain are never expanded: a wildcard's NSEC record, replayed under another
    /// name, would deny what stands at that name (RFC 4035, 3.1.3.2). No wildcard above the apex is
    /// expanded: it is not the zone's, and the zone's keys would speak for names beside it
    /// (RFC 4035, 5.3.1).
    fn fits_labels(&self, signature: &Signature, owner: &GroupOwner) -> bool
        ensures { result ≡ labels_fit self.now.apex.now owner.now (fields_read signature.now) }
    {
        let (labels, count) = (signature.labels(), owner.rrsig_label_count());
        labels == count
            || (may_expand(signature.type_covered())
                && labels < count
                && self.depth <= usize::from(labels))
    }

    /// The key of a signature's tag and algorithm.
    pub fn key(&self, signature: &Signature) -> Option<&TaggedKey<'k>>
        ensures { let fits = fits_key (fields_read signature.now) in
            option_map (λ k. k.now) result ≡ find fits self.now.keys.now }
    {
        self.keys.key(signature)
    }
}

/// Whether an RRset of a type may be a wildcard's, expanded: records of a chain may not.
fn may_expand(rtype: Rtype) -> bool
    ensures { result ≡ may_expand rtype }
{
    rtype != Rtype::NSEC && rtype != Rtype::NSEC3
}

/// Whether a signature holds at a moment (RFC 4034, 3.1.5).
///
/// An expired signature, replayed, would bring back records that the zone has withdrawn.
fn in_time(signature: &Signature, now: u32) -> bool
    ensures { result ≡ in_time (fields_read signature.now) now }
{
    let now = Timestamp::from(now);
    signature.inception().is_at_or_before(&now) && now.is_at_or_before(&signature.expiration())
}
