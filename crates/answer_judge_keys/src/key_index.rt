//! Keys that are found by tag and algorithm.
ghost use Rattle.std.specs.Prelude.{◌≡◌, IfOk};
ghost use Rattle.std.specs.List.{find, list_any};
ghost use Rattle.std.specs.List.Sorted.{IsSortedBy};
ghost use Rattle.std.specs.Option.{IfSome, option_map};
ghost use Rattle.std.specs.Ordering.{is_lt};
ghost use Rattle.messages.specs.Record.{fields_read};
ghost use Rattle.answer_terms.specs.EqualTags.{clashes, has_equal_tags};
ghost use Rattle.answer_judge_keys.specs.KeyOrder.{IsRanking, key_cmp};
ghost use Rattle.answer_judge_keys.specs.Trusted.{fits_key};

use crate::keys::TaggedKey;
use crate::trust::Signature;
use std::alloc::{AllocError, Global};
use std::marker::Model;

/// The largest number of keys, or of RRsets, that are looked through one by one. Among more, one is
/// found by binary search.
pub const LINEAR_SEARCH_LIMIT: usize = 8;

/// Keys, and where they are many the same keys in order of tag and algorithm, by which one is
/// found. A contract sees the keys.
#[derive(Drop)]
pub struct KeyIndex<'a> {
    keys: &'a [TaggedKey<'a>],
    ranked: Option<Vec<TaggedKey<'a>>>,
}

impl<'a> Model for KeyIndex<'a> {
    ghost use Rattle.std.specs.Prelude.{List};
    ghost use Rattle.std.specs.Option.{IfSome};
    ghost use Rattle.definitions.specs.Dnskey.{Dnskey};
    ghost use Rattle.answer_judge_keys.specs.KeyOrder.{IsRanking};

    ghost Value = { List Dnskey };

    ghost view = { λ i. i.keys.now };

    ghost invariant = { λ i. IfSome i.ranked (λ v. IsRanking i.keys.now v.items) };
}

impl<'a> KeyIndex<'a> {
    /// An index of keys.
    pub fn new(alloc: Global, keys: &'a [TaggedKey<'a>]) -> Result<KeyIndex<'a>, AllocError>
        ensures { IfOk result (λ i. i ≡ keys.now) }
    {
        let ranked = ranked_keys(alloc, keys)?;
        Ok(KeyIndex { keys, ranked })
    }

    /// The keys, in the order in which they were read.
    pub fn keys(&self) -> &[TaggedKey<'a>]
        ensures { result.now ≡ self.now }
    {
        self.keys
    }

    /// The first key of a signature's tag and algorithm.
    pub fn key(&self, signature: &Signature) -> Option<&TaggedKey<'a>>
        ensures { let fits = fits_key (fields_read signature.now) in
            option_map (λ k. k.now) result ≡ find fits self.now }
    {
        match &self.ranked {
            None => first_key(self.keys, signature),
            Some(ranked) => searched_key(ranked, signature),
        }
    }

    /// Whether two unlike keys have one tag.
    pub fn has_equal_tags(&self) -> bool
        ensures { result ≡ has_equal_tags self.now }
    {
        match &self.ranked {
            None => are_clashing(self.keys),
            Some(ranked) => has_clashing_neighbors(ranked),
        }
    }
}

/// Keys by tag and algorithm; None where they are few, since these are looked through.
pub(crate) fn ranked_keys<'a>(
    alloc: Global,
    keys: &[TaggedKey<'a>],
) -> Result<Option<Vec<TaggedKey<'a>>>, AllocError>
    ensures { IfOk result (λ o. IfSome o (λ v. IsRanking keys.now v.items)) }
{
    if keys.len() <= LINEAR_SEARCH_LIMIT {
        return Ok(None);
    }
    let mut ranked = copied_keys(alloc, keys)?;
    ranked.sort_by(|a, b| a.key_cmp(b))?;
    Ok(Some(ranked))
}

/// Copies of keys, over the octets of the originals.
fn copied_keys<'a>(alloc: Global, keys: &[TaggedKey<'a>]) -> Result<Vec<TaggedKey<'a>>, AllocError>
    ensures { IfOk result (λ v. v.items ≡ keys.now) }
{
    let mut copies = Vec::with_capacity(alloc, keys.len())?;
    for key in keys {
        copies.push(key.copied())?;
    }
    Ok(copies)
}

/// The first key that a signature names by tag and algorithm, found by looking through all.
fn first_key<'k, 'a>(keys: &'k [TaggedKey<'a>], signature: &Signature) -> Option<&'k TaggedKey<'a>>
    ensures { let fits = fits_key (fields_read signature.now) in
        option_map (λ k. k.now) result ≡ find fits keys.now }
{
    for key in keys {
        if key.fits(signature) {
            return Some(key);
        }
    }
    None
}

/// The key that a signature names, found by binary search among keys in order of tag and algorithm.
fn searched_key<'k, 'a>(
    ranked: &'k [TaggedKey<'a>],
    signature: &Signature,
) -> Option<&'k TaggedKey<'a>>
    requires { IsSortedBy (λ a b. is_lt (key_cmp a b)) ranked.now }
    ensures { let fits = fits_key (fields_read signature.now) in
        option_map (λ k. k.now) result ≡ find fits ranked.now }
{
    let place = ranked.partition_point(|key| key.is_before(signature));
    if place == ranked.len() {
        return None;
    }
    let key = &ranked[place];
    if key.fits(signature) {
        return Some(key);
    }
    None
}

/// Whether two unlike keys side by side have one tag: among keys by tag these are all that do.
fn has_clashing_neighbors(ranked: &[TaggedKey]) -> bool
    requires { IsSortedBy (λ a b. is_lt (key_cmp a b)) ranked.now }
    ensures { result ≡ has_equal_tags ranked.now }
{
    let mut place = 1;
    while place < ranked.len() {
        let before = place - 1;
        if ranked[before].clashes(&ranked[place]) {
            return true;
        }
        place += 1;
    }
    false
}

/// Whether two unlike keys have one tag, each beside each.
fn are_clashing(keys: &[TaggedKey]) -> bool
    ensures { result ≡ has_equal_tags keys.now }
{
    for key in keys {
        if clashes_with_any(key, keys) {
            return true;
        }
    }
    false
}

/// Whether a key clashes with one of a list.
fn clashes_with_any(key: &TaggedKey, keys: &[TaggedKey]) -> bool
    ensures { result ≡ list_any (clashes key.now) keys.now }
{
    for other in keys {
        if key.clashes(other) {
            return true;
        }
    }
    false
}
