//! The keys of a DNSKEY answer, and which of them are trusted (RFC 4035, 5.2).
ghost use Rattle.std.specs.Prelude.{◌≡◌, ◌≤◌, ◌↔◌, Bool, IfOk, IsTrue, Some, filter, length, map};
ghost use Rattle.std.specs.List.{find, list_any};
ghost use Rattle.std.specs.Option.{IfSome, option_map};
ghost use Rattle.definitions.specs.Dnskey.{Dnskey as Key, dnskey_data, key_tag, same_key};
ghost use Rattle.answer_judge_keys.specs.Trusted.{fits_key, is_usable, is_trusted};
ghost use Rattle.answer_terms.specs.EqualTags.{clashes};
ghost use Rattle.answer_judge_keys.specs.DnskeyAnswer.{key_at, keys_in};
ghost use Rattle.messages.specs.Message.{data_of};
ghost use Rattle.messages.specs.Record.{fields_read, spelled};
ghost use Rattle.answer_judge_keys.specs.KeyOrder.{is_before, key_cmp};

use crate::check_run::CheckRun;
use crate::digests::has_matching_ds;
use crate::key_index::ranked_keys;
use crate::trust::Signature;
use answer_scheme::checks::Checks;
use answer_terms::dnskey::{Dnskey, key_of_data};
use denial_data::Ds;
use messages::ViewRecord;
use messages::names::{Name, ToName, ZoneName};
use names_rdata::data::ComposeRecordData;
use names_rdata::rtype::Rtype;
use numbers::algorithm::SecurityAlgorithm;
use numbers::class::Class;
use std::alloc::{AllocError, Global};
use std::cmp::Ordering;
use std::marker::Model;

/// A key with the data that spell it, and its tag, which is summed once. A contract sees the key.
#[derive(Debug, Drop)]
pub struct TaggedKey<'a> {
    dnskey: Dnskey<&'a [u8]>,
    rdata: &'a [u8],
    tag: u16,
}

impl<'a> Model for TaggedKey<'a> {
    ghost use Rattle.std.specs.Prelude.{◌≡◌};
    ghost use Rattle.definitions.specs.Dnskey.{Dnskey, dnskey_data, key_tag};

    ghost Value = { Dnskey };

    ghost view = { λ k. k.dnskey };

    ghost invariant = { λ k. (k.tag ≡ key_tag k.dnskey) × (k.rdata.now ≡ dnskey_data k.dnskey) };
}

impl<'a> TaggedKey<'a> {
    /// A key, its data and its tag.
    pub fn new(dnskey: Dnskey<&'a [u8]>, rdata: &'a [u8]) -> Self
        requires { rdata.now ≡ dnskey_data dnskey }
        ensures { result ≡ dnskey.entry }
    {
        let tag = dnskey.key_tag();
        TaggedKey { dnskey, rdata, tag }
    }

    /// The key.
    pub fn dnskey(&self) -> &Dnskey<&'a [u8]>
        ensures { result.now ≡ self.now }
    {
        &self.dnskey
    }

    /// The octets of its data.
    pub fn data(&self) -> &'a [u8]
        ensures { result.now ≡ dnskey_data self.now }
    {
        self.rdata
    }

    /// The tag.
    pub fn tag(&self) -> u16
        ensures { result ≡ key_tag self.now }
    {
        self.tag
    }

    /// A copy of the key, over the octets of the original.
    pub(crate) fn copied(&self) -> TaggedKey<'a>
        ensures { result ≡ self.now }
    {
        let _len = self.dnskey.rdlen(false);
        TaggedKey {
            dnskey: Dnskey::new_unchecked(
                self.dnskey.flags(),
                self.dnskey.protocol(),
                self.dnskey.algorithm(),
                *self.dnskey.public_key(),
            ),
            rdata: self.rdata,
            tag: self.tag,
        }
    }

    /// Whether the key is a zone's key for DNSSEC (RFC 4034, 2.1.1 and 2.1.2).
    ///
    /// A key that is published for something else would sign records of the zone.
    fn is_usable(&self) -> bool
        ensures { result ≡ is_usable self.now }
    {
        self.dnskey.is_zone_key() && self.dnskey.protocol() == 3
    }

    /// The order of keys: by tag, and then by algorithm.
    pub(crate) fn key_cmp(&self, other: &TaggedKey) -> Ordering
        ensures { result ≡ key_cmp self.now other.now }
    {
        let order = self.tag.cmp(&other.tag);
        if order.is_ne() {
            return order;
        }
        let own = self.dnskey.algorithm().to_int();
        own.cmp(&other.dnskey.algorithm().to_int())
    }

    /// Whether the key stands before those of a signature's tag and algorithm.
    pub(crate) fn is_before(&self, signature: &Signature) -> bool
        ensures { result ≡ is_before (fields_read signature.now) self.now }
    {
        let tag = signature.key_tag();
        let algorithm = signature.algorithm().to_int();
        self.tag < tag || (self.tag == tag && self.dnskey.algorithm().to_int() < algorithm)
    }

    /// Whether the key has a signature's tag and algorithm.
    pub(crate) fn fits(&self, signature: &Signature) -> bool
        ensures { result ≡ fits_key (fields_read signature.now) self.now }
    {
        self.tag == signature.key_tag() && self.dnskey.algorithm() == signature.algorithm()
    }

    /// Whether another key is the same.
    fn is_same(&self, other: &TaggedKey) -> bool
        ensures { result ≡ same_key self.now other.now }
    {
        self.dnskey == other.dnskey
    }

    /// Whether the key is a copy of one, if there is one.
    fn is_copy_of(&self, other: Option<&TaggedKey>) -> bool
        ensures { IsTrue result ↔ (option_map (λ k. k.now) other.entry ≡ Some self.now) }
    {
        match other {
            Some(key) => self.is_same(key),
            None => false,
        }
    }

    /// Whether another key is unlike this one and has its tag.
    pub(crate) fn clashes(&self, other: &TaggedKey) -> bool
        ensures { result ≡ clashes self.now other.now }
    {
        self.tag == other.tag && self.dnskey != other.dnskey
    }
}

/// The keys that a DNSKEY answer's records spell at the apex, in order.
pub fn read_keys<'a>(
    alloc: Global,
    apex: &Name<Vec<u8>>,
    message: &'a [u8],
    records: &[ViewRecord],
) -> Result<Vec<TaggedKey<'a>>, AllocError>
    ensures { IfOk result
        (λ ks. ks.items ≡ keys_in message.now apex.now (map spelled records.now)) }
{
    let mut keys = Vec::new(alloc);
    for record in records {
        if let Some(key) = read_key(apex, message, record) {
            keys.push(key)?;
        }
    }
    Ok(keys)
}

/// The key that a record spells, if it stands at the apex and its data read.
fn read_key<'a>(apex: &Name<Vec<u8>>, message: &'a [u8], view: &ViewRecord) -> Option<TaggedKey<'a>>
    ensures { result ≡ key_at message.now apex.now (spelled view.now) }
{
    if view.rtype != Rtype::DNSKEY || view.class != Class::IN || !view.owner.name().name_eq(apex) {
        return None;
    }
    let data = view.octets(message);
    let dnskey = key_of_data(data)?;
    Some(TaggedKey::new(dnskey, data))
}

/// The keys that may sign what is in the zone.
pub fn usable_keys<'a>(keys: Vec<TaggedKey<'a>>) -> Vec<TaggedKey<'a>>
    ensures { result.items ≡ filter is_usable keys.entry.items }
{
    let mut usable = keys;
    usable.retain(|key| key.is_usable());
    usable
}

/// The keys that may sign the keys: the usable ones that a DS record names.
pub fn trusted_keys<'a, C: Checks>(
    apex: &Name<Vec<u8>>,
    ds: &[Ds<Vec<u8>>],
    keys: &[TaggedKey<'a>],
    check_run: &mut CheckRun<C>,
) -> Result<Vec<TaggedKey<'a>>, AllocError>
    ensures trusted { let a = C.answers check_run.old.checks.now in
        IfOk result (λ ks. ks.items ≡ filter (is_trusted a apex.now ds.now) keys.now) }
    ensures rest { check_run.new ≡ record check_run.old { octets = check_run.new.octets } }
{
    let ranked = ranked_keys(check_run.alloc, keys)?.unwrap_or(Vec::new(check_run.alloc));
    let named = are_named(apex, ds, &ranked, check_run)?;
    let mut trusted = Vec::new(check_run.alloc);
    for key in keys {
        if is_trusted(apex, ds, key, &ranked, &named, check_run)? {
            trusted.push(key.copied())?;
        }
    }
    Ok(trusted)
}

/// Whether a key is trusted, beside keys by tag and algorithm of each of which that is known.
///
/// Where no two unlike keys have one tag, no key that stands among these is digested again.
fn is_trusted<C: Checks>(
    apex: &Name<Vec<u8>>,
    ds: &[Ds<Vec<u8>>],
    key: &TaggedKey,
    ranked: &[TaggedKey],
    named: &[bool],
    check_run: &mut CheckRun<C>,
) -> Result<bool, AllocError>
    requires { let a = C.answers check_run.old.checks.now in
        named.now ≡ map (is_trusted a apex.now ds.now) ranked.now }
    ensures trusted { let a = C.answers check_run.old.checks.now in
        IfOk result (λ b. b ≡ is_trusted a apex.now ds.now key.now) }
    ensures rest { check_run.new ≡ record check_run.old { octets = check_run.new.octets } }
{
    match known_of(key, ranked, named) {
        Some(is_known) => Ok(is_known),
        None => is_named(apex, ds, key, check_run),
    }
}

/// What is known of the first of a key's tag and algorithm among keys by these, where it is a copy
/// of the key.
fn known_of(key: &TaggedKey, ranked: &[TaggedKey], named: &[bool]) -> Option<bool>
    ensures { (test : Key → Bool) → named.now ≡ map test ranked.now
        → IfSome result (λ b. b ≡ test key.now) }
{
    let place = ranked.partition_point(|other| other.key_cmp(key).is_lt());
    let first = ranked.get(place);
    if key.is_copy_of(first) {
        return named.get(place).copied();
    }
    None
}

/// Whether each key is trusted. A copy of the key before it is not digested again.
fn are_named<C: Checks>(
    apex: &Name<Vec<u8>>,
    ds: &[Ds<Vec<u8>>],
    keys: &[TaggedKey],
    check_run: &mut CheckRun<C>,
) -> Result<Vec<bool>, AllocError>
    ensures named { let a = C.answers check_run.old.checks.now in
        IfOk result (λ v. v.items ≡ map (is_trusted a apex.now ds.now) keys.now) }
    ensures rest { check_run.new ≡ record check_run.old { octets = check_run.new.octets } }
{
    let mut all = Vec::with_capacity(check_run.alloc, keys.len())?;
    let mut before = None;
    let mut named = false;
    for key in keys {
        if !key.is_copy_of(before) {
            named = is_named(apex, ds, key, check_run)?;
        }
        all.push(named)?;
        before = Some(key);
    }
    Ok(all)
}

/// Whether a key is usable, and a DS record names it.
fn is_named<C: Checks>(
    apex: &Name<Vec<u8>>,
    ds: &[Ds<Vec<u8>>],
    key: &TaggedKey,
    check_run: &mut CheckRun<C>,
) -> Result<bool, AllocError>
    ensures named { let a = C.answers check_run.old.checks.now in
        IfOk result (λ b. b ≡ is_trusted a apex.now ds.now key.now) }
    ensures rest { check_run.new ≡ record check_run.old { octets = check_run.new.octets } }
{
    Ok(key.is_usable() && has_matching_ds(apex, ds, key, check_run)?)
}
