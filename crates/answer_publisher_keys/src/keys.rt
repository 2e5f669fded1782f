//! The keys of a zone, each reference bound to one DNSKEY for good.
ghost use Rattle.std.specs.Prelude.{◌≡◌, ◌<◌, ◌≤◌, [], ◌∷◌, ◌++◌, map, length, IfErr, insert};
ghost use Rattle.std.specs.Prelude.{string_bytes, IfOk, OnOk, OnErr, Option, Some, None};
ghost use Rattle.std.specs.Prelude.{option_copied, is_none, List, ℕ, IsTrue, false};
ghost use Rattle.std.specs.List.{AllByRecursion};
ghost use Rattle.std.specs.FinMap.Entries.{put};
ghost use Rattle.definitions.specs.Dnskey as dnskey;
ghost use Rattle.definitions.specs.Dnskey.{dnskey_data};
ghost use Rattle.definitions.specs.Sorting.{put_by, sort_by};
ghost use Rattle.std.specs.Ordering.{nat_cmp};
ghost use Rattle.keyset.specs.KeyState.{Key, add};
ghost use Rattle.answer_events.specs.Calls.{Decoupled, Present, Signer, AtParent, Visible};
ghost use Rattle.answer_events.specs.Calls.{DsVisible, RrsigVisible, Stale};
ghost use Rattle.answer_publisher_keys.specs.Bindings.{ZoneKeys, BoundKey, no_keys, Set, Delete};
ghost use Rattle.answer_publisher_keys.specs.Bindings.{Start, Report1, Wait1, Report2, Wait2};
ghost use Rattle.answer_publisher_keys.specs.Bindings.{Finish, bound_at, dnskey_at, is_bound_away};
ghost use Rattle.answer_publisher_keys.specs.Bindings.{has_role, is_published, keys_by_tag, ds_of};
ghost use Rattle.answer_publisher_keys.specs.Bindings.{ds_set, cds_set, cdnskey_set, dnskey_rdata};
ghost use Rattle.answer_publisher_keys.specs.Bindings as bindings;
ghost use Rattle.answer_publisher_keys.specs.BoundView.{by_text};
ghost use Rattle.keyset.specs.KeyAnswers.{Changes, IsAccepted};
ghost use Rattle.answer_publisher_keys.specs.KeyCalls.{ActsOnKeys, SetsKeys};
ghost use Rattle.answer_publisher_keys.specs.NewKeys.{added_tag, added_to, AddsBound, Foretells};

use crate::fault::KeyFault;
use answer_events::key_kind::KeyKind;
use answer_terms::dnskey::{Dnskey, ZoneKey};
use answer_terms::ranked::{put_data, put_ranked};
use denial_data::Ds;
use keyset::set::KeySet;
use keyset::{Action, Available, Error, KeyType, RollType, UnixTime};
use messages::names::Name;
use numbers::algorithm::{DigestAlgorithm, SecurityAlgorithm};
use std::alloc::{AllocError, Global};
use std::collections::BTreeMap;
use std::convert::AsStr;
use std::marker::Model;

/// The keys of a zone that are asked for.
#[derive(Clone, Copy, Debug, PartialEq, Eq)]
pub enum Publication {
    /// Those that the parent's DS set names.
    AtParent,
    /// Those of the DNSKEY set.
    Present,
    /// Those that sign the DNSKEY set.
    SignsKeys,
    /// Those that sign the zone.
    SignsZone,
    /// Those that sign the one or the other.
    Signs,
}

impl Publication {
    /// Whether a key of these roles is one of them.
    fn is_of(self, keytype: KeyType) -> bool
        ensures { result ≡ has_role self keytype }
    {
        match self {
            Publication::AtParent => match keytype {
                KeyType::Ksk(state) | KeyType::Csk(state, _) => state.at_parent(),
                KeyType::Zsk(_) | KeyType::Include(_) => false,
            },
            Publication::Present => keytype.main_role().present(),
            Publication::SignsKeys => match keytype {
                KeyType::Ksk(state) | KeyType::Csk(state, _) => state.signer(),
                KeyType::Zsk(_) | KeyType::Include(_) => false,
            },
            Publication::SignsZone => match keytype {
                KeyType::Zsk(state) | KeyType::Csk(_, state) => state.signer(),
                KeyType::Ksk(_) | KeyType::Include(_) => false,
            },
            Publication::Signs => match keytype {
                KeyType::Ksk(state) | KeyType::Zsk(state) => state.signer(),
                KeyType::Csk(ksk, zsk) => ksk.signer() || zsk.signer(),
                KeyType::Include(_) => false,
            },
        }
    }
}

/// A key that a reference is bound to, with its digest of type 2, which a DS record's data hold.
#[derive(Debug, Drop)]
pub struct BoundKey {
    key: Dnskey<Vec<u8>>,
    digest: Vec<u8>,
}

impl Model for BoundKey {
    ghost use Rattle.std.specs.Prelude.{◌≤◌, length};
    ghost use Rattle.answer_publisher_keys.specs.Bindings.{BoundKey};

    ghost Value = { BoundKey };

    ghost view = { λ b. record { key = b.key; digest = b.digest.items } };

    ghost invariant = { λ b. length b.digest.items ≤ 65531 };
}

impl BoundKey {
    pub fn new(key: Dnskey<Vec<u8>>, digest: Vec<u8>) -> Self
        requires { length digest.items ≤ 65531 }
        ensures { result ≡ record { key = key; digest = digest.items } }
    {
        BoundKey { key, digest }
    }

    pub fn key(&self) -> &Dnskey<Vec<u8>>
        ensures { result.now ≡ self.now.key }
    {
        &self.key
    }

    /// The DNSKEY record's data of the key.
    fn to_rdata(&self, alloc: Global) -> Result<Vec<u8>, AllocError>
        ensures { IfOk result (λ d. d.items ≡ dnskey_data self.now.key) }
    {
        let mut rdata = Vec::new(alloc);
        self.key.compose(&mut rdata)?;
        Ok(rdata)
    }

    /// The DS record's data of the key.
    fn to_ds(&self, alloc: Global) -> Result<Ds<Vec<u8>>, AllocError>
        ensures { IfOk result (λ d. d ≡ ds_of self.now) }
    {
        let digest = self.digest.as_slice().to_vec(alloc)?;
        Ok(Ds::new_unchecked(
            self.key.key_tag(),
            self.key.algorithm(),
            DigestAlgorithm::SHA256,
            digest,
        ))
    }
}

/// What an add is handed beside the key's octets.
#[derive(Drop)]
pub struct NewKey {
    pub kind: KeyKind,
    pub pubref: String,
    pub privref: Option<String>,
    pub algorithm: SecurityAlgorithm,
    pub created: UnixTime,
    pub available: Available,
}

/// The key set of a zone, and what its references are bound to.
#[derive(Drop)]
pub struct ZoneKeys {
    alloc: Global,
    keys: KeySet,
    bound: BTreeMap<String, BoundKey>,
}

impl Model for ZoneKeys {
    ghost use Rattle.answer_publisher_keys.specs.Bindings.{ZoneKeys};
    ghost use Rattle.answer_publisher_keys.specs.BoundView.{by_text};

    ghost Value = { ZoneKeys };

    ghost view = { λ s. record { keys = s.keys; bound = by_text s.bound.entries } };
}

impl ZoneKeys {
    /// No keys, and nothing bound.
    pub fn new(alloc: Global, name: Name<Vec<u8>>) -> Self
        ensures { result ≡ no_keys name }
    {
        ZoneKeys {
            alloc,
            keys: KeySet::new(alloc, name),
            bound: BTreeMap::new(alloc),
        }
    }

    /// The key set.
    pub fn key_set(&self) -> &KeySet
        ensures { result.now ≡ self.now.keys }
    {
        &self.keys
    }

    /// The key that a reference is bound to.
    pub fn bound(&self, reference: &str) -> Option<&BoundKey>
        ensures { option_copied result ≡ bound_at self.now.bound reference.now }
    {
        self.bound.get(reference)
    }

    /// The DNSKEY that a reference is bound to.
    pub fn dnskey_of(&self, reference: &str) -> Option<&Dnskey<Vec<u8>>>
        ensures { option_copied result ≡ dnskey_at self.now.bound reference.now }
    {
        match self.bound(reference) {
            None => None,
            Some(bound) => Some(bound.key()),
        }
    }

    /// Whether a reference is bound to another key.
    pub fn is_bound_away(&self, reference: &str, key: &Dnskey<&[u8]>) -> bool
        ensures { result ≡ is_bound_away self.now.bound reference.now key.now }
    {
        match self.bound(reference) {
            None => false,
            Some(bound) => bound.key.for_ref() != *key,
        }
    }

    /// Adds a key beside its digest. A refused add changes nothing.
    pub fn add(
        &mut self,
        new: NewKey,
        key: Dnskey<Vec<u8>>,
        digest: Vec<u8>,
    ) -> Result<(), KeyFault>
        requires { length digest.items ≤ 65531 }
        ensures { let bound : bindings.BoundKey = record { key = key; digest = digest.items } in
            AddsBound self.old self.new result new bound }
    {
        let bound = BoundKey { key, digest };
        check_add(&self.keys, new.pubref.as_str(), bound.key.key_tag())?;
        if self.bound(new.pubref.as_str()).is_some() {
            self.add_again(new, bound)
        } else {
            self.add_first(new, bound)
        }
    }

    /// Adds a key whose reference is bound to it already.
    fn add_again(&mut self, new: NewKey, bound: BoundKey) -> Result<(), KeyFault>
        requires bound { bound_at self.old.bound (string_bytes new.pubref) ≡ None → ⊥ }
        requires accepted { IsAccepted (added_to self.old new bound) }
        ensures { AddsBound self.old self.new result new bound }
    {
        let reference = new.pubref.clone()?;
        let tag = bound.key.key_tag();
        match add_key(&mut self.keys, new, tag) {
            Ok(()) => {
                self.bound.insert(reference, bound)?;
                Ok(())
            }
            Err(error) => Err(KeyFault::from(error)),
        }
    }

    /// Adds a key whose reference is not bound yet.
    fn add_first(&mut self, new: NewKey, bound: BoundKey) -> Result<(), KeyFault>
        requires unbound { bound_at self.old.bound (string_bytes new.pubref) ≡ None }
        requires accepted { IsAccepted (added_to self.old new bound) }
        ensures { AddsBound self.old self.new result new bound }
    {
        let reference = new.pubref.clone()?;
        let tag = bound.key.key_tag();
        self.bound.insert(new.pubref.clone()?, bound)?;
        match add_key(&mut self.keys, new, tag) {
            Ok(()) => Ok(()),
            Err(error) => {
                self.bound.remove(reference.as_str());
                Err(KeyFault::from(error))
            }
        }
    }

    /// Sets whether a key is no longer managed by its references.
    pub fn set_decoupled(&mut self, pubref: &str, value: bool) -> Result<(), KeyFault>
        ensures { SetsKeys (Set pubref.now (Decoupled value)) 0 self.old self.new result }
    {
        Ok(self.keys.set_decoupled(pubref, value)?)
    }

    /// Puts a key into the DNSKEY RRset, or takes it out, outside a roll. The first moment at which
    /// it was put in is kept.
    pub fn set_present(&mut self, pubref: &str, value: bool, now: &UnixTime) -> Result<(), KeyFault>
        ensures { SetsKeys (Set pubref.now (Present value)) now.now self.old self.new result }
    {
        Ok(self.keys.set_present(pubref, value, now)?)
    }

    /// Sets whether a key signs, outside a roll: a combined key in both its roles. An included key
    /// never does.
    pub fn set_signer(&mut self, pubref: &str, value: bool) -> Result<(), KeyFault>
        ensures { SetsKeys (Set pubref.now (Signer value)) 0 self.old self.new result }
    {
        Ok(self.keys.set_signer(pubref, value)?)
    }

    /// Sets whether the parent's DS RRset has a key, outside a roll. Zone signing and included keys
    /// are never there.
    pub fn set_at_parent(&mut self, pubref: &str, value: bool) -> Result<(), KeyFault>
        ensures { SetsKeys (Set pubref.now (AtParent value)) 0 self.old self.new result }
    {
        Ok(self.keys.set_at_parent(pubref, value)?)
    }

    /// Sets since when all servers have a key in the DNSKEY RRset.
    pub fn set_visible(&mut self, pubref: &str, time: UnixTime) -> Result<(), KeyFault>
        ensures { SetsKeys (Set pubref.now (Visible time)) 0 self.old self.new result }
    {
        Ok(self.keys.set_visible(pubref, time)?)
    }

    /// Sets since when all servers of the parent have a key's DS record.
    pub fn set_ds_visible(&mut self, pubref: &str, time: UnixTime) -> Result<(), KeyFault>
        ensures { SetsKeys (Set pubref.now (DsVisible time)) 0 self.old self.new result }
    {
        Ok(self.keys.set_ds_visible(pubref, time)?)
    }

    /// Sets since when all servers have a key's signatures.
    pub fn set_rrsig_visible(&mut self, pubref: &str, time: UnixTime) -> Result<(), KeyFault>
        ensures { SetsKeys (Set pubref.now (RrsigVisible time)) 0 self.old self.new result }
    {
        Ok(self.keys.set_rrsig_visible(pubref, time)?)
    }

    /// Takes a key out of use at once, outside a roll, so that it may be deleted.
    pub fn set_stale(&mut self, pubref: &str) -> Result<(), KeyFault>
        ensures { SetsKeys (Set pubref.now Stale) 0 self.old self.new result }
    {
        Ok(self.keys.set_stale(pubref)?)
    }

    /// Deletes a key that is stale in all its roles. Its reference stays bound to it.
    pub fn delete_key(&mut self, pubref: &str) -> Result<(), KeyFault>
        ensures { SetsKeys (Delete pubref.now) 0 self.old self.new result }
    {
        Ok(self.keys.delete_key(pubref)?)
    }

    /// Starts a roll from the old keys to the new ones.
    pub fn start_roll<T: AsStr>(
        &mut self,
        rolltype: RollType,
        old: &[T],
        new: &[T],
        now: &UnixTime,
    ) -> Result<Vec<Action>, KeyFault>
        ensures { let call = Start rolltype (map T.text old.now) (map T.text new.now) in
            ActsOnKeys call now.now self.old self.new result }
    {
        Ok(self.keys.start_roll(rolltype, old, new, now)?)
    }

    /// Reports that a roll's first changes are on all servers; `ttl` is the greatest one of what
    /// they replaced.
    pub fn propagation1_complete(
        &mut self,
        rolltype: RollType,
        ttl: u32,
        now: &UnixTime,
    ) -> Result<Vec<Action>, KeyFault>
        ensures { ActsOnKeys (Report1 rolltype ttl) now.now self.old self.new result }
    {
        Ok(self.keys.propagation1_complete(rolltype, ttl, now)?)
    }

    /// Ends a roll's first wait.
    pub fn cache_expired1(
        &mut self,
        rolltype: RollType,
        now: &UnixTime,
    ) -> Result<Vec<Action>, KeyFault>
        ensures { ActsOnKeys (Wait1 rolltype) now.now self.old self.new result }
    {
        Ok(self.keys.cache_expired1(rolltype, now)?)
    }

    /// Reports that a roll's second changes are on all servers; `ttl` is the greatest one of what
    /// they replaced.
    pub fn propagation2_complete(
        &mut self,
        rolltype: RollType,
        ttl: u32,
        now: &UnixTime,
    ) -> Result<Vec<Action>, KeyFault>
        ensures { ActsOnKeys (Report2 rolltype ttl) now.now self.old self.new result }
    {
        Ok(self.keys.propagation2_complete(rolltype, ttl, now)?)
    }

    /// Ends a roll's second wait.
    pub fn cache_expired2(
        &mut self,
        rolltype: RollType,
        now: &UnixTime,
    ) -> Result<Vec<Action>, KeyFault>
        ensures { ActsOnKeys (Wait2 rolltype) now.now self.old self.new result }
    {
        Ok(self.keys.cache_expired2(rolltype, now)?)
    }

    /// Ends a roll whose last actions are done.
    pub fn roll_done(&mut self, rolltype: RollType) -> Result<Vec<Action>, KeyFault>
        ensures { ActsOnKeys (Finish rolltype) 0 self.old self.new result }
    {
        Ok(self.keys.roll_done(rolltype)?)
    }

    /// Whether a reference has a key of these roles.
    fn is_published(&self, reference: &str, which: Publication) -> bool
        ensures { result ≡ is_published self.now.keys which reference.now }
    {
        match self.keys.key(reference) {
            None => false,
            Some(key) => which.is_of(key.keytype()),
        }
    }

    /// The keys of these roles, in order of tag.
    pub fn keys_by_tag(&self, which: Publication) -> Result<Vec<Dnskey<Vec<u8>>>, AllocError>
        ensures { IfOk result (λ v. v.items ≡ keys_by_tag self.now which) }
    {
        let mut keys = Vec::new(self.alloc);
        for (reference, bound) in &self.bound {
            if self.is_published(reference.as_str(), which) {
                put_ranked(&mut keys, bound.key.try_clone(self.alloc)?)?;
            }
        }
        Ok(keys)
    }

    /// The data of the DNSKEY RRset, in canonical order (RFC 4034, 6.3).
    pub fn dnskey_data(&self) -> Result<Vec<Vec<u8>>, AllocError>
        ensures { IfOk result (λ v. map (λ d. d.items) v.items ≡ dnskey_rdata self.now) }
    {
        let mut rdata = Vec::new(self.alloc);
        for (reference, bound) in &self.bound {
            if self.is_published(reference.as_str(), Publication::Present) {
                put_data(&mut rdata, bound.to_rdata(self.alloc)?)?;
            }
        }
        Ok(rdata)
    }

    /// The DS set of the parent, in order of tag (RFC 4034, 5).
    pub fn ds_set(&self) -> Result<Vec<Ds<Vec<u8>>>, AllocError>
        ensures { IfOk result (λ v. v.items ≡ ds_set self.now) }
    {
        let mut set = Vec::new(self.alloc);
        for (reference, bound) in &self.bound {
            if self.is_published(reference.as_str(), Publication::AtParent) {
                put_ranked(&mut set, bound.to_ds(self.alloc)?)?;
            }
        }
        Ok(set)
    }

    /// The CDS set: the DS set while a roll asks the parent for it, else nothing (RFC 7344, 3).
    pub fn cds_set(&self) -> Result<Vec<Ds<Vec<u8>>>, AllocError>
        ensures { IfOk result (λ v. v.items ≡ cds_set self.now) }
    {
        if self.keys.asks_parent() {
            self.ds_set()
        } else {
            Ok(Vec::new(self.alloc))
        }
    }

    /// The CDNSKEY set: the keys that the CDS set is of, in order of tag.
    pub fn cdnskey_set(&self) -> Result<Vec<Dnskey<Vec<u8>>>, AllocError>
        ensures { IfOk result (λ v. v.items ≡ cdnskey_set self.now) }
    {
        if self.keys.asks_parent() {
            self.keys_by_tag(Publication::AtParent)
        } else {
            Ok(Vec::new(self.alloc))
        }
    }
}

/// Says why the key set would not take a key of this tag under this reference. It takes no memory.
fn check_add(keys: &KeySet, reference: &str, key_tag: u16) -> Result<(), Error>
    ensures { (k : Key) → k.tag ≡ key_tag → Foretells result (add reference.now k keys.now) }
{
    if keys.has_tag(key_tag) {
        return Err(Error::DuplicateKeyTag);
    }
    if keys.key(reference).is_some() {
        return Err(Error::KeyExists);
    }
    Ok(())
}

/// Adds a key of a tag to the key set alone.
fn add_key(keys: &mut KeySet, new: NewKey, tag: u16) -> Result<(), Error>
    ensures { Changes keys.old keys.new result (added_tag keys.old new tag) }
{
    match new.kind {
        KeyKind::Ksk => keys.add_key_ksk(
            new.pubref,
            new.privref,
            new.algorithm,
            tag,
            new.created,
            new.available,
        ),
        KeyKind::Zsk => keys.add_key_zsk(
            new.pubref,
            new.privref,
            new.algorithm,
            tag,
            new.created,
            new.available,
        ),
        KeyKind::Csk => keys.add_key_csk(
            new.pubref,
            new.privref,
            new.algorithm,
            tag,
            new.created,
            new.available,
        ),
        KeyKind::Include => {
            let available = matches!(new.available, Available::Available);
            keys.add_public_key(new.pubref, new.algorithm, tag, new.created, available)
        }
    }
}
