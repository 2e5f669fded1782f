//! Calls on the keys of a zone, as values.
ghost use Rattle.std.specs.Prelude.{◌≡◌, ◌≤◌, IfErr, IfOk, None, length, string_bytes};
ghost use Rattle.answer_events.specs.Calls.{add_of, call_of};
ghost use Rattle.answer_events.specs.Events.{added_by_call};
ghost use Rattle.answer_publisher_keys.specs.Bindings.{Add, dnskey_for, is_bound_away};
ghost use Rattle.answer_publisher_keys.specs.KeyCalls.{Acts, Changes, RefusesAhead};
ghost use Rattle.answer_publisher.specs.World.{digests};

use crate::fault::KeyFault;
use crate::publishing::Publisher;
use answer_events::event::{AddKey, KeyCall};
use answer_events::key_kind::KeyKind;
use answer_scheme::scheme::Scheme;
use denial_nsec3_hash::hasher::Nsec3Hasher;
use keyset::{Action, UnixTime};
use numbers::algorithm::SecurityAlgorithm;

impl<'a, S: Scheme, H: Nsec3Hasher> Publisher<'a, S, H> {
    /// Makes a call on the keys at a moment: that of its name, with its arguments. Only a call that
    /// is accepted has actions.
    pub fn apply(&mut self, call: &KeyCall, at: &UnixTime) -> Result<Vec<Action>, KeyFault>
        requires { added_by_call call.now ≤ 65531 }
        ensures keys { let digests = digests S.digest_of self.old in
            Acts digests (call_of call.now) at.now self.old.keys self.new.keys result }
        ensures rest { self.new ≡ record self.old { keys = self.new.keys } }
    {
        match call {
            KeyCall::AddKeyKsk(key) => self.add_copy(KeyKind::Ksk, key, at)?,
            KeyCall::AddKeyZsk(key) => self.add_copy(KeyKind::Zsk, key, at)?,
            KeyCall::AddKeyCsk(key) => self.add_copy(KeyKind::Csk, key, at)?,
            KeyCall::AddPublicKey {
                pubref,
                algorithm,
                public_key,
                available,
            } => self.add_public_copy(pubref, *algorithm, public_key, *available, at)?,
            KeyCall::SetDecoupled { pubref, value } => self.set_decoupled(pubref, *value)?,
            KeyCall::SetPresent { pubref, value } => self.set_present(pubref, *value, at)?,
            KeyCall::SetSigner { pubref, value } => self.set_signer(pubref, *value)?,
            KeyCall::SetAtParent { pubref, value } => self.set_at_parent(pubref, *value)?,
            KeyCall::SetVisible { pubref, time } => self.set_visible(pubref, *time)?,
            KeyCall::SetDsVisible { pubref, time } => self.set_ds_visible(pubref, *time)?,
            KeyCall::SetRrsigVisible { pubref, time } => self.set_rrsig_visible(pubref, *time)?,
            KeyCall::SetStale { pubref } => self.set_stale(pubref)?,
            KeyCall::DeleteKey { pubref } => self.delete_key(pubref)?,
            KeyCall::StartRoll { rolltype, old, new } => {
                return self.start_roll(*rolltype, old, new, at);
            }
            KeyCall::Propagation1Complete { rolltype, ttl } => {
                return self.propagation1_complete(*rolltype, *ttl, at);
            }
            KeyCall::CacheExpired1 { rolltype } => return self.cache_expired1(*rolltype, at),
            KeyCall::Propagation2Complete { rolltype, ttl } => {
                return self.propagation2_complete(*rolltype, *ttl, at);
            }
            KeyCall::CacheExpired2 { rolltype } => return self.cache_expired2(*rolltype, at),
            KeyCall::RollDone { rolltype } => return self.roll_done(*rolltype),
        }
        Ok(Vec::new(self.alloc))
    }

    /// Adds a copy of a key.
    fn add_copy(&mut self, kind: KeyKind, key: &AddKey, at: &UnixTime) -> Result<(), KeyFault>
        requires { length key.now.public_key.items ≤ 65531 }
        ensures keys { let digests = digests S.digest_of self.old in
            Changes digests (add_of kind key.now) at.now self.old.keys self.new.keys result }
        ensures rest { self.new ≡ record self.old { keys = self.new.keys } }
    {
        let copy = self.copied_key(kind, key)?;
        self.add_key(kind, copy, *at)
    }

    /// Copies a key that is to be added. Whether its reference is bound to another key is known
    /// before any memory is taken.
    fn copied_key(&self, kind: KeyKind, key: &AddKey) -> Result<AddKey, KeyFault>
        requires { length key.now.public_key.items ≤ 65531 }
        ensures call { IfOk result (λ k. add_of kind k ≡ add_of kind key.now) }
        ensures octets { let octets = key.now.public_key.items in
            IfOk result (λ k. k.public_key.items ≡ octets) }
        ensures err { let bound = self.now.keys.bound in let k = key.now in
            let new = dnskey_for kind k.algorithm k.public_key.items in
            IfErr result (RefusesAhead (is_bound_away bound (string_bytes k.pubref) new)) }
    {
        if self.is_bound_away(&key.pubref, kind, key.algorithm, &key.public_key) {
            return Err(KeyFault::ReferenceBound);
        }
        Ok(AddKey {
            pubref: key.pubref.clone()?,
            privref: key.privref.as_ref().cloned()?,
            algorithm: key.algorithm,
            public_key: key.public_key.to_vec(self.alloc)?,
            available: key.available,
        })
    }

    /// Adds a copy of a key of another owner. Whether its reference is bound to another key is
    /// known before any memory is taken.
    fn add_public_copy(
        &mut self,
        pubref: &str,
        algorithm: SecurityAlgorithm,
        public_key: &[u8],
        available: bool,
        at: &UnixTime,
    ) -> Result<(), KeyFault>
        requires { length public_key.now ≤ 65531 }
        ensures keys { let digests = digests S.digest_of self.old in
            let c = Add KeyKind.Include pubref.now None algorithm public_key.now available in
            Changes digests c at.now self.old.keys self.new.keys result }
        ensures rest { self.new ≡ record self.old { keys = self.new.keys } }
    {
        if self.is_bound_away(pubref, KeyKind::Include, algorithm, public_key) {
            return Err(KeyFault::ReferenceBound);
        }
        let reference = String::from_str(self.alloc, pubref)?;
        let octets = public_key.to_vec(self.alloc)?;
        self.add_public_key(reference, algorithm, octets, *at, available)
    }
}
