//! The key set.
ghost use Rattle.std.specs.Prelude.{◌≡◌, ◌∷◌, ◌++◌, ℕ, List, Bool, [], Some, string_bytes};
ghost use Rattle.std.specs.Prelude.{option_copied, map, MatchResult, IfOk, IfErr, OnOk, OnErr};
ghost use Rattle.keyset_keys.specs.declared.keys.KeyType.TheVariants.{Ksk, Zsk, Csk, Include};
ghost use Rattle.keyset_keys.specs.declared.errors.Error.TheVariants.{Memory};
ghost use Rattle.keyset_rolls.specs.Actions.{actions_in};
ghost use Rattle.keyset.specs.KeyState.{KeySetState, by_reference, by_kind, key_of, phase_of};
ghost use Rattle.keyset.specs.KeyState.{asks_in, asks_parent, add, done, entered, on_keys};
ghost use Rattle.keyset.specs.KeyState.{first_fault, first_new_fault, has_tag, new_fault};
ghost use Rattle.keyset.specs.KeyState.{old_fault, report1, report2, start, start_fault};
ghost use Rattle.keyset.specs.KeyState.{algorithms_fault, wait1, wait2, wait_fault, new_key};
ghost use Rattle.keyset.specs.KeyState.{text_of, clear, is_available, write, decoupled_to};
ghost use Rattle.keyset.specs.KeyState.{present_to, signer_to, at_parent_to, seen_at, ds_seen_at};
ghost use Rattle.keyset.specs.KeyState.{rrsig_seen_at, stale_now, delete, Reference};
ghost use Rattle.keyset.specs.KeyState.{algorithms_within, algorithm_is_within, same_algorithms};
ghost use Rattle.keyset.specs.KeyAnswers.{Acts, Adds, Finds, GivesAtOnce, Lists, Writes};
ghost use Rattle.keyset.specs.Listing.{AreAlgorithmsOf, listed_by};
ghost use Rattle.keyset.specs.KeySteps.{new_csk, new_ksk, new_other, new_zsk, set_to, stepped};

use crate::listing::Listing;
use crate::maps::{
    Step, greatest_rest, has_tag, is_blocked, misses_stamp, put_key, put_phase, remove_key,
    remove_phase, serves_after_start, start_keys, step_keys,
};
use crate::settings::Setting;
use keyset_keys::{Available, Error, Key, KeyState, KeyType, UnixTime};
use keyset_rolls::{Action, RollState, RollType, Turn};
use names_flat::name::Name;
use names_traits::to_name::ToName;
use numbers::algorithm::SecurityAlgorithm;
use std::alloc::{AllocError, Global};
use std::collections::HashMap;
use std::convert::AsStr;
use std::marker::Model;
use std::time::Duration;

/// The keys of a zone, and the rolls that are running.
#[derive(Drop)]
pub struct KeySet {
    alloc: Global,
    name: Name<Vec<u8>>,
    keys: HashMap<String, Key>,
    rollstates: HashMap<RollType, RollState>,
}

impl Model for KeySet {
    ghost use Rattle.keyset.specs.KeyState.{KeySetState, by_reference, by_kind};

    ghost Value = { KeySetState };

    ghost view = { λ s. record {
      name = s.name;
      keys = by_reference s.keys.entries;
      rolls = by_kind s.rollstates.entries;
    } };
}

/// A clone is refused where memory runs out.
impl Clone for KeySet {
    ghost use Rattle.std.specs.Prelude.{◌≡◌};

    ghost is_clone = { λ s copy. copy ≡ s };

    fn clone(&self) -> Result<KeySet, AllocError> {
        let Ok(name) = self.name.to_vec(self.alloc) else {
            return Err(AllocError);
        };
        Ok(KeySet {
            alloc: self.alloc,
            name,
            keys: self.keys.clone()?,
            rollstates: self.rollstates.clone()?,
        })
    }
}

impl KeySet {
    /// The set of a zone that has no keys.
    pub fn new(alloc: Global, name: Name<Vec<u8>>) -> Self
        ensures { result ≡ record { name = name; keys = []; rolls = [] } }
    {
        KeySet {
            alloc,
            name,
            keys: HashMap::new(alloc),
            rollstates: HashMap::new(alloc),
        }
    }

    /// The name of the zone.
    pub fn name(&self) -> &Name<Vec<u8>>
        ensures { result.now ≡ self.now.name }
    {
        &self.name
    }

    /// The keys by reference, in no order.
    pub fn keys(&self) -> &HashMap<String, Key>
        ensures { by_reference result.now.entries ≡ self.now.keys }
    {
        &self.keys
    }

    /// The phases of the rolls that are running.
    pub fn rollstates(&self) -> &HashMap<RollType, RollState>
        ensures { by_kind result.now.entries ≡ self.now.rolls }
    {
        &self.rollstates
    }

    /// The key of a reference.
    pub fn key(&self, reference: &str) -> Option<&Key>
        ensures { option_copied result ≡ key_of self.now reference.now }
    {
        self.keys.get(reference)
    }

    /// Whether a key has this tag.
    pub fn has_tag(&self, key_tag: u16) -> bool
        ensures { result ≡ has_tag key_tag self.now.keys }
    {
        has_tag(&self.keys, key_tag)
    }

    fn phase(&self, rolltype: RollType) -> Option<RollState>
        ensures { result ≡ phase_of self.now rolltype }
    {
        self.rollstates.get(&rolltype).copied()
    }

    /// Adds a key signing key.
    pub fn add_key_ksk(
        &mut self,
        pubref: String,
        privref: Option<String>,
        algorithm: SecurityAlgorithm,
        key_tag: u16,
        creation_ts: UnixTime,
        available: Available,
    ) -> Result<(), Error>
        ensures { let key = new_ksk privref available algorithm key_tag creation_ts in
            Adds self.old self.new result pubref key }
    {
        let keytype = KeyType::Ksk(KeyState::new(available));
        let key = Key::new(privref, keytype, algorithm, key_tag, creation_ts);
        self.add_key(pubref, key)
    }

    /// Adds a zone signing key.
    pub fn add_key_zsk(
        &mut self,
        pubref: String,
        privref: Option<String>,
        algorithm: SecurityAlgorithm,
        key_tag: u16,
        creation_ts: UnixTime,
        available: Available,
    ) -> Result<(), Error>
        ensures { let key = new_zsk privref available algorithm key_tag creation_ts in
            Adds self.old self.new result pubref key }
    {
        let keytype = KeyType::Zsk(KeyState::new(available));
        let key = Key::new(privref, keytype, algorithm, key_tag, creation_ts);
        self.add_key(pubref, key)
    }

    /// Adds a key that signs both the DNSKEY RRset and the other RRsets.
    pub fn add_key_csk(
        &mut self,
        pubref: String,
        privref: Option<String>,
        algorithm: SecurityAlgorithm,
        key_tag: u16,
        creation_ts: UnixTime,
        available: Available,
    ) -> Result<(), Error>
        ensures { let key = new_csk privref available algorithm key_tag creation_ts in
            Adds self.old self.new result pubref key }
    {
        let state = KeyState::new(available);
        let keytype = KeyType::Csk(state, state);
        let key = Key::new(privref, keytype, algorithm, key_tag, creation_ts);
        self.add_key(pubref, key)
    }

    /// Adds a key of another owner, which is to be in the DNSKEY RRset and signs nothing here.
    pub fn add_public_key(
        &mut self,
        pubref: String,
        algorithm: SecurityAlgorithm,
        key_tag: u16,
        creation_ts: UnixTime,
        available: bool,
    ) -> Result<(), Error>
        ensures { let key = new_other available algorithm key_tag creation_ts in
            Adds self.old self.new result pubref key }
    {
        let available = if available {
            Available::Available
        } else {
            Available::NotAvailable
        };
        let keytype = KeyType::Include(KeyState::new(available));
        let key = Key::new(None, keytype, algorithm, key_tag, creation_ts);
        self.add_key(pubref, key)
    }

    fn add_key(&mut self, pubref: String, key: Key) -> Result<(), Error>
        ensures { Adds self.old self.new result pubref key }
    {
        if self.has_tag(key.key_tag()) {
            return Err(Error::DuplicateKeyTag);
        }
        if self.key(pubref.as_str()).is_some() {
            return Err(Error::KeyExists);
        }
        put_key(&mut self.keys, pubref, key)?;
        Ok(())
    }

    /// Sets whether a key is no longer managed by its references.
    pub fn set_decoupled(&mut self, pubref: &str, value: bool) -> Result<(), Error>
        ensures { Writes self.old self.new result (decoupled_to value) pubref.now }
    {
        self.set(pubref, Setting::Decoupled(value))
    }

    /// Puts a key into the DNSKEY RRset, or takes it out, outside a roll. The first moment at which
    /// it was put in is kept.
    pub fn set_present(&mut self, pubref: &str, value: bool, now: &UnixTime) -> Result<(), Error>
        ensures { Writes self.old self.new result (present_to value now.now) pubref.now }
    {
        self.set(pubref, Setting::Present(value, *now))
    }

    /// Sets whether a key signs, outside a roll: a combined key in both its roles. An included key
    /// never does.
    pub fn set_signer(&mut self, pubref: &str, value: bool) -> Result<(), Error>
        ensures { Writes self.old self.new result (signer_to value) pubref.now }
    {
        self.set(pubref, Setting::Signer(value))
    }

    /// Sets whether the parent's DS RRset has a key, outside a roll. Zone signing and included keys
    /// are never there.
    pub fn set_at_parent(&mut self, pubref: &str, value: bool) -> Result<(), Error>
        ensures { Writes self.old self.new result (at_parent_to value) pubref.now }
    {
        self.set(pubref, Setting::AtParent(value))
    }

    /// Sets since when all servers have a key in the DNSKEY RRset.
    pub fn set_visible(&mut self, pubref: &str, time: UnixTime) -> Result<(), Error>
        ensures { Writes self.old self.new result (seen_at time) pubref.now }
    {
        self.set(pubref, Setting::Visible(time))
    }

    /// Sets since when all servers of the parent have a key's DS record.
    pub fn set_ds_visible(&mut self, pubref: &str, time: UnixTime) -> Result<(), Error>
        ensures { Writes self.old self.new result (ds_seen_at time) pubref.now }
    {
        self.set(pubref, Setting::DsVisible(time))
    }

    /// Sets since when all servers have a key's signatures.
    pub fn set_rrsig_visible(&mut self, pubref: &str, time: UnixTime) -> Result<(), Error>
        ensures { Writes self.old self.new result (rrsig_seen_at time) pubref.now }
    {
        self.set(pubref, Setting::RrsigVisible(time))
    }

    /// Takes a key out of use at once, outside a roll, so that it may be deleted.
    pub fn set_stale(&mut self, pubref: &str) -> Result<(), Error>
        ensures { Writes self.old self.new result stale_now pubref.now }
    {
        self.set(pubref, Setting::Stale)
    }

    fn set(&mut self, pubref: &str, setting: Setting) -> Result<(), Error>
        ensures { Writes self.old self.new result (set_to setting) pubref.now }
    {
        match self.keys.get_mut(pubref) {
            Some(key) => setting.apply(key),
            None => Err(Error::KeyNotFound),
        }
    }

    /// Deletes a key that is stale in all its roles.
    pub fn delete_key(&mut self, pubref: &str) -> Result<(), Error>
        ensures { GivesAtOnce (λ _. []) self.old self.new result (delete pubref.now self.old) }
    {
        let Some(key) = self.key(pubref) else {
            return Err(Error::KeyNotFound);
        };
        if !key.keytype().stale() {
            return Err(Error::KeyNotOld);
        }
        remove_key(&mut self.keys, pubref);
        Ok(())
    }

    /// Starts a roll from the old keys to the new ones.
    ///
    /// Refuses, in this order: where the roll runs already; where another roll conflicts; at the
    /// first old key that doesn't exist or isn't of a kind that the roll touches; at the first such
    /// new key, or one that isn't fresh or is listed before; where old and new keys have different
    /// algorithms, unless the roll is one of algorithms; and where after the start no key would
    /// serve in one of the roles.
    pub fn start_roll<T: AsStr>(
        &mut self,
        rolltype: RollType,
        old: &[T],
        new: &[T],
        now: &UnixTime,
    ) -> Result<Vec<Action>, Error>
        ensures { let olds = map T.text old.now in let news = map T.text new.now in
            Acts self.old self.new result (start rolltype olds news now.now self.old) }
    {
        let olds = Listing::all_of(self.alloc, old);
        let news = Listing::all_of(self.alloc, new);
        self.check_start(rolltype, &olds, &news)?;
        let actions = self.enter(rolltype, RollState::Propagation1)?;
        start_keys(&mut self.keys, rolltype, &olds, &news, now);
        Ok(actions)
    }

    /// Reports that a roll's first changes are on all servers; `ttl` is the greatest TTL of what
    /// they replaced.
    pub fn propagation1_complete(
        &mut self,
        rolltype: RollType,
        ttl: u32,
        now: &UnixTime,
    ) -> Result<Vec<Action>, Error>
        ensures { Acts self.old self.new result (report1 rolltype ttl now.now self.old) }
    {
        let Some(RollState::Propagation1) = self.phase(rolltype) else {
            return Err(Error::WrongStateForRollOperation);
        };
        self.go_on(rolltype, RollState::CacheExpire1(ttl), Step::Report1, now)
    }

    /// Ends a roll's first wait, once what was served before the first report has expired.
    pub fn cache_expired1(
        &mut self,
        rolltype: RollType,
        now: &UnixTime,
    ) -> Result<Vec<Action>, Error>
        ensures { Acts self.old self.new result (wait1 rolltype now.now self.old) }
    {
        let Some(RollState::CacheExpire1(ttl)) = self.phase(rolltype) else {
            return Err(Error::WrongStateForRollOperation);
        };
        self.check_wait(rolltype, Turn::First, ttl, now)?;
        self.go_on(rolltype, RollState::Propagation2, Step::Wait1, now)
    }

    /// Reports that a roll's second changes are on all servers; `ttl` is the greatest TTL of what
    /// they replaced.
    pub fn propagation2_complete(
        &mut self,
        rolltype: RollType,
        ttl: u32,
        now: &UnixTime,
    ) -> Result<Vec<Action>, Error>
        ensures { Acts self.old self.new result (report2 rolltype ttl now.now self.old) }
    {
        let Some(RollState::Propagation2) = self.phase(rolltype) else {
            return Err(Error::WrongStateForRollOperation);
        };
        self.go_on(rolltype, RollState::CacheExpire2(ttl), Step::Report2, now)
    }

    /// Ends a roll's second wait, once what was served before the second report has expired.
    pub fn cache_expired2(
        &mut self,
        rolltype: RollType,
        now: &UnixTime,
    ) -> Result<Vec<Action>, Error>
        ensures { Acts self.old self.new result (wait2 rolltype now.now self.old) }
    {
        let Some(RollState::CacheExpire2(ttl)) = self.phase(rolltype) else {
            return Err(Error::WrongStateForRollOperation);
        };
        self.check_wait(rolltype, Turn::Second, ttl, now)?;
        self.go_on(rolltype, RollState::Done, Step::Wait2, now)
    }

    /// Ends a roll whose last actions are done.
    pub fn roll_done(&mut self, rolltype: RollType) -> Result<Vec<Action>, Error>
        ensures { Acts self.old self.new result (done rolltype self.old) }
    {
        let Some(RollState::Done) = self.phase(rolltype) else {
            return Err(Error::WrongStateForRollOperation);
        };
        remove_phase(&mut self.rollstates, rolltype);
        Ok(Vec::new(self.alloc))
    }

    /// What a roll asks for in its phase; nothing where it doesn't run.
    pub fn actions(&self, rolltype: RollType) -> Result<Vec<Action>, Error>
        ensures { Lists (actions_in rolltype (phase_of self.now rolltype)) result }
    {
        let actions = rolltype.actions_in(self.alloc, self.phase(rolltype))?;
        Ok(actions)
    }

    /// Whether a roll that runs asks the parent for the DS set of the keys at the parent: then the
    /// zone has CDS and CDNSKEY RRsets of them (RFC 7344, 4).
    pub fn asks_parent(&self) -> bool
        ensures { result ≡ asks_parent self.now }
    {
        self.asks_in(RollType::KskRoll)
            || self.asks_in(RollType::KskDoubleDsRoll)
            || self.asks_in(RollType::CskRoll)
            || self.asks_in(RollType::AlgorithmRoll)
    }

    fn asks_in(&self, rolltype: RollType) -> bool
        ensures { result ≡ asks_in self.now rolltype }
    {
        rolltype.asks_parent_in(self.phase(rolltype))
    }

    fn enter(&mut self, rolltype: RollType, state: RollState) -> Result<Vec<Action>, AllocError>
        ensures ok { IfOk result (λ v. v.items ≡ actions_in rolltype (Some state)) }
        ensures entered { OnOk result (self.new ≡ entered rolltype state self.old.keys self.old) }
        ensures err { OnErr result (self.new ≡ self.old) }
    {
        let actions = rolltype.actions_in(self.alloc, Some(state))?;
        put_phase(&mut self.rollstates, rolltype, state)?;
        Ok(actions)
    }

    /// Puts a roll into its next phase, and its keys through the step that leads there.
    fn go_on(
        &mut self,
        rolltype: RollType,
        state: RollState,
        step: Step,
        now: &UnixTime,
    ) -> Result<Vec<Action>, Error>
        ensures ok { IfOk result (λ v. v.items ≡ actions_in rolltype (Some state)) }
        ensures moved { let keys = on_keys rolltype (stepped step rolltype now.now) self.old.keys in
            OnOk result (self.new ≡ entered rolltype state keys self.old) }
        ensures err { OnErr result (self.new ≡ self.old) }
        ensures lacks { IfErr result (λ e. e ≡ Memory) }
    {
        let actions = self.enter(rolltype, state)?;
        step_keys(&mut self.keys, rolltype, step, now);
        Ok(actions)
    }

    fn check_wait(
        &self,
        rolltype: RollType,
        turn: Turn,
        ttl: u32,
        now: &UnixTime,
    ) -> Result<(), Error>
        ensures { Finds result (wait_fault rolltype turn ttl now.now self.now.keys) }
    {
        if misses_stamp(&self.keys, rolltype, turn) {
            return Err(Error::MissingTimestamp);
        }
        let rest = greatest_rest(&self.keys, rolltype, turn, ttl, now);
        if rest > 0 {
            return Err(Error::Wait(Duration::from_nanos_u128(rest)));
        }
        Ok(())
    }

    fn check_start<T: AsStr>(
        &self,
        rolltype: RollType,
        old: &Listing<T>,
        new: &Listing<T>,
    ) -> Result<(), Error>
        ensures { let olds = listed_by old.now in
            Finds result (start_fault rolltype olds (listed_by new.now) self.now) }
    {
        if self.phase(rolltype).is_some() {
            return Err(Error::WrongStateForRollOperation);
        }
        if is_blocked(&self.rollstates, rolltype) {
            return Err(Error::ConflictingRollInProgress);
        }
        let olds = old.references();
        let news = new.references();
        self.check_old_keys(rolltype, olds)?;
        self.check_new_keys(rolltype, old, news)?;
        self.check_algorithms(rolltype, olds, news)?;
        if !serves_after_start(&self.keys, rolltype, old, new) {
            return Err(Error::NoSuitableKeyPresent);
        }
        Ok(())
    }

    fn check_algorithms<T: AsStr>(
        &self,
        rolltype: RollType,
        old: &[T],
        new: &[T],
    ) -> Result<(), Error>
        ensures { let olds = map T.text old.now in let news = map T.text new.now in
            Finds result (algorithms_fault rolltype olds news self.now) }
    {
        if matches!(rolltype, RollType::AlgorithmRoll) {
            return Ok(());
        }
        if !self.algorithms_are_within(old, new) || !self.algorithms_are_within(new, old) {
            return Err(Error::AlgorithmSetsMismatch);
        }
        Ok(())
    }

    /// Whether the algorithms of the first keys are among those of the second.
    fn algorithms_are_within<T: AsStr>(&self, first: &[T], second: &[T]) -> bool
        ensures { result ≡ algorithms_within self.now
            (map T.text first.now) (map T.text second.now) }
    {
        let found = self.algorithms_of(second);
        first.iter().all(|reference| self.algorithm_is_found(reference.as_str(), &found))
    }

    fn algorithm_is_found(&self, reference: &str, found: &[bool; 256]) -> bool
        ensures { (qs : List Reference) → AreAlgorithmsOf self.now qs found.now
            → result ≡ algorithm_is_within self.now qs reference.now }
    {
        match self.key(reference) {
            Some(key) => found[usize::from(key.algorithm().to_int())],
            None => true,
        }
    }

    /// For each number whether it is the algorithm of one of these keys.
    fn algorithms_of<T: AsStr>(&self, references: &[T]) -> [bool; 256]
        ensures { AreAlgorithmsOf self.now (map T.text references.now) result }
    {
        let mut found = [false; 256];
        for reference in references {
            self.note_algorithm(reference.as_str(), &mut found);
        }
        found
    }

    fn note_algorithm(&self, reference: &str, found: &mut [bool; 256])
        ensures { (qs : List Reference) → AreAlgorithmsOf self.now qs found.old
            → AreAlgorithmsOf self.now (qs ++ reference.now ∷ []) found.new }
    {
        if let Some(key) = self.key(reference) {
            found[usize::from(key.algorithm().to_int())] = true;
        }
    }

    fn check_old_keys<T: AsStr>(&self, rolltype: RollType, old: &[T]) -> Result<(), Error>
        ensures { let olds = map T.text old.now in
            Finds result (first_fault (old_fault rolltype self.now) olds) }
    {
        for reference in old {
            self.check_old_key(rolltype, reference.as_str())?;
        }
        Ok(())
    }

    fn check_old_key(&self, rolltype: RollType, reference: &str) -> Result<(), Error>
        ensures { Finds result (old_fault rolltype self.now reference.now) }
    {
        let Some(key) = self.key(reference) else {
            return Err(Error::KeyNotFound);
        };
        if !rolltype.touches(key.keytype()) {
            return Err(Error::WrongKeyType);
        }
        Ok(())
    }

    fn check_new_keys<T: AsStr>(
        &self,
        rolltype: RollType,
        old: &Listing<T>,
        new: &[T],
    ) -> Result<(), Error>
        ensures { let olds = listed_by old.now in let news = map T.text new.now in
            Finds result (first_new_fault rolltype self.now olds [] news) }
    {
        let mut before = Listing::none_of(self.alloc, new);
        for i in 0..new.len() {
            self.check_new_key(rolltype, old, &before, new[i].as_str())?;
            before.advance();
        }
        Ok(())
    }

    fn check_new_key<T: AsStr>(
        &self,
        rolltype: RollType,
        old: &Listing<T>,
        before: &Listing<T>,
        reference: &str,
    ) -> Result<(), Error>
        ensures { let olds = listed_by old.now in
            Finds result (new_fault rolltype self.now olds (listed_by before.now) reference.now) }
    {
        let Some(key) = self.key(reference) else {
            return Err(Error::KeyNotFound);
        };
        if !rolltype.touches(key.keytype()) {
            return Err(Error::WrongKeyType);
        }
        let is_listed_before = old.contains(reference) || before.contains(reference);
        if is_listed_before || !key.keytype().is_fresh() {
            return Err(Error::WrongKeyState);
        }
        Ok(())
    }
}
