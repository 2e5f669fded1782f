//! The publisher.
ghost use Rattle.std.specs.Prelude.{◌≡◌, ◌⊎◌, ◌<◌, ◌≤◌, ◌^◌, ◌↔◌, [], map, length, string_bytes};
ghost use Rattle.std.specs.Prelude.{IfOk, IfErr, IsErrOf, OnErr, OnOk, Some, None, option_copied};
ghost use Rattle.std.specs.Prelude.{false, true};
ghost use Rattle.std.specs.List.{AllByRecursion};
ghost use Rattle.definitions.specs.Name.{IsName, at_or_above, low};
ghost use Rattle.messages.specs.Handed.{IsHanded};
ghost use Rattle.answer_terms.specs.Asking.{is_allowed};
ghost use Rattle.messages.specs.Questions.{asked_of};
ghost use Rattle.answer_terms.specs.Served.{key_group, ttl_among};
ghost use Rattle.answer_terms.specs.GroupView.{Presents};
ghost use Rattle.answer_terms.specs.Accepted.{IsAccepted};
ghost use Rattle.answer_zone.specs.Faults.{RefusesZone};
ghost use Rattle.answer_zone.specs.HashedZone.{accepted_zone};
ghost use Rattle.answer_zone.specs.Questions.{IsPlain};
ghost use Rattle.answer_terms.specs.ModeView.{mode_of};
ghost use Rattle.messages.specs.HandedRr.{handed_of};
ghost use Rattle.keyset.specs.KeyState.{text_of, is_available};
ghost use Rattle.answer_events.specs.Calls.{add_of, Decoupled, Present, Signer, AtParent, Visible};
ghost use Rattle.answer_events.specs.Calls.{DsVisible, RrsigVisible, Stale};
ghost use Rattle.answer_publisher_keys.specs.Bindings.{no_keys, dnskey_at, dnskey_for, ds_set};
ghost use Rattle.answer_publisher_keys.specs.Bindings.{cds_set, cdnskey_set, is_bound_away};
ghost use Rattle.answer_publisher_keys.specs.Bindings.{published, dnskeys, keys_by_tag, Add, Set};
ghost use Rattle.answer_publisher_keys.specs.Bindings.{Delete, Start, Report1, Wait1, Report2};
ghost use Rattle.answer_publisher_keys.specs.Bindings.{Wait2, Finish};
ghost use Rattle.answer_publisher_keys.specs.KeyCalls.{Acts, Changes};
ghost use Rattle.answer_publisher.specs.Publishing.{digest_at};
ghost use Rattle.answer_publisher.specs.Replacing.{later, noted, whole_second};
ghost use Rattle.answer_publisher.specs.Signing.{signing};
ghost use Rattle.answer_scheme.specs.Moments.{second_of};
ghost use Rattle.answer_publisher.specs.World.{AnswersKeysQuestion, AnswersQuestion, HashesNames};
ghost use Rattle.answer_publisher.specs.World.{RefusesKeysQuestion, RefusesQuestion, SpellsAnswer};
ghost use Rattle.answer_publisher.specs.World.{SpellsKeys, digests, present_keys, world_of};
ghost use Rattle.answer_publisher.specs.World.{world_with, zone_by};

use crate::compose::compose_answer;
use crate::fault::{AnswerFault, KeyFault, ZoneFault};
use crate::signing::{SignatureTerms, is_for_parent};
use answer_events::event::AddKey;
use answer_events::key_kind::{KeyKind, availability};
use answer_publisher_keys::keys::{NewKey, Publication, ZoneKeys};
use answer_scheme::error::SchemeError;
use answer_scheme::scheme::Scheme;
use answer_terms::dnskey::{Dnskey, ZoneKey};
use answer_terms::mode::Mode;
use answer_terms::question::is_allowed;
use answer_zone::records::group::RrGroup;
use answer_zone::zone::ZoneRecords;
use denial_data::Ds;
use denial_nsec3_hash::hasher::Nsec3Hasher;
use keyset::set::KeySet;
use keyset::{Action, Available, Error, RollType, UnixTime};
use messages::names::{Name, ZoneName, copy_name};
use messages::question::Question;
use messages::record::ZoneRecord;
use numbers::algorithm::{DigestAlgorithm, SecurityAlgorithm};
use numbers::rtype::Rtype;
use std::alloc::{AllocError, Global};
use std::convert::AsStr;
use std::time::Duration;

pub mod aliases;
mod calls;
mod inputs;
mod parameters;
mod replacing;

/// Publishes one signed zone while its keys roll (RFC 4035, 2 and 3; RFC 6781, 4.1).
///
/// It answers questions in signed messages, and shows the DS set that the parent is to have. Scheme
/// and hasher are borrowed; the zone keeps the hasher.
#[derive(Drop)]
pub struct Publisher<'a, S: Scheme, H: Nsec3Hasher> {
    alloc: Global,
    zone: ZoneRecords<'a, H>,
    keys: ZoneKeys,
    scheme: &'a S,
    life: u32,
    /// The greatest whole second at which an answer was given.
    latest: Option<u64>,
}

impl<'a, S: Scheme, H: Nsec3Hasher> Publisher<'a, S, H> {
    /// A publisher of these records with a chain of names or of hashes, without keys. Records that
    /// are equal up to TTL are one, the first. `limit` is the most iterations of NSEC3 that are
    /// accepted (RFC 5155, 10.3). A signature holds for `life` seconds from the moment of its
    /// answer.
    pub fn new(
        alloc: Global,
        apex: Name<Vec<u8>>,
        records: Vec<ZoneRecord>,
        mode: Mode,
        scheme: &'a S,
        hasher: &'a H,
        limit: u16,
        life: u32,
    ) -> Result<Self, ZoneFault>
        requires { life < 2 ^ 31 }
        ensures zone { let rs = map handed_of records.items in
            IfOk result (λ p. accepted_zone p.zone ≡ zone_by apex (mode_of mode) limit rs) }
        ensures keys { IfOk result (λ p. p.keys ≡ no_keys apex) }
        ensures scheme { IfOk result (λ p. p.scheme.now ≡ scheme.now) }
        ensures hasher { IfOk result (λ p. p.zone.hasher ≡ hasher.now) }
        ensures life { IfOk result (λ p. p.life ≡ life) }
        ensures unanswered { IfOk result (λ p. p.latest ≡ None) }
        ensures accepted { let rs = map handed_of records.items in
            IfOk result (λ p. IsAccepted (H.hash_of hasher.now) apex (mode_of mode) limit rs) }
        ensures handed { IfOk result
            (λ p. IsName apex × AllByRecursion IsHanded (map handed_of records.items)) }
        ensures fault { let rs = map handed_of records.items in
            IfErr result (RefusesZone (H.hash_of hasher.now) apex (mode_of mode) limit rs) }
    {
        let zone = ZoneRecords::new(alloc, apex, records, mode, limit, hasher)?;
        let Ok(name) = copy_name(alloc, zone.apex()) else {
            return Err(ZoneFault::Memory);
        };
        Ok(Publisher {
            alloc,
            zone,
            keys: ZoneKeys::new(alloc, name),
            scheme,
            life,
            latest: None,
        })
    }

    /// The answer for the DNSKEY RRset: the keys that are present, signed by each key that signs
    /// keys, at a moment.
    pub fn dnskey_answer(&self, now: &UnixTime) -> Result<Vec<u8>, AnswerFault>
        ensures fault { let w = world_of S.signature_of S.verifies S.digest_of H.hash_of self.now in
            IfErr result (RefusesKeysQuestion w self.now.keys now.now) }
        ensures bytes { let w = world_of S.signature_of S.verifies S.digest_of H.hash_of self.now in
            IfOk result (λ m. AnswersKeysQuestion w self.now.keys now.now m.items) }
        ensures given { let w = world_of S.signature_of S.verifies S.digest_of H.hash_of self.now in
            IfOk result (λ m. SpellsKeys w self.now.keys now.now m.items) }
    {
        self.dnskey_answer_with(self.scheme, now)
    }

    /// The answer for the DNSKEY RRset as [`Publisher::dnskey_answer`] gives it, but signed by
    /// another scheme, as where signatures are made elsewhere.
    pub fn dnskey_answer_with<T: Scheme>(
        &self,
        scheme: &T,
        now: &UnixTime,
    ) -> Result<Vec<u8>, AnswerFault>
        ensures fault { let p = self.now in let t = scheme.now in
            let w = world_with T.signature_of T.verifies S.digest_of H.hash_of t p in
            IfErr result (RefusesKeysQuestion w p.keys now.now) }
        ensures bytes { let p = self.now in let t = scheme.now in
            let w = world_with T.signature_of T.verifies S.digest_of H.hash_of t p in
            IfOk result (λ m. AnswersKeysQuestion w p.keys now.now m.items) }
        ensures given { let p = self.now in let t = scheme.now in
            let w = world_with T.signature_of T.verifies S.digest_of H.hash_of t p in
            IfOk result (λ m. SpellsKeys w p.keys now.now m.items) }
    {
        self.zone.keeps();
        let group = self.dnskey_group()?;
        self.apex_answer(scheme, &group, Publication::SignsKeys, now)
    }

    /// The DNSKEY RRset; without a key it is empty, and then there is nothing to sign.
    fn dnskey_group(&self) -> Result<RrGroup, AllocError>
        ensures presents { let zone = self.now.zone in
            let ttl = ttl_among zone.records (low zone.apex) 6 in
            let group = key_group zone.apex ttl (present_keys self.now.keys) in
            IfOk result (λ g. Presents g group) }
    {
        let owner = copy_name(self.alloc, self.zone.apex())?;
        let count = owner.rrsig_label_count();
        RrGroup::canonical_form(
            self.alloc,
            owner,
            count,
            Rtype::DNSKEY,
            self.zone.soa_ttl(),
            self.keys.dnskey_data()?,
        )
    }

    /// What this publisher's signatures of a moment are made with.
    fn terms(&self, now: &UnixTime) -> SignatureTerms<'_>
        ensures apex { result.apex.now ≡ self.now.zone.apex }
        ensures at { result.at ≡ second_of now.now }
        ensures life { result.life ≡ self.now.life }
    {
        SignatureTerms {
            apex: self.zone.apex(),
            at: u64::from(now.timestamp()),
            life: self.life,
        }
    }

    /// The zone's answer to a question at a moment, signed by each key that signs the zone, the CDS
    /// and CDNSKEY RRsets of the apex also by each key that signs keys (RFC 7344, 4.1); each name
    /// that its proof speaks of has a hash. Its second is noted, also where no key signs: in it,
    /// and before, the zone's records are not replaced. A refused call changes nothing.
    pub fn answer(&mut self, question: &Question, now: &UnixTime) -> Result<Vec<u8>, AnswerFault>
        ensures allowed { let asked = asked_of question.now in
            let allowed = is_allowed self.old.zone.apex asked in
            IsErrOf result AnswerFault.QuestionNotAllowed ↔ (allowed ≡ false) }
        ensures fault { let w = world_of S.signature_of S.verifies S.digest_of H.hash_of self.old in
            let asked = asked_of question.now in
            IfErr result (RefusesQuestion w self.old.keys now.now asked) }
        ensures bytes { let w = world_of S.signature_of S.verifies S.digest_of H.hash_of self.old in
            let asked = asked_of question.now in
            IfOk result (λ m. AnswersQuestion w self.old.keys now.now asked m.items) }
        ensures given { let w = world_of S.signature_of S.verifies S.digest_of H.hash_of self.old in
            let asked = asked_of question.now in
            IfOk result (λ m. SpellsAnswer w self.old.keys now.now asked m.items) }
        ensures hashed { let s = self.old in
            let w = world_of S.signature_of S.verifies S.digest_of H.hash_of s in
            OnOk result (HashesNames w (asked_of question.now)) }
        ensures noted { let latest = noted self.old.latest now.now in
            OnOk result (self.new ≡ record self.old { latest = latest }) }
        ensures refused { OnErr result (self.new ≡ self.old) }
    {
        self.answer_with(self.scheme, question, now)
    }

    /// The zone's answer as [`Publisher::answer`] gives it, but signed by another scheme, as where
    /// signatures are made elsewhere. Its second is noted as there.
    pub fn answer_with<T: Scheme>(
        &mut self,
        scheme: &T,
        question: &Question,
        now: &UnixTime,
    ) -> Result<Vec<u8>, AnswerFault>
        ensures allowed { let asked = asked_of question.now in
            let allowed = is_allowed self.old.zone.apex asked in
            IsErrOf result AnswerFault.QuestionNotAllowed ↔ (allowed ≡ false) }
        ensures fault { let p = self.old in let t = scheme.now in
            let w = world_with T.signature_of T.verifies S.digest_of H.hash_of t p in
            IfErr result (RefusesQuestion w p.keys now.now (asked_of question.now)) }
        ensures bytes { let p = self.old in let t = scheme.now in
            let w = world_with T.signature_of T.verifies S.digest_of H.hash_of t p in
            let asked = asked_of question.now in
            IfOk result (λ m. AnswersQuestion w p.keys now.now asked m.items) }
        ensures given { let p = self.old in let t = scheme.now in
            let w = world_with T.signature_of T.verifies S.digest_of H.hash_of t p in
            let asked = asked_of question.now in
            IfOk result (λ m. SpellsAnswer w p.keys now.now asked m.items) }
        ensures hashed { let p = self.old in let t = scheme.now in
            let w = world_with T.signature_of T.verifies S.digest_of H.hash_of t p in
            OnOk result (HashesNames w (asked_of question.now)) }
        ensures noted { let latest = noted self.old.latest now.now in
            OnOk result (self.new ≡ record self.old { latest = latest }) }
        ensures refused { OnErr result (self.new ≡ self.old) }
    {
        let message = self.message(scheme, question, now)?;
        self.latest = Some(later(self.latest, whole_second(now)));
        Ok(message)
    }

    /// The message of an answer to a question that is allowed, signed by a scheme.
    fn message<T: Scheme>(
        &self,
        scheme: &T,
        question: &Question,
        now: &UnixTime,
    ) -> Result<Vec<u8>, AnswerFault>
        ensures allowed { let asked = asked_of question.now in
            let allowed = is_allowed self.now.zone.apex asked in
            IsErrOf result AnswerFault.QuestionNotAllowed ↔ (allowed ≡ false) }
        ensures fault { let p = self.now in let t = scheme.now in
            let w = world_with T.signature_of T.verifies S.digest_of H.hash_of t p in
            IfErr result (RefusesQuestion w p.keys now.now (asked_of question.now)) }
        ensures bytes { let p = self.now in let t = scheme.now in
            let w = world_with T.signature_of T.verifies S.digest_of H.hash_of t p in
            let asked = asked_of question.now in
            IfOk result (λ m. AnswersQuestion w p.keys now.now asked m.items) }
        ensures given { let p = self.now in let t = scheme.now in
            let w = world_with T.signature_of T.verifies S.digest_of H.hash_of t p in
            let asked = asked_of question.now in
            IfOk result (λ m. SpellsAnswer w p.keys now.now asked m.items) }
        ensures hashed { let p = self.now in let t = scheme.now in
            let w = world_with T.signature_of T.verifies S.digest_of H.hash_of t p in
            OnOk result (HashesNames w (asked_of question.now)) }
    {
        if !is_allowed(self.zone.apex(), question) {
            return Err(AnswerFault::QuestionNotAllowed);
        }
        self.plain_message(scheme, question, now)
    }

    /// The message of an answer to a question inside for another type than those of the chain,
    /// signed by a scheme.
    fn plain_message<T: Scheme>(
        &self,
        scheme: &T,
        question: &Question,
        now: &UnixTime,
    ) -> Result<Vec<u8>, AnswerFault>
        requires plain { IsPlain question.now.rtype }
        requires inside { at_or_above self.now.zone.apex question.now.name ≡ true }
        ensures allowed { IsErrOf result AnswerFault.QuestionNotAllowed → ⊥ }
        ensures fault { let p = self.now in let t = scheme.now in
            let w = world_with T.signature_of T.verifies S.digest_of H.hash_of t p in
            IfErr result (RefusesQuestion w p.keys now.now (asked_of question.now)) }
        ensures bytes { let p = self.now in let t = scheme.now in
            let w = world_with T.signature_of T.verifies S.digest_of H.hash_of t p in
            let asked = asked_of question.now in
            IfOk result (λ m. AnswersQuestion w p.keys now.now asked m.items) }
        ensures given { let p = self.now in let t = scheme.now in
            let w = world_with T.signature_of T.verifies S.digest_of H.hash_of t p in
            let asked = asked_of question.now in
            IfOk result (λ m. SpellsAnswer w p.keys now.now asked m.items) }
        ensures hashed { let p = self.now in let t = scheme.now in
            let w = world_with T.signature_of T.verifies S.digest_of H.hash_of t p in
            OnOk result (HashesNames w (asked_of question.now)) }
    {
        self.zone.keeps();
        question.keeps();
        let found = self
            .zone
            .answer_to(self.alloc, &question.name, question.rtype)?;
        owners_keep(&found.answer);
        owners_keep(&found.authority);
        let which = self.signers_of(question, found.answer.len());
        let keys = self.keys.keys_by_tag(which)?;
        compose_answer(
            self.alloc,
            scheme,
            &self.terms(now),
            &keys,
            found.flags,
            question,
            &found.answer,
            &found.authority,
        )
    }

    /// The keys that sign the answer to a question: those that sign the zone, and those that sign
    /// keys too where the answer has the CDS or the CDNSKEY RRset of the apex.
    fn signers_of(&self, question: &Question, found: usize) -> Publication
        ensures { result ≡ signing self.now.zone.apex (asked_of question.now) found }
    {
        if is_for_parent(self.zone.apex(), question) && found > 0 {
            Publication::Signs
        } else {
            Publication::SignsZone
        }
    }

    /// The name of the zone.
    pub fn apex(&self) -> &Name<Vec<u8>>
        ensures { result.now ≡ self.now.zone.apex }
    {
        self.zone.apex()
    }

    /// What signs, verifies and digests.
    pub fn scheme(&self) -> &'a S
        ensures { result.now ≡ self.now.scheme.now }
    {
        self.scheme
    }

    /// What hashes names.
    pub fn hasher(&self) -> &'a H
        ensures { result.now ≡ self.now.zone.hasher }
    {
        self.zone.hasher()
    }

    /// The key set.
    pub fn key_set(&self) -> &KeySet
        ensures { result.now ≡ self.now.keys.keys }
    {
        self.keys.key_set()
    }

    /// The DNSKEY that a reference is bound to: that of its first accepted add, also once its key
    /// is deleted.
    pub fn dnskey_of(&self, reference: &str) -> Option<&Dnskey<Vec<u8>>>
        ensures { option_copied result ≡ dnskey_at self.now.keys.bound reference.now }
    {
        self.keys.dnskey_of(reference)
    }

    /// The DS set that the parent is to have, of digest type 2, in order of tag (RFC 4034, 5;
    /// RFC 4509).
    pub fn ds_set(&self) -> Result<Vec<Ds<Vec<u8>>>, AllocError>
        ensures { IfOk result (λ v. v.items ≡ ds_set self.now.keys) }
    {
        self.keys.ds_set()
    }

    /// The CDS set, which asks the parent for the DS set: that set from the actions that create the
    /// CDS RRset on, up to those that remove it, else nothing (RFC 7344, 3).
    pub fn cds_set(&self) -> Result<Vec<Ds<Vec<u8>>>, AllocError>
        ensures { IfOk result (λ v. v.items ≡ cds_set self.now.keys) }
    {
        self.keys.cds_set()
    }

    /// The CDNSKEY set, in order of tag: the keys that the CDS set is of (RFC 7344, 3).
    pub fn cdnskey_set(&self) -> Result<Vec<Dnskey<Vec<u8>>>, AllocError>
        ensures { IfOk result (λ v. v.items ≡ cdnskey_set self.now.keys) }
    {
        self.keys.cdnskey_set()
    }

    /// The DNSKEY set of the zone, in order of tag: the keys that are present.
    pub fn dnskey_set(&self) -> Result<Vec<Dnskey<Vec<u8>>>, AllocError>
        ensures { IfOk result (λ v. v.items ≡ keys_by_tag self.now.keys Publication.Present) }
    {
        self.keys.keys_by_tag(Publication::Present)
    }

    /// Whether a reference is bound to another key than one of these octets, at most 65,531 of
    /// them, so that an add of this one is refused.
    pub fn is_bound_away(
        &self,
        reference: &str,
        kind: KeyKind,
        algorithm: SecurityAlgorithm,
        public_key: &[u8],
    ) -> bool
        requires { length public_key.now ≤ 65531 }
        ensures { let key = dnskey_for kind algorithm public_key.now in
            result ≡ is_bound_away self.now.keys.bound reference.now key }
    {
        let key = Dnskey::new_unchecked(kind.flags(), 3, algorithm, public_key);
        self.keys.is_bound_away(reference, &key)
    }

    /// Adds a key signing key of these octets, at most 65,531 of them.
    pub fn add_key_ksk(
        &mut self,
        pubref: String,
        privref: Option<String>,
        algorithm: SecurityAlgorithm,
        public_key: Vec<u8>,
        creation_ts: UnixTime,
        available: Available,
    ) -> Result<(), KeyFault>
        requires { length public_key.items ≤ 65531 }
        ensures keys { let at_hand = is_available available in
            let private = text_of privref in let octets = public_key.items in
            let call = Add KeyKind.Ksk (string_bytes pubref) private algorithm octets at_hand in
            let digests = digests S.digest_of self.old in
            Changes digests call creation_ts self.old.keys self.new.keys result }
        ensures rest { self.new ≡ record self.old { keys = self.new.keys } }
    {
        let key = AddKey {
            pubref,
            privref,
            algorithm,
            public_key,
            available,
        };
        self.add_key(KeyKind::Ksk, key, creation_ts)
    }

    /// Adds a zone signing key of these octets, at most 65,531 of them.
    pub fn add_key_zsk(
        &mut self,
        pubref: String,
        privref: Option<String>,
        algorithm: SecurityAlgorithm,
        public_key: Vec<u8>,
        creation_ts: UnixTime,
        available: Available,
    ) -> Result<(), KeyFault>
        requires { length public_key.items ≤ 65531 }
        ensures keys { let at_hand = is_available available in
            let private = text_of privref in let octets = public_key.items in
            let call = Add KeyKind.Zsk (string_bytes pubref) private algorithm octets at_hand in
            let digests = digests S.digest_of self.old in
            Changes digests call creation_ts self.old.keys self.new.keys result }
        ensures rest { self.new ≡ record self.old { keys = self.new.keys } }
    {
        let key = AddKey {
            pubref,
            privref,
            algorithm,
            public_key,
            available,
        };
        self.add_key(KeyKind::Zsk, key, creation_ts)
    }

    /// Adds a key that signs both, keys and zone, of these octets, at most 65,531 of them.
    pub fn add_key_csk(
        &mut self,
        pubref: String,
        privref: Option<String>,
        algorithm: SecurityAlgorithm,
        public_key: Vec<u8>,
        creation_ts: UnixTime,
        available: Available,
    ) -> Result<(), KeyFault>
        requires { length public_key.items ≤ 65531 }
        ensures keys { let at_hand = is_available available in
            let private = text_of privref in let octets = public_key.items in
            let call = Add KeyKind.Csk (string_bytes pubref) private algorithm octets at_hand in
            let digests = digests S.digest_of self.old in
            Changes digests call creation_ts self.old.keys self.new.keys result }
        ensures rest { self.new ≡ record self.old { keys = self.new.keys } }
    {
        let key = AddKey {
            pubref,
            privref,
            algorithm,
            public_key,
            available,
        };
        self.add_key(KeyKind::Csk, key, creation_ts)
    }

    /// Adds a key of another owner, which is to be in the DNSKEY RRset and signs nothing here, of
    /// these octets, at most 65,531 of them.
    pub fn add_public_key(
        &mut self,
        pubref: String,
        algorithm: SecurityAlgorithm,
        public_key: Vec<u8>,
        creation_ts: UnixTime,
        available: bool,
    ) -> Result<(), KeyFault>
        requires { length public_key.items ≤ 65531 }
        ensures keys { let octets = public_key.items in
            let call = Add KeyKind.Include (string_bytes pubref) None algorithm octets available in
            let digests = digests S.digest_of self.old in
            Changes digests call creation_ts self.old.keys self.new.keys result }
        ensures rest { self.new ≡ record self.old { keys = self.new.keys } }
    {
        let key = AddKey {
            pubref,
            privref: None,
            algorithm,
            public_key,
            available: availability(available),
        };
        self.add_key(KeyKind::Include, key, creation_ts)
    }

    /// Adds a key of a kind. Of a key of another owner no private reference is kept. Whether a
    /// reference is bound to another key is known before any memory is taken.
    pub fn add_key(
        &mut self,
        kind: KeyKind,
        key: AddKey,
        creation_ts: UnixTime,
    ) -> Result<(), KeyFault>
        requires { length key.public_key.items ≤ 65531 }
        ensures keys { let digests = digests S.digest_of self.old in
            Changes digests (add_of kind key) creation_ts self.old.keys self.new.keys result }
        ensures rest { self.new ≡ record self.old { keys = self.new.keys } }
    {
        let AddKey {
            pubref,
            privref,
            algorithm,
            public_key,
            available,
        } = key;
        if self.is_bound_away(pubref.as_str(), kind, algorithm, &public_key) {
            return Err(KeyFault::ReferenceBound);
        }
        let key = Dnskey::new_unchecked(kind.flags(), 3, algorithm, public_key);
        let digest = key_digest(self.alloc, self.scheme, self.zone.apex(), &key)?;
        let new = NewKey {
            kind,
            pubref,
            privref,
            algorithm,
            created: creation_ts,
            available,
        };
        self.keys.add(new, key, digest)
    }

    /// Sets whether a key is no longer managed by its references.
    pub fn set_decoupled(&mut self, pubref: &str, value: bool) -> Result<(), KeyFault>
        ensures keys { let digests = digests S.digest_of self.old in
            let call = Set pubref.now (Decoupled value) in
            Changes digests call 0 self.old.keys self.new.keys result }
        ensures rest { self.new ≡ record self.old { keys = self.new.keys } }
    {
        self.keys.set_decoupled(pubref, value)
    }

    /// Puts a key into the DNSKEY RRset, or takes it out, outside a roll. The first moment at which
    /// it was put in is kept.
    pub fn set_present(&mut self, pubref: &str, value: bool, now: &UnixTime) -> Result<(), KeyFault>
        ensures keys { let digests = digests S.digest_of self.old in
            let call = Set pubref.now (Present value) in
            Changes digests call now.now self.old.keys self.new.keys result }
        ensures rest { self.new ≡ record self.old { keys = self.new.keys } }
    {
        self.keys.set_present(pubref, value, now)
    }

    /// Sets whether a key signs, outside a roll: a combined key in both its roles. An included key
    /// never does.
    pub fn set_signer(&mut self, pubref: &str, value: bool) -> Result<(), KeyFault>
        ensures keys { let digests = digests S.digest_of self.old in
            let call = Set pubref.now (Signer value) in
            Changes digests call 0 self.old.keys self.new.keys result }
        ensures rest { self.new ≡ record self.old { keys = self.new.keys } }
    {
        self.keys.set_signer(pubref, value)
    }

    /// Sets whether the parent's DS RRset has a key, outside a roll. Zone signing and included keys
    /// are never there.
    pub fn set_at_parent(&mut self, pubref: &str, value: bool) -> Result<(), KeyFault>
        ensures keys { let digests = digests S.digest_of self.old in
            let call = Set pubref.now (AtParent value) in
            Changes digests call 0 self.old.keys self.new.keys result }
        ensures rest { self.new ≡ record self.old { keys = self.new.keys } }
    {
        self.keys.set_at_parent(pubref, value)
    }

    /// Sets since when all servers have a key in the DNSKEY RRset.
    pub fn set_visible(&mut self, pubref: &str, time: UnixTime) -> Result<(), KeyFault>
        ensures keys { let digests = digests S.digest_of self.old in
            let call = Set pubref.now (Visible time) in
            Changes digests call 0 self.old.keys self.new.keys result }
        ensures rest { self.new ≡ record self.old { keys = self.new.keys } }
    {
        self.keys.set_visible(pubref, time)
    }

    /// Sets since when all servers of the parent have a key's DS record.
    pub fn set_ds_visible(&mut self, pubref: &str, time: UnixTime) -> Result<(), KeyFault>
        ensures keys { let digests = digests S.digest_of self.old in
            let call = Set pubref.now (DsVisible time) in
            Changes digests call 0 self.old.keys self.new.keys result }
        ensures rest { self.new ≡ record self.old { keys = self.new.keys } }
    {
        self.keys.set_ds_visible(pubref, time)
    }

    /// Sets since when all servers have a key's signatures.
    pub fn set_rrsig_visible(&mut self, pubref: &str, time: UnixTime) -> Result<(), KeyFault>
        ensures keys { let digests = digests S.digest_of self.old in
            let call = Set pubref.now (RrsigVisible time) in
            Changes digests call 0 self.old.keys self.new.keys result }
        ensures rest { self.new ≡ record self.old { keys = self.new.keys } }
    {
        self.keys.set_rrsig_visible(pubref, time)
    }

    /// Takes a key out of use at once, outside a roll, so that it may be deleted.
    pub fn set_stale(&mut self, pubref: &str) -> Result<(), KeyFault>
        ensures keys { let digests = digests S.digest_of self.old in
            let call = Set pubref.now Stale in
            Changes digests call 0 self.old.keys self.new.keys result }
        ensures rest { self.new ≡ record self.old { keys = self.new.keys } }
    {
        self.keys.set_stale(pubref)
    }

    /// Deletes a key that is stale in all its roles. Its reference stays bound to it.
    pub fn delete_key(&mut self, pubref: &str) -> Result<(), KeyFault>
        ensures keys { let digests = digests S.digest_of self.old in
            let call = Delete pubref.now in
            Changes digests call 0 self.old.keys self.new.keys result }
        ensures rest { self.new ≡ record self.old { keys = self.new.keys } }
    {
        self.keys.delete_key(pubref)
    }

    /// Starts a roll from the old keys to the new ones.
    pub fn start_roll<T: AsStr>(
        &mut self,
        rolltype: RollType,
        old: &[T],
        new: &[T],
        now: &UnixTime,
    ) -> Result<Vec<Action>, KeyFault>
        ensures keys { let call = Start rolltype (map T.text old.now) (map T.text new.now) in
            Acts (digests S.digest_of self.old) call now.now self.old.keys self.new.keys result }
        ensures rest { self.new ≡ record self.old { keys = self.new.keys } }
    {
        self.keys.start_roll(rolltype, old, new, now)
    }

    /// Reports that a roll's first changes are on all servers; `ttl` is the greatest one of what
    /// they replaced.
    pub fn propagation1_complete(
        &mut self,
        rolltype: RollType,
        ttl: u32,
        now: &UnixTime,
    ) -> Result<Vec<Action>, KeyFault>
        ensures keys { let digests = digests S.digest_of self.old in
            Acts digests (Report1 rolltype ttl) now.now self.old.keys self.new.keys result }
        ensures rest { self.new ≡ record self.old { keys = self.new.keys } }
    {
        self.keys.propagation1_complete(rolltype, ttl, now)
    }

    /// Ends a roll's first wait.
    pub fn cache_expired1(
        &mut self,
        rolltype: RollType,
        now: &UnixTime,
    ) -> Result<Vec<Action>, KeyFault>
        ensures keys { let digests = digests S.digest_of self.old in
            Acts digests (Wait1 rolltype) now.now self.old.keys self.new.keys result }
        ensures rest { self.new ≡ record self.old { keys = self.new.keys } }
    {
        self.keys.cache_expired1(rolltype, now)
    }

    /// Reports that a roll's second changes are on all servers; `ttl` is the greatest one of what
    /// they replaced.
    pub fn propagation2_complete(
        &mut self,
        rolltype: RollType,
        ttl: u32,
        now: &UnixTime,
    ) -> Result<Vec<Action>, KeyFault>
        ensures keys { let digests = digests S.digest_of self.old in
            Acts digests (Report2 rolltype ttl) now.now self.old.keys self.new.keys result }
        ensures rest { self.new ≡ record self.old { keys = self.new.keys } }
    {
        self.keys.propagation2_complete(rolltype, ttl, now)
    }

    /// Ends a roll's second wait.
    pub fn cache_expired2(
        &mut self,
        rolltype: RollType,
        now: &UnixTime,
    ) -> Result<Vec<Action>, KeyFault>
        ensures keys { let digests = digests S.digest_of self.old in
            Acts digests (Wait2 rolltype) now.now self.old.keys self.new.keys result }
        ensures rest { self.new ≡ record self.old { keys = self.new.keys } }
    {
        self.keys.cache_expired2(rolltype, now)
    }

    /// Ends a roll whose last actions are done.
    pub fn roll_done(&mut self, rolltype: RollType) -> Result<Vec<Action>, KeyFault>
        ensures keys { let digests = digests S.digest_of self.old in
            Acts digests (Finish rolltype) 0 self.old.keys self.new.keys result }
        ensures rest { self.new ≡ record self.old { keys = self.new.keys } }
    {
        self.keys.roll_done(rolltype)
    }
}

/// The whole seconds of a moment.
fn whole_second(now: &UnixTime) -> u64
    ensures { result ≡ whole_second now.now }
{
    UnixTime::new(Duration::from_secs(0)).elapsed(now).as_secs()
}

/// The later of two seconds, the first of which may be missing.
fn later(latest: Option<u64>, second: u64) -> u64
    ensures { Some result ≡ later latest second }
{
    match latest {
        None => second,
        Some(latest) => latest.max(second),
    }
}

/// What the owners of RRsets keep. It does nothing.
fn owners_keep(groups: &[RrGroup])
    ensures { AllByRecursion (λ g. IsName g.owner) groups.now }
{
    for group in groups {
        group.owner().keeps();
    }
}

/// The digest of type 2 of a key at the apex (RFC 4034, 5.1.4).
fn key_digest<S: Scheme>(
    alloc: Global,
    scheme: &S,
    apex: &Name<Vec<u8>>,
    key: &Dnskey<Vec<u8>>,
) -> Result<Vec<u8>, KeyFault>
    ensures ok { IfOk result
        (λ d. digest_at (S.digest_of scheme.now) apex.now key.now ≡ Some d.items) }
    ensures fits { IfOk result (λ d. length d.items ≤ 65531) }
    ensures err { let digest = digest_at (S.digest_of scheme.now) apex.now key.now in
        IfErr result (λ f. (f ≡ KeyFault.Memory)
        ⊎ ((f ≡ KeyFault.DigestFailed) × (digest ≡ None))) }
{
    let octets = key.digested(alloc, apex)?;
    match scheme.digest(alloc, DigestAlgorithm::SHA256, &octets) {
        Ok(digest) => Ok(digest),
        Err(SchemeError::Failed) => Err(KeyFault::DigestFailed),
        Err(SchemeError::Memory) => Err(KeyFault::Memory),
    }
}
