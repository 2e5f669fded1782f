//! The NSEC3PARAM RRset of a zone, and answers of one RRset of the apex.
ghost use Rattle.std.specs.Prelude.{◌≡◌, [], ◌∷◌, IfErr, IfOk, IsSome, OnErr};
ghost use Rattle.std.specs.Option.{option_map};
ghost use Rattle.definitions.specs.Name.{low};
ghost use Rattle.answer_publisher.specs.Answering.{ahead_of_records, apex_question};
ghost use Rattle.answer_publisher.specs.Composed.{IsAnswer, RefusesGroups};
ghost use Rattle.answer_publisher.specs.Inputs.{all_inputs};
ghost use Rattle.answer_publisher.specs.Parameters.{AnswersParameters, OfBoth, RefusesParameters};
ghost use Rattle.answer_publisher.specs.Parameters.{SpellsParameters, parameters_group};
ghost use Rattle.answer_publisher.specs.Parameters.{parameters_inputs, parameters_of_chain};
ghost use Rattle.answer_publisher.specs.World.{world_of, world_with};
ghost use Rattle.answer_publisher_keys.specs.Bindings.{keys_by_tag};
ghost use Rattle.answer_scheme.specs.Moments.{second_of};
ghost use Rattle.answer_terms.specs.GroupView.{Presents};
ghost use Rattle.answer_terms.specs.ModeView.{mode_of};
ghost use Rattle.answer_terms.specs.Served.{ttl_among};

use crate::compose::compose_answer;
use crate::fault::AnswerFault;
use crate::publishing::Publisher;
use crate::signing::{SigningInput, push_inputs};
use answer_publisher_keys::keys::Publication;
use answer_scheme::scheme::Scheme;
use answer_terms::mode::Mode;
use answer_zone::records::group::RrGroup;
use answer_zone::records::octets::written_octets;
use answer_zone::zone::answers::AUTHORITATIVE;
use denial_data::{Nsec3Salt, Nsec3param};
use denial_nsec3_hash::hasher::Nsec3Hasher;
use keyset::UnixTime;
use messages::names::{ZoneName, copy_name};
use messages::question::Question;
use numbers::class::Class;
use numbers::rtype::Rtype;
use std::alloc::AllocError;
use std::slice;

impl<'a, S: Scheme, H: Nsec3Hasher> Publisher<'a, S, H> {
    /// The chain that the zone has. It stays that for as long as the zone is published.
    pub fn mode(&self) -> &Mode
        ensures { mode_of result.now ≡ self.now.zone.mode }
    {
        self.zone.mode()
    }

    /// The answer for the NSEC3PARAM RRset, at a moment, signed by each key that signs the zone
    /// (RFC 5155, 4 and 7.3). A zone with a chain of names has no such RRset: `None`.
    ///
    /// The RRset is one record of algorithm 1 and flags 0, also with opt-out, with the iterations
    /// and the salt of the chain. Its TTL is that of the SOA record, which
    /// `Nsec3ParamTtlMode::Soa` gives, the default of those who make chains. No moment is noted:
    /// other records of the zone change nothing here but that TTL.
    pub fn nsec3param_answer(&self, now: &UnixTime) -> Result<Option<Vec<u8>>, AnswerFault>
        ensures fault { let w = world_of S.signature_of S.verifies S.digest_of H.hash_of self.now in
            IfErr result (RefusesParameters w self.now.keys now.now) }
        ensures bytes { let w = world_of S.signature_of S.verifies S.digest_of H.hash_of self.now in
            let is = AnswersParameters w self.now.keys now.now in
            IfOk result (λ o. is (option_map (λ m. m.items) o)) }
        ensures given { let w = world_of S.signature_of S.verifies S.digest_of H.hash_of self.now in
            let spells = SpellsParameters w self.now.keys now.now in
            IfOk result (λ o. spells (option_map (λ m. m.items) o)) }
    {
        self.nsec3param_answer_with(self.scheme, now)
    }

    /// The answer for the NSEC3PARAM RRset as [`Publisher::nsec3param_answer`] gives it, but signed
    /// by another scheme, as where signatures are made elsewhere.
    pub fn nsec3param_answer_with<T: Scheme>(
        &self,
        scheme: &T,
        now: &UnixTime,
    ) -> Result<Option<Vec<u8>>, AnswerFault>
        ensures fault { let p = self.now in let t = scheme.now in
            let w = world_with T.signature_of T.verifies S.digest_of H.hash_of t p in
            IfErr result (RefusesParameters w p.keys now.now) }
        ensures bytes { let p = self.now in let t = scheme.now in
            let w = world_with T.signature_of T.verifies S.digest_of H.hash_of t p in
            let is = AnswersParameters w p.keys now.now in
            IfOk result (λ o. is (option_map (λ m. m.items) o)) }
        ensures given { let p = self.now in let t = scheme.now in
            let w = world_with T.signature_of T.verifies S.digest_of H.hash_of t p in
            let spells = SpellsParameters w p.keys now.now in
            IfOk result (λ o. spells (option_map (λ m. m.items) o)) }
    {
        self.zone.keeps();
        let Some(group) = self.nsec3param_group()? else {
            return Ok(None);
        };
        let message = self.apex_answer(scheme, &group, Publication::SignsZone, now)?;
        Ok(Some(message))
    }

    /// What the signatures of [`Publisher::nsec3param_answer`] are made over, each with its key, in
    /// the order in which they stand in the message; nothing where there is no such answer. Only
    /// memory is refused.
    pub fn nsec3param_signing_inputs(&self, now: &UnixTime) -> Result<Vec<SigningInput>, AllocError>
        ensures { let w = world_of S.signature_of S.verifies S.digest_of H.hash_of self.now in
            IfOk result (λ v. v.items ≡ parameters_inputs w self.now.keys now.now) }
    {
        match self.nsec3param_group()? {
            Some(group) => self.apex_inputs(&group, Publication::SignsZone, now),
            None => Ok(Vec::new(self.alloc)),
        }
    }

    /// The NSEC3PARAM RRset, if the chain is one of hashes.
    fn nsec3param_group(&self) -> Result<Option<RrGroup>, AllocError>
        ensures presents { let z = self.now.zone in
            let ttl = ttl_among z.records (low z.apex) 6 in
            IfOk result (λ o. OfBoth (λ of g. Presents g of) (parameters_of_chain z.apex ttl z.mode) o) }
        ensures memory { let z = self.now.zone in
            let ttl = ttl_among z.records (low z.apex) 6 in
            OnErr result (IsSome (parameters_of_chain z.apex ttl z.mode)) }
    {
        match self.zone.mode() {
            Mode::Nsec => Ok(None),
            Mode::Nsec3 {
                iterations,
                salt,
                ..
            } => Ok(Some(self.parameters_group(*iterations, salt)?)),
        }
    }

    /// The NSEC3PARAM RRset of iterations and a salt.
    fn parameters_group(
        &self,
        iterations: u16,
        salt: &Nsec3Salt<Vec<u8>>,
    ) -> Result<RrGroup, AllocError>
        ensures { let z = self.now.zone in let ttl = ttl_among z.records (low z.apex) 6 in
            let group = parameters_group z.apex ttl iterations salt.now in
            IfOk result (λ g. Presents g group) }
    {
        let Ok(salt) = Nsec3Salt::from_slice(salt.as_slice()) else {
            unreachable!();
        };
        let mut datas = Vec::new(self.alloc);
        datas.push(written_octets(self.alloc, &Nsec3param::new(1, 0, iterations, salt))?)?;
        let owner = copy_name(self.alloc, self.zone.apex())?;
        let count = owner.rrsig_label_count();
        RrGroup::canonical_form(
            self.alloc,
            owner,
            count,
            Rtype::NSEC3PARAM,
            self.zone.soa_ttl(),
            datas,
        )
    }

    /// The message that answers for an RRset of the apex, signed by the keys of a role.
    pub(super) fn apex_answer<T: Scheme>(
        &self,
        scheme: &T,
        group: &RrGroup,
        role: Publication,
        now: &UnixTime,
    ) -> Result<Vec<u8>, AnswerFault>
        ensures written { let p = self.now in let t = scheme.now in let g = group.now in
            let is = IsAnswer (T.signature_of t) (T.verifies t) p.zone.apex (second_of now.now) in
            let asked = apex_question p.zone.apex g.rtype in
            IfOk result (λ m. is p.life (keys_by_tag p.keys role) 33792 asked (g ∷ []) [] m.items) }
        ensures refused { let p = self.now in let t = scheme.now in let g = group.now in
            let sign = T.signature_of t in let verifies = T.verifies t in
            let refuses = RefusesGroups sign verifies p.zone.apex (second_of now.now) p.life in
            let more = ahead_of_records (apex_question p.zone.apex g.rtype) in
            IfErr result (refuses (keys_by_tag p.keys role) more (g ∷ [])) }
    {
        let keys = self.keys.keys_by_tag(role)?;
        let question = Question {
            name: copy_name(self.alloc, self.zone.apex())?,
            rtype: group.rtype(),
            class: Class::IN,
        };
        compose_answer(
            self.alloc,
            scheme,
            &self.terms(now),
            &keys,
            AUTHORITATIVE,
            &question,
            slice::from_ref(group),
            &[],
        )
    }

    /// What the signatures of an RRset by the keys of a role are made over.
    pub(super) fn apex_inputs(
        &self,
        group: &RrGroup,
        role: Publication,
        now: &UnixTime,
    ) -> Result<Vec<SigningInput>, AllocError>
        ensures { let p = self.now in let keys = keys_by_tag p.keys role in
            let inputs = all_inputs p.zone.apex (second_of now.now) p.life keys in
            IfOk result (λ v. v.items ≡ inputs (group.now ∷ [])) }
    {
        let keys = self.keys.keys_by_tag(role)?;
        let terms = self.terms(now);
        let mut inputs = Vec::new(self.alloc);
        push_inputs(
            self.alloc,
            &mut inputs,
            &terms,
            slice::from_ref(group),
            &keys,
        )?;
        Ok(inputs)
    }
}
