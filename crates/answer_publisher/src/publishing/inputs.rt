//! What the signatures of an answer are made over, for keys that sign elsewhere.
ghost use Rattle.std.specs.Prelude.{◌≡◌, true, IfErr, IfOk, IsErrOf};
ghost use Rattle.definitions.specs.Name.{at_or_above};
ghost use Rattle.answer_publisher.specs.Inputs.{RefusesInputs, answer_inputs, keys_inputs};
ghost use Rattle.answer_publisher.specs.World.{world_of};
ghost use Rattle.answer_zone.specs.Questions.{IsPlain};
ghost use Rattle.messages.specs.Questions.{asked_of};

use crate::fault::AnswerFault;
use crate::publishing::Publisher;
use crate::signing::{SigningInput, push_inputs};
use answer_publisher_keys::keys::Publication;
use answer_scheme::scheme::Scheme;
use answer_terms::question::is_allowed;
use denial_nsec3_hash::hasher::Nsec3Hasher;
use keyset::UnixTime;
use messages::question::Question;
use std::alloc::AllocError;

impl<'a, S: Scheme, H: Nsec3Hasher> Publisher<'a, S, H> {
    /// What the signatures of [`Publisher::answer`] are made over, each with its key, in the order
    /// in which they stand in the message. Nothing is signed and nothing noted.
    pub fn signing_inputs(
        &self,
        question: &Question,
        now: &UnixTime,
    ) -> Result<Vec<SigningInput>, AnswerFault>
        ensures inputs { let p = self.now in let asked = asked_of question.now in
            let w = world_of S.signature_of S.verifies S.digest_of H.hash_of p in
            IfOk result (λ v. v.items ≡ answer_inputs w p.keys now.now asked) }
        ensures fault { let w = world_of S.signature_of S.verifies S.digest_of H.hash_of self.now in
            IfErr result (RefusesInputs w (asked_of question.now)) }
    {
        if !is_allowed(self.zone.apex(), question) {
            return Err(AnswerFault::QuestionNotAllowed);
        }
        self.plain_inputs(question, now)
    }

    /// What the signatures of an answer to a question inside for another type than those of the
    /// chain are made over.
    pub(super) fn plain_inputs(
        &self,
        question: &Question,
        now: &UnixTime,
    ) -> Result<Vec<SigningInput>, AnswerFault>
        requires plain { IsPlain question.now.rtype }
        requires inside { at_or_above self.now.zone.apex question.now.name ≡ true }
        ensures inputs { let p = self.now in let asked = asked_of question.now in
            let w = world_of S.signature_of S.verifies S.digest_of H.hash_of p in
            IfOk result (λ v. v.items ≡ answer_inputs w p.keys now.now asked) }
        ensures fault { let w = world_of S.signature_of S.verifies S.digest_of H.hash_of self.now in
            IfErr result (RefusesInputs w (asked_of question.now)) }
        ensures allowed { IsErrOf result AnswerFault.QuestionNotAllowed → ⊥ }
    {
        let found = self
            .zone
            .answer_to(self.alloc, &question.name, question.rtype)?;
        let which = self.signers_of(question, found.answer.len());
        let keys = self.keys.keys_by_tag(which)?;
        let terms = self.terms(now);
        let mut inputs = Vec::new(self.alloc);
        push_inputs(self.alloc, &mut inputs, &terms, &found.answer, &keys)?;
        push_inputs(self.alloc, &mut inputs, &terms, &found.authority, &keys)?;
        Ok(inputs)
    }

    /// What the signatures of [`Publisher::dnskey_answer`] are made over, each with its key, in the
    /// order in which they stand in the message. Only memory is refused.
    pub fn dnskey_signing_inputs(&self, now: &UnixTime) -> Result<Vec<SigningInput>, AllocError>
        ensures { let w = world_of S.signature_of S.verifies S.digest_of H.hash_of self.now in
            IfOk result (λ v. v.items ≡ keys_inputs w self.now.keys now.now) }
    {
        let group = self.dnskey_group()?;
        self.apex_inputs(&group, Publication::SignsKeys, now)
    }
}
