//! Publishing zones in which aliases stand.
ghost use Rattle.std.specs.Prelude.{◌≡◌, ◌||◌, ◌<◌, ◌↔◌, ◌^◌, None, false, true, map, IfErr, IfOk};
ghost use Rattle.std.specs.Prelude.{IsErrOf, OnErr, OnOk};
ghost use Rattle.std.specs.List.{AllByRecursion};
ghost use Rattle.std.specs.Option.{option_map};
ghost use Rattle.definitions.specs.Name.{IsName};
ghost use Rattle.messages.specs.Handed.{IsHanded};
ghost use Rattle.messages.specs.HandedRr.{handed_of};
ghost use Rattle.messages.specs.Questions.{asked_of};
ghost use Rattle.answer_terms.specs.Accepting.{sorted_records};
ghost use Rattle.answer_terms.specs.Asking.{asks_alias, is_allowed};
ghost use Rattle.answer_terms.specs.ModeView.{mode_of};
ghost use Rattle.denial_laws.specs.Aliases.{is_alias_type};
ghost use Rattle.answer_zone.specs.Finding.{finds};
ghost use Rattle.answer_zone.specs.HashedZone.{accepted_zone};
ghost use Rattle.answer_zone.specs.Questions.{zone_of};
ghost use Rattle.answer_zone.specs.AliasFaults.{IsAcceptedWithAliases, RefusesZoneWithAliases};
ghost use Rattle.answer_publisher.specs.Aliases.{RefusesReplacementWithAliases, alias_in_place};
ghost use Rattle.answer_publisher.specs.Aliases.{alias_of, asks_all, asks_beside, for_type};
ghost use Rattle.answer_publisher.specs.Aliases.{is_answered, may_lead};
ghost use Rattle.answer_publisher.specs.Inputs.{RefusesInputs, answer_inputs};
ghost use Rattle.answer_publisher.specs.Replacing.{is_too_soon, noted};
ghost use Rattle.answer_publisher.specs.World.{AnswersQuestion, HashesNames, RefusesQuestion};
ghost use Rattle.answer_publisher.specs.World.{SpellsAnswer, world_of, world_with, zone_by};
ghost use Rattle.answer_publisher_keys.specs.Bindings.{no_keys};

use crate::fault::{AnswerFault, ReplaceFault, ZoneFault};
use crate::publishing::{Publisher, later, whole_second};
use crate::signing::SigningInput;
use answer_publisher_keys::keys::ZoneKeys;
use answer_scheme::scheme::Scheme;
use answer_terms::mode::Mode;
use answer_terms::question::{asks_alias, is_allowed};
use answer_zone::zone::ZoneRecords;
use denial_nsec3_hash::hasher::Nsec3Hasher;
use keyset::UnixTime;
use messages::names::{Name, copy_name, is_at_or_above};
use messages::question::Question;
use messages::record::ZoneRecord;
use numbers::class::Class;
use numbers::rtype::Rtype;
use std::alloc::{AllocError, Global};

impl<'a, S: Scheme, H: Nsec3Hasher> Publisher<'a, S, H> {
    /// A publisher of records among which aliases may stand that are in order: nothing but what
    /// signing adds beside a CNAME, and one CNAME of an owner (RFC 1034, 3.6.2; RFC 2181, 10.1);
    /// one DNAME of an owner, at no delegation and no wildcard, and nothing below it (RFC 6672,
    /// 2.3, 2.4 and 3.3). Else it is as [`Publisher::new`] makes one, and is refused as there.
    ///
    /// [`Publisher::answer`] says of a name that is an alias what the zone has there beside the
    /// alias; [`Publisher::answer_any`] gives the CNAME or the DNAME RRset, which answers for the
    /// name (RFC 1034, 4.3.2; RFC 6672, 3.2).
    pub fn with_aliases(
        alloc: Global,
        apex: Name<Vec<u8>>,
        records: Vec<ZoneRecord>,
        mode: Mode,
        scheme: &'a S,
        hasher: &'a H,
        limit: u16,
        life: u32,
    ) -> Result<Self, ZoneFault>
        requires { life < 2 ^ 31 }
        ensures zone { let rs = map handed_of records.items in
            IfOk result (λ p. accepted_zone p.zone ≡ zone_by apex (mode_of mode) limit rs) }
        ensures keys { IfOk result (λ p. p.keys ≡ no_keys apex) }
        ensures scheme { IfOk result (λ p. p.scheme.now ≡ scheme.now) }
        ensures hasher { IfOk result (λ p. p.zone.hasher ≡ hasher.now) }
        ensures life { IfOk result (λ p. p.life ≡ life) }
        ensures unanswered { IfOk result (λ p. p.latest ≡ None) }
        ensures accepted { let hash = H.hash_of hasher.now in
            let rs = map handed_of records.items in
            IfOk result (λ p. IsAcceptedWithAliases hash apex (mode_of mode) limit rs) }
        ensures handed { IfOk result
            (λ p. IsName apex × AllByRecursion IsHanded (map handed_of records.items)) }
        ensures fault { let hash = H.hash_of hasher.now in let rs = map handed_of records.items in
            IfErr result (RefusesZoneWithAliases hash apex (mode_of mode) limit rs) }
    {
        let zone = ZoneRecords::with_aliases(alloc, apex, records, mode, limit, hasher)?;
        let Ok(name) = copy_name(alloc, zone.apex()) else {
            return Err(ZoneFault::Memory);
        };
        Ok(Publisher {
            alloc,
            zone,
            keys: ZoneKeys::new(alloc, name),
            scheme,
            life,
            latest: None,
        })
    }

    /// Publishes other records in the place of the zone's, at a moment, as
    /// [`Publisher::replace_zone`] does, but among these aliases may stand that are in order. It is
    /// refused as there, or as [`Publisher::with_aliases`] refuses these records.
    pub fn replace_zone_with_aliases(
        &mut self,
        records: Vec<ZoneRecord>,
        now: &UnixTime,
    ) -> Result<(), ReplaceFault>
        ensures soon { let soon = is_too_soon self.old.latest now.now in
            IsErrOf result ReplaceFault.TooSoon ↔ (soon ≡ true) }
        ensures replaced { let rs = map handed_of records.items in
            OnOk result (self.new ≡ record self.old {
              zone = record self.old.zone { records = sorted_records rs };
            }) }
        ensures accepted { let z = self.old.zone in let rs = map handed_of records.items in
            let hash = H.hash_of z.hasher in
            OnOk result (IsAcceptedWithAliases hash z.apex z.mode z.limit rs) }
        ensures handed { OnOk result (AllByRecursion IsHanded (map handed_of records.items)) }
        ensures refused { OnErr result (self.new ≡ self.old) }
        ensures fault { let z = self.old.zone in let rs = map handed_of records.items in
            let refuses = RefusesReplacementWithAliases (H.hash_of z.hasher) (accepted_zone z) in
            IfErr result (refuses self.old.latest now.now rs) }
    {
        if self.is_too_soon(now) {
            return Err(ReplaceFault::TooSoon);
        }
        Ok(self.zone.replace_records_with_aliases(self.alloc, records)?)
    }

    /// Whether the answer to a question has the RRset that is asked for, by the name itself or by
    /// the wildcard that stands for it (RFC 1034, 4.3.2). Nothing is hashed.
    pub fn finds(&self, question: &Question) -> Result<bool, AllocError>
        ensures { let z = zone_of self.now.zone in let a = asked_of question.now in
            IfOk result (λ b. b ≡ finds z a.name a.rtype) }
    {
        self.zone.finds(self.alloc, &question.name, question.rtype)
    }

    /// The question for the RRset of an alias that answers a question: this one itself, where it is
    /// for a CNAME or a DNAME RRset that the zone has; the CNAME of the name, or of the wildcard
    /// that stands for it; or the DNAME of the nearest name above at which one stands (RFC 1034,
    /// 4.3.2; RFC 6672, 3.2). Where all records are asked for, ANY or RRSIG, the name's own DNAME
    /// answers too. A chain of names has an NSEC record beside each CNAME (RFC 4034, 4): that
    /// answers for itself. No alias answers for types that no zone holds, so not for AXFR (RFC
    /// 6895, 3.1).
    ///
    /// [`Publisher::answer_any`] has the answer to the question that is given here. `None` says
    /// that no alias answers: then [`Publisher::answer`] has the answer. Nothing is hashed.
    pub fn alias_of(&self, question: &Question) -> Result<Option<Question>, AllocError>
        ensures { let z = zone_of self.now.zone in
            let mode = self.now.zone.mode in
            IfOk result (λ o. option_map asked_of o ≡ alias_of mode z (asked_of question.now)) }
    {
        if !self.zone.has_aliases() {
            return Ok(None);
        }
        if !may_lead(self.zone.apex(), question) {
            return Ok(None);
        }
        if !self.finds(question)? {
            return self.alias_in_place(question);
        }
        if is_alias_type(question.rtype) {
            Ok(Some(question_for(self.alloc, question, question.rtype)?))
        } else {
            Ok(None)
        }
    }

    /// The question for the RRset of an alias that answers in the place of one that the zone does
    /// not have.
    fn alias_in_place(&self, question: &Question) -> Result<Option<Question>, AllocError>
        ensures { let z = zone_of self.now.zone in
            let mode = self.now.zone.mode in let a = asked_of question.now in
            IfOk result (λ o. option_map asked_of o ≡ alias_in_place mode z a) }
    {
        if asks_all(question) && self.zone.finds(self.alloc, &question.name, Rtype::DNAME)? {
            return Ok(Some(question_for(self.alloc, question, Rtype::DNAME)?));
        }
        if !self.asks_beside(question)
            && self.zone.finds(self.alloc, &question.name, Rtype::CNAME)?
        {
            return Ok(Some(question_for(self.alloc, question, Rtype::CNAME)?));
        }
        match self.zone.redirecting(self.alloc, &question.name)? {
            Some(name) => Ok(Some(Question {
                name,
                rtype: Rtype::DNAME,
                class: question.class,
            })),
            None => Ok(None),
        }
    }

    /// Whether a question is for the NSEC record of a name with a CNAME of its own, beside which a
    /// chain of names has one (RFC 4034, 4).
    fn asks_beside(&self, question: &Question) -> bool
        ensures { let z = zone_of self.now.zone in
            result ≡ asks_beside self.now.zone.mode z (asked_of question.now) }
    {
        question.rtype == Rtype::NSEC
            && self.zone.links_names()
            && self.zone.has(&question.name, Rtype::CNAME)
    }

    /// The zone's answer to a question at a moment as [`Publisher::answer`] gives it, and as well
    /// to a question for CNAME or DNAME: what the zone says of these types is signed as what it
    /// says of others. The CNAME RRset comes from a wildcard with the proof that the name itself
    /// does not exist, as any other. Its second is noted as there.
    pub fn answer_any(
        &mut self,
        question: &Question,
        now: &UnixTime,
    ) -> Result<Vec<u8>, AnswerFault>
        ensures allowed { let asked = asked_of question.now in
            let answered = is_answered self.old.zone.apex asked in
            IsErrOf result AnswerFault.QuestionNotAllowed ↔ (answered ≡ false) }
        ensures fault { let w = world_of S.signature_of S.verifies S.digest_of H.hash_of self.old in
            let asked = asked_of question.now in
            IfErr result (RefusesQuestion w self.old.keys now.now asked) }
        ensures bytes { let w = world_of S.signature_of S.verifies S.digest_of H.hash_of self.old in
            let asked = asked_of question.now in
            IfOk result (λ m. AnswersQuestion w self.old.keys now.now asked m.items) }
        ensures given { let w = world_of S.signature_of S.verifies S.digest_of H.hash_of self.old in
            let asked = asked_of question.now in
            IfOk result (λ m. SpellsAnswer w self.old.keys now.now asked m.items) }
        ensures hashed { let s = self.old in
            let w = world_of S.signature_of S.verifies S.digest_of H.hash_of s in
            OnOk result (HashesNames w (asked_of question.now)) }
        ensures noted { let latest = noted self.old.latest now.now in
            OnOk result (self.new ≡ record self.old { latest = latest }) }
        ensures refused { OnErr result (self.new ≡ self.old) }
    {
        self.answer_any_with(self.scheme, question, now)
    }

    /// The zone's answer as [`Publisher::answer_any`] gives it, but signed by another scheme, as
    /// where signatures are made elsewhere. Its second is noted as there.
    pub fn answer_any_with<T: Scheme>(
        &mut self,
        scheme: &T,
        question: &Question,
        now: &UnixTime,
    ) -> Result<Vec<u8>, AnswerFault>
        ensures allowed { let asked = asked_of question.now in
            let answered = is_answered self.old.zone.apex asked in
            IsErrOf result AnswerFault.QuestionNotAllowed ↔ (answered ≡ false) }
        ensures fault { let p = self.old in let t = scheme.now in
            let w = world_with T.signature_of T.verifies S.digest_of H.hash_of t p in
            IfErr result (RefusesQuestion w p.keys now.now (asked_of question.now)) }
        ensures bytes { let p = self.old in let t = scheme.now in
            let w = world_with T.signature_of T.verifies S.digest_of H.hash_of t p in
            let asked = asked_of question.now in
            IfOk result (λ m. AnswersQuestion w p.keys now.now asked m.items) }
        ensures given { let p = self.old in let t = scheme.now in
            let w = world_with T.signature_of T.verifies S.digest_of H.hash_of t p in
            let asked = asked_of question.now in
            IfOk result (λ m. SpellsAnswer w p.keys now.now asked m.items) }
        ensures hashed { let p = self.old in let t = scheme.now in
            let w = world_with T.signature_of T.verifies S.digest_of H.hash_of t p in
            OnOk result (HashesNames w (asked_of question.now)) }
        ensures noted { let latest = noted self.old.latest now.now in
            OnOk result (self.new ≡ record self.old { latest = latest }) }
        ensures refused { OnErr result (self.new ≡ self.old) }
    {
        let message = self.any_message(scheme, question, now)?;
        self.latest = Some(later(self.latest, whole_second(now)));
        Ok(message)
    }

    /// The message of an answer to a question that is allowed, or for the records of aliases,
    /// signed by a scheme.
    fn any_message<T: Scheme>(
        &self,
        scheme: &T,
        question: &Question,
        now: &UnixTime,
    ) -> Result<Vec<u8>, AnswerFault>
        ensures allowed { let asked = asked_of question.now in
            let answered = is_answered self.now.zone.apex asked in
            IsErrOf result AnswerFault.QuestionNotAllowed ↔ (answered ≡ false) }
        ensures fault { let p = self.now in let t = scheme.now in
            let w = world_with T.signature_of T.verifies S.digest_of H.hash_of t p in
            IfErr result (RefusesQuestion w p.keys now.now (asked_of question.now)) }
        ensures bytes { let p = self.now in let t = scheme.now in
            let w = world_with T.signature_of T.verifies S.digest_of H.hash_of t p in
            let asked = asked_of question.now in
            IfOk result (λ m. AnswersQuestion w p.keys now.now asked m.items) }
        ensures given { let p = self.now in let t = scheme.now in
            let w = world_with T.signature_of T.verifies S.digest_of H.hash_of t p in
            let asked = asked_of question.now in
            IfOk result (λ m. SpellsAnswer w p.keys now.now asked m.items) }
        ensures hashed { let p = self.now in let t = scheme.now in
            let w = world_with T.signature_of T.verifies S.digest_of H.hash_of t p in
            OnOk result (HashesNames w (asked_of question.now)) }
    {
        if !self.is_answered(question) {
            return Err(AnswerFault::QuestionNotAllowed);
        }
        self.plain_message(scheme, question, now)
    }

    /// What the signatures of [`Publisher::answer_any`] are made over, each with its key, in the
    /// order in which they stand in the message. Nothing is signed and nothing noted.
    pub fn any_signing_inputs(
        &self,
        question: &Question,
        now: &UnixTime,
    ) -> Result<Vec<SigningInput>, AnswerFault>
        ensures inputs { let p = self.now in let asked = asked_of question.now in
            let w = world_of S.signature_of S.verifies S.digest_of H.hash_of p in
            IfOk result (λ v. v.items ≡ answer_inputs w p.keys now.now asked) }
        ensures allowed { let answered = is_answered self.now.zone.apex (asked_of question.now) in
            IsErrOf result AnswerFault.QuestionNotAllowed ↔ (answered ≡ false) }
        ensures fault { let w = world_of S.signature_of S.verifies S.digest_of H.hash_of self.now in
            IfErr result (RefusesInputs w (asked_of question.now)) }
    {
        if !self.is_answered(question) {
            return Err(AnswerFault::QuestionNotAllowed);
        }
        self.plain_inputs(question, now)
    }

    /// Whether a question is allowed, or for the records of aliases.
    fn is_answered(&self, question: &Question) -> bool
        ensures { result ≡ is_answered self.now.zone.apex (asked_of question.now) }
    {
        is_allowed(self.zone.apex(), question) || asks_alias(self.zone.apex(), question)
    }
}

/// Whether a type is that of an alias: CNAME or DNAME (RFC 1034, 3.6.2; RFC 6672).
fn is_alias_type(rtype: Rtype) -> bool
    ensures { result ≡ is_alias_type rtype }
{
    matches!(rtype, Rtype::CNAME | Rtype::DNAME)
}

/// Whether an alias may answer a question: class IN, at or below the apex, for a type that a zone
/// may hold, or for ANY (RFC 6895, 3.1).
fn may_lead(apex: &Name<Vec<u8>>, question: &Question) -> bool
    ensures { result ≡ may_lead apex.now (asked_of question.now) }
{
    question.class == Class::IN
        && is_at_or_above(apex, &question.name)
        && !matches!(question.rtype.to_int(), 0 | 41)
        && !matches!(question.rtype.to_int(), 128..=254)
}

/// Whether a question is for all records of its name, ANY, or for all signatures there, RRSIG.
pub fn asks_all(question: &Question) -> bool
    ensures { result ≡ asks_all (asked_of question.now) }
{
    matches!(question.rtype.to_int(), 46 | 255)
}

/// The question for a type in the place of another.
fn question_for(alloc: Global, question: &Question, rtype: Rtype) -> Result<Question, AllocError>
    ensures { IfOk result (λ q. asked_of q ≡ for_type rtype (asked_of question.now)) }
{
    Ok(Question {
        name: copy_name(alloc, &question.name)?,
        rtype,
        class: question.class,
    })
}
