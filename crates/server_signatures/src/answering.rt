//! Answers by a table of signatures.
ghost use Rattle.std.specs.Prelude.{◌≡◌, ◌↔◌, ◌<◌, false, IfErr, IfOk, IsErrOf, length};
ghost use Rattle.answer_publisher.specs.Aliases.{is_answered};
ghost use Rattle.answer_publisher.specs.Inputs.{answer_inputs, keys_inputs};
ghost use Rattle.answer_publisher.specs.World.{world_of};
ghost use Rattle.messages.specs.Questions.{asked_of};
ghost use Rattle.server_signatures.specs.Outcomes.{AnswersEach, AnswersKeysEach, IsSigned};
ghost use Rattle.server_signatures.specs.Outcomes.{LacksParameters, RefusesEach, RefusesKeysEach};
ghost use Rattle.server_signatures.specs.Outcomes.{RefusesParametersEach, SignsParameters};
ghost use Rattle.server_signatures.specs.Outcomes.{is_sign_failed, latest_after};
ghost use Rattle.server_signatures.specs.Table.{missing};

use crate::made::MadeSignature;
use crate::missing::missing;
use crate::table::TableScheme;
use answer_publisher::fault::AnswerFault;
use answer_publisher::publishing::Publisher;
use answer_publisher::signing::SigningInput;
use answer_scheme::Scheme;
use denial_nsec3_hash::hasher::Nsec3Hasher;
use keyset::UnixTime;
use messages::question::Question;

/// What comes of an answer by a table.
#[derive(Debug, Drop)]
pub enum Signed {
    /// The message.
    Message(Vec<u8>),
    /// The table lacks signatures of these octets by these keys: with them in it, and at the same
    /// moment, the message is given.
    Missing(Vec<SigningInput>),
}

/// Answers a question as [`Publisher::answer_any`] does, signed by a table of signatures that were
/// made elsewhere. What the table lacks is asked for, all at once, and nothing is noted. Where it
/// lacks nothing, nothing is asked for.
///
/// A caller begins with no entry, makes what is asked for in any order, puts it into its table and
/// calls again. Entries of other answers do no harm; of two with one key and octets the first
/// counts. Signatures are not verified here.
pub fn answer_by_table<S: Scheme, H: Nsec3Hasher>(
    publisher: &mut Publisher<'_, S, H>,
    table: &[MadeSignature<'_>],
    question: &Question,
    now: &UnixTime,
) -> Result<Signed, AnswerFault>
    ensures signed { let p = publisher.old in let asked = asked_of question.now in
        let w = world_of S.signature_of S.verifies S.digest_of H.hash_of p in
        let inputs = answer_inputs w p.keys now.now asked in
        IfOk result (IsSigned table.now (AnswersEach table.now w p.keys now.now asked) inputs) }
    ensures fault { let p = publisher.old in let asked = asked_of question.now in
        let w = world_of S.signature_of S.verifies S.digest_of H.hash_of p in
        IfErr result (RefusesEach table.now w p.keys now.now asked) }
    ensures allowed { let answered = is_answered publisher.old.zone.apex (asked_of question.now) in
        IsErrOf result AnswerFault.QuestionNotAllowed ↔ (answered ≡ false) }
    ensures noted { let latest = latest_after result publisher.old.latest now.now in
        publisher.new ≡ record publisher.old { latest = latest } }
{
    match publisher.answer_any_with(&TableScheme { table }, question, now) {
        Ok(message) => Ok(Signed::Message(message)),
        Err(fault) => {
            if is_sign_failed(fault) {
                return missing_for(publisher, table, question, now);
            }
            Err(fault)
        }
    }
}

/// What a table lacks for an answer, where it lacks something.
fn missing_for<S: Scheme, H: Nsec3Hasher>(
    publisher: &Publisher<'_, S, H>,
    table: &[MadeSignature<'_>],
    question: &Question,
    now: &UnixTime,
) -> Result<Signed, AnswerFault>
    requires { let p = publisher.now in let asked = asked_of question.now in
        let w = world_of S.signature_of S.verifies S.digest_of H.hash_of p in
        0 < length (missing table.now (answer_inputs w p.keys now.now asked)) }
    ensures signed { let p = publisher.now in let asked = asked_of question.now in
        let w = world_of S.signature_of S.verifies S.digest_of H.hash_of p in
        let inputs = answer_inputs w p.keys now.now asked in
        IfOk result (IsSigned table.now (AnswersEach table.now w p.keys now.now asked) inputs) }
    ensures fault { let p = publisher.now in let asked = asked_of question.now in
        let w = world_of S.signature_of S.verifies S.digest_of H.hash_of p in
        IfErr result (RefusesEach table.now w p.keys now.now asked) }
    ensures allowed { let answered = is_answered publisher.now.zone.apex (asked_of question.now) in
        IsErrOf result AnswerFault.QuestionNotAllowed ↔ (answered ≡ false) }
    ensures unnoted { latest_after result publisher.now.latest now.now ≡ publisher.now.latest }
{
    match publisher.any_signing_inputs(question, now) {
        Ok(inputs) => Ok(Signed::Missing(missing(table, inputs))),
        Err(fault) => Err(fault),
    }
}

/// Gives the DNSKEY answer as [`Publisher::dnskey_answer`] does, signed by a table as
/// [`answer_by_table`] signs.
pub fn dnskey_answer_by_table<S: Scheme, H: Nsec3Hasher>(
    publisher: &Publisher<'_, S, H>,
    table: &[MadeSignature<'_>],
    now: &UnixTime,
) -> Result<Signed, AnswerFault>
    ensures signed { let p = publisher.now in
        let w = world_of S.signature_of S.verifies S.digest_of H.hash_of p in
        let inputs = keys_inputs w p.keys now.now in
        IfOk result (IsSigned table.now (AnswersKeysEach table.now w p.keys now.now) inputs) }
    ensures fault { let p = publisher.now in
        let w = world_of S.signature_of S.verifies S.digest_of H.hash_of p in
        IfErr result (RefusesKeysEach table.now w p.keys now.now) }
{
    match publisher.dnskey_answer_with(&TableScheme { table }, now) {
        Ok(message) => Ok(Signed::Message(message)),
        Err(fault) => {
            if is_sign_failed(fault) {
                return missing_keys_for(publisher, table, now);
            }
            Err(fault)
        }
    }
}

/// What a table lacks for the DNSKEY answer, where it lacks something.
fn missing_keys_for<S: Scheme, H: Nsec3Hasher>(
    publisher: &Publisher<'_, S, H>,
    table: &[MadeSignature<'_>],
    now: &UnixTime,
) -> Result<Signed, AnswerFault>
    requires { let p = publisher.now in
        let w = world_of S.signature_of S.verifies S.digest_of H.hash_of p in
        0 < length (missing table.now (keys_inputs w p.keys now.now)) }
    ensures signed { let p = publisher.now in
        let w = world_of S.signature_of S.verifies S.digest_of H.hash_of p in
        let inputs = keys_inputs w p.keys now.now in
        IfOk result (IsSigned table.now (AnswersKeysEach table.now w p.keys now.now) inputs) }
    ensures fault { let p = publisher.now in
        let w = world_of S.signature_of S.verifies S.digest_of H.hash_of p in
        IfErr result (RefusesKeysEach table.now w p.keys now.now) }
{
    match publisher.dnskey_signing_inputs(now) {
        Ok(inputs) => Ok(Signed::Missing(missing(table, inputs))),
        Err(_) => Err(AnswerFault::Memory),
    }
}

/// Gives the NSEC3PARAM answer as [`Publisher::nsec3param_answer`] does, signed by a table as
/// [`answer_by_table`] signs. A zone with a chain of names has none.
pub fn nsec3param_answer_by_table<S: Scheme, H: Nsec3Hasher>(
    publisher: &Publisher<'_, S, H>,
    table: &[MadeSignature<'_>],
    now: &UnixTime,
) -> Result<Option<Signed>, AnswerFault>
    ensures signed { let p = publisher.now in
        let w = world_of S.signature_of S.verifies S.digest_of H.hash_of p in
        IfOk result (SignsParameters table.now w p.keys now.now) }
    ensures fault { let p = publisher.now in
        let w = world_of S.signature_of S.verifies S.digest_of H.hash_of p in
        IfErr result (RefusesParametersEach table.now w p.keys now.now) }
{
    match publisher.nsec3param_answer_with(&TableScheme { table }, now) {
        Ok(Some(message)) => Ok(Some(Signed::Message(message))),
        Ok(None) => Ok(None),
        Err(fault) => {
            if is_sign_failed(fault) {
                return missing_parameters_for(publisher, table, now);
            }
            Err(fault)
        }
    }
}

/// What a table lacks for the NSEC3PARAM answer, where it lacks something.
fn missing_parameters_for<S: Scheme, H: Nsec3Hasher>(
    publisher: &Publisher<'_, S, H>,
    table: &[MadeSignature<'_>],
    now: &UnixTime,
) -> Result<Option<Signed>, AnswerFault>
    requires { let p = publisher.now in
        let w = world_of S.signature_of S.verifies S.digest_of H.hash_of p in
        LacksParameters table.now w p.keys now.now }
    ensures signed { let p = publisher.now in
        let w = world_of S.signature_of S.verifies S.digest_of H.hash_of p in
        IfOk result (SignsParameters table.now w p.keys now.now) }
    ensures fault { let p = publisher.now in
        let w = world_of S.signature_of S.verifies S.digest_of H.hash_of p in
        IfErr result (RefusesParametersEach table.now w p.keys now.now) }
{
    match publisher.nsec3param_signing_inputs(now) {
        Ok(inputs) => Ok(Some(Signed::Missing(missing(table, inputs)))),
        Err(_) => Err(AnswerFault::Memory),
    }
}

/// Whether a signature was not made.
fn is_sign_failed(fault: AnswerFault) -> bool
    ensures { result ≡ is_sign_failed fault }
{
    matches!(fault, AnswerFault::SignFailed)
}
