//! Both messages of a case, and whether they bring a refusal.
ghost use Rattle.std.specs.Prelude.{◌≡◌, false, IfOk, IfSome};
ghost use Rattle.std.specs.Option.{option_map};
ghost use Rattle.std.specs.Result.{result_ok};
ghost use Rattle.definitions.specs.Limits.{pointer_limit};
ghost use Rattle.messages.specs.Message.{Asked, message};
ghost use Rattle.answer_judge_facts.specs.Marked.{is_chain_type};
ghost use Rattle.answer_judge.specs.Judging.{is_judged, may_ask, same_question};
ghost use Rattle.answer_verified_records.specs.Read.{IsListed, IsReadOf};
ghost use Rattle.answer_verified_records.specs.Records.{messages_in, unrefused};

use answer_judge::Case;
use answer_judge_keys::key_index::KeyIndex;
use answer_judge_keys::keys::{TaggedKey, read_keys};
use answer_terms::question::{asks_alias, is_allowed};
use messages::names::{Name, ToName};
use messages::{MessageView, ViewRecord, read_message_into};
use names_rdata::rtype::Rtype;
use numbers::class::Class;
use std::alloc::{AllocError, Global};

/// A message and its records.
#[derive(Drop)]
pub(crate) struct Listed<'a> {
    pub view: MessageView<'a>,
    pub records: Vec<ViewRecord<'a>>,
}

/// Both messages, and the keys of the first.
#[derive(Drop)]
pub(crate) struct Messages<'a> {
    pub keys: Listed<'a>,
    pub answer: Listed<'a>,
    pub tagged: Vec<TaggedKey<'a>>,
}

/// Both messages of a case, and the keys of the first; none where a judge refuses the case before
/// it looks at a signature, or has nothing to check since the DS set is empty.
pub(crate) fn read_case<'a>(
    alloc: Global,
    case: &Case<'a>,
) -> Result<Option<Messages<'a>>, AllocError>
    ensures exact { IfOk result (λ o.
        option_map (λ v. (v.keys.view, v.answer.view)) o ≡ messages_in pointer_limit case.now) }
    ensures read { IfOk result (λ o. IfSome o (IsReadOf case.now)) }
{
    if !is_judged(case) || case.ds.is_empty() {
        return Ok(None);
    }
    read_messages(alloc, case)
}

/// Whether the question is one that a judge judges.
fn is_judged(case: &Case) -> bool
    ensures { result ≡ is_judged case.now }
{
    case.other_question && asks_alias(case.apex, case.question)
        || is_allowed(case.apex, case.question)
}

/// Both messages of a case and the keys of the first; none where the messages bring a refusal.
fn read_messages<'a>(alloc: Global, case: &Case<'a>) -> Result<Option<Messages<'a>>, AllocError>
    requires other { is_chain_type case.now.asked.rtype ≡ false }
    ensures exact { IfOk result (λ o.
        option_map (λ v. (v.keys.view, v.answer.view)) o ≡ unrefused pointer_limit case.now) }
    ensures read { IfOk result (λ o. IfSome o (IsReadOf case.now)) }
{
    let Some(keys) = read_listed(alloc, case.dnskey)? else {
        return Ok(None);
    };
    let Some(answer) = read_listed(alloc, case.answer)? else {
        return Ok(None);
    };
    if !asks(&keys.view, case.apex, Rtype::DNSKEY, Class::IN) || !may_answer(case, &answer.view) {
        return Ok(None);
    }
    let tagged = read_keys(alloc, case.apex, case.dnskey, &keys.records)?;
    if KeyIndex::new(alloc, &tagged)?.has_equal_tags() {
        return Ok(None);
    }
    Ok(Some(Messages {
        keys,
        answer,
        tagged,
    }))
}

/// A message and its records; none where octets are not one.
fn read_listed<'a>(alloc: Global, bytes: &'a [u8]) -> Result<Option<Listed<'a>>, AllocError>
    ensures exact { IfOk result
        (λ o. option_map (λ l. l.view) o ≡ result_ok (message pointer_limit bytes.now)) }
    ensures listed { IfOk result (λ o. IfSome o IsListed) }
{
    let mut records = Vec::new(alloc);
    let Ok((view, in_memory)) = read_message_into(bytes, &mut records) else {
        return Ok(None);
    };
    in_memory?;
    Ok(Some(Listed { view, records }))
}

/// Whether a message may answer the question of a case.
fn may_answer(case: &Case, view: &MessageView) -> bool
    ensures { result ≡ may_ask case.now view.now.asked }
{
    let question = case.question;
    case.other_question || asks(view, &question.name, question.rtype, question.class)
}

/// Whether a message asks for a name, up to case, a type and a class.
fn asks(view: &MessageView, name: &Name<Vec<u8>>, rtype: Rtype, class: Class) -> bool
    ensures { let asked : Asked = record { name = name.now; rtype = rtype; class = class } in
        result ≡ same_question view.now.asked asked }
{
    let asked = view.question();
    asked.name.name_eq(name) && asked.rtype == rtype && asked.class == class
}
