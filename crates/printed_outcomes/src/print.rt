//! What is printed of an outcome: one line each.
ghost use Rattle.std.specs.Prelude.{◌≡◌, ℕ, List, [], ◌∷◌, ◌++◌, OnOk, string_bytes, decimal};
ghost use Rattle.std.specs.List.{flat_map};
ghost use Rattle.hex.specs.Hex.{encode_lower};
ghost use Rattle.definitions.specs.Dnskey.{key_tag};
ghost use Rattle.printed_outcomes.specs.Names.{action_name};
ghost use Rattle.printed_outcomes.specs.Printed.{octets_text, list_text, actions_text};
ghost use Rattle.printed_outcomes.specs.Printed.{key_error_text, key_refusal, counts_text};
ghost use Rattle.printed_outcomes.specs.Printed.{data_text, judgement_text, judge_refusal};
ghost use Rattle.printed_outcomes.specs.Printed.{outcome_text};

use crate::named::Named;
use answer_judge::verdict::{DataList, Judgement, Refused, Verdict};
use answer_outcomes::outcome::Outcome;
use answer_publisher::fault::KeyFault;
use denial_keys::dnskey::Dnskey;
use denial_keys::ds::Ds;
use keyset::Action;
use std::alloc::AllocError;

/// An item of a printed list.
trait Item {
    /// The item's octets in print.
    ghost text_of: { Self → List ℕ };

    fn push_to(&self, out: &mut String) -> Result<(), AllocError>
        ensures { OnOk result (string_bytes out.new ≡ string_bytes out.old ++ text_of self.now) };
}

impl Item for Action {
    ghost text_of = { action_name };

    fn push_to(&self, out: &mut String) -> Result<(), AllocError> {
        out.push_str(self.name())
    }
}

/// A DS record is printed by its tag.
impl Item for Ds<Vec<u8>> {
    ghost text_of = { λ d. decimal d.tag };

    fn push_to(&self, out: &mut String) -> Result<(), AllocError> {
        let tag = self.key_tag();
        write!(out, "{tag}")
    }
}

/// So is a DNSKEY record.
impl Item for Dnskey<Vec<u8>> {
    ghost text_of = { λ k. decimal (key_tag k) };

    fn push_to(&self, out: &mut String) -> Result<(), AllocError> {
        let tag = self.key_tag();
        write!(out, "{tag}")
    }
}

/// Octets are printed as hexadecimal digits, none as `-`.
impl Item for Vec<u8> {
    ghost text_of = { λ v. octets_text v.items };

    fn push_to(&self, out: &mut String) -> Result<(), AllocError> {
        if self.is_empty() {
            return out.push_str("-");
        }
        let digits = hex::encode(*out.allocator(), self.as_slice())?;
        out.push_str(digits.as_str())
    }
}

/// Prints each item behind a separator.
fn push_each<T: Item>(out: &mut String, separator: &str, items: &[T]) -> Result<(), AllocError>
    ensures { OnOk result (string_bytes out.new ≡ string_bytes out.old
        ++ flat_map (λ x. separator.now ++ T.text_of x) items.now) }
{
    for item in items {
        out.push_str(separator)?;
        item.push_to(out)?;
    }
    Ok(())
}

/// Prints items joined by commas; `-` for none.
fn push_list<T: Item>(out: &mut String, items: &[T]) -> Result<(), AllocError>
    ensures { OnOk result (string_bytes out.new ≡ string_bytes out.old
        ++ list_text T.text_of items.now) }
{
    match items.split_first() {
        None => out.push_str("-"),
        Some((first, others)) => {
            first.push_to(out)?;
            push_each(out, ",", others)
        }
    }
}

/// Prints that a call on keys is accepted, with its actions.
pub fn push_actions(out: &mut String, actions: &[Action]) -> Result<(), AllocError>
    ensures { OnOk result (string_bytes out.new ≡ string_bytes out.old
        ++ actions_text actions.now) }
{
    out.push_str("ok")?;
    push_each(out, " ", actions)
}

fn push_key_error(out: &mut String, error: &keyset::Error) -> Result<(), AllocError>
    ensures { OnOk result (string_bytes out.new ≡ string_bytes out.old
        ++ key_error_text error.now) }
{
    let name = error.name();
    match error {
        keyset::Error::Wait(rest) => {
            let seconds = rest.as_secs();
            write!(out, "Wait {seconds}")
        }
        _ => out.push_str(name),
    }
}

/// Prints why a call on keys is refused.
pub fn push_key_fault(out: &mut String, fault: &KeyFault) -> Result<(), AllocError>
    ensures { OnOk result (string_bytes out.new ≡ string_bytes out.old ++ key_refusal fault.now) }
{
    out.push_str("refused ")?;
    match fault {
        KeyFault::Key(error) => push_key_error(out, error),
        _ => out.push_str(fault.name()),
    }
}

fn push_counts(out: &mut String, verifications: u32, hashes: u32) -> Result<(), AllocError>
    ensures { OnOk result (string_bytes out.new ≡ string_bytes out.old
        ++ counts_text verifications hashes) }
{
    write!(out, " verifications {verifications} hashes {hashes}")
}

fn push_data(out: &mut String, datas: &DataList) -> Result<(), AllocError>
    ensures { OnOk result (string_bytes out.new ≡ string_bytes out.old ++ data_text datas.now) }
{
    out.push_str(" ")?;
    push_list(out, datas.as_slice())
}

fn push_judgement(out: &mut String, judgement: &Judgement) -> Result<(), AllocError>
    ensures { OnOk result (string_bytes out.new ≡ string_bytes out.old
        ++ judgement_text judgement.now) }
{
    out.push_str(judgement.verdict.name())?;
    match &judgement.verdict {
        Verdict::Records(data) | Verdict::StarRecords(data) => push_data(out, data)?,
        Verdict::NoType
        | Verdict::NoName
        | Verdict::StarNoType
        | Verdict::Delegated
        | Verdict::Open
        | Verdict::Unsigned => {}
    }
    push_counts(out, judgement.verifications, judgement.hashes)
}

fn push_refused(out: &mut String, refused: &Refused) -> Result<(), AllocError>
    ensures { OnOk result (string_bytes out.new ≡ string_bytes out.old
        ++ judge_refusal refused.now) }
{
    let name = refused.refusal.name();
    write!(out, "refused {name}")?;
    push_counts(out, refused.verifications, refused.hashes)
}

/// Prints an outcome, without a line feed.
pub fn push_outcome(out: &mut String, outcome: &Outcome) -> Result<(), AllocError>
    ensures { OnOk result (string_bytes out.new ≡ string_bytes out.old
        ++ outcome_text outcome.now) }
{
    match outcome {
        Outcome::Key(Ok(actions)) => push_actions(out, actions),
        Outcome::Key(Err(fault)) => push_key_fault(out, fault),
        Outcome::Replaced(Ok(())) => out.push_str("ok"),
        Outcome::Replaced(Err(fault)) => {
            let name = fault.name();
            write!(out, "refused {name}")
        }
        Outcome::Ds { place, set } => {
            write!(out, "place {place} ")?;
            push_list(out, set)
        }
        Outcome::Cds(set) => {
            out.push_str("tags ")?;
            push_list(out, set)
        }
        Outcome::Cdnskey(set) => {
            out.push_str("tags ")?;
            push_list(out, set)
        }
        Outcome::Message { place, .. } => write!(out, "place {place}"),
        Outcome::Refused(fault) => {
            let name = fault.name();
            write!(out, "refused {name}")
        }
        Outcome::Judged(Ok(judgement)) => push_judgement(out, judgement),
        Outcome::Judged(Err(refused)) => push_refused(out, refused),
        Outcome::BadPlace => out.push_str("BadPlace"),
    }
}

/// Prints outcomes, each in a line of its own.
pub fn push_outcomes(out: &mut String, outcomes: &[Outcome]) -> Result<(), AllocError>
    ensures { OnOk result (string_bytes out.new ≡ string_bytes out.old
        ++ flat_map (λ o. outcome_text o ++ 10 ∷ []) outcomes.now) }
{
    for outcome in outcomes {
        push_outcome(out, outcome)?;
        out.push_str("\n")?;
    }
    Ok(())
}
