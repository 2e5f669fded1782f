//! What applying a line to a zone prints: the line that the bench prints for it.
ghost use Rattle.std.specs.Prelude.{◌≡◌, ◌++◌, OnOk, codes, string_bytes};
ghost use Rattle.server_zone_octets.specs.Texts.{applied_text, refusal_text};

use printed_outcomes::named::Named;
use printed_outcomes::print::{push_actions, push_key_fault};
use server_zone::{Applied, Refusal};
use std::alloc::AllocError;

/// Prints what an accepted line answers, without a line feed: `ok` and actions for a call on keys,
/// `ok` for a replacement, nothing for a record, a comment and an empty line.
pub(crate) fn push_applied(out: &mut String, applied: &Applied) -> Result<(), AllocError>
    ensures { OnOk result (string_bytes out.new ≡ string_bytes out.old
        ++ applied_text applied.now) }
{
    match applied {
        Applied::Nothing | Applied::Gathered => Ok(()),
        Applied::Actions(actions) => push_actions(out, actions),
        Applied::Replaced => out.push_str("ok"),
    }
}

/// Prints why a line is refused, without a line feed.
pub(crate) fn push_refusal(out: &mut String, refusal: &Refusal) -> Result<(), AllocError>
    ensures { OnOk result (string_bytes out.new ≡ string_bytes out.old
        ++ refusal_text refusal.now) }
{
    match refusal {
        Refusal::Unreadable(_) => out.push_str("cannot be read"),
        Refusal::ManyLines => out.push_str("refused ManyLines"),
        Refusal::NotOfState => out.push_str("refused NotOfState"),
        Refusal::TooEarly => out.push_str("refused TooEarly"),
        Refusal::Zone(fault) => push_name(out, fault),
        Refusal::Key(fault) => push_key_fault(out, fault),
        Refusal::Replace(fault) => push_name(out, fault),
        Refusal::Memory => out.push_str("refused Memory"),
    }
}

/// Prints a fault by its name.
fn push_name<N: Named>(out: &mut String, fault: &N) -> Result<(), AllocError>
    ensures { OnOk result (string_bytes out.new ≡ string_bytes out.old ++ codes "refused "
        ++ N.name_of fault.now) }
{
    out.push_str("refused ")?;
    out.push_str(fault.name())
}
