//! The library for C and languages that call C: judgements and walks from bytes to bytes, and the
//! texts of replies. `include/zermuita.h` declares it, and has the calls for C programs on top of
//! it.
#![tactic(auto)]

pub mod calls;
pub mod hasher;
mod texts;

ghost use Rattle.std.specs.Prelude.{◌≡◌, ◌*◌, ◌+◌};
ghost use Rattle.answer_judge_octets.specs.Replying.{AnswersNumber, is_refusal, is_verdict};
ghost use Rattle.resolution_octets.specs.Replying.{AnswersWalk};
ghost use Rattle.zermuita.specs.Texts.{IsTextOf, TellsKind};

use answer_judge_octets::{OctetCase, ReplyCode, Report};
use calls::{judge_counted, resolve_counted};
use resolution_octets::OctetEvidence;
use std::alloc::Global;
use std::marker::Brand;
use std::sync::ledger::Blank;
use texts::text_of;

/// The version of the library: major, minor and patch, as the header and docs/use/CHANGES.md have
/// them.
const VERSION: [u32; 3] = [0, 2, 0];

/// Octets that stand as long as the program runs.
#[repr(C)]
#[derive(Drop)]
pub struct Text {
    pub octets: &'static [u8],
}

/// Judges as [`judge_case`](crate::calls::judge_case) does, with a hasher that is let go by a report
/// which says how many names it hashed. It takes memory by the caller's `malloc`, and keeps none.
#[unsafe(no_mangle)]
pub extern "C" fn zermuita_judge_case(
    alloc: Global,
    case: &OctetCase,
    out: &mut [u8],
    report: &mut Report,
) -> u32
    ensures { AnswersNumber case.now out.old out.new report.old report.new result }
{
    let blank = Blank::new(1);
    judge_counted::<Brand>(alloc, case, out, report, blank)
}

/// Walks as [`resolve_evidence`](crate::calls::resolve_evidence) does, with a hasher that is let go
/// by a report which says how many names it hashed. It takes memory by the caller's `malloc`, and
/// keeps none.
#[unsafe(no_mangle)]
pub extern "C" fn zermuita_resolve_evidence(
    alloc: Global,
    evidence: &OctetEvidence,
    out: &mut [u8],
    report: &mut Report,
) -> u32
    ensures { AnswersWalk evidence.now out.old out.new report.old report.new result }
{
    let blank = Blank::new(1);
    resolve_counted::<Brand>(alloc, evidence, out, report, blank)
}

/// Whether a reply is a verdict, as 1 or 0.
#[unsafe(no_mangle)]
pub extern "C" fn zermuita_is_verdict(reply: u32) -> u32
    ensures { TellsKind is_verdict reply result }
{
    match ReplyCode::from_number(reply) {
        Some(code) => u32::from(code.is_verdict()),
        None => 0,
    }
}

/// Whether a reply says why there is no verdict, as 1 or 0.
#[unsafe(no_mangle)]
pub extern "C" fn zermuita_is_refusal(reply: u32) -> u32
    ensures { TellsKind is_refusal reply result }
{
    match ReplyCode::from_number(reply) {
        Some(code) => u32::from(code.is_refusal()),
        None => 0,
    }
}

/// Writes where the text of a reply stands: its name in C and a sentence, and behind them an octet
/// 0.
#[unsafe(no_mangle)]
pub extern "C" fn zermuita_reply_text(reply: u32, text: &mut Text)
    ensures { IsTextOf reply text.new.octets.now }
{
    text.octets = text_of(reply);
}

/// The version as one number: 65,536 times major and 256 times minor and patch.
#[unsafe(no_mangle)]
pub extern "C" fn zermuita_version() -> u32
    ensures { result ≡ 65536 * 0 + 256 * 2 + 0 }
{
    let [major, minor, patch] = VERSION;
    major << 16 | minor << 8 | patch
}
