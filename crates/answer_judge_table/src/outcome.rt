//! What comes of a judgement by a table.
ghost use Rattle.std.specs.Prelude.{◌≡◌, ◌≤◌, ◌+◌, length, true, OnOk};
ghost use Rattle.std.specs.List.{list_any};
ghost use Rattle.answer_scheme.specs.Answers.{SignatureTest};
ghost use Rattle.answer_judge_table.specs.Asking.{KeepsNew, PassesEach};
ghost use Rattle.answer_judge_table.specs.Table.{is_same_try, tried};

use crate::checked::is_same_key;
use answer_judge::{Judgement, Refused};
use answer_terms::dnskey::ZoneKey;
use denial_data::Dnskey;
use std::alloc::{AllocError, Global};
use std::marker::Model;

/// A signature that is to be checked: whether it passes under the key over the octets.
#[derive(Debug, Drop)]
pub struct Ask {
    pub key: Dnskey<Vec<u8>>,
    /// What the signature is to be made over (RFC 4034, 3.1.8.1).
    pub octets: Vec<u8>,
    pub signature: Vec<u8>,
}

impl Model for Ask {
    ghost use Rattle.answer_judge_table.specs.Table.{Tried, tried};

    ghost Value = { Tried };

    ghost view = { λ a. tried a.key a.octets.items a.signature.items };
}

impl Ask {
    ghost use Rattle.std.specs.Prelude.{◌≡◌, IfOk};
    ghost use Rattle.answer_judge_table.specs.Table.{is_same_try, tried};

    /// A copy of what is to be checked.
    pub(crate) fn copied(
        alloc: Global,
        key: &Dnskey<&[u8]>,
        octets: &[u8],
        signature: &[u8],
    ) -> Result<Self, AllocError>
        ensures { IfOk result (λ a. a ≡ tried key.now octets.now signature.now) }
    {
        Ok(Ask {
            key: key.try_clone(alloc)?,
            octets: octets.to_vec(alloc)?,
            signature: signature.to_vec(alloc)?,
        })
    }

    /// Whether it is this signature, to be checked with this key and these octets.
    pub(crate) fn is_of(&self, key: &Dnskey<&[u8]>, octets: &[u8], signature: &[u8]) -> bool
        ensures { result ≡ is_same_try (tried key.now octets.now signature.now) self.now }
    {
        self.signature.as_slice() == signature
            && self.octets.as_slice() == octets
            && is_same_key(&self.key, key)
    }
}

/// Whether a signature is among those that are to be checked.
pub(crate) fn is_among(asks: &[Ask], key: &Dnskey<&[u8]>, octets: &[u8], signature: &[u8]) -> bool
    ensures { let t = tried key.now octets.now signature.now in
        result ≡ list_any (is_same_try t) asks.now }
{
    asks.iter().any(|ask| ask.is_of(key, octets, signature))
}

/// Puts a signature that is to be checked at the end, unless it is there.
pub(crate) fn note(
    alloc: Global,
    asks: &mut Vec<Ask>,
    key: &Dnskey<&[u8]>,
    octets: &[u8],
    signature: &[u8],
) -> Result<(), AllocError>
    ensures new { let t = tried key.now octets.now signature.now in
        KeepsNew t asks.old.items asks.new.items }
    ensures only { (test : SignatureTest) → test key.now octets.now signature.now ≡ true
        → PassesEach asks.old.items test → PassesEach asks.new.items test }
    ensures passes { OnOk result ((test : SignatureTest) → PassesEach asks.new.items test
        → PassesEach asks.old.items test × (test key.now octets.now signature.now ≡ true)) }
    ensures one { length asks.new.items ≤ length asks.old.items + 1 }
    ensures more { length asks.old.items ≤ length asks.new.items }
{
    if is_among(asks, key, octets, signature) {
        return Ok(());
    }
    let ask = Ask::copied(alloc, key, octets, signature)?;
    asks.push(ask)?;
    Ok(())
}

/// What comes of a judgement by a table.
#[derive(Debug, Drop)]
pub enum Outcome {
    /// What the judge says, or why it says nothing.
    Judged(Result<Judgement, Refused>),
    /// The table does not have these signatures: with them in it the judgement goes on.
    Asks(Vec<Ask>),
}
