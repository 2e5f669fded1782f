//! What is printed by its name alone.
ghost use Rattle.std.specs.Prelude.{◌≡◌, ℕ, List};
ghost use Rattle.printed_outcomes.specs.Names.{action_name, zone_fault_name, answer_fault_name};
ghost use Rattle.printed_outcomes.specs.Names.{key_fault_name, refusal_name, replace_fault_name};
ghost use Rattle.printed_outcomes.specs.Names.{verdict_name, signing_error_name, key_error_name};

use answer_judge::verdict::{Refusal, Verdict};
use answer_publisher::fault::{AnswerFault, KeyFault, ReplaceFault, ZoneFault};
use denial_chain_owners::error::SigningError;
use keyset::Action;

/// Something that is printed by a name: of a fault within faults, the innermost.
pub trait Named {
    /// The octets of the name.
    ghost name_of: { Self → List ℕ };

    fn name(&self) -> &'static str
        ensures { result.now ≡ name_of self.now };
}

impl Named for Action {
    ghost name_of = { action_name };

    fn name(&self) -> &'static str {
        match self {
            Action::CreateCdsRrset => "CreateCdsRrset",
            Action::RemoveCdsRrset => "RemoveCdsRrset",
            Action::UpdateDnskeyRrset => "UpdateDnskeyRrset",
            Action::UpdateDsRrset => "UpdateDsRrset",
            Action::UpdateRrsig => "UpdateRrsig",
            Action::ReportDnskeyPropagated => "ReportDnskeyPropagated",
            Action::WaitDnskeyPropagated => "WaitDnskeyPropagated",
            Action::ReportDsPropagated => "ReportDsPropagated",
            Action::WaitDsPropagated => "WaitDsPropagated",
            Action::ReportRrsigPropagated => "ReportRrsigPropagated",
            Action::WaitRrsigPropagated => "WaitRrsigPropagated",
        }
    }
}

impl Named for SigningError {
    ghost name_of = { signing_error_name };

    fn name(&self) -> &'static str {
        match self {
            SigningError::NoSingleSoa => "NoSingleSoa",
            SigningError::MultipleTtlValues => "MultipleTtlValues",
            SigningError::HashFailed => "HashFailed",
            SigningError::HashTooLong => "HashTooLong",
            SigningError::HashCollision => "HashCollision",
            SigningError::Memory => "Memory",
        }
    }
}

impl Named for ZoneFault {
    ghost name_of = { zone_fault_name };

    fn name(&self) -> &'static str {
        match self {
            ZoneFault::WrongClass => "WrongClass",
            ZoneFault::OutsideApex => "OutsideApex",
            ZoneFault::SignedType => "SignedType",
            ZoneFault::Alias => "Alias",
            ZoneFault::MetaType => "MetaType",
            ZoneFault::StarNs => "StarNs",
            ZoneFault::IterationsOverLimit => "IterationsOverLimit",
            ZoneFault::Chain(error) => error.name(),
            ZoneFault::Memory => "Memory",
        }
    }
}

impl Named for ReplaceFault {
    ghost name_of = { replace_fault_name };

    fn name(&self) -> &'static str {
        match self {
            ReplaceFault::TooSoon => "TooSoon",
            ReplaceFault::Zone(fault) => fault.name(),
        }
    }
}

impl Named for AnswerFault {
    ghost name_of = { answer_fault_name };

    fn name(&self) -> &'static str {
        match self {
            AnswerFault::QuestionNotAllowed => "QuestionNotAllowed",
            AnswerFault::HashFailed => "HashFailed",
            AnswerFault::SignFailed => "SignFailed",
            AnswerFault::TooLong => "TooLong",
            AnswerFault::Memory => "Memory",
        }
    }
}

impl Named for keyset::Error {
    ghost name_of = { key_error_name };

    fn name(&self) -> &'static str {
        match self {
            keyset::Error::KeyExists => "KeyExists",
            keyset::Error::KeyNotFound => "KeyNotFound",
            keyset::Error::KeyNotOld => "KeyNotOld",
            keyset::Error::DuplicateKeyTag => "DuplicateKeyTag",
            keyset::Error::WrongKeyType => "WrongKeyType",
            keyset::Error::WrongKeyState => "WrongKeyState",
            keyset::Error::NoSuitableKeyPresent => "NoSuitableKeyPresent",
            keyset::Error::WrongStateForRollOperation => "WrongStateForRollOperation",
            keyset::Error::ConflictingRollInProgress => "ConflictingRollInProgress",
            keyset::Error::AlgorithmSetsMismatch => "AlgorithmSetsMismatch",
            keyset::Error::Wait(_) => "Wait",
            keyset::Error::UnknownRollType => "UnknownRollType",
            keyset::Error::MissingTimestamp => "MissingTimestamp",
            keyset::Error::Memory => "Memory",
        }
    }
}

impl Named for KeyFault {
    ghost name_of = { key_fault_name };

    fn name(&self) -> &'static str {
        match self {
            KeyFault::ReferenceBound => "ReferenceBound",
            KeyFault::DigestFailed => "DigestFailed",
            KeyFault::Key(error) => error.name(),
            KeyFault::Memory => "Memory",
        }
    }
}

impl Named for Refusal {
    ghost name_of = { refusal_name };

    fn name(&self) -> &'static str {
        match self {
            Refusal::QuestionNotAllowed => "QuestionNotAllowed",
            Refusal::BadDnskeyMessage => "BadDnskeyMessage",
            Refusal::BadAnswerMessage => "BadAnswerMessage",
            Refusal::QuestionMismatch => "QuestionMismatch",
            Refusal::EqualTags => "EqualTags",
            Refusal::NoTrustedKey => "NoTrustedKey",
            Refusal::MixedNsec3Parameters => "MixedNsec3Parameters",
            Refusal::IterationsOverLimit => "IterationsOverLimit",
            Refusal::HashFailed => "HashFailed",
            Refusal::NotProven => "NotProven",
            Refusal::Memory => "Memory",
            Refusal::MixedVersions => "MixedVersions",
        }
    }
}

impl Named for Verdict {
    ghost name_of = { verdict_name };

    fn name(&self) -> &'static str {
        match self {
            Verdict::Records(_) => "Records",
            Verdict::NoType => "NoType",
            Verdict::NoName => "NoName",
            Verdict::StarRecords(_) => "StarRecords",
            Verdict::StarNoType => "StarNoType",
            Verdict::Delegated => "Delegated",
            Verdict::Open => "Open",
            Verdict::Unsigned => "Unsigned",
        }
    }
}
