//! Rolls, their phases, and what they ask for.
ghost use Rattle.std.specs.Prelude.{◌≡◌, IfOk};
ghost use Rattle.keyset_rolls.specs.Actions.{actions1, actions2, actions3, actions_in};
ghost use Rattle.keyset_rolls.specs.Actions.{asks_parent_in};
ghost use Rattle.keyset_rolls.specs.Rolls.{conflicts, is_of_ksks, is_of_zsks};

use keyset_keys::Error;
use std::alloc::{AllocError, Global};
use std::str::FromStr;

/// A way to replace keys.
#[derive(Clone, Copy, Debug, PartialEq, Eq, Hash)]
pub enum RollType {
    /// Key signing keys, by publishing the new ones first (RFC 6781, section 4.1.2).
    KskRoll,
    /// Key signing keys, by having the new ones at the parent first (RFC 6781, section 4.1.2).
    KskDoubleDsRoll,
    /// Zone signing keys, by publishing the new ones first (RFC 6781, section 4.1.1.1).
    ZskRoll,
    /// Zone signing keys, by signing with both for a while (RFC 6781, section 4.1.1.2).
    ZskDoubleSignatureRoll,
    /// Key signing, zone signing and combined keys, to any of these (RFC 6781, section 4.1.3).
    CskRoll,
    /// All keys of a zone, for another algorithm (RFC 6781, section 4.1.4).
    AlgorithmRoll,
}

/// One of a roll's two waits.
#[derive(Clone, Copy, Debug, PartialEq, Eq)]
pub enum Turn {
    First,
    Second,
}

/// How far a roll has come.
#[derive(Clone, Copy, Debug, PartialEq, Eq)]
pub enum RollState {
    /// The first changes are on their way to the servers.
    Propagation1,
    /// The first changes are on all servers, and what was served before expires within these
    /// seconds.
    CacheExpire1(u32),
    /// The second changes are on their way to the servers.
    Propagation2,
    /// The second changes are on all servers, and what was served before expires within these
    /// seconds.
    CacheExpire2(u32),
    /// The roll is complete but for its last actions.
    Done,
}

/// What has to be done outside the key set.
#[derive(Clone, Copy, Debug, PartialEq, Eq, Hash)]
pub enum Action {
    /// Publish a CDS RRset (RFC 7344).
    CreateCdsRrset,
    /// Withdraw the CDS RRset.
    RemoveCdsRrset,
    /// Serve the keys that are present as the DNSKEY RRset.
    UpdateDnskeyRrset,
    /// Have the parent serve a DS RRset of the keys at the parent.
    UpdateDsRrset,
    /// Sign the zone with the keys that sign.
    UpdateRrsig,
    /// Report when all servers have the DNSKEY RRset.
    ReportDnskeyPropagated,
    /// Wait until all servers have the DNSKEY RRset.
    WaitDnskeyPropagated,
    /// Report when all servers of the parent have the DS RRset.
    ReportDsPropagated,
    /// Wait until all servers of the parent have the DS RRset.
    WaitDsPropagated,
    /// Report when all servers have the signatures.
    ReportRrsigPropagated,
    /// Wait until all servers have the signatures.
    WaitRrsigPropagated,
}

impl FromStr for RollType {
    type Err = Error;

    ghost use Rattle.std.specs.Prelude.{◌≡◌};
    ghost use Rattle.keyset_rolls.specs.Actions.{read_roll};

    ghost from_str_gives = { λ text r. r ≡ read_roll text };

    fn from_str(text: &str) -> Result<RollType, Error> {
        match text {
            "ksk-roll" => Ok(RollType::KskRoll),
            "ksk-double-ds-roll" => Ok(RollType::KskDoubleDsRoll),
            "zsk-roll" => Ok(RollType::ZskRoll),
            "zsk-double-signature-roll" => Ok(RollType::ZskDoubleSignatureRoll),
            "csk-roll" => Ok(RollType::CskRoll),
            "algorithm-roll" => Ok(RollType::AlgorithmRoll),
            _ => Err(Error::UnknownRollType),
        }
    }
}

impl RollType {
    fn is_of_ksks(self) -> bool
        ensures { result ≡ is_of_ksks self }
    {
        matches!(self, RollType::KskRoll | RollType::KskDoubleDsRoll)
    }

    fn is_of_zsks(self) -> bool
        ensures { result ≡ is_of_zsks self }
    {
        matches!(self, RollType::ZskRoll | RollType::ZskDoubleSignatureRoll)
    }

    /// Whether this roll may not start while the other runs. A roll of key signing keys may run
    /// beside a roll of zone signing keys; all other rolls conflict.
    pub fn conflicts_with(self, running: RollType) -> bool
        ensures { result ≡ conflicts self running }
    {
        !(self.is_of_ksks() && running.is_of_zsks() || self.is_of_zsks() && running.is_of_ksks())
    }

    /// What a roll in this phase asks for.
    pub fn actions_in(
        self,
        alloc: Global,
        phase: Option<RollState>,
    ) -> Result<Vec<Action>, AllocError>
        ensures { IfOk result (λ v. v.items ≡ actions_in self phase) }
    {
        match phase {
            Some(RollState::Propagation1) => self.first_actions(alloc),
            Some(RollState::Propagation2) => self.second_actions(alloc),
            Some(RollState::Done) => self.last_actions(alloc),
            None | Some(RollState::CacheExpire1(_) | RollState::CacheExpire2(_)) => {
                Ok(Vec::new(alloc))
            }
        }
    }

    /// Whether a roll asks the parent for a DS set in this phase: from the actions that create the
    /// CDS RRset on, up to the next actions, which remove it, or to the roll's end (RFC 7344, 4).
    pub fn asks_parent_in(self, phase: Option<RollState>) -> bool
        ensures { result ≡ asks_parent_in self phase }
    {
        match phase {
            Some(RollState::Propagation1 | RollState::CacheExpire1(_) | RollState::Done) => {
                matches!(self, RollType::KskDoubleDsRoll)
            }
            Some(RollState::Propagation2 | RollState::CacheExpire2(_)) => {
                matches!(
                    self,
                    RollType::KskRoll | RollType::CskRoll | RollType::AlgorithmRoll
                )
            }
            None => false,
        }
    }

    fn first_actions(self, alloc: Global) -> Result<Vec<Action>, AllocError>
        ensures { IfOk result (λ v. v.items ≡ actions1 self) }
    {
        let actions = match self {
            RollType::KskRoll | RollType::ZskRoll | RollType::CskRoll => vec![in alloc;
                Action::UpdateDnskeyRrset,
                Action::ReportDnskeyPropagated,
            ]?,
            RollType::KskDoubleDsRoll => vec![in alloc;
                Action::CreateCdsRrset,
                Action::UpdateDsRrset,
                Action::ReportDsPropagated,
            ]?,
            RollType::ZskDoubleSignatureRoll | RollType::AlgorithmRoll => vec![in alloc;
                Action::UpdateDnskeyRrset,
                Action::UpdateRrsig,
                Action::ReportDnskeyPropagated,
                Action::ReportRrsigPropagated,
            ]?,
        };
        Ok(actions)
    }

    fn second_actions(self, alloc: Global) -> Result<Vec<Action>, AllocError>
        ensures { IfOk result (λ v. v.items ≡ actions2 self) }
    {
        let actions = match self {
            RollType::KskRoll | RollType::AlgorithmRoll => vec![in alloc;
                Action::CreateCdsRrset,
                Action::UpdateDsRrset,
                Action::ReportDsPropagated,
            ]?,
            RollType::KskDoubleDsRoll => vec![in alloc;
                Action::RemoveCdsRrset,
                Action::UpdateDnskeyRrset,
                Action::ReportDnskeyPropagated,
            ]?,
            RollType::ZskRoll => vec![in alloc;
                Action::UpdateRrsig,
                Action::ReportRrsigPropagated,
            ]?,
            RollType::ZskDoubleSignatureRoll => vec![in alloc;
                Action::UpdateDnskeyRrset,
                Action::UpdateRrsig,
                Action::ReportDnskeyPropagated,
                Action::ReportRrsigPropagated,
            ]?,
            RollType::CskRoll => vec![in alloc;
                Action::CreateCdsRrset,
                Action::UpdateDsRrset,
                Action::UpdateRrsig,
                Action::ReportDsPropagated,
                Action::ReportRrsigPropagated,
            ]?,
        };
        Ok(actions)
    }

    fn last_actions(self, alloc: Global) -> Result<Vec<Action>, AllocError>
        ensures { IfOk result (λ v. v.items ≡ actions3 self) }
    {
        let actions = match self {
            RollType::KskRoll | RollType::CskRoll => vec![in alloc;
                Action::RemoveCdsRrset,
                Action::UpdateDnskeyRrset,
                Action::WaitDnskeyPropagated,
            ]?,
            RollType::KskDoubleDsRoll => vec![in alloc;
                Action::CreateCdsRrset,
                Action::UpdateDsRrset,
                Action::WaitDsPropagated,
            ]?,
            RollType::ZskRoll => vec![in alloc;
                Action::UpdateDnskeyRrset,
                Action::WaitDnskeyPropagated,
            ]?,
            RollType::ZskDoubleSignatureRoll => Vec::new(alloc),
            RollType::AlgorithmRoll => vec![in alloc;
                Action::RemoveCdsRrset,
                Action::UpdateDnskeyRrset,
                Action::UpdateRrsig,
                Action::WaitDnskeyPropagated,
                Action::WaitRrsigPropagated,
            ]?,
        };
        Ok(actions)
    }
}
