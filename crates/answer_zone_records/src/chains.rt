//! The chain of a zone, made once: of names or of hashes.
ghost use Rattle.std.specs.Prelude.{map, IfErr, IfOk};
ghost use Rattle.denial_chain_owners.specs.Conditions.{IsOneClass};
ghost use Rattle.messages.specs.HandedRr.{handed_of};
ghost use Rattle.answer_zone_records.specs.MadeLinks.{IsChain, IsMade, IsUnmade};
ghost use Rattle.answer_terms.specs.ModeView.{mode_of};

use crate::chain::{ChainLink, chain_of};
use crate::hash_chain::{HashParameters, HashedLink, hash_chain_of};
use answer_terms::mode::Mode;
use denial_chain_owners::error::SigningError;
use denial_nsec3_hash::hasher::Nsec3Hasher;
use denial_sorted::sorted::SortedRecords;
use messages::names::Name;
use messages::record::ZoneData;
use std::alloc::Global;

/// The records of a chain in order.
#[derive(Drop)]
pub enum Chain {
    /// NSEC records (RFC 4034, 4).
    Names(Vec<ChainLink>),
    /// NSEC3 records, each with the hash that its owner spells, so that an answer hashes only the
    /// names of its question (RFC 5155, 3).
    Hashes(Vec<HashedLink>),
}

/// The chain of records in order, as the mode says.
pub fn made_chain<H: Nsec3Hasher>(
    alloc: Global,
    apex: &Name<Vec<u8>>,
    records: &SortedRecords<Name<Vec<u8>>, ZoneData>,
    mode: &Mode,
    hasher: &H,
) -> Result<Chain, SigningError>
    requires class { IsOneClass records.now }
    ensures chain { let hash = H.hash_of hasher.now in
        IfOk result (IsChain hash apex.now (mode_of mode.now) (map handed_of records.now)) }
    ensures made { let hash = H.hash_of hasher.now in
        IfOk result (λ _. IsMade hash apex.now (mode_of mode.now) records.now) }
    ensures refused { let hash = H.hash_of hasher.now in
        IfErr result (IsUnmade hash apex.now (mode_of mode.now) records.now) }
{
    match mode {
        Mode::Nsec => match chain_of(alloc, apex, records) {
            Ok(links) => Ok(Chain::Names(links)),
            Err(error) => Err(error),
        },
        Mode::Nsec3 {
            iterations,
            salt,
            opt_out,
        } => {
            let parameters = HashParameters {
                iterations: *iterations,
                salt,
                opt_out: *opt_out,
            };
            match hash_chain_of(alloc, apex, records, &parameters, hasher) {
                Ok(links) => Ok(Chain::Hashes(links)),
                Err(error) => Err(error),
            }
        }
    }
}
