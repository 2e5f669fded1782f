//! The texts of faults, and the kinds of denial.

use super::options::Options;
use denial::{DenialConfig, HashError, SigningError};
use denial_nsec3_hash::owner_name::HashedOwnerError;
use std::fmt::Display;
use test_lines::Line;

fn texts<F: Display>(line: &mut Line<'_>, faults: &[F]) {
    for fault in faults {
        let text = line.text_of(fault);
        line.mark(&text);
        line.mark("\n");
    }
}

/// The texts of the faults of chains, of hashers and of owners of hashes, in the order in which
/// their enums have them.
pub fn faults(line: &mut Line<'_>) {
    texts(line, &chain_faults());
    texts(line, &[HashError::Failed, HashError::Memory]);
    texts(
        line,
        &[HashedOwnerError::DoesNotFit, HashedOwnerError::Memory],
    );
}

fn chain_faults() -> [SigningError; 6] {
    [
        SigningError::NoSingleSoa,
        SigningError::MultipleTtlValues,
        SigningError::HashFailed,
        SigningError::HashTooLong,
        SigningError::HashCollision,
        SigningError::Memory,
    ]
}

/// Whether a way to deny gaps says that keys are to come.
fn assumes_keys(config: &DenialConfig<Vec<u8>>) -> bool {
    match config {
        DenialConfig::AlreadyPresent => false,
        DenialConfig::Nsec(config) => config.assume_dnskeys_will_be_added,
        DenialConfig::Nsec3(config) => config.assume_dnskeys_will_be_added,
    }
}

/// Whether each of the three ways to deny gaps says so: a chain that is there, one of names, one of
/// hashes.
pub fn ways(line: &mut Line<'_>) {
    let options = Options::read(line, 1);
    line.yes(assumes_keys(&DenialConfig::AlreadyPresent));
    line.yes(assumes_keys(&DenialConfig::Nsec(options.of_names())));
    match options.of_hashes(0, Vec::new(line.alloc())) {
        Some(config) => line.yes(assumes_keys(&DenialConfig::Nsec3(config))),
        None => line.lose(),
    }
    line.mark("\n");
}

/// Whether unsigned delegations are left out of chains with the options of a line.
pub fn excludes(line: &mut Line<'_>) {
    let options = Options::read(line, 1);
    match options.of_hashes(0, Vec::new(line.alloc())) {
        Some(config) => line.yes(config.excludes()),
        None => line.lose(),
    }
    line.mark("\n");
}
