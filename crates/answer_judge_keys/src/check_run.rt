//! What verifies for one judgement.
ghost use Rattle.std.specs.Prelude.{◌≡◌};

use answer_scheme::checks::Checks;
use std::alloc::Global;

/// What verifies for one judgement: the checks, a buffer for what they are asked about, and how
/// many signatures were verified against a key so far.
///
/// The buffer is borrowed, since a struct that owns memory would keep what a caller's proof knows
/// of its checks.
#[derive(Drop)]
pub struct CheckRun<'a, C: Checks> {
    pub alloc: Global,
    pub checks: &'a mut C,
    pub octets: &'a mut Vec<u8>,
    pub count: u32,
}

impl<'a, C: Checks> CheckRun<'a, C> {
    /// A run that has verified nothing yet.
    pub fn new(alloc: Global, checks: &'a mut C, octets: &'a mut Vec<u8>) -> Self
        ensures same_checks { result.checks.ghost_name ≡ checks.entry.ghost_name }
        ensures checks { result.checks.now ≡ checks.old }
        ensures count { result.count ≡ 0 }
    {
        CheckRun {
            alloc,
            checks,
            octets,
            count: 0,
        }
    }
}
