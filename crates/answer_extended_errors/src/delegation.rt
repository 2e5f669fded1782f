//! Why no key is trusted (RFC 4035, 5.2).
ghost use Rattle.std.specs.Prelude.{◌≡◌, IfOk, map};
ghost use Rattle.std.specs.List.{list_any};
ghost use Rattle.definitions.specs.Limits.{pointer_limit};
ghost use Rattle.messages.specs.Record.{spelled};
ghost use Rattle.answer_extended_errors.specs.Extended.{is_made, untrusted_keys};

use crate::error::ExtendedError;
use crate::times::{signatures_over, untimely};
use answer_judge_facts::groups::read_group;
use answer_judge_keys::check_run::CheckRun;
use answer_judge_keys::keys::{read_keys, trusted_keys};
use answer_scheme::checks::Checks;
use answer_scheme::error::SchemeError;
use denial_data::Ds;
use messages::ViewRecord;
use messages::names::{Name, cow_name};
use names_rdata::rtype::Rtype;
use std::alloc::{AllocError, Global};

/// The error where no key that a DS record names signs the keys of a DNSKEY answer's records.
pub(crate) fn untrusted_keys<C: Checks>(
    apex: &Name<Vec<u8>>,
    ds: &[Ds<Vec<u8>>],
    message: &[u8],
    records: &[ViewRecord],
    moment: u32,
    check_run: &mut CheckRun<C>,
) -> Result<ExtendedError, AllocError>
    ensures exact { let a = C.answers check_run.old.checks.now in
        let m = message.now in let rs = map spelled records.now in
        let error = untrusted_keys a pointer_limit apex.now ds.now m rs moment in
        IfOk result (λ e. e ≡ error) }
    ensures rest { check_run.new ≡ record check_run.old { octets = check_run.new.octets } }
{
    let alloc = check_run.alloc;
    if !is_any_made(alloc, ds, &*check_run.checks)? {
        return Ok(ExtendedError::UnsupportedDsDigestType);
    }
    let keys = read_keys(alloc, apex, message, records)?;
    if trusted_keys(apex, ds, &keys, check_run)?.is_empty() {
        return Ok(ExtendedError::DnskeyMissing);
    }
    let mut groups = Vec::with_capacity(alloc, 1)?;
    let owner = cow_name(alloc, apex)?;
    groups.push(read_group(alloc, message, records, owner, Rtype::DNSKEY)?)?;
    let signatures = signatures_over(alloc, apex, message, records, &groups)?;
    Ok(untimely(&signatures, moment).unwrap_or(ExtendedError::DnssecBogus))
}

/// Whether the digest of one of some DS records is of a type that is made.
fn is_any_made<C: Checks>(alloc: Global, ds: &[Ds<Vec<u8>>], checks: &C) -> Result<bool, AllocError>
    ensures { IfOk result (λ b. b ≡ list_any (is_made (C.answers checks.now)) ds.now) }
{
    for record in ds {
        if is_made(alloc, record, checks)? {
            return Ok(true);
        }
    }
    Ok(false)
}

/// Whether the digest of a DS record is of a type that is made (RFC 4034, 5.1.3): that is asked
/// with no octets, since the type alone decides it.
fn is_made<C: Checks>(alloc: Global, ds: &Ds<Vec<u8>>, checks: &C) -> Result<bool, AllocError>
    ensures { IfOk result (λ b. b ≡ is_made (C.answers checks.now) ds.now) }
{
    match checks.digest(alloc, ds.digest_type(), &[]) {
        Ok(_) => Ok(true),
        Err(SchemeError::Failed) => Ok(false),
        Err(SchemeError::Memory) => Err(AllocError),
    }
}
