//! The signatures of some RRsets, and whether they hold at a moment (RFC 4034, 3.1.5).
ghost use Rattle.std.specs.Prelude.{◌≡◌, IfOk, map};
ghost use Rattle.std.specs.List.{list_any};
ghost use Rattle.std.specs.Option.{option_map};
ghost use Rattle.definitions.specs.Name.{same};
ghost use Rattle.definitions.specs.Limits.{pointer_limit};
ghost use Rattle.definitions.specs.Signing.{in_time};
ghost use Rattle.messages.specs.Record.{fields_of, fields_read, spelled};
ghost use Rattle.answer_judge_facts.specs.Ranked.{AreRanked};
ghost use Rattle.answer_extended_errors.specs.Extended.{has_expired, is_early, signature_at};
ghost use Rattle.answer_extended_errors.specs.Extended.{signatures_of, untimely};
ghost use Rattle.answer_extended_errors.specs.Groups.{is_among};

use crate::error::ExtendedError;
use answer_judge_facts::groups::{SignedRrset, place_of};
use answer_judge_keys::trust::Signature;
use denial_data::Timestamp;
use messages::names::{Name, ToName};
use messages::{Owner, ViewRecord};
use names_rdata::rtype::Rtype;
use numbers::class::Class;
use std::alloc::{AllocError, Global};

/// Whether a signature has expired at a moment.
pub fn has_expired(signature: &Signature, now: u32) -> bool
    ensures { result ≡ has_expired now (fields_of signature.now) }
{
    !Timestamp::from(now).is_at_or_before(&signature.expiration())
}

/// Whether a signature does not hold yet at a moment.
pub fn is_early(signature: &Signature, now: u32) -> bool
    ensures { result ≡ is_early now (fields_of signature.now) }
{
    !signature.inception().is_at_or_before(&Timestamp::from(now))
}

/// Whether a signature holds at a moment.
fn holds(signature: &Signature, now: u32) -> bool
    ensures { result ≡ in_time (fields_of signature.now) now }
{
    let now = Timestamp::from(now);
    signature.inception().is_at_or_before(&now) && now.is_at_or_before(&signature.expiration())
}

/// The signatures of the apex over some RRsets, in the order of the message.
pub(crate) fn signatures_over<'m>(
    alloc: Global,
    apex: &Name<Vec<u8>>,
    message: &'m [u8],
    records: &[ViewRecord],
    groups: &[SignedRrset],
) -> Result<Vec<Signature<'m>>, AllocError>
    requires { AreRanked groups.now }
    ensures { let m = message.now in let rs = map spelled records.now in
        let found = signatures_of pointer_limit m apex.now (is_among groups.now) rs in
        IfOk result (λ v. map fields_of v.items ≡ found) }
{
    let mut signatures = Vec::new(alloc);
    for record in records {
        if let Some(signature) = signature_over(apex, message, record, groups) {
            signatures.push(signature)?;
        }
    }
    Ok(signatures)
}

/// The signature that a record is, where it is the apex's over one of some RRsets.
///
/// The signature of another zone says nothing of this one's records (RFC 4035, 5.3.1).
fn signature_over<'m>(
    apex: &Name<Vec<u8>>,
    message: &'m [u8],
    view: &ViewRecord,
    groups: &[SignedRrset],
) -> Option<Signature<'m>>
    requires { AreRanked groups.now }
    ensures { let found = signature_at pointer_limit message.now apex.now (is_among groups.now) in
        option_map fields_of result ≡ found (spelled view.now) }
{
    if view.rtype != Rtype::RRSIG || view.class != Class::IN {
        return None;
    }
    let signature = view.signature(message)?;
    if !is_over_one(groups, &view.owner, &signature) {
        return None;
    }
    if !is_signed_by(&signature, apex) {
        return None;
    }
    Some(signature)
}

/// Whether a signature covers the type of one of some RRsets of an owner.
fn is_over_one(groups: &[SignedRrset], owner: &Owner, signature: &Signature) -> bool
    requires { AreRanked groups.now }
    ensures { result ≡ is_among groups.now owner.now (fields_read signature.now).covered }
{
    match place_of(groups, owner, signature.type_covered()) {
        None => false,
        Some(_) => true,
    }
}

/// Whether the signer of a signature is a zone.
fn is_signed_by(signature: &Signature, apex: &Name<Vec<u8>>) -> bool
    ensures { result ≡ same (fields_read signature.now).signer apex.now }
{
    signature.signer_name().name_eq(apex)
}

/// Whether one of some signatures holds at a moment.
fn one_holds(signatures: &[Signature], now: u32) -> bool
    ensures { result ≡ list_any (λ s. in_time (fields_of s) now) signatures.now }
{
    signatures.iter().any(|signature| holds(signature, now))
}

/// Whether one of some signatures has expired at a moment.
fn one_has_expired(signatures: &[Signature], now: u32) -> bool
    ensures { result ≡ list_any (λ s. has_expired now (fields_of s)) signatures.now }
{
    signatures
        .iter()
        .any(|signature| has_expired(signature, now))
}

/// Why none of the signatures of some RRsets can be used at a moment, if none can.
pub(crate) fn untimely(signatures: &[Signature], now: u32) -> Option<ExtendedError>
    ensures { result ≡ untimely now (map fields_of signatures.now) }
{
    if signatures.is_empty() {
        return Some(ExtendedError::RrsigsMissing);
    }
    if one_holds(signatures, now) {
        return None;
    }
    if one_has_expired(signatures, now) {
        return Some(ExtendedError::SignatureExpired);
    }
    Some(ExtendedError::SignatureNotYetValid)
}
