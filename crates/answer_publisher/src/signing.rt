//! Signing RRsets (RFC 4034, 3.1.8.1).
ghost use Rattle.std.specs.Prelude.{◌≡◌, ◌+◌, ◌%◌, ◌<◌, ◌++◌, map, IfOk, OnOk, Err, None};
ghost use Rattle.std.specs.List.{AllZip};
ghost use Rattle.definitions.specs.Name.{wire};
ghost use Rattle.definitions.specs.Dnskey.{key_tag};
ghost use Rattle.definitions.specs.Signing.{signed_octets, signed_owner};
ghost use Rattle.answer_terms.specs.GroupView.{FailsFor, IsRrsigData, fields_of, octets_of};
ghost use Rattle.answer_publisher.specs.Inputs.{all_inputs, input, inputs_by, inputs_of};
ghost use Rattle.answer_publisher.specs.Signing.{is_for_parent};
ghost use Rattle.denial_data.specs.Protos as protos;
ghost use Rattle.messages.specs.Questions.{asked_of};
ghost use Rattle.messages.specs.Rrsig.{record_head, with_length};
ghost use Rattle.answer_scheme.specs.declared.error.SchemeError.TheVariants as error;

use answer_scheme::error::SchemeError;
use answer_scheme::scheme::Scheme;
use answer_terms::dnskey::{Dnskey, ZoneKey};
use answer_zone::records::group::RrGroup;
use denial_data::{ProtoRrsig, Timestamp};
use messages::names::{Name, Octets, ToName};
use messages::question::Question;
use messages::signed::{compose_fields, signed_octets};
use numbers::class::Class;
use std::alloc::{AllocError, AllocFailed, Global};
use std::marker::Model;

/// Whether a question is for the CDS or the CDNSKEY RRset of the apex, by which a zone asks its
/// parent for a DS set (RFC 7344, 3).
pub fn is_for_parent(apex: &Name<Vec<u8>>, question: &Question) -> bool
    ensures { result ≡ is_for_parent apex.now (asked_of question.now) }
{
    matches!(question.rtype.to_int(), 59 | 60) && question.name.name_eq(apex)
}

/// The signer of signatures, and the time for which they are made.
#[derive(Clone, Copy, Debug)]
pub struct SignatureTerms<'a> {
    /// The apex of the zone, as it is spelled: the signer.
    pub apex: &'a Name<Vec<u8>>,
    /// When the signatures begin, in seconds.
    pub at: u64,
    /// How many seconds they hold.
    pub life: u32,
}

/// The data of the RRSIG records of an RRset, one of each key in the order of the keys.
pub fn sign_group<S: Scheme, Octs: Octets>(
    alloc: Global,
    scheme: &S,
    terms: &SignatureTerms,
    group: &RrGroup,
    keys: &[Dnskey<Octs>],
) -> Result<Vec<Vec<u8>>, SchemeError>
    ensures made { let sign = S.signature_of scheme.now in
        let verifies = S.verifies scheme.now in let t = terms.now in
        let is = IsRrsigData sign verifies t.apex.now t.at t.life group.now in
        IfOk result (λ ds. AllZip is keys.now (map (λ d. d.items) ds.items)) }
    ensures failed { let sign = S.signature_of scheme.now in let t = terms.now in
        result ≡ Err error.Failed → FailsFor sign t.apex.now t.at t.life group.now keys.now }
{
    let mut signatures = Vec::with_capacity(alloc, keys.len())?;
    for key in keys {
        signatures.push(sign_with(alloc, scheme, terms, group, key)?)?;
    }
    Ok(signatures)
}

/// The data of one key's RRSIG record.
fn sign_with<S: Scheme, Octs: Octets>(
    alloc: Global,
    scheme: &S,
    terms: &SignatureTerms,
    group: &RrGroup,
    key: &Dnskey<Octs>,
) -> Result<Vec<u8>, SchemeError>
    ensures made { let sign = S.signature_of scheme.now in
        let verifies = S.verifies scheme.now in let t = terms.now in
        let is = IsRrsigData sign verifies t.apex.now t.at t.life group.now in
        IfOk result (λ d. is key.now d.items) }
    ensures failed { let sign = S.signature_of scheme.now in let t = terms.now in
        let octets = octets_of t.apex.now t.at t.life group.now key.now in
        result ≡ Err error.Failed → sign key.now octets ≡ None }
{
    let fields = fields_for(terms, group, key);
    let octets = signed_octets(alloc, &fields, group.owner(), Class::IN, group.canonical())?;
    let signature = scheme.sign(alloc, &key.for_ref(), &octets)?;
    let mut data = Vec::new(alloc);
    compose_fields(&fields, &mut data)?;
    data.extend_from_slice(&signature)?;
    Ok(data)
}

/// Octets that are to be signed (RFC 4034, 3.1.8.1), and the key that signs them.
#[derive(Debug, Drop)]
pub struct SigningInput {
    pub key: Dnskey<Vec<u8>>,
    pub octets: Vec<u8>,
}

impl Model for SigningInput {
    ghost use Rattle.answer_publisher.specs.Inputs.{Input, input};

    ghost Value = { Input };

    ghost view = { λ i. input i.key i.octets.items };
}

/// Appends what the signatures of RRsets are made over, RRset by RRset, one of each key.
pub(crate) fn push_inputs<Octs: Octets>(
    alloc: Global,
    inputs: &mut Vec<SigningInput>,
    terms: &SignatureTerms,
    groups: &[RrGroup],
    keys: &[Dnskey<Octs>],
) -> Result<(), AllocError>
    ensures { let t = terms.now in
        let more = all_inputs t.apex.now t.at t.life keys.now groups.now in
        OnOk result (inputs.new.items ≡ inputs.old.items ++ more) }
{
    for group in groups {
        push_group_inputs(alloc, inputs, terms, group, keys)?;
    }
    Ok(())
}

/// Appends what the signatures of an RRset are made over, one of each key, where it is signed.
fn push_group_inputs<Octs: Octets>(
    alloc: Global,
    inputs: &mut Vec<SigningInput>,
    terms: &SignatureTerms,
    group: &RrGroup,
    keys: &[Dnskey<Octs>],
) -> Result<(), AllocError>
    ensures { let t = terms.now in
        let more = inputs_of t.apex.now t.at t.life keys.now group.now in
        OnOk result (inputs.new.items ≡ inputs.old.items ++ more) }
{
    if !group.is_signed() {
        return Ok(());
    }
    push_inputs_of_keys(alloc, inputs, terms, group, keys)
}

/// Appends what the signatures of an RRset by some keys are made over.
fn push_inputs_of_keys<Octs: Octets>(
    alloc: Global,
    inputs: &mut Vec<SigningInput>,
    terms: &SignatureTerms,
    group: &RrGroup,
    keys: &[Dnskey<Octs>],
) -> Result<(), AllocError>
    ensures { let t = terms.now in
        let more = inputs_by t.apex.now t.at t.life group.now keys.now in
        OnOk result (inputs.new.items ≡ inputs.old.items ++ more) }
{
    for key in keys {
        inputs.push(input_for(alloc, terms, group, key)?)?;
    }
    Ok(())
}

/// What the signature of an RRset by a key is made over.
fn input_for<Octs: Octets>(
    alloc: Global,
    terms: &SignatureTerms,
    group: &RrGroup,
    key: &Dnskey<Octs>,
) -> Result<SigningInput, AllocError>
    ensures { let t = terms.now in
        let octets = octets_of t.apex.now t.at t.life group.now key.now in
        IfOk result (λ i. i ≡ input key.now octets) }
{
    let fields = fields_for(terms, group, key);
    Ok(SigningInput {
        key: key.try_clone(alloc)?,
        octets: signed_octets(alloc, &fields, group.owner(), Class::IN, group.canonical())?,
    })
}

/// What one key's signature says of an RRset.
fn fields_for<'a, Octs: Octets>(
    terms: &SignatureTerms<'a>,
    group: &RrGroup,
    key: &Dnskey<Octs>,
) -> ProtoRrsig<&'a Name<Vec<u8>>>
    ensures fields { let t = terms.now in let f = protos.fields_of (λ n. n.now) result in
        f ≡ fields_of t.apex.now t.at t.life group.now key.now }
    ensures tag { key_tag key.now < 65536 }
{
    ProtoRrsig::new(
        group.rtype(),
        key.algorithm(),
        group.label_count(),
        group.ttl(),
        Timestamp::from(serial_after(terms.at, terms.life)),
        Timestamp::from(serial_after(terms.at, 0)),
        key.key_tag(),
        terms.apex,
    )
}

/// A moment some seconds later, as a serial number (RFC 4034, 3.1.5).
fn serial_after(at: u64, seconds: u32) -> u32
    ensures { result ≡ (at + seconds) % 4294967296 }
{
    ((at % 0x1_0000_0000 + u64::from(seconds)) % 0x1_0000_0000) as u32
}
