//! Signatures in octets: those that a caller has made, and those that it is asked for.
ghost use Rattle.std.specs.Prelude.{◌≡◌, ◌++◌, ◌⊎◌, List, map, IfErr, IfOk, OnOk};
ghost use Rattle.std.specs.List.{AllByRecursion};
ghost use Rattle.std.specs.Option.{option_map};
ghost use Rattle.answer_judge_octets.specs.Written.{IsList, Splits};
ghost use Rattle.server_answers.specs.Table.{Made};
ghost use Rattle.server_zone_octets.specs.Entries.{FitsMade, asked, entries_of, made_octets};
ghost use Rattle.server_zone_octets.specs.Entries.{modulus_len, room_for};
ghost use Rattle.server_zone_octets.specs.declared.code.ZoneCode.TheVariants as c;

use crate::code::ZoneCode;
use crate::parts::{put_long, put_short};
use answer_judge_octets::parts::{split_long, split_short};
use answer_terms::dnskey::{Dnskey, ZoneKey, key_of_data};
use server_answers::{MadeSignature, SigningInput};
use std::alloc::{AllocError, Global};

/// The signatures that octets spell, all of them.
pub(crate) fn read_made(alloc: Global, octets: &[u8]) -> Result<Vec<MadeSignature<'_>>, ZoneCode>
    ensures read { IfOk result (λ v. IsList FitsMade made_octets octets.now v.items) }
    ensures unread { let Are = IsList FitsMade made_octets octets.now in
        IfErr result (λ e. (e ≡ c.OutOfMemory)
        ⊎ ((e ≡ c.BadSignatures) × ((table : List Made) → Are table → ⊥))) }
{
    let mut made = Vec::new(alloc);
    let mut rest = octets;
    while !rest.is_empty() {
        let Some((signature, behind)) = split_made(rest) else {
            return Err(ZoneCode::BadSignatures);
        };
        if made.push(signature).is_err() {
            return Err(ZoneCode::OutOfMemory);
        }
        rest = behind;
    }
    Ok(made)
}

/// The signature that stands in front of octets, and what stands behind it.
fn split_made(octets: &[u8]) -> Option<(MadeSignature<'_>, &[u8])>
    ensures { let found = option_map (λ p. (p.0, p.1.now)) result in
        Splits FitsMade made_octets octets.now found }
{
    let (rdata, rest) = split_short(octets)?;
    let key = key_of_data(rdata)?;
    let (signed, rest) = split_long(rest)?;
    let (signature, behind) = split_short(rest)?;
    let made = MadeSignature {
        key,
        octets: signed,
        signature,
    };
    Some((made, behind))
}

/// The entries of signatures that are asked for, each with room for its signature, all of it 0.
pub(crate) fn asked_entries(alloc: Global, inputs: &[SigningInput]) -> Result<Vec<u8>, AllocError>
    ensures octets { IfOk result (λ v. v.items ≡ entries_of inputs.now) }
    ensures fit { OnOk result (AllByRecursion FitsMade (map asked inputs.now)) }
{
    let mut octets = Vec::new(alloc);
    for input in inputs {
        put_asked(alloc, input, &mut octets)?;
    }
    Ok(octets)
}

/// Puts the entry of a signature that is asked for at the end.
fn put_asked(alloc: Global, input: &SigningInput, octets: &mut Vec<u8>) -> Result<(), AllocError>
    ensures octets { let entry = made_octets (asked input.now) in
        OnOk result (octets.new.items ≡ octets.old.items ++ entry) }
    ensures fits { OnOk result (FitsMade (asked input.now)) }
{
    let _flags = input.key.flags();
    let mut rdata = Vec::new(alloc);
    input.key.compose(&mut rdata)?;
    let room = Vec::from_elem(alloc, 0u8, room_for(&input.key))?;
    put_short(octets, &rdata)?;
    put_long(octets, &input.octets)?;
    put_short(octets, &room)
}

/// How many octets a key's signatures have (RFC 3110, 3; RFC 6605, 4; RFC 8080, 4); 0 where it is
/// of another algorithm.
fn room_for(key: &Dnskey<Vec<u8>>) -> usize
    ensures { result ≡ room_for key.now }
{
    match key.algorithm().to_int() {
        5 | 7 | 8 | 10 => modulus_len(key.public_key()),
        13 | 15 => 64,
        14 => 96,
        16 => 114,
        _ => 0,
    }
}

/// How many octets the modulus of an RSA key has: it stands behind the exponent, whose length
/// stands in front, in one octet, or in two behind an octet 0 (RFC 3110, 2).
fn modulus_len(key: &[u8]) -> usize
    ensures { result ≡ modulus_len key.now }
{
    match key {
        [0, a, b, rest @ ..] => {
            let exponent = usize::from(u16::from_be_bytes([*a, *b]));
            rest.len().saturating_sub(exponent)
        }
        [exponent, rest @ ..] => rest.len().saturating_sub(usize::from(*exponent)),
        [] => 0,
    }
}
