//! The octets that a signature is made over (RFC 4034, 3.1.8.1).
ghost use Rattle.std.specs.Prelude.{◌≡◌, ◌++◌, map, IfOk, OnOk, OnErr};
ghost use Rattle.definitions.specs.Name.{wire};
ghost use Rattle.denial_data.specs.Protos.{fields_of};
ghost use Rattle.messages.specs.Items.{items_of};
ghost use Rattle.definitions.specs.Signing.{fields_data, signed_octets, signed_owner};
ghost use Rattle.messages.specs.Rrsig.{record_head, record_numbers, spelled_fields, with_length};

use crate::names::{Name, Octets, ToName, ZoneName};
use denial_data::ProtoRrsig;
use names_rdata::rtype::Rtype;
use plain::{Class, Ttl};
use std::alloc::{AllocError, Global};

/// The octets that a signature of an RRset is made over: the fields, then the records in the order
/// given (RFC 4034, 3.1.8.1). An owner with more labels than the fields count is signed as the
/// wildcard from which it was expanded (RFC 4035, 5.3.2). The data are canonical and at most 65,535
/// octets, as a record's are; the length is written modulo 65,536.
pub fn signed_octets<N: ToName, Octs: Octets>(
    alloc: Global,
    fields: &ProtoRrsig<N>,
    owner: &Name<Octs>,
    class: Class,
    canonical: &[Vec<u8>],
) -> Result<Vec<u8>, AllocError>
    ensures { let f = fields_of N.name fields.now in
        IfOk result (λ v. v.items ≡ signed_octets f owner.now class (items_of canonical.now)) }
{
    let mut out = Vec::new(alloc);
    compose_signed_octets(alloc, fields, owner, class, canonical, &mut out)?;
    Ok(out)
}

/// Appends what [`signed_octets`] gives, of data however they are stored, so that callers with many
/// signatures reuse one vector. Where memory runs out, a part may have been appended, and callers
/// drop the vector.
pub fn compose_signed_octets<N: ToName, Octs: Octets, Data: Octets>(
    alloc: Global,
    fields: &ProtoRrsig<N>,
    owner: &Name<Octs>,
    class: Class,
    canonical: &[Data],
    out: &mut Vec<u8>,
) -> Result<(), AllocError>
    ensures ok { let f = fields_of N.name fields.now in
        let octets = signed_octets f owner.now class (map Data.bytes canonical.now) in
        OnOk result (out.new.items ≡ out.old.items ++ octets) }
{
    out.reserve(signed_room(owner, canonical))?;
    compose_signed_fields(fields, out)?;
    for data in canonical {
        compose_signed_record(alloc, fields, owner, class, data.as_slice(), out)?;
    }
    Ok(())
}

/// Room for the fields with the longest signer, and for each record the owner, ten octets and its
/// data.
fn signed_room<Octs: Octets, Data: Octets>(owner: &Name<Octs>, canonical: &[Data]) -> usize {
    let head = owner.as_slice().len().saturating_add(10);
    let mut room = 18 + 255;
    for data in canonical {
        room = head
            .saturating_add(data.as_slice().len())
            .saturating_add(room);
    }
    room
}

/// Writes the fields in the form that is signed, the signer in canonical form.
fn compose_signed_fields<N: ToName>(
    fields: &ProtoRrsig<N>,
    out: &mut Vec<u8>,
) -> Result<(), AllocError>
    ensures ok { let octets = fields_data (fields_of N.name fields.now) in
        OnOk result (out.new.items ≡ out.old.items ++ octets) }
{
    match fields.compose_canonical(out) {
        Ok(()) => Ok(()),
        Err(_) => Err(AllocError),
    }
}

/// Writes the fields in the form that a record has, the signer as spelled (RFC 4034, 3.1). A
/// refused call leaves the target as it was.
pub fn compose_fields<N: ToName>(
    fields: &ProtoRrsig<N>,
    out: &mut Vec<u8>,
) -> Result<(), AllocError>
    ensures ok { let octets = spelled_fields (fields_of N.name fields.now) in
        OnOk result (out.new.items ≡ out.old.items ++ octets) }
    ensures err { OnErr result (out.new.items ≡ out.old.items) }
{
    match fields.compose(out) {
        Ok(()) => Ok(()),
        Err(_) => Err(AllocError),
    }
}

/// Writes a record of a signed RRset.
fn compose_signed_record<N: ToName, Octs: Octets>(
    alloc: Global,
    fields: &ProtoRrsig<N>,
    owner: &Name<Octs>,
    class: Class,
    rdata: &[u8],
    out: &mut Vec<u8>,
) -> Result<(), AllocError>
    ensures ok { let f = fields_of N.name fields.now in
        let head = record_head (signed_owner f.labels owner.now) f.covered class f.ttl in
        OnOk result (out.new.items ≡ out.old.items ++ (head ++ with_length rdata.now)) }
{
    compose_signed_owner(alloc, fields.labels(), owner, out)?;
    out.extend_from_slice(&record_numbers(
        fields.type_covered(),
        class,
        fields.original_ttl(),
        rdata.len(),
    ))?;
    out.extend_from_slice(rdata)
}

/// The numbers between a record's owner and its data (RFC 1035, 4.1.3). The length of the data is
/// taken modulo 65,536.
#[tactic(auto, unfolding(crate::specs::Rrsig::record_numbers))]
pub fn record_numbers(rtype: Rtype, class: Class, ttl: Ttl, len: usize) -> [u8; 10]
    ensures { result ≡ record_numbers rtype class ttl len }
{
    let [a, b] = rtype.to_int().to_be_bytes();
    let [c, d] = class.to_int().to_be_bytes();
    let [e, f, g, h] = ttl.as_secs().to_be_bytes();
    let [i, j] = ((len % 65536) as u16).to_be_bytes();
    [a, b, c, d, e, f, g, h, i, j]
}

/// Writes the owner in canonical form, or the wildcard from which it was expanded (RFC 4035,
/// 5.3.2).
fn compose_signed_owner<Octs: Octets>(
    alloc: Global,
    labels: u8,
    owner: &Name<Octs>,
    out: &mut Vec<u8>,
) -> Result<(), AllocError>
    ensures ok { OnOk result (out.new.items
        ≡ out.old.items ++ wire (signed_owner labels owner.now)) }
{
    if labels >= owner.rrsig_label_count() {
        return owner.compose_canonical(out);
    }
    let source = owner.suffix(alloc, usize::from(labels))?;
    out.extend_from_slice(b"\x01*")?;
    source.compose_canonical(out)
}
