//! Signatures: their fields, and the octets that they are made over (RFC 4034, 3.1.8.1; RFC 4035,
//! 5.3.2).

use denial_data::{ProtoRrsig, Rrsig};
use names::{
    ComposeRecordData, Labels, Name, ParseError, ParsedName, Parser, RelativeName, ToRelativeName,
    UnknownRecordData,
};
use plain::Class;
use plain::record::Record;
use test_lines::Line;

type ReadRrsig<'a> = Rrsig<&'a [u8], ParsedName<'a>>;

fn rrsig_of(octets: &[u8]) -> Result<ReadRrsig<'_>, ParseError> {
    Rrsig::parse(&mut Parser::from_ref(octets))
}

/// What a signature says of itself, without its octets.
fn proto_of<'a>(rrsig: &ReadRrsig<'a>) -> ProtoRrsig<ParsedName<'a>> {
    ProtoRrsig::new(
        rrsig.type_covered(),
        rrsig.algorithm(),
        rrsig.labels(),
        rrsig.original_ttl(),
        rrsig.expiration(),
        rrsig.inception(),
        rrsig.key_tag(),
        *rrsig.signer_name(),
    )
}

/// The fields of a signature without its octets, as spelled and in canonical form.
pub fn fields(line: &mut Line<'_>) {
    let octets = line.octets(1);
    match rrsig_of(&octets) {
        Ok(rrsig) => fields_of(line, &proto_of(&rrsig)),
        Err(_) => line.lose(),
    }
}

fn fields_of(line: &mut Line<'_>, proto: &ProtoRrsig<ParsedName<'_>>) {
    let (mut spelled, mut canonical) = (Vec::new(line.alloc()), Vec::new(line.alloc()));
    line.must(proto.compose(&mut spelled));
    line.must(proto.compose_canonical(&mut canonical));
    line.hex(&spelled);
    line.hex(&canonical);
}

/// Whether the fields of two signatures are equal.
pub fn same_fields(line: &mut Line<'_>) {
    let (first, second) = (line.octets(1), line.octets(2));
    match (rrsig_of(&first), rrsig_of(&second)) {
        (Ok(rrsig), Ok(other)) => line.yes(proto_of(&rrsig) == proto_of(&other)),
        _ => line.lose(),
    }
}

/// Data of the same fields with other octets as the signature: how many octets they have, how they
/// stand to the data, and whether they are equal to them once they have the data's signature.
pub fn resigned(line: &mut Line<'_>) {
    let (octets, signature) = (line.octets(1), line.octets(2));
    match rrsig_of(&octets) {
        Ok(rrsig) => match proto_of(&rrsig).into_rrsig(signature.as_slice()) {
            Ok(other) => with_signature(line, &rrsig, other),
            Err(_) => line.lose(),
        },
        Err(_) => line.lose(),
    }
}

fn with_signature<'a>(line: &mut Line<'_>, rrsig: &ReadRrsig<'a>, other: ReadRrsig<'a>) {
    let mut other = other;
    match other.rdlen(false) {
        Some(len) => line.value(&len),
        None => line.lose(),
    }
    line.order(other.cmp(rrsig));
    if Rrsig::fits_rdlen(other.signer_name(), rrsig.signature()) {
        other.set_signature(*rrsig.signature());
    } else {
        line.lose();
    }
    line.mark(", then equal");
    line.yes(other == *rrsig);
}

/// The octets that are signed by a signature, if it is one with the RRset of an owner and data,
/// joined by commas.
pub fn signed(line: &mut Line<'_>) {
    let (octets, owner) = (line.octets(1), line.octets(2));
    match (rrsig_of(&octets), Name::from_slice(owner.as_slice())) {
        (Ok(rrsig), Ok(owner)) => signed_octets(line, &rrsig, &owner),
        _ => line.lose(),
    }
}

fn signed_octets(line: &mut Line<'_>, rrsig: &ReadRrsig<'_>, owner: &Name<&[u8]>) {
    let mut target = Vec::new(line.alloc());
    line.must(proto_of(rrsig).compose_canonical(&mut target));
    let suffix = signed_suffix(line, rrsig, owner);
    for text in line.word(3).split(',') {
        push_record(line, rrsig, owner, &suffix, text, &mut target);
    }
    line.hex(&target);
}

/// Appends a record under the owner that is signed, in canonical form and with the original TTL:
/// the owner, or the wildcard label and its last labels.
fn push_record(
    line: &mut Line<'_>,
    rrsig: &ReadRrsig<'_>,
    owner: &Name<&[u8]>,
    suffix: &Name<&[u8]>,
    text: &str,
    target: &mut Vec<u8>,
) {
    let is_short = suffix.label_count() < owner.label_count();
    let front = if is_short {
        RelativeName::wildcard_ref()
    } else {
        RelativeName::empty_ref()
    };
    let octets = line.read_octets(text);
    let content = UnknownRecordData::from_octets(rrsig.type_covered(), octets);
    match (front.chain(suffix.for_ref()), content) {
        (Ok(owner), Ok(content)) => {
            let record = Record::new(owner, Class::IN, rrsig.original_ttl(), content);
            line.must(record.compose_canonical(target));
        }
        _ => line.lose(),
    }
}

/// The owner; or, where a signature counts fewer labels than it has, so many of its last ones
/// (RFC 4035, 5.3.2).
fn signed_suffix<'a>(
    line: &mut Line<'_>,
    rrsig: &ReadRrsig<'_>,
    owner: &'a Name<&[u8]>,
) -> Name<&'a [u8]> {
    let count = usize::from(rrsig.labels()) + 1;
    let more = owner.label_count().saturating_sub(count);
    if more == 0 || owner.first().is_wildcard() {
        return owner.for_ref();
    }
    match owner.iter_suffixes().nth(more) {
        Some(suffix) => suffix,
        None => {
            line.lose();
            owner.for_ref()
        }
    }
}
