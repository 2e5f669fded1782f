//! The records of a response.
ghost use Rattle.std.specs.Prelude.{◌≡◌, ◌++◌, ◌+◌, ◌≤◌, length, drop, map, slice_index, take};
ghost use Rattle.std.specs.Prelude.{OnOk, IfOk};
ghost use Rattle.std.specs.List.{flat_map};
ghost use Rattle.messages.specs.Message.{pair};
ghost use Rattle.messages.specs.Record.{spelled};
ghost use Rattle.messages.specs.Written.{record_octets};
ghost use Rattle.server_responses.specs.Sections.{all_shown, answer_section, authority_section};
ghost use Rattle.server_responses.specs.Sections.{is_left_out, is_soa_or_its_signature, minimum_at};
ghost use Rattle.server_responses.specs.Sections.{negative_ttl, shown, shown_ttl};

use crate::write::push_view_record;
use messages::view::ViewRecord;
use numbers::rtype::Rtype;
use numbers::ttl::Ttl;
use std::alloc::AllocError;

/// What decides the records of a section that a response has, and their TTLs.
#[derive(Debug, Drop)]
pub(crate) struct Section {
    /// Whether it is the authority section.
    pub is_authority: bool,
    /// Whether the client wants records of DNSSEC (DO).
    pub dnssec_ok: bool,
    /// The type that is asked for.
    pub asked: Rtype,
    /// The longest that the SOA record may be kept, where the section has one.
    pub negative_ttl: Option<Ttl>,
}

/// The records of the answer section of a message, which its header counts.
pub(crate) fn answer_section<'r, 'm>(
    message: &[u8],
    records: &'r [ViewRecord<'m>],
) -> &'r [ViewRecord<'m>]
    ensures records { map spelled result.now
        ≡ answer_section message.now (map spelled records.now) }
    ensures few { length result.now ≤ 65535 }
{
    first(records, pair_at(message, 6))
}

/// The records of the authority section of a message, which stand behind those of the answer.
pub(crate) fn authority_section<'r, 'm>(
    message: &[u8],
    records: &'r [ViewRecord<'m>],
) -> &'r [ViewRecord<'m>]
    ensures records { map spelled result.now
        ≡ authority_section message.now (map spelled records.now) }
    ensures few { length result.now ≤ 65535 }
{
    first(behind(records, pair_at(message, 6)), pair_at(message, 8))
}

/// The first records, at most so many.
fn first<'r, 'm>(records: &'r [ViewRecord<'m>], count: u16) -> &'r [ViewRecord<'m>]
    ensures records { result.now ≡ take count records.now }
    ensures few { length result.now ≤ 65535 }
{
    let count = usize::from(count).min(records.len());
    &records[..count]
}

/// The records behind the first ones.
fn behind<'r, 'm>(records: &'r [ViewRecord<'m>], count: u16) -> &'r [ViewRecord<'m>]
    ensures { result.now ≡ drop count records.now }
{
    let count = usize::from(count).min(records.len());
    &records[count..]
}

/// Appends what a response has of the records of a section, and says how many these are.
pub(crate) fn push_section(
    out: &mut Vec<u8>,
    message: &[u8],
    records: &[ViewRecord<'_>],
    section: &Section,
) -> Result<u16, AllocError>
    requires { length records.now ≤ 65535 }
    ensures octets { let shown = all_shown section.now message.now (map spelled records.now) in
        OnOk result (out.new.items ≡ out.old.items ++ flat_map record_octets shown) }
    ensures count { let shown = all_shown section.now message.now (map spelled records.now) in
        IfOk result (λ n. n ≡ length shown) }
{
    let mut count = 0;
    for record in records {
        count += push_shown(out, message, record, section)?;
    }
    Ok(count)
}

/// Appends a record unless the response leaves it out, and says how many were appended.
pub(crate) fn push_shown(
    out: &mut Vec<u8>,
    message: &[u8],
    record: &ViewRecord<'_>,
    section: &Section,
) -> Result<u16, AllocError>
    ensures octets { let shown = shown section.now message.now (spelled record.now) in
        OnOk result (out.new.items ≡ out.old.items ++ flat_map record_octets shown) }
    ensures count { let shown = shown section.now message.now (spelled record.now) in
        IfOk result (λ n. n ≡ length shown) }
    ensures one { IfOk result (λ n. n ≤ 1) }
{
    if is_left_out(section, record.rtype) {
        return Ok(0);
    }
    push_view_record(out, message, record, shown_ttl(section, message, record))?;
    Ok(1)
}

/// Whether a response leaves records of a type out: without DO those that signing adds, unless
/// they are asked for, and in a referral DS records too (RFC 4035, 3.1 and 3.1.4; RFC 3225, 3).
fn is_left_out(section: &Section, rtype: Rtype) -> bool
    ensures { result ≡ is_left_out section.now rtype }
{
    if section.dnssec_ok {
        return false;
    }
    match rtype.to_int() {
        43 => section.is_authority,
        46 | 47 | 50 => section.is_authority || rtype != section.asked,
        _ => false,
    }
}

/// The TTL of a record in a response: of the SOA record in a denial, and of its signatures, no more
/// than the denial is to be kept (RFC 2308, 3).
fn shown_ttl(section: &Section, message: &[u8], record: &ViewRecord<'_>) -> Ttl
    ensures { result ≡ shown_ttl section.now message.now (spelled record.now) }
{
    match section.negative_ttl {
        Some(limit) if is_soa_or_its_signature(message, record) => record.ttl.min(limit),
        _ => record.ttl,
    }
}

/// Whether a record is an SOA record, or the signature of one (RFC 4034, 3.1.1).
fn is_soa_or_its_signature(message: &[u8], record: &ViewRecord<'_>) -> bool
    ensures { result ≡ is_soa_or_its_signature message.now (spelled record.now) }
{
    match record.rtype.to_int() {
        6 => true,
        46 => pair_at(message, record.start) == 6,
        _ => false,
    }
}

/// How long a denial is to be kept: the lesser of the TTL and the minimum of the first SOA record
/// among those of its authority section (RFC 2308, 3).
pub(crate) fn negative_ttl(message: &[u8], records: &[ViewRecord<'_>]) -> Option<Ttl>
    ensures { result ≡ negative_ttl message.now (map spelled records.now) }
{
    for record in records {
        if record.rtype == Rtype::SOA {
            return Some(record.ttl.min(minimum_at(message, record)));
        }
    }
    None
}

/// The last four octets of a record's data, as an SOA record has its minimum there (RFC 1035,
/// 3.3.13).
fn minimum_at(message: &[u8], record: &ViewRecord<'_>) -> Ttl
    ensures { result ≡ minimum_at message.now (spelled record.now) }
{
    let at = (record.start + record.length).saturating_sub(4);
    let upper = u32::from(pair_at(message, at));
    Ttl::from_secs(upper * 0x0001_0000 + u32::from(pair_at(message, at + 2)))
}

/// The 16-bit number at a place, where an octet that is not there counts as 0.
pub(crate) fn pair_at(octets: &[u8], at: usize) -> u16
    ensures { result ≡ pair octets.now at }
{
    if at >= octets.len() {
        return 0;
    }
    u16::from(octets[at]) * 256 + u16::from(octet_at(octets, at + 1))
}

/// The octet at a place, 0 where it is not there.
fn octet_at(octets: &[u8], at: usize) -> u8
    ensures { result ≡ slice_index octets.now at }
{
    if at < octets.len() { octets[at] } else { 0 }
}
