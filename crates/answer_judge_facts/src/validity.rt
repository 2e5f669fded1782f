//! How long what signatures verify lasts: how long records may be kept (RFC 4035, 5.3.3), and for
//! how many seconds signatures hold (RFC 4034, 3.1.5).
ghost use Rattle.std.specs.Prelude.{◌≡◌, ◌<◌, ◌+◌, ◌&&◌, MatchOption, false, length, map, ◌-◌, ◌/◌};
ghost use Rattle.std.specs.Prelude.{◌^◌, min};
ghost use Rattle.std.specs.List.{filter_map};
ghost use Rattle.answer_judge_facts.specs.Validity.{held_for, idle_for, least, least_or_max};
ghost use Rattle.answer_judge_facts.specs.Validity.{original_in, own_in, seconds_in, ttls_in};
ghost use Rattle.answer_judge_facts.specs.Validity.{wait_in};
ghost use Rattle.answer_judge_facts.specs.Marked.{times_by, times_in};
ghost use Rattle.answer_judge_facts.specs.Ranked.{AreRanked};
ghost use Rattle.answer_judge_facts.specs.Times.{Times};
ghost use Rattle.definitions.specs.Serial.{serial_le};
ghost use Rattle.messages.specs.Message.{quad};
ghost use Rattle.messages.specs.Record.{spelled};

use crate::facts::is_verified;
use crate::groups::{Signed, SignedRrset, place_of};
use denial_data::Timestamp;
use denial_fields::unix_time::UnixTime;
use messages::ViewRecord;
use names_rdata::rtype::Rtype;
use numbers::class::Class;
use numbers::ttl::Ttl;
use std::time::Duration;

/// How long a verdict lasts.
#[derive(Clone, Copy, Debug, PartialEq, Eq)]
pub struct Validity {
    /// The least of the TTLs of the records that the verdict rests on and of the original TTLs of
    /// their signatures (RFC 4035, 5.3.3).
    pub ttl: Ttl,
    /// For how many seconds more the same messages have the same verdict: up to the end of the
    /// signatures by which they are verified, or to the second before another one of their RRsets
    /// begins to hold.
    pub seconds: u32,
}

impl Validity {
    /// The last second since the beginning of 1970 in which the verdict stands that was given at a
    /// moment.
    pub fn until(&self, moment: UnixTime) -> u64
        ensures { result ≡ min (moment / 1_000_000_000 + self.now.seconds) (2 ^ 64 - 1) }
    {
        Duration::from(moment)
            .as_secs()
            .saturating_add(u64::from(self.seconds))
    }
}

/// Half the circle of serial numbers, in seconds.
const HALF: u32 = 0x8000_0000;

/// When a signature begins to hold and when it ends.
#[derive(Clone, Copy)]
struct Span {
    inception: u32,
    expiration: u32,
}

/// How long what signatures verified of some groups lasts.
pub fn validity_of_groups(
    message: &[u8],
    records: &[ViewRecord],
    groups: &[SignedRrset],
    moment: u32,
) -> Validity
    requires { AreRanked groups.now }
    ensures ttl { result.ttl ≡ least_or_max (ttls_in groups.now (map spelled records.now)) }
    ensures seconds { let rs = map spelled records.now in
        result.seconds ≡ least_or_max (seconds_in moment message.now groups.now rs) }
{
    Validity {
        ttl: Ttl::from_secs(least_ttl(records, groups, least_original(groups))),
        seconds: seconds_of(message, records, groups, moment),
    }
}

/// For how many seconds more the signatures hold that verified some groups, and none of a group
/// begins to.
pub fn seconds_of(
    message: &[u8],
    records: &[ViewRecord],
    groups: &[SignedRrset],
    moment: u32,
) -> u32
    requires { AreRanked groups.now }
    ensures { let rs = map spelled records.now in
        result ≡ least_or_max (seconds_in moment message.now groups.now rs) }
{
    least_wait(message, records, groups, moment, least_held(groups, moment))
}

/// The least of the original TTLs of the signatures that verified some groups.
fn least_original(groups: &[SignedRrset]) -> u32
    ensures { result ≡ least_or_max (filter_map original_in groups.now) }
{
    let mut least = u32::MAX;
    for group in groups {
        if let Some(signed) = &group.verified {
            least = least.min(signed.ttl.as_secs());
        }
    }
    least
}

/// The least of a number and of the TTLs of the records of verified groups. A record of a TTL that
/// is no less is not looked for.
fn least_ttl(records: &[ViewRecord], groups: &[SignedRrset], start: u32) -> u32
    requires { AreRanked groups.now }
    ensures { result ≡ least start (filter_map (own_in groups.now) (map spelled records.now)) }
{
    let mut least = start;
    for record in records {
        let ttl = record.ttl.as_secs();
        if ttl < least
            && record.class == Class::IN
            && is_verified(groups, &record.owner, record.rtype)
        {
            least = ttl;
        }
    }
    least
}

/// For how many seconds more all signatures hold that verified some groups.
fn least_held(groups: &[SignedRrset], moment: u32) -> u32
    ensures { result ≡ least_or_max (map (held_for moment) (filter_map times_by groups.now)) }
{
    let mut least = u32::MAX;
    for group in groups {
        if let Some(signed) = &group.verified {
            least = least.min(held_for(signed, moment));
        }
    }
    least
}

/// For how many seconds more a signature holds that holds at a moment.
fn held_for(signed: &Signed, moment: u32) -> u32
    ensures { result ≡ held_for moment (times_in signed.now) }
{
    let ahead = signed.expiration.wrapping_sub(moment);
    let behind = moment.wrapping_sub(signed.inception);
    ahead.min((HALF - 1).saturating_sub(behind))
}

/// The least of a number and of the seconds for which signatures of some groups go on not to hold.
///
/// One that begins to hold may verify what was not verified, or be the first that does.
fn least_wait(
    message: &[u8],
    records: &[ViewRecord],
    groups: &[SignedRrset],
    moment: u32,
    start: u32,
) -> u32
    requires { AreRanked groups.now }
    ensures { let waits = filter_map (wait_in moment message.now groups.now) in
        result ≡ least start (waits (map spelled records.now)) }
{
    let mut least = start;
    for record in records {
        if let Some(wait) = wait_of(message, record, groups, moment) {
            least = least.min(wait);
        }
    }
    least
}

/// For how many seconds more a signature of one of some groups does not hold; None where it holds,
/// or is none.
fn wait_of(message: &[u8], view: &ViewRecord, groups: &[SignedRrset], moment: u32) -> Option<u32>
    requires { AreRanked groups.now }
    ensures { result ≡ wait_in moment message.now groups.now (spelled view.now) }
{
    if view.rtype != Rtype::RRSIG || view.class != Class::IN {
        return None;
    }
    let span = span_at(message, view.start)?;
    if holds(span, moment) {
        return None;
    }
    let covered = view.signature(message)?.type_covered();
    place_of(groups, &view.owner, covered)?;
    Some(idle_for(span, moment))
}

/// When the signature holds whose data begin at a place, whatever else they say.
fn span_at(message: &[u8], start: usize) -> Option<Span>
    ensures { MatchOption result (length message.now < start + 16)
        (λ s. (s.expiration ≡ quad message.now (start + 8))
        × (s.inception ≡ quad message.now (start + 12))) }
{
    match message.get(start..) {
        Some([_, _, _, _, _, _, _, _, a, b, c, d, e, f, g, h, ..]) => Some(Span {
            expiration: u32::from_be_bytes([*a, *b, *c, *d]),
            inception: u32::from_be_bytes([*e, *f, *g, *h]),
        }),
        _ => None,
    }
}

/// Whether a signature holds at a moment.
fn holds(span: Span, moment: u32) -> bool
    ensures { result ≡ (serial_le span.inception moment && serial_le moment span.expiration) }
{
    let moment = Timestamp::from(moment);
    Timestamp::from(span.inception).is_at_or_before(&moment)
        && moment.is_at_or_before(&Timestamp::from(span.expiration))
}

/// For how many seconds more a signature does not hold that does not hold at a moment.
fn idle_for(span: Span, moment: u32) -> u32
    requires { (serial_le span.inception moment && serial_le moment span.expiration) ≡ false }
    ensures { let times : Times =
        record { inception = span.inception; expiration = span.expiration } in
        result ≡ idle_for moment times }
{
    let inception = Timestamp::from(span.inception);
    if inception.is_at_or_before(&Timestamp::from(moment)) {
        return HALF - moment.wrapping_sub(span.expiration);
    }
    span.inception.wrapping_sub(moment) - 1
}
