//! Messages as they are handed in.
ghost use Rattle.std.specs.Prelude.{◌≡◌, ◌<◌};
ghost use Rattle.std.specs.Int.{to_be_bytes, w16};
ghost use Rattle.std.specs.Option.{option_map};
ghost use Rattle.answer_judge_octets.specs.Written.{Splits};
ghost use Rattle.resolution_octets.specs.Sent.{FitsSent, IsTwoOctets, sent_octets};

use answer_judge_octets::list::{Entry, Written};
use answer_judge_octets::parts::{split_long, split_short};
use std::alloc::{AllocError, Global};
use std::marker::Model;

/// A message that is handed in: of which zone, the answer to which name and type.
#[derive(Drop)]
pub(crate) struct SentMessage<'a> {
    /// The name of the zone, as it was handed in.
    pub(crate) zone: &'a [u8],
    /// The name that was asked for, as it was handed in.
    pub(crate) name: &'a [u8],
    pub(crate) rtype: u16,
    pub(crate) octets: &'a [u8],
}

impl<'a> Model for SentMessage<'a> {
    ghost use Rattle.resolution_octets.specs.Sent.{Sent};

    ghost Value = { Sent };

    ghost view = { λ m. record {
      zone = m.zone.now;
      name = m.name.now;
      rtype = m.rtype;
      octets = m.octets.now;
    } };
}

impl<'a> Written for SentMessage<'a> {
    ghost use Rattle.resolution_octets.specs.Sent.{FitsSent, sent_octets};
    ghost use Rattle.resolution_octets.specs.SentOnce.{once_sent, some_sent};

    ghost fits = { FitsSent };

    ghost written = { sent_octets };

    ghost once = { once_sent };

    ghost some = { some_sent };
}

impl<'a> Entry<'a> for SentMessage<'a> {
    fn split_first(
        _alloc: Global,
        octets: &'a [u8],
    ) -> Result<Option<(Self, &'a [u8])>, AllocError> {
        Ok(split_sent(octets))
    }
}

/// The message that stands in front of octets, and what stands behind it.
fn split_sent(octets: &[u8]) -> Option<(SentMessage<'_>, &[u8])>
    ensures { let found = option_map (λ p. (p.0, p.1.now)) result in
        Splits FitsSent sent_octets octets.now found }
{
    let (zone, rest) = split_short(octets)?;
    let (name, rest) = split_short(rest)?;
    let (rtype, rest) = split_number(rest)?;
    let (message, behind) = split_long(rest)?;
    let sent = SentMessage {
        zone,
        name,
        rtype,
        octets: message,
    };
    Some((sent, behind))
}

/// The number of two octets in front, and what stands behind it.
fn split_number(octets: &[u8]) -> Option<(u16, &[u8])>
    ensures { let found = option_map (λ p. (p.0, p.1.now)) result in
        Splits IsTwoOctets (to_be_bytes w16) octets.now found }
{
    let (number, behind) = octets.split_first_chunk::<2>()?;
    Some((u16::from_be_bytes(*number), behind))
}
