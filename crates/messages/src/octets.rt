//! Numbers that stand in octets with the highest octet first (RFC 1035, 2.3.2).
ghost use Rattle.std.specs.Prelude.{◌≡◌, ◌+◌, ◌<◌, ◌≤◌, length, IfErr, IfOk, slice_range};
ghost use Rattle.std.specs.Prelude.{slice_index};
ghost use Rattle.messages.specs.Message.{of_octets, of_pairs, pair, quad, u16_at};
ghost use Rattle.messages.specs.View.{Gives};

use crate::error::MessageError;

/// The 16-bit number at a place.
pub fn u16_at(bytes: &[u8], at: usize) -> Result<u16, MessageError>
    ensures exact { Gives (λ n. n) result (u16_at bytes.now at) }
    ensures inside { IfOk result (λ n. at + 2 ≤ length bytes.now) }
{
    match bytes.get(at..) {
        Some([high, low, ..]) => Ok(of_pair(*high, *low)),
        _ => Err(MessageError::ShortInput),
    }
}

/// The 16-bit number of two octets.
fn of_pair(high: u8, low: u8) -> u16
    ensures { result ≡ of_octets high low }
{
    u16::from(high) * 256 + u16::from(low)
}

/// The 32-bit number of two 16-bit numbers.
fn of_pairs(high: u16, low: u16) -> u32
    ensures { result ≡ of_pairs high low }
{
    u32::from(high) * 65536 + u32::from(low)
}

/// The numbers between a record's owner and its data (RFC 1035, 4.1.3).
#[derive(Clone, Copy)]
pub struct RecordNumbers {
    pub rtype: u16,
    pub class: u16,
    pub ttl: u32,
    pub length: u16,
}

/// The numbers of a record from a place on.
pub fn record_numbers_at(bytes: &[u8], at: usize) -> Result<RecordNumbers, MessageError>
    ensures rtype { IfOk result (λ n. n.rtype ≡ pair bytes.now at) }
    ensures class { IfOk result (λ n. n.class ≡ pair bytes.now (at + 2)) }
    ensures ttl { IfOk result (λ n. n.ttl ≡ quad bytes.now (at + 4)) }
    ensures length { IfOk result (λ n. n.length ≡ pair bytes.now (at + 8)) }
    ensures inside { IfOk result (λ n. at + 10 ≤ length bytes.now) }
    ensures short { IfErr result
        (λ e. (e ≡ MessageError.ShortInput) × (length bytes.now < at + 10)) }
{
    match bytes.get(at..) {
        Some([a, b, c, d, e, f, g, h, i, j, ..]) => Ok(RecordNumbers {
            rtype: of_pair(*a, *b),
            class: of_pair(*c, *d),
            ttl: of_pairs(of_pair(*e, *f), of_pair(*g, *h)),
            length: of_pair(*i, *j),
        }),
        _ => Err(MessageError::ShortInput),
    }
}

/// The octets from one place to another, as far as they are there.
pub fn clipped(bytes: &[u8], from: usize, to: usize) -> &[u8]
    ensures { result.now ≡ slice_range bytes.now from to }
{
    let end = to.min(bytes.len());
    if from < end { &bytes[from..end] } else { &[] }
}
