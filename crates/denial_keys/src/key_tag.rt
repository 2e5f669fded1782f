//! Key tags (RFC 4034, B).

ghost use Rattle.std.specs.Prelude.{◌≡◌, ◌%◌};
ghost use Rattle.definitions.specs.Dnskey.{rsamd5_tag, sum16, tag_of_sum};

/// The tag of a key of algorithm 1: the upper two of its last three octets (RFC 4034, B.1).
pub(crate) fn rsamd5_tag(octets: &[u8]) -> u16
    ensures { result ≡ rsamd5_tag octets.now }
{
    let len = octets.len();
    if len < 3 {
        0
    } else {
        u16::from(octets[len - 3]) * 256 + u16::from(octets[len - 2])
    }
}

/// The sum of octets as 16-bit numbers. A tag needs it modulo 2^32 only.
pub(crate) fn sum_of(octets: &[u8]) -> u32
    ensures { result ≡ sum16 octets.now % 4294967296 }
{
    let mut rest = octets;
    let mut sum = 0u32;
    while let [high, low, behind @ ..] = rest {
        sum = sum.wrapping_add(u32::from(*high) * 256 + u32::from(*low));
        rest = behind;
    }
    match rest {
        [last, ..] => sum.wrapping_add(u32::from(*last) * 256),
        [] => sum,
    }
}

/// The tag of a sum: the upper half is added to the lower half once.
pub(crate) fn tag_of_sum(sum: u32) -> u16
    ensures { result ≡ tag_of_sum sum }
{
    let sum = u64::from(sum);
    ((sum + sum / 65536) % 65536) as u16
}
