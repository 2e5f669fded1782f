//! Parts of octets behind their lengths.
ghost use Rattle.std.specs.Prelude.{◌≡◌};
ghost use Rattle.std.specs.Option.{option_map};
ghost use Rattle.names_rdata.specs.Composing.{with_length};
ghost use Rattle.answer_judge_octets.specs.Written.{IsShort, IsLong, Splits, with_long_length};

/// A part behind its length in two octets, and what stands behind it.
pub fn split_short(octets: &[u8]) -> Option<(&[u8], &[u8])>
    ensures { let found = option_map (λ p. (p.0.now, p.1.now)) result in
        Splits IsShort with_length octets.now found }
{
    let (len, rest) = octets.split_first_chunk::<2>()?;
    rest.split_at_checked(usize::from(u16::from_be_bytes(*len)))
}

/// A part behind its length in four octets, and what stands behind it.
pub fn split_long(octets: &[u8]) -> Option<(&[u8], &[u8])>
    ensures { let found = option_map (λ p. (p.0.now, p.1.now)) result in
        Splits IsLong with_long_length octets.now found }
{
    let (len, rest) = octets.split_first_chunk::<4>()?;
    rest.split_at_checked(usize::try_from(u32::from_be_bytes(*len)).ok()?)
}
