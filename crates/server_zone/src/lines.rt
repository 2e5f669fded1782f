//! The whole lines of a text: those that end in a line feed.
ghost use Rattle.std.specs.Prelude.{◌≡◌, ◌++◌, ◌∷◌, ◌==◌, MatchOption, false};
ghost use Rattle.std.specs.List.{position};
ghost use Rattle.server_zone.specs.Lines.{has_feed};

/// Whether a line feed stands in octets.
pub(crate) fn has_feed(octets: &[u8]) -> bool
    ensures { result ≡ has_feed octets.now }
{
    octets.iter().any(|octet| *octet == b'\n')
}

/// Where the first line feed stands.
fn first_feed(octets: &[u8]) -> Option<usize>
    ensures { result ≡ position (λ c. c == 10) octets.now }
{
    octets.iter().position(|octet| *octet == b'\n')
}

/// The first line without its line feed, and what stands behind that; nothing where there is no
/// line feed.
pub(crate) fn split_line(octets: &[u8]) -> Option<(&[u8], &[u8])>
    ensures { MatchOption result (has_feed octets.now ≡ false)
        (λ s. (octets.now ≡ s.0.now ++ 10 ∷ s.1.now) × (has_feed s.0.now ≡ false)) }
{
    match first_feed(octets) {
        Some(end) => Some((&octets[..end], &octets[end + 1..])),
        None => None,
    }
}
