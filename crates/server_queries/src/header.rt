//! The header of a request (RFC 1035, 4.1.1).
ghost use Rattle.std.specs.Prelude.{◌≡◌, ◌+◌, ◌<◌, slice_index};
ghost use Rattle.messages.specs.Message.{pair};
ghost use Rattle.server_queries.specs.Headers.{has_flag, is_reply, opcode_of, read_header};

/// What a server looks at in a header: the id and the 16 bits behind it, which are QR, the opcode,
/// AA, TC, RD, RA, Z, AD, CD and the RCODE, from the highest on.
#[derive(Clone, Copy, Debug, PartialEq, Eq)]
pub struct RequestHeader {
    pub id: u16,
    pub flags: u16,
}

impl RequestHeader {
    /// The header of a message; `None` where the octets are fewer than those of a header.
    pub fn read(octets: &[u8]) -> Option<RequestHeader>
        ensures { result ≡ read_header octets.now }
    {
        if octets.len() < 12 {
            return None;
        }
        Some(RequestHeader {
            id: pair_at(octets, 0),
            flags: pair_at(octets, 2),
        })
    }

    /// Whether the message is a reply (QR).
    pub fn is_reply(self) -> bool
        ensures { result ≡ is_reply self }
    {
        has_flag(self.flags, 0x8000)
    }

    /// What is asked of the server; 0 is QUERY.
    pub fn opcode(self) -> u8
        ensures { result ≡ opcode_of self }
    {
        (self.flags / 0x0800 % 16) as u8
    }

    /// Whether recursion is desired (RD).
    pub fn is_recursion_desired(self) -> bool
        ensures { result ≡ has_flag 256 self.flags }
    {
        has_flag(self.flags, 0x0100)
    }

    /// Whether checking of signatures is disabled (CD; RFC 4035, 3.2.2).
    pub fn is_checking_disabled(self) -> bool
        ensures { result ≡ has_flag 16 self.flags }
    {
        has_flag(self.flags, 0x0010)
    }
}

/// Whether a flag is set, given by its worth in the 16 bits.
fn has_flag(flags: u16, worth: u16) -> bool
    requires { 0 < worth }
    ensures { result ≡ has_flag worth flags }
{
    flags / worth % 2 == 1
}

/// How many records stand before the additional section: those of the answer and the authority
/// section.
pub(crate) fn count_before_additional(octets: &[u8]) -> usize
    ensures { result ≡ pair octets.now 6 + pair octets.now 8 }
{
    usize::from(pair_at(octets, 6)) + usize::from(pair_at(octets, 8))
}

/// The 16-bit number at a place, where an octet that is not there counts as 0.
fn pair_at(octets: &[u8], at: usize) -> u16
    requires { at < 12 }
    ensures { result ≡ pair octets.now at }
{
    u16::from(octet_at(octets, at)) * 256 + u16::from(octet_at(octets, at + 1))
}

/// The octet at a place, 0 where it is not there.
fn octet_at(octets: &[u8], at: usize) -> u8
    ensures { result ≡ slice_index octets.now at }
{
    if at < octets.len() { octets[at] } else { 0 }
}
