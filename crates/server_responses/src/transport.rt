//! How long a response may be.
ghost use Rattle.std.specs.Prelude.{◌≡◌};
ghost use Rattle.server_responses.specs.Limits.{size_limit};

use server_queries::Edns;

/// What carries a response.
#[derive(Clone, Copy, Debug, PartialEq, Eq)]
pub enum Transport {
    /// TCP, or another stream (RFC 7766).
    Stream,
    /// UDP, by which this server sends no more octets than a limit (RFC 9715, 3).
    Datagram { limit: u16 },
}

/// The sizes that a response is made by.
#[derive(Clone, Copy, Debug, PartialEq, Eq)]
pub struct ResponseSizes {
    /// How many octets the response may have, as [`size_limit`] says.
    pub limit: u16,
    /// How many octets this server takes by UDP, as the OPT record of the response says (RFC 6891,
    /// 6.2.3).
    pub udp_size: u16,
}

/// How many octets a response may have: 65,535 by a stream; by a datagram no more than the server's
/// limit and than what the OPT record of the query says, but at least 512 (RFC 1035, 2.3.4 and
/// 4.2.2; RFC 6891, 6.2.3 to 6.2.5).
pub fn size_limit(transport: Transport, edns: Option<Edns>) -> u16
    ensures { result ≡ size_limit transport edns }
{
    match transport {
        Transport::Stream => 65535,
        Transport::Datagram { limit } => match edns {
            Some(edns) => edns.udp_size.min(limit).max(512),
            None => 512,
        },
    }
}
