//! What a server answers a query by.
use keyset::UnixTime;
use server_glue::Addresses;
use server_responses::ResponseSizes;
use server_signatures::MadeSignature;

/// What a server answers a query by, besides the publisher of its zone.
#[derive(Drop)]
pub(crate) struct Server<'a> {
    /// The signatures that were made.
    pub table: &'a [MadeSignature<'a>],
    /// The moment that everything is of that an answer says.
    pub at: UnixTime,
    pub sizes: ResponseSizes,
    /// The addresses of the zone, of which referrals have their glue.
    pub addresses: &'a Addresses,
}
