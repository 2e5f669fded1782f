//! The zone that is held for C.

use denial_nsec3_sha1::hasher::Sha1Hasher;
use server_signatures::DigestScheme;
use server_zone::Zone;

/// An open zone whose signatures its caller makes: digests of its DS records are of SHA-256, and
/// names are hashed by SHA-1 (RFC 4509; RFC 5155, 5).
#[derive(Drop)]
pub struct OpenZone {
    pub zone: Zone<'static, DigestScheme, Sha1Hasher>,
}
