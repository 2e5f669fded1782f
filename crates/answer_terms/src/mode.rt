//! The chain that a zone gets: of names or of hashes.
use denial_fields::salt::Nsec3Salt;

/// The chain that a zone gets.
#[derive(Drop)]
pub enum Mode {
    /// A chain of names (RFC 4034, 4).
    Nsec,
    /// A chain of hashes, SHA-1 ones, with or without opt-out (RFC 5155, 3 and 6).
    Nsec3 {
        iterations: u16,
        salt: Nsec3Salt<Vec<u8>>,
        opt_out: bool,
    },
}
