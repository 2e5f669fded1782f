//! Numbers that have words.

use crate::decimals::{number8_of, number16_of};

/// Words of algorithms (RFC 4034, A.1, and those that came behind it).
const ALGORITHMS: [(u8, &str); 20] = [
    (1, "RSAMD5"),
    (2, "DH"),
    (3, "DSA"),
    (4, "ECC"),
    (5, "RSASHA1"),
    (6, "DSA-NSEC3-SHA1"),
    (6, "NSEC3DSA"),
    (7, "RSASHA1-NSEC3-SHA1"),
    (7, "NSEC3RSASHA1"),
    (8, "RSASHA256"),
    (10, "RSASHA512"),
    (12, "ECC-GOST"),
    (12, "ECCGOST"),
    (13, "ECDSAP256SHA256"),
    (14, "ECDSAP384SHA384"),
    (15, "ED25519"),
    (16, "ED448"),
    (252, "INDIRECT"),
    (253, "PRIVATEDNS"),
    (254, "PRIVATEOID"),
];

/// Words of kinds of certificates (RFC 4398, 2.1).
const CERTIFICATES: [(u16, &str); 10] = [
    (1, "PKIX"),
    (2, "SPKI"),
    (3, "PGP"),
    (4, "IPKIX"),
    (5, "ISPKI"),
    (6, "IPGP"),
    (7, "ACPKIX"),
    (8, "IACPKIX"),
    (253, "URI"),
    (254, "OID"),
];

/// The number of an algorithm, by itself or by a word.
pub(crate) fn algorithm_of(text: &str) -> Option<u8> {
    let known = ALGORITHMS
        .iter()
        .find(|known| text.eq_ignore_ascii_case(known.1));
    match known {
        Some((number, _)) => Some(*number),
        None => number8_of(text),
    }
}

/// The number of a kind of certificate, by itself or by a word.
pub(crate) fn certificate_of(text: &str) -> Option<u16> {
    let known = CERTIFICATES
        .iter()
        .find(|known| text.eq_ignore_ascii_case(known.1));
    match known {
        Some((number, _)) => Some(*number),
        None => number16_of(text),
    }
}
