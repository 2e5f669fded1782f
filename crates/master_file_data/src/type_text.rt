//! Names of record types.

use names_rdata::rtype::Rtype;
use std::fmt;

/// Types that have a name, by number.
const NAMED: [(u16, &str); 47] = [
    (1, "A"),
    (2, "NS"),
    (5, "CNAME"),
    (6, "SOA"),
    (12, "PTR"),
    (13, "HINFO"),
    (15, "MX"),
    (16, "TXT"),
    (17, "RP"),
    (18, "AFSDB"),
    (24, "SIG"),
    (25, "KEY"),
    (28, "AAAA"),
    (29, "LOC"),
    (33, "SRV"),
    (35, "NAPTR"),
    (36, "KX"),
    (37, "CERT"),
    (39, "DNAME"),
    (41, "OPT"),
    (42, "APL"),
    (43, "DS"),
    (44, "SSHFP"),
    (45, "IPSECKEY"),
    (46, "RRSIG"),
    (47, "NSEC"),
    (48, "DNSKEY"),
    (49, "DHCID"),
    (50, "NSEC3"),
    (51, "NSEC3PARAM"),
    (52, "TLSA"),
    (53, "SMIMEA"),
    (55, "HIP"),
    (59, "CDS"),
    (60, "CDNSKEY"),
    (61, "OPENPGPKEY"),
    (62, "CSYNC"),
    (63, "ZONEMD"),
    (64, "SVCB"),
    (65, "HTTPS"),
    (99, "SPF"),
    (108, "EUI48"),
    (109, "EUI64"),
    (249, "TKEY"),
    (250, "TSIG"),
    (256, "URI"),
    (257, "CAA"),
];

/// A record type that prints by its name, or as `TYPE` and its number (RFC 3597, 5).
#[derive(Clone, Copy, Debug, PartialEq, Eq, Drop)]
pub struct TypeText(pub Rtype);

impl fmt::Display for TypeText {
    fn fmt<W: fmt::Write>(&self, f: &mut fmt::Formatter<W>) -> fmt::Result {
        let number = self.0.to_int();
        match NAMED.iter().find(|named| named.0 == number) {
            Some((_, name)) => f.write_str(name),
            None => write!(f, "TYPE{number}"),
        }
    }
}

/// The type that a text names, in either case, also as `TYPE` and its number (RFC 3597, 5).
pub fn type_of(text: &str) -> Option<Rtype> {
    let known = NAMED
        .iter()
        .find(|named| text.eq_ignore_ascii_case(named.1));
    if let Some((number, _)) = known {
        return Some(Rtype::from_int(*number));
    }
    let (word, digits) = text.split_at_checked(4)?;
    if !word.eq_ignore_ascii_case("TYPE") {
        return None;
    }
    match digits.parse::<u16>() {
        Ok(number) => Some(Rtype::from_int(number)),
        Err(_) => None,
    }
}
