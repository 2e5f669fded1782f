//! The forms of data: where names stand in them.
ghost use Rattle.std.specs.Prelude.{◌≡◌};
ghost use Rattle.messages_canonical.specs.Forms.{form_of};

use names_rdata::rtype::Rtype;

/// A part of data.
#[derive(Clone, Copy, Debug, PartialEq, Eq)]
pub enum Part {
    /// This number of octets.
    Octets(u8),
    /// A character-string: octets behind their number (RFC 1035, 3.3).
    Text,
    /// The length of an address's prefix, at most 128, and as many octets as the bits behind it
    /// take (RFC 2874, 3.1).
    Suffix,
    /// A name over which signatures are made in lower case.
    Lowered,
    /// A name over which signatures are made as it is spelled.
    Kept,
    /// The octets that are left.
    Rest,
}

/// The form of a type's data, which may depend on their first octet: one part after another
/// (RFC 4034, 6.2; RFC 6840, 5.1).
pub fn form_of(rtype: Rtype, first: u8) -> &'static [Part]
    ensures { result.now ≡ form_of rtype first }
{
    match rtype.to_int() {
        // NS, MD, MF, CNAME, MB, MG, MR, PTR (RFC 1035, 3.3), DNAME (RFC 6672, 2.1)
        2 | 3 | 4 | 5 | 7 | 8 | 9 | 12 | 39 => &[Part::Lowered],
        // SOA (RFC 1035, 3.3.13)
        6 => &[Part::Lowered, Part::Lowered, Part::Octets(20)],
        // MINFO (RFC 1035, 3.3.7), RP (RFC 1183, 2.2)
        14 | 17 => &[Part::Lowered, Part::Lowered],
        // MX (RFC 1035, 3.3.9), AFSDB and RT (RFC 1183, 1 and 3.3), KX (RFC 2230, 3.1)
        15 | 18 | 21 | 36 => &[Part::Octets(2), Part::Lowered],
        // SIG (RFC 2535, 4.1)
        24 => &[Part::Octets(18), Part::Lowered, Part::Rest],
        // PX (RFC 2163, 4)
        26 => &[Part::Octets(2), Part::Lowered, Part::Lowered],
        // NXT (RFC 2535, 5.2)
        30 => &[Part::Lowered, Part::Rest],
        // SRV (RFC 2782)
        33 => &[Part::Octets(6), Part::Lowered],
        // NAPTR (RFC 3403, 4.1)
        35 => &[
            Part::Octets(4),
            Part::Text,
            Part::Text,
            Part::Text,
            Part::Lowered,
        ],
        // A6 (RFC 2874, 3.1): no name behind a whole address
        38 if first == 0 => &[Part::Suffix],
        38 => &[Part::Suffix, Part::Lowered],
        // RRSIG (RFC 4034, 3.1)
        46 => &[Part::Octets(18), Part::Kept, Part::Rest],
        // NSEC (RFC 4034, 4.1)
        47 => &[Part::Kept, Part::Rest],
        _ => &[Part::Rest],
    }
}
