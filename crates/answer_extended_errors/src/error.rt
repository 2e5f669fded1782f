//! Extended errors and their codes.
ghost use Rattle.std.specs.Prelude.{◌≡◌};
ghost use Rattle.answer_extended_errors.specs.Codes.{code_of};

use std::fmt;

/// Why an answer is not vouched for, as the option of RFC 8914 tells a client.
#[derive(Clone, Copy, Debug, PartialEq, Eq)]
pub enum ExtendedError {
    /// None of the others.
    Other,
    /// The zone's DS records name keys of algorithms alone that are not checked. A judge knows no
    /// list of algorithms, so [`extended_error`](crate::extended_error) never says it: it is for
    /// callers who leave out such DS records.
    UnsupportedDnskeyAlgorithm,
    /// The DS records have digests alone of types that are not made.
    UnsupportedDsDigestType,
    /// There is no other reason than that nothing which ought to be verified is.
    DnssecBogus,
    /// No signature holds now, and one has expired.
    SignatureExpired,
    /// No signature holds now, and none has expired.
    SignatureNotYetValid,
    /// No key of the zone is named by a DS record.
    DnskeyMissing,
    /// There is no signature.
    RrsigsMissing,
    /// There is no record that shows that something does not exist.
    NsecMissing,
    /// Records are verified, and a denial record that the proof needs beside them is missing. Its
    /// code is that of [`NsecMissing`](ExtendedError::NsecMissing): RFC 8914 has one for both.
    IncompleteDenial,
    /// NSEC3 records have more iterations than are allowed (RFC 9276, 3.2).
    UnsupportedNsec3Iterations,
}

impl ExtendedError {
    /// The code of it (RFC 8914, 4; RFC 9276, 6).
    pub fn code(self) -> u16
        ensures { result ≡ code_of self }
    {
        match self {
            ExtendedError::Other => 0,
            ExtendedError::UnsupportedDnskeyAlgorithm => 1,
            ExtendedError::UnsupportedDsDigestType => 2,
            ExtendedError::DnssecBogus => 6,
            ExtendedError::SignatureExpired => 7,
            ExtendedError::SignatureNotYetValid => 8,
            ExtendedError::DnskeyMissing => 9,
            ExtendedError::RrsigsMissing => 10,
            ExtendedError::NsecMissing | ExtendedError::IncompleteDenial => 12,
            ExtendedError::UnsupportedNsec3Iterations => 27,
        }
    }
}

/// The purpose of the code, as it is registered.
impl fmt::Display for ExtendedError {
    fn fmt<W: fmt::Write>(&self, f: &mut fmt::Formatter<W>) -> fmt::Result {
        f.write_str(match self {
            ExtendedError::Other => "Other Error",
            ExtendedError::UnsupportedDnskeyAlgorithm => "Unsupported DNSKEY Algorithm",
            ExtendedError::UnsupportedDsDigestType => "Unsupported DS Digest Type",
            ExtendedError::DnssecBogus => "DNSSEC Bogus",
            ExtendedError::SignatureExpired => "Signature Expired",
            ExtendedError::SignatureNotYetValid => "Signature Not Yet Valid",
            ExtendedError::DnskeyMissing => "DNSKEY Missing",
            ExtendedError::RrsigsMissing => "RRSIGs Missing",
            ExtendedError::NsecMissing | ExtendedError::IncompleteDenial => "NSEC Missing",
            ExtendedError::UnsupportedNsec3Iterations => "Unsupported NSEC3 Iterations Value",
        })
    }
}
