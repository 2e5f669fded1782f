//! What is wrong with the data of a record.

use std::alloc::AllocError;
use thiserror::Error;

/// What is wrong with the data of a record, and right ones.
#[derive(Clone, Copy, Debug, PartialEq, Eq, Drop, Error)]
pub enum DataFault {
    #[error("no text form of the type is read, only octets: `\\# 1 00`")]
    Type,
    #[error("something is missing at the end")]
    Missing,
    #[error("something stands behind the last")]
    Extra,
    #[error("not a name: labels with dots between, at most 63 octets each and 255 in all: `www.example.`")]
    Name,
    #[error("a relative name or @ without an origin: `$ORIGIN example.`")]
    NoOrigin,
    #[error("not a number from 0 to 255")]
    Number8,
    #[error("not a number from 0 to 65535")]
    Number16,
    #[error("not a number from 0 to 4294967295")]
    Number32,
    #[error("not seconds below 2147483648: `3600`, `1h`")]
    Seconds,
    #[error("not an algorithm: `13`, `ECDSAP256SHA256`")]
    Algorithm,
    #[error("not a kind of certificate: `1`, `PKIX`")]
    Certificate,
    #[error("not an IPv4 address: `192.0.2.1`")]
    Ipv4,
    #[error("not an IPv6 address: `2001:db8::1`")]
    Ipv6,
    #[error("not pairs of hexadecimal digits with hyphens between: `00-00-5e-00-53-2a`")]
    Eui,
    #[error("not a text of at most 255 octets: `\"v=spf1 -all\"`")]
    Text,
    #[error("not a tag of letters and digits: `issue`")]
    Tag,
    #[error("not a text of one octet or more: `\"https://www.example/\"`")]
    Value,
    #[error("not a salt of at most 255 octets in hexadecimal: `-`, `aabb`")]
    Salt,
    #[error("not pairs of hexadecimal digits: `c0000201`")]
    Hexadecimal,
    #[error("not base64: `AQID`")]
    Base64,
    #[error("not names of types: `A NS TYPE65280`")]
    Types,
    #[error("not prefixes of addresses: `1:192.0.2.0/24 !2:2001:db8::/32`")]
    Prefix,
    #[error("not a location: `52 22 23.000 N 4 53 32.000 E -2.00m 0.00m 10000m 10m`")]
    Location,
    #[error("not a parameter of a service: `alpn=h2,h3`, `port=8443`, `key667=hello`")]
    Parameter,
    #[error("a parameter of a service stands twice")]
    TwoParameters,
    #[error("a parameter that mandatory names is missing, or alpn beside no-default-alpn")]
    NoParameter,
    #[error("not octets: their number and as many pairs of hexadecimal digits: `\\# 4 c0000201`")]
    Octets,
    #[error("a digest has another length than its type's")]
    Digest,
    #[error("longer than the 65535 octets of data")]
    Long,
    #[error("out of memory")]
    Memory,
}

impl From<AllocError> for DataFault {
    ghost use Rattle.std.specs.Prelude.{◌≡◌};
    ghost use Rattle.master_file_data.specs.declared.fault.DataFault.TheVariants as fault;

    ghost from_gives = { λ _ f. f ≡ fault.Memory };

    fn from(_error: AllocError) -> DataFault {
        DataFault::Memory
    }
}
