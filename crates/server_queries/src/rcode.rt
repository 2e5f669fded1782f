//! Response codes of replies that need no zone (RFC 1035, 4.1.1; RFC 6891, 9).
ghost use Rattle.std.specs.Prelude.{◌≡◌};
ghost use Rattle.server_queries.specs.Rcodes.{rcode_number};

/// Why a request is refused before its question is looked at.
#[derive(Clone, Copy, Debug, PartialEq, Eq)]
pub enum Rcode {
    /// The message can't be read as one query.
    FormErr,
    /// The operation is not known.
    NotImp,
    /// The version of EDNS is not known.
    BadVers,
}

impl Rcode {
    /// The number. One above 15 has its upper bits in an OPT record (RFC 6891, 6.1.3).
    pub fn to_int(self) -> u16
        ensures { result ≡ rcode_number self }
    {
        match self {
            Rcode::FormErr => 1,
            Rcode::NotImp => 4,
            Rcode::BadVers => 16,
        }
    }
}
